//! The statements of an rcfile, built from its spans.
ghost use Rattle.std.specs.Prelude.{◌≡◌, ◌<◌, IfOk, [], None, length, IsSome};
ghost use Rattle.pm_recipe.specs.Tree as Act;
ghost use Rattle.pm_recipe.specs.Tree.{nil};
ghost use Rattle.pm_recipe.specs.View.{tree_of, act_of};
ghost use Rattle.pm_recipe.specs.Weights.{condition_of};
ghost use Rattle.pm_recipe.specs.Colon.{has_junk};
ghost use Rattle.pm_recipe.specs.Item.Item.{Begins, Judges, Does, Opens, Fails, Closes, States};
ghost use Rattle.pm_recipe.specs.Ends.{missing};
ghost use Rattle.pm_recipe.specs.Reads.{head_of};
ghost use Rattle.pm_recipe.specs.Build.{put, top_of, with_junk};
ghost use Rattle.pm_recipe.specs.Builder.{built_of, whole};
ghost use Rattle.pm_recipe.specs.Steps.{Puts, GivesUp, Opened, Closed, Builds};

use crate::colon_line::{is_junked, read_flags, read_lock};
use crate::conditions::read_condition;
use crate::tree::{Action, Condition, Flags, Recipe, Statement, Statements};
use pm_bytes::{Blob, Memory};
use std::alloc::Global;
use std::collections::VecDeque;
use std::mem;

/// A colon line.
#[derive(Drop)]
pub struct Head {
    pub line: u64,
    pub text: Blob,
    pub flags: Flags,
    pub lock: Option<Blob>,
}

/// A block that is open, after what stands before it.
#[derive(Drop)]
pub struct Level {
    pub done: Statements,
    pub head: Head,
    pub conditions: Vec<Condition>,
}

/// A recipe whose action is still to come.
#[derive(Drop)]
pub struct Begun {
    pub head: Head,
    pub conditions: Vec<Condition>,
}

/// What is built of the tree so far.
#[derive(Drop)]
pub struct Builder {
    pub levels: VecDeque<Level>,
    pub done: Statements,
    pub begun: Option<Begun>,
    pub alloc: Global,
}

fn missing_text(alloc: Global) -> Result<Blob, Memory>
    ensures { IfOk result (λ text. text ≡ missing) }
{
    Blob::from_slice(alloc, b"missing }")
}

fn read_head(alloc: Global, line: u64, text: &[u8]) -> Result<Head, Memory>
    ensures { IfOk result (λ head. head ≡ head_of line text.now) }
{
    let flags = read_flags(text);
    let lock = read_lock(alloc, text)?;
    let text = Blob::from_slice(alloc, text)?;
    Ok(Head {
        line,
        text,
        flags,
        lock,
    })
}

impl Builder {
    pub fn new(alloc: Global) -> Builder
        ensures levels { result.levels.items ≡ [] }
        ensures begun { result.begun ≡ None }
        ensures done { result.done ≡ nil }
    {
        Builder {
            levels: VecDeque::new(alloc),
            done: Statements::new(alloc),
            begun: None,
            alloc,
        }
    }

    /// Puts a statement after what is done.
    fn put(&mut self, statement: Statement) -> Result<(), Memory>
        ensures { IfOk result (λ _. Puts self.old self.new (put (tree_of statement))) }
    {
        self.done.push(statement)?;
        Ok(())
    }

    /// A recipe whose action is wanting, as a defect.
    fn put_failed(&mut self, begun: Begun) -> Result<(), Memory>
        ensures { IfOk result (λ _. Puts self.old self.new (put (Act.Defect begun.head.line begun.head.text))) }
    {
        let Begun { head, .. } = begun;
        let Head { line, text, .. } = head;
        self.put(Statement::Defect { line, text })
    }

    /// A recipe with this action.
    fn put_recipe(&mut self, begun: Begun, action: Action) -> Result<(), Memory>
        ensures { IfOk result (λ _. Puts self.old self.new
            (put (Act.Recipe (top_of begun.head begun.conditions.items) (act_of action)))) }
    {
        let Begun { head, conditions } = begun;
        let Head { flags, lock, .. } = head;
        self.put(Statement::Recipe(Recipe {
            flags,
            lock,
            conditions,
            action,
        }))
    }

    /// A defect after what is done.
    fn put_defect(&mut self, line: u64, text: &[u8]) -> Result<(), Memory>
        ensures { IfOk result (λ _. Puts self.old self.new (put (Act.Defect line text.now))) }
    {
        let text = Blob::from_slice(self.alloc, text)?;
        self.put(Statement::Defect { line, text })
    }

    /// Tells of a colon line that isn't understood whole.
    fn tell_junk(&mut self, line: u64, text: &[u8]) -> Result<(), Memory>
        ensures { IfOk result (λ _. Puts self.old self.new (with_junk (head_of line text.now) (has_junk text.now))) }
    {
        if is_junked(text) {
            return self.put_defect(line, text);
        }
        Ok(())
    }

    /// A recipe without an action is a defect.
    fn give_up(&mut self) -> Result<(), Memory>
        ensures { IfOk result (λ _. GivesUp self.old self.new) }
    {
        match self.begun.take() {
            None => Ok(()),
            Some(begun) => self.put_failed(begun),
        }
    }

    /// A statement that isn't a recipe.
    pub fn state(&mut self, statement: Statement) -> Result<(), Memory>
        ensures { IfOk result (λ _. Builds self.old self.new (States (tree_of statement))) }
    {
        self.give_up()?;
        self.put(statement)?;
        Ok(())
    }

    /// Tells that braces are missing.
    pub fn miss(&mut self, line: u64) -> Result<(), Memory>
        ensures { IfOk result (λ _. Builds self.old self.new (States (Act.Defect line missing))) }
    {
        let text = missing_text(self.alloc)?;
        self.state(Statement::Defect { line, text })
    }

    /// A recipe begins.
    pub fn begin(&mut self, line: u64, text: &[u8]) -> Result<(), Memory>
        ensures { IfOk result (λ _. Builds self.old self.new (Begins (head_of line text.now) (has_junk text.now))) }
    {
        self.give_up()?;
        self.tell_junk(line, text)?;
        let head = read_head(self.alloc, line, text)?;
        self.begun = Some(Begun {
            head,
            conditions: Vec::new(self.alloc),
        });
        Ok(())
    }

    /// A condition of the recipe that has begun.
    pub fn condition(&mut self, text: &[u8]) -> Result<(), Memory>
        ensures { IfOk result (λ _. Builds self.old self.new (Judges (condition_of text.now))) }
    {
        if let Some(begun) = &mut self.begun {
            let condition = read_condition(self.alloc, text)?;
            begun.conditions.push(condition)?;
        }
        Ok(())
    }

    /// The action of the recipe that has begun.
    pub fn act(&mut self, action: Action) -> Result<(), Memory>
        ensures { IfOk result (λ _. Builds self.old self.new (Does (act_of action))) }
    {
        match self.begun.take() {
            None => Ok(()),
            Some(begun) => self.put_recipe(begun, action),
        }
    }

    /// A defect in place of the recipe that has begun.
    pub fn fail(&mut self, line: u64, text: &[u8]) -> Result<(), Memory>
        ensures { IfOk result (λ _. Builds self.old self.new (Fails line text.now)) }
    {
        match self.begun.take() {
            None => Ok(()),
            Some(_) => self.put_defect(line, text),
        }
    }

    /// The recipe opens a block.
    fn open_of(&mut self, begun: Begun) -> Result<(), Memory>
        ensures { IfOk result (λ _. Opened self.old self.new begun) }
    {
        let done = mem::replace(&mut self.done, Statements::new(self.alloc));
        let Begun { head, conditions } = begun;
        self.levels.push_front(Level {
            done,
            head,
            conditions,
        })?;
        Ok(())
    }

    /// The recipe that has begun opens a block.
    pub fn open(&mut self) -> Result<(), Memory>
        requires { IsSome self.old.begun }
        ensures { IfOk result (λ _. Builds self.old self.new Opens) }
    {
        match self.begun.take() {
            None => unreachable!(),
            Some(begun) => self.open_of(begun),
        }
    }

    /// The end of a block, which is no level any more.
    fn close_level(&mut self, level: Level) -> Result<(), Memory>
        ensures { IfOk result (λ _. Closed self.old self.new level) }
    {
        let Level {
            done,
            head,
            conditions,
        } = level;
        let block = mem::replace(&mut self.done, done);
        self.put_recipe(Begun { head, conditions }, Action::Block(block))?;
        Ok(())
    }

    /// The innermost block ends.
    pub fn close(&mut self) -> Result<(), Memory>
        requires { 0 < length self.old.levels.items }
        ensures { IfOk result (λ _. Builds self.old self.new Closes) }
    {
        self.give_up()?;
        match self.levels.pop_front() {
            None => unreachable!(),
            Some(level) => self.close_level(level),
        }
    }

    /// The statements where no block is open and nothing follows.
    pub fn end(self) -> Result<Statements, Memory>
        requires { length self.levels.items ≡ 0 }
        ensures { IfOk result (λ statements. statements ≡ whole (built_of self) []) }
    {
        let mut builder = self;
        builder.give_up()?;
        let Builder { done, .. } = builder;
        Ok(done)
    }
}

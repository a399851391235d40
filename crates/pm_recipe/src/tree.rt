//! The statements of an rcfile, and copies of them.
ghost use Rattle.std.specs.Prelude.{◌≡◌, IfOk, OnErr, [], ◌++◌, ◌∷◌};
ghost use Rattle.pm_recipe.specs.Tree.{Trees, nil, cons, ◌⧺◌};
ghost use Rattle.pm_recipe.specs.View.{tree_of, act_of, top_of, trees_of};

use pm_bytes::{Blob, Memory};
use std::alloc::Global;
use std::marker::Model;

/// The flags of a recipe, one for each letter of its colon line (procmailrc(5), "Recipe format").
#[derive(Clone, Copy)]
pub struct Flags {
    /// `H`: conditions search the head.
    pub search_head: bool,
    /// `B`: conditions search the body.
    pub search_body: bool,
    /// `D`: conditions tell capitals from small letters.
    pub distinguish: bool,
    /// `h`: the action gets the head.
    pub feed_head: bool,
    /// `b`: the action gets the body.
    pub feed_body: bool,
    /// `f`: the program is a filter, whose output becomes the mail.
    pub filter: bool,
    /// `c`: the mail goes on after the action.
    pub copy: bool,
    /// `w`: the run waits for the program and heeds its exit status.
    pub wait: bool,
    /// `W`: wait for the program and look at its code, as `w` does, and don't log its failure.
    pub wait_quiet: bool,
    /// `i`: an error in writing is ignored.
    pub ignore: bool,
    /// `r`: the mail is written as it is, with no empty line at its end.
    pub raw: bool,
    /// `A`: only where the conditions of the last recipe without `A` or `a` held.
    pub and_chain: bool,
    /// `a`: only if the last recipe without `A` and `a` matched, and the recipe before it succeeded.
    pub and_ok: bool,
    /// `E`: only where the conditions of the recipe before it didn't hold.
    pub or_else: bool,
    /// `e`: only where the recipe before it failed.
    pub on_error: bool,
}

/// The weight `w^x` of a condition. A weight that is written with numbers out of its range is `Bad`
/// (procmailsc(5)).
#[derive(Clone, Copy)]
pub enum Weight {
    None,
    Some { w: i32, x: i32 },
    Bad,
}

/// A condition: its weight, and what follows it.
#[derive(Drop)]
pub struct Condition {
    pub weight: Weight,
    pub text: Blob,
}

/// The statements of an rcfile.
#[derive(Drop)]
pub struct Rc {
    pub statements: Statements,
}

/// A list of statements.
#[cycle(tree)]
#[derive(Drop)]
pub struct Statements {
    items: Vec<Statement>,
}

/// A statement. The line of a defect is the number of its first line, from 1, and its text is that line as written.
#[cycle(tree)]
#[derive(Drop)]
pub enum Statement {
    Assign { name: Blob, value: Blob },
    Unset { name: Blob },
    Recipe(Recipe),
    Defect { line: u64, text: Blob },
}

/// A recipe. A lock without a text is the automatic one.
#[cycle(tree)]
#[derive(Drop)]
pub struct Recipe {
    pub flags: Flags,
    pub lock: Option<Blob>,
    pub conditions: Vec<Condition>,
    pub action: Action,
}

/// What a recipe does where its conditions hold. `WriteOut` writes the mail to standard output.
#[cycle(tree)]
#[derive(Drop)]
pub enum Action {
    Mailbox(Blob),
    Pipe(Blob),
    Capture { name: Blob, line: Blob },
    Forward(Blob),
    WriteOut,
    Block(Statements),
}

impl Model for Statements {
    ghost use Rattle.pm_recipe.specs.Tree.{Trees, trees_size};

    ghost Value = { Trees };

    ghost use Rattle.std.specs.Prelude.{List};
    ghost use Rattle.std.specs.Coded.{codes, code_by};
    ghost use Rattle.pm_recipe.specs.Code.{Node, nodes_of, trees_from, trees_from-nodes};

    ghost coded = { code_by (List Node) (Prim.hlevel codes) nodes_of trees_from trees_from-nodes };

    ghost use Rattle.pm_recipe.specs.View.{trees_of};

    ghost view = { λ s. trees_of s.items.items };

    ghost size = { trees_size };

    ghost use Rattle.pm_recipe.specs.Falls.{most_le-trees};
    ghost use Rattle.std.proofs.Common.{arith};

    ghost size_decreases = { λ a h. Prim.omega (arith, most_le-trees a.items.items) };
}

impl Statements {
    /// No statements. It takes no memory.
    pub fn new(alloc: Global) -> Statements
        ensures { result ≡ nil }
    {
        Statements {
            items: Vec::new(alloc),
        }
    }

    /// The statements of a `Vec`. It allocates nothing.
    pub fn from_vec(items: Vec<Statement>) -> Statements
        ensures { result ≡ trees_of items.items }
    {
        Statements { items }
    }

    /// The statements as a `Vec`. It allocates nothing.
    pub fn into_vec(self) -> Vec<Statement>
        ensures { trees_of result.items ≡ self }
    {
        let Statements { items } = self;
        items
    }

    /// Puts a statement last.
    pub fn push(&mut self, statement: Statement) -> Result<(), Memory>
        ensures ok { IfOk result (λ _. self.new ≡ self.old ⧺ cons (tree_of statement) nil) }
        ensures err { OnErr result (self.new ≡ self.old) }
    {
        self.items.push(statement)?;
        Ok(())
    }

    /// The statements as a slice.
    pub fn as_slice(&self) -> &[Statement]
        ensures { trees_of result.now ≡ self.now }
    {
        self.items.as_slice()
    }

    /// An equal list.
    #[cycle(copy)]
    pub fn copy(&self, alloc: Global) -> Result<Statements, Memory>
        ensures { IfOk result (λ copy. copy ≡ self.now) }
    {
        let mut copies = Statements::new(alloc);
        for statement in &self.items {
            copies.push(copy_statement(alloc, statement)?)?;
        }
        Ok(copies)
    }
}

impl Recipe {
    /// The flags, the lock and the conditions of the recipe with another action.
    pub fn copy_head(&self, alloc: Global, action: Action) -> Result<Recipe, Memory>
        ensures top { IfOk result (λ copy. top_of copy ≡ top_of self.now) }
        ensures action { IfOk result (λ copy. copy.action ≡ action) }
    {
        Ok(Recipe {
            flags: self.flags,
            lock: copy_lock(alloc, &self.lock)?,
            conditions: copy_conditions(alloc, &self.conditions)?,
            action,
        })
    }

    /// An equal recipe.
    #[cycle(copy)]
    pub fn copy(&self, alloc: Global) -> Result<Recipe, Memory>
        ensures top { IfOk result (λ copy. top_of copy ≡ top_of self.now) }
        ensures action { IfOk result (λ copy. act_of copy.action ≡ act_of self.now.action) }
    {
        let action = copy_action(alloc, &self.action)?;
        self.copy_head(alloc, action)
    }
}

#[cycle(copy)]
fn copy_statement(alloc: Global, statement: &Statement) -> Result<Statement, Memory>
    ensures { IfOk result (λ copy. tree_of copy ≡ tree_of statement.now) }
{
    match statement {
        Statement::Assign { name, value } => Ok(Statement::Assign {
            name: name.copy(alloc)?,
            value: value.copy(alloc)?,
        }),
        Statement::Unset { name } => Ok(Statement::Unset {
            name: name.copy(alloc)?,
        }),
        Statement::Recipe(recipe) => Ok(Statement::Recipe(recipe.copy(alloc)?)),
        Statement::Defect { line, text } => Ok(Statement::Defect {
            line: *line,
            text: text.copy(alloc)?,
        }),
    }
}

#[cycle(copy)]
fn copy_action(alloc: Global, action: &Action) -> Result<Action, Memory>
    ensures { IfOk result (λ copy. act_of copy ≡ act_of action.now) }
{
    match action {
        Action::Mailbox(text) => Ok(Action::Mailbox(text.copy(alloc)?)),
        Action::Pipe(line) => Ok(Action::Pipe(line.copy(alloc)?)),
        Action::Capture { name, line } => Ok(Action::Capture {
            name: name.copy(alloc)?,
            line: line.copy(alloc)?,
        }),
        Action::Forward(text) => Ok(Action::Forward(text.copy(alloc)?)),
        Action::WriteOut => Ok(Action::WriteOut),
        Action::Block(statements) => Ok(Action::Block(statements.copy(alloc)?)),
    }
}

fn copy_lock(alloc: Global, lock: &Option<Blob>) -> Result<Option<Blob>, Memory>
    ensures { IfOk result (λ copy. copy ≡ lock.now) }
{
    match lock {
        None => Ok(None),
        Some(text) => Ok(Some(text.copy(alloc)?)),
    }
}

fn copy_conditions(alloc: Global, conditions: &[Condition]) -> Result<Vec<Condition>, Memory>
    ensures { IfOk result (λ copy. copy.items ≡ conditions.now) }
{
    let mut copies = Vec::new(alloc);
    for condition in conditions {
        copies.push(Condition {
            weight: condition.weight,
            text: condition.text.copy(alloc)?,
        })?;
    }
    Ok(copies)
}

/// Equal statements, each in its place.
pub fn copy_statements(alloc: Global, statements: &[Statement]) -> Result<Vec<Statement>, Memory>
    ensures { IfOk result (λ copy. trees_of copy.items ≡ trees_of statements.now) }
{
    let mut copies = Vec::new(alloc);
    for statement in statements {
        copies.push(copy_statement(alloc, statement)?)?;
    }
    Ok(copies)
}

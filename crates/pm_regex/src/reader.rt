//! The reader: it takes an expression's text token by token, and writes its operators.
ghost use Rattle.std.specs.Prelude.{◌≡◌, ◌<◌, OnOk, IfOk, length};
ghost use Rattle.pm_regex.specs.Reader.{ReaderIs, Takes, Refuses, TakesFirst, RefusesFirst};

use crate::error::ReadRefused;
use crate::expr::Expr;
use crate::group::Group;
use crate::op::{Atom, Op, Times};
use crate::sign::{Sign, begins_with, sign_at};
use crate::{group, set};
use pm_bytes::Memory;
use std::alloc::Global;
use std::mem;

/// The greatest number of parentheses that are open at one place.
const MAX_DEPTH: usize = 200;

/// How many operators have room from the start: those of most expressions.
const ROOM: usize = 64;

/// What was read so far: the operators left of the cut and those after it, and the open groups.
#[derive(Drop)]
pub struct Reader {
    left: Option<Vec<Op>>,
    ops: Vec<Op>,
    group: Group,
    around: Vec<Group>,
}

impl Reader {
    ghost use Rattle.std.specs.Prelude.{true, Some, None};
    ghost use Rattle.pm_regex.specs.Tokens as token;
    ghost use Rattle.pm_regex.specs.Machine.{State, opening, finished};

    /// Nothing is read.
    pub fn new(alloc: Global) -> Result<Reader, Memory>
        ensures { IfOk result (λ r. ReaderIs r opening) }
    {
        let mut ops = Vec::with_capacity(alloc, ROOM)?;
        ops.push(Op::Nothing)?;
        Ok(Reader {
            left: None,
            ops,
            group: group::fresh_group(false),
            around: Vec::new(alloc),
        })
    }

    fn atom(&mut self, atom: Atom) -> Result<(), Memory>
        ensures { OnOk result (Takes (token.sign (Sign.One atom)) self.old self.new) }
    {
        self.group = group::piece(&mut self.ops, self.group, atom)?;
        Ok(())
    }

    fn edge(&mut self) -> Result<(), Memory>
        ensures { OnOk result (Takes (token.sign Sign.Edge) self.old self.new) }
    {
        let atom = group::edge(self.group);
        self.group = group::piece(&mut self.ops, self.group, atom)?;
        Ok(())
    }

    fn repeat(&mut self, times: Times) -> Result<(), Memory>
        ensures { OnOk result (Takes (token.sign (Sign.Repeat times)) self.old self.new) }
    {
        self.group = group::repeat(&mut self.ops, self.group, times)?;
        Ok(())
    }

    fn bar(&mut self) -> Result<(), Memory>
        ensures { OnOk result (Takes (token.sign Sign.Bar) self.old self.new) }
    {
        self.group = group::bar(&mut self.ops, self.group)?;
        Ok(())
    }

    fn open(&mut self) -> Result<(), ReadRefused>
        ensures ok { OnOk result (Takes (token.sign Sign.Open) self.old self.new) }
        ensures defect { result ≡ Err ReadRefused.Defect → Refuses (token.sign Sign.Open) self.old }
    {
        if self.around.len() >= MAX_DEPTH {
            return Err(ReadRefused::Defect);
        }
        let inner = group::open(&mut self.ops, self.group)?;
        self.around.push(self.group)?;
        self.group = inner;
        Ok(())
    }

    fn close(&mut self) -> Result<(), ReadRefused>
        ensures ok { OnOk result (Takes (token.sign Sign.Close) self.old self.new) }
        ensures defect { result ≡ Err ReadRefused.Defect → Refuses (token.sign Sign.Close) self.old }
    {
        let Some(around) = self.around.pop() else {
            return Err(ReadRefused::Defect);
        };
        self.group = group::close(&mut self.ops, self.group, around)?;
        Ok(())
    }

    fn cut(&mut self, alloc: Global) -> Result<(), ReadRefused>
        ensures ok { OnOk result (Takes (token.sign Sign.Cut) self.old self.new) }
        ensures defect { result ≡ Err ReadRefused.Defect → Refuses (token.sign Sign.Cut) self.old }
    {
        if self.left.is_some() {
            return Err(ReadRefused::Defect);
        }
        if !self.around.is_empty() {
            return Err(ReadRefused::Defect);
        }
        group::end_branch(&mut self.ops, self.group)?;
        let mut right = Vec::new(alloc);
        right.push(Op::Nothing)?;
        let left = mem::replace(&mut self.ops, right);
        self.left = Some(left);
        self.group = group::fresh_group(true);
        Ok(())
    }

    fn put(&mut self, alloc: Global, sign: Sign) -> Result<(), ReadRefused>
        ensures ok { OnOk result (Takes (token.sign sign) self.old self.new) }
        ensures defect { result ≡ Err ReadRefused.Defect → Refuses (token.sign sign) self.old }
    {
        match sign {
            Sign::Open => self.open(),
            Sign::Close => self.close(),
            Sign::Cut => self.cut(alloc),
            Sign::Bar => Ok(self.bar()?),
            Sign::Edge => Ok(self.edge()?),
            Sign::Repeat(times) => Ok(self.repeat(times)?),
            Sign::One(atom) => Ok(self.atom(atom)?),
        }
    }

    fn set(&mut self, text: &[u8]) -> Result<usize, ReadRefused>
        requires { token.begins_with 91 text.now ≡ true }
        ensures ok { IfOk result (TakesFirst text.now self.old self.new) }
        ensures defect { result ≡ Err ReadRefused.Defect → RefusesFirst text.now self.old }
    {
        group::join_last(&mut self.ops, self.group)?;
        let length = set::set(&mut self.ops, text)?;
        self.group.has_last = true;
        Ok(length)
    }

    /// Takes the token at the front of a text, and answers how many bytes it has.
    pub fn take(&mut self, alloc: Global, text: &[u8]) -> Result<usize, ReadRefused>
        ensures ok { IfOk result (TakesFirst text.now self.old self.new) }
        ensures defect { result ≡ Err ReadRefused.Defect → RefusesFirst text.now self.old }
    {
        if begins_with(b'[', text) {
            return self.set(text);
        }
        let Some(spelling) = sign_at(text) else {
            return Err(ReadRefused::Defect);
        };
        self.put(alloc, spelling.sign)?;
        Ok(spelling.length)
    }

    /// The expression, where no group is open.
    pub fn finish(self) -> Result<Expr, ReadRefused>
        requires { (st : State) × ReaderIs self st }
        ensures ok { IfOk result (λ e. (st : State) → ReaderIs self st → finished st st.outer ≡ Some e) }
        ensures defect { result ≡ Err ReadRefused.Defect → (st : State) → ReaderIs self st
            → finished st st.outer ≡ None }
    {
        if !self.around.is_empty() {
            return Err(ReadRefused::Defect);
        }
        let mut ops = self.ops;
        group::end_branch(&mut ops, self.group)?;
        Ok(Expr::new(self.left, ops))
    }
}

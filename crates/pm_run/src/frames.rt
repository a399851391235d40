//! An rcfile in progress, and those that wait for its end.
use pm_bytes::Name;
use pm_code::Code;
use pm_meaning::Chain;
use std::collections::VecDeque;

/// A block that was entered: the place of the step that enters it, the chain of its recipe, and its lock.
#[derive(Drop)]
pub struct Open {
    pub enter: usize,
    pub saved: Chain,
    pub lock: Option<Name>,
}

/// An rcfile in progress: its code, the place of the next step, the open blocks, the innermost first, and the name of
/// the rcfile that comes back at its end. Only the outermost one has none.
#[derive(Drop)]
pub struct RcFrame {
    pub code: Code,
    pub place: usize,
    pub blocks: Vec<Open>,
    pub back: Option<Name>,
}

/// An rcfile that goes on after the one that it included: its name, and the rest as of one in progress.
#[derive(Drop)]
pub struct Waiting {
    pub name: Name,
    pub code: Code,
    pub place: usize,
    pub blocks: VecDeque<Open>,
}

/// The rcfiles of a process that runs: of the one in progress its code, the place of the next step and the open blocks,
/// the innermost first, and those that wait, the one that included it first.
#[derive(Drop)]
pub struct Frames {
    pub code: Code,
    pub place: usize,
    pub blocks: VecDeque<Open>,
    pub outer: VecDeque<Waiting>,
}

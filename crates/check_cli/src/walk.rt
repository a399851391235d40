//! The order in which rcfiles are executed: the steps that are still to come of each open rcfile, and the open blocks.
use crate::steps::Step;
use pm_bytes::Memory;
use std::alloc::Global;
use std::vec::IntoIter;

/// An rcfile in progress: its number, and how many blocks were open when it began.
#[derive(Drop)]
struct Frame {
    file: usize,
    depth: usize,
    steps: IntoIter<Step>,
}

/// A block in progress: whether it is executed with every mail, and the variables that were assigned in it.
#[derive(Drop)]
pub struct Block {
    pub always: bool,
    pub names: Vec<Vec<u8>>,
}

/// What comes next.
#[derive(Drop)]
pub enum Next {
    /// A step of the rcfile with this number.
    Step(usize, Step),
    /// An rcfile ends, and so many blocks were open when it began.
    End(usize),
    Done,
}

/// All open rcfiles and blocks.
#[derive(Drop)]
pub struct Walk {
    alloc: Global,
    frames: Vec<Frame>,
    blocks: Vec<Block>,
}

impl Walk {
    /// None is open.
    pub fn new(alloc: Global) -> Walk {
        Walk {
            alloc,
            frames: Vec::new(alloc),
            blocks: Vec::new(alloc),
        }
    }

    /// Opens the rcfile with this number.
    pub fn open(&mut self, file: usize, steps: Vec<Step>) -> Result<(), Memory> {
        self.frames.push(Frame {
            file,
            depth: self.blocks.len(),
            steps: steps.into_iter(),
        })?;
        Ok(())
    }

    /// Whether the rcfile with this number is open.
    pub fn is_open(&self, file: usize) -> bool {
        self.frames.iter().any(|frame| frame.file == file)
    }

    /// The next step of the rcfile that was opened last.
    pub fn next(&mut self) -> Next {
        let Some(frame) = self.frames.last_mut() else {
            return Next::Done;
        };
        if let Some(step) = frame.steps.next() {
            return Next::Step(frame.file, step);
        }
        let depth = frame.depth;
        let _ = self.frames.pop();
        Next::End(depth)
    }

    /// How many blocks are open.
    pub fn depth(&self) -> usize {
        self.blocks.len()
    }

    /// A block begins.
    pub fn begin_block(&mut self, always: bool) -> Result<(), Memory> {
        self.blocks.push(Block {
            always,
            names: Vec::new(self.alloc),
        })?;
        Ok(())
    }

    /// The block that began last ends.
    pub fn end_block(&mut self) -> Option<Block> {
        self.blocks.pop()
    }

    /// A variable is assigned in the innermost block.
    pub fn note(&mut self, name: Vec<u8>) -> Result<(), Memory> {
        if let Some(block) = self.blocks.last_mut() {
            block.names.push(name)?;
        }
        Ok(())
    }
}

//! What a condition asks for, and what comes of it.
use pm_bytes::Blob;
use pm_message::Place;

/// Where a condition looks: where the recipe's flags say, in a part of the mail that it names, or in a variable.
#[derive(Drop)]
pub enum Scope {
    Flags,
    Mail(Place),
    Variable(Blob),
}

/// The weight `w^x` of a condition (procmailsc(5)).
#[derive(Clone, Copy)]
pub struct Factors {
    pub w: i32,
    pub x: u32,
}

/// What stands before a condition's test: its weight, if it has one, whether it is inverted, and where it looks.
#[derive(Drop)]
pub struct Question {
    pub weight: Option<Factors>,
    pub inverted: bool,
    pub scope: Scope,
}

/// What comes of one condition: without a weight it holds or not, with one so many matches count, a length by a number,
/// or a program's code. A match of an expression with `\/` has the bytes that MATCH gets.
#[derive(Drop)]
pub enum Outcome {
    Holds,
    Matched(Blob),
    Fails,
    Counted {
        weight: Factors,
        matches: u64,
        bytes: Option<Blob>,
    },
    Compared {
        weight: Factors,
        above: bool,
        length: u64,
        number: u64,
    },
    Exited {
        weight: Factors,
        inverted: bool,
        code: u8,
    },
    Defective,
    TooLong(u64),
}

/// What comes of a recipe's conditions in order: they match the recipe or don't, one is no condition by its text or its
/// weight, or the value of one has so many bytes, which are too many.
#[derive(Drop)]
pub enum Judgement {
    Matched,
    Unmatched,
    Defective(Blob),
    TooLong(u64),
}

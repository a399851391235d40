//! Words in which a `#` is a byte, and a comment where a word can begin: among flags, and in a text to a line's end.
use crate::places::Place;
use pm_bytes::{COLON, HASH, NEWLINE, is_blank};

/// Among flags, up to a colon or a comment.
#[derive(Clone, Copy)]
pub enum InFlags {
    /// A word can begin.
    Fresh,
    Word,
}

impl Place for InFlags {
    ghost use Rattle.pm_recipe.specs.LineWords.{flag_places};

    ghost places = { flag_places };

    fn joins(self) -> bool {
        true
    }

    fn ends(self, byte: u8) -> bool {
        match self {
            InFlags::Fresh => byte == NEWLINE || byte == COLON || byte == HASH,
            InFlags::Word => byte == NEWLINE || byte == COLON,
        }
    }

    fn after(self, byte: u8) -> InFlags {
        if is_blank(byte) {
            InFlags::Fresh
        } else {
            InFlags::Word
        }
    }
}

/// In a text up to a newline that isn't joined, and a comment at its end.
#[derive(Clone, Copy)]
pub enum InTail {
    /// A word can begin.
    Fresh,
    Word,
    /// Up to the newline, which isn't joined to the next line.
    Comment,
}

impl Place for InTail {
    ghost use Rattle.pm_recipe.specs.LineWords.{tail_places};

    ghost places = { tail_places };

    fn joins(self) -> bool {
        match self {
            InTail::Fresh | InTail::Word => true,
            InTail::Comment => false,
        }
    }

    fn ends(self, byte: u8) -> bool {
        byte == NEWLINE
    }

    fn after(self, byte: u8) -> InTail {
        match self {
            InTail::Comment => InTail::Comment,
            InTail::Fresh if byte == HASH => InTail::Comment,
            _ if is_blank(byte) => InTail::Fresh,
            _ => InTail::Word,
        }
    }
}

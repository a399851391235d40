//! What stands in front of a condition's expression: numerals of its weight, and names, blanks and inversions.
use crate::places::Place;
use pm_bytes::{BANG, DOT, MINUS, PLUS, QUESTION, begins_name, continues_name, is_blank, is_digit};

/// In a numeral.
#[derive(Clone, Copy)]
pub enum InNumeral {
    /// A sign can stand here.
    Sign,
    Digits,
}

impl Place for InNumeral {
    ghost use Rattle.pm_recipe.specs.Leads.{numeral_places};

    ghost places = { numeral_places };

    fn joins(self) -> bool {
        false
    }

    fn ends(self, byte: u8) -> bool {
        match self {
            InNumeral::Sign => !(is_digit(byte) || byte == DOT || byte == PLUS || byte == MINUS),
            InNumeral::Digits => !(is_digit(byte) || byte == DOT),
        }
    }

    fn after(self, _: u8) -> InNumeral {
        InNumeral::Digits
    }
}

/// Before the expression of a condition.
#[derive(Clone, Copy)]
pub enum InLead {
    /// It can begin here.
    Before,
    /// In a name, after which there must be two question marks.
    Name,
    /// In the blanks after the name.
    Blanks,
    /// After the first question mark.
    Mark,
}

impl Place for InLead {
    ghost use Rattle.pm_recipe.specs.Leads.{lead_places};

    ghost places = { lead_places };

    fn joins(self) -> bool {
        false
    }

    fn ends(self, byte: u8) -> bool {
        match self {
            InLead::Before => !(is_blank(byte) || byte == BANG || begins_name(byte)),
            InLead::Name => !(is_blank(byte) || byte == QUESTION || continues_name(byte)),
            InLead::Blanks => !(is_blank(byte) || byte == QUESTION),
            InLead::Mark => byte != QUESTION,
        }
    }

    fn after(self, byte: u8) -> InLead {
        match self {
            InLead::Before if begins_name(byte) => InLead::Name,
            InLead::Before => InLead::Before,
            InLead::Name | InLead::Blanks if byte == QUESTION => InLead::Mark,
            InLead::Name if !is_blank(byte) => InLead::Name,
            InLead::Name | InLead::Blanks => InLead::Blanks,
            InLead::Mark => InLead::Before,
        }
    }
}

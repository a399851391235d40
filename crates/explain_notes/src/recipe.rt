//! The lines of a recipe.
ghost use Rattle.std.specs.Prelude.{◌≡◌};

use pm_bytes::Blob;
use std::marker::Model;

/// A line of an rcfile, with its number, from 1. The text is as written, and has the lines in which it goes on.
#[derive(Drop)]
pub struct Line {
    pub number: u64,
    pub text: Blob,
}

/// The colon line of a recipe, and the lines of its conditions.
#[derive(Drop)]
pub struct RecipeLines {
    head: Line,
    tests: Vec<Line>,
}

impl Model for RecipeLines {
    ghost use Rattle.explain_notes.specs.RcLines.{Lines};

    ghost Value = { Lines };

    ghost view = { λ r. record { colon = r.head; conditions = r.tests.items } };
}

impl RecipeLines {
    pub(crate) fn new(colon: Line, conditions: Vec<Line>) -> RecipeLines
        ensures { result ≡ record { colon = colon; conditions = conditions.items } }
    {
        RecipeLines {
            head: colon,
            tests: conditions,
        }
    }

    pub fn colon(&self) -> &Line
        ensures { result.now ≡ self.now.colon }
    {
        &self.head
    }

    /// In order.
    pub fn conditions(&self) -> &[Line]
        ensures { result.now ≡ self.now.conditions }
    {
        self.tests.as_slice()
    }
}

//! Reading an expression: the macros first, then token by token.
ghost use Rattle.std.specs.Prelude.{◌≡◌, ℕ, List, IfOk};
ghost use Rattle.pm_regex.specs.Re.{Whole};
ghost use Rattle.pm_regex.specs.Reading.{Reads, IsOnlyReading, HasNoReading, ReadsTokens};

use crate::error::ReadRefused;
use crate::expr::Expr;
use crate::macros::expand;
use crate::reader::Reader;
use std::alloc::Global;

/// Reads a text in which no macros are left.
fn read_tokens(alloc: Global, text: &[u8]) -> Result<Expr, ReadRefused>
    ensures ok { IfOk result (ReadsTokens text.now) }
    ensures defect { result ≡ Err ReadRefused.Defect → (e : Whole) → ReadsTokens text.now e → ⊥ }
{
    let mut reader = Reader::new(alloc)?;
    let mut place = 0;
    while place < text.len() {
        place += reader.take(alloc, &text[place..])?;
    }
    reader.finish()
}

/// Reads the text of an expression, after its macros are replaced (procmailrc(5), "Extended regular expressions").
///
/// `Defect` says that it is none by the grammar: an unclosed bracket or parenthesis, a stray `)`, a `\` at the end, a
/// range from a greater byte to a lesser, a second `\/` or one in parentheses, more than 200 open parentheses, or more
/// than 65,536 bytes after the macros.
pub fn read(alloc: Global, text: &[u8]) -> Result<Expr, ReadRefused>
    ensures ok { IfOk result (Reads text.now) }
    ensures only { IfOk result (IsOnlyReading text.now) }
    ensures defect { result ≡ Err ReadRefused.Defect → HasNoReading text.now }
{
    let after = expand(alloc, text)?;
    read_tokens(alloc, &after)
}

/// A text is read as one expression at most.
pub fn one_reading()
    ensures { (text : List ℕ) (e f : Whole) → Reads text e → Reads text f → e ≡ f }
{}

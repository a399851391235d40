//! Texts expanded by the variables of a process.
ghost use Rattle.std.specs.Prelude.{◌≡◌, length, IfOk};
ghost use Rattle.pm_meaning.specs.Assigning;
ghost use Rattle.pm_subst.specs.Commands.{commands_in};
ghost use Rattle.pm_meaning.specs.Expanding.{IsExpansion};

use pm_bytes::{Blob, Memory};
use pm_subst::{ExpandRefused, Mode, expand};
use pm_vars::Vars;
use std::alloc::Global;

/// The words of a text, or the length of its expansion in bytes where it is over 1,048,576.
#[derive(Drop)]
pub enum Expansion {
    Words(Vec<Blob>),
    TooLong(u64),
}

/// Expands a text, with the outputs of its commands in their order.
pub fn expand_text(
    alloc: Global,
    text: &[u8],
    mode: Mode,
    vars: &Vars,
    outputs: &[Blob],
) -> Result<Expansion, Memory>
    requires { length outputs.now ≡ length (commands_in mode text.now) }
    ensures { IfOk result (λ expansion. IsExpansion mode text.now vars.now outputs.now expansion) }
{
    match expand(alloc, text, mode, vars, outputs) {
        Ok(words) => Ok(Expansion::Words(words)),
        Err(ExpandRefused::Overflow { length }) => Ok(Expansion::TooLong(length)),
        Err(ExpandRefused::Memory) => Err(Memory),
    }
}

/// The first of the words, empty where there is none.
pub fn first_word(alloc: Global, words: Vec<Blob>) -> Blob
    ensures { result ≡ Assigning.first_word words.items }
{
    match words.into_iter().next() {
        Some(word) => word,
        None => Blob::empty(alloc),
    }
}

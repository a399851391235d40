//! How mail is forwarded: SENDMAIL with the words of SENDMAILFLAGS and the addresses (procmailrc(5), "Recipe action
//! line", `!`).
ghost use Rattle.std.specs.Prelude.{◌≡◌, ◌++◌, length, IfOk, OnOk};
ghost use Rattle.pm_meaning.specs.Forwards.{blank_words};
ghost use Rattle.pm_meaning.specs.Forwards;
ghost use Rattle.pm_meaning.specs.Minds.{mind_of};
ghost use Rattle.pm_subst.specs.Commands.{commands_in};
ghost use Rattle.pm_subst.specs.declared.kinds.Mode.TheVariants.{Many};
ghost use Rattle.pm_meaning.specs.ForwardWords.{if_any};

use crate::process::{Process, ProgramLine};
use crate::programs::{value_or, words_line};
use pm_bytes::{Blob, Memory, is_blank};
use pm_subst::{ExpandRefused, Mode, expand};
use pm_vars::Vars;
use std::alloc::Global;

/// The program that sends mail to the addresses of a text, with the outputs of its backquoted commands in their order.
pub fn forward_line(
    alloc: Global,
    text: &[u8],
    outputs: &[Blob],
    process: &Process,
) -> Result<ProgramLine, Memory>
    requires { length outputs.now ≡ length (commands_in Many text.now) }
    ensures { IfOk result (λ read. read ≡ Forwards.forward_line outputs.now text.now (mind_of process.now)) }
{
    match expand(alloc, text, Mode::Many, &process.vars, outputs) {
        Ok(addresses) => addressed(alloc, addresses, process),
        Err(ExpandRefused::Overflow { length }) => Ok(ProgramLine::TooLong(length)),
        Err(ExpandRefused::Memory) => Err(Memory),
    }
}

// The addresses come last, and there has to be one.
fn addressed(alloc: Global, addresses: Vec<Blob>, process: &Process) -> Result<ProgramLine, Memory>
    ensures { IfOk result (λ read. read ≡ Forwards.addressed addresses.items (mind_of process.now)) }
{
    if addresses.is_empty() {
        return Ok(ProgramLine::NoWords);
    }
    let words = sendmail_words(alloc, addresses, &process.vars)?;
    words_line(alloc, words.as_slice(), process)
}

// SENDMAIL with the words of SENDMAILFLAGS, and after them the addresses.
fn sendmail_words(alloc: Global, addresses: Vec<Blob>, vars: &Vars) -> Result<Vec<Blob>, Memory>
    ensures { IfOk result (λ words. words.items ≡ Forwards.sendmail_words vars.now ++ addresses.items) }
{
    let mut words = Vec::new(alloc);
    let program = value_or(b"/usr/sbin/sendmail", b"SENDMAIL", vars);
    words.push(Blob::from_slice(alloc, program)?)?;
    push_words(alloc, value_or(b"", b"SENDMAILFLAGS", vars), &mut words)?;
    for address in addresses {
        words.push(address)?;
    }
    Ok(words)
}

// Adds the words that blanks part.
fn push_words(alloc: Global, text: &[u8], words: &mut Vec<Blob>) -> Result<(), Memory>
    ensures { OnOk result (words.new.items ≡ words.old.items ++ blank_words text.now) }
{
    let mut word = Vec::new(alloc);
    for byte in text {
        if is_blank(*byte) {
            push_some(word, words)?;
            word = Vec::new(alloc);
        } else {
            word.push(*byte)?;
        }
    }
    push_some(word, words)
}

// Adds a word that isn't empty.
fn push_some(word: Vec<u8>, words: &mut Vec<Blob>) -> Result<(), Memory>
    ensures { OnOk result (words.new.items ≡ words.old.items ++ if_any word.items) }
{
    if !word.is_empty() {
        words.push(Blob::from_vec(word))?;
    }
    Ok(())
}

//! The expansion of a text into words.
ghost use Rattle.std.specs.Prelude.{◌≡◌, ◌<◌, ◌≤◌, ◌+◌, ◌^◌, IfOk, IfErr, OnOk, length, ℕ, Bool, [], Some, false};
ghost use Rattle.pm_subst.specs.Buffer.{Holds, Gathers};
ghost use Rattle.pm_subst.specs.Commands.{commands_in};
ghost use Rattle.pm_subst.specs.Fields.{Fields, size, most_length, all_words};
ghost use Rattle.pm_subst.specs.Refusals.{IsRefusal};
ghost use Rattle.pm_subst.specs.Tokens.{is_many, token};
ghost use Rattle.pm_subst.specs.Values.{elements_of};
ghost use Rattle.pm_subst.specs.Words.{words_in, size_in, fields_in, first_fields, used_elements, unused_after};
ghost use Rattle.pm_subst.specs.Words.{first_output, outputs_after};

use crate::buffer::{Buffer, MOST_LENGTH};
use crate::frames::{Frames, fresh_behind};
use crate::kinds::{Kind, Mode};
use crate::reading::turn_at;
use crate::values::{
    is_text_used, push_form_value, push_literal, push_parameter, push_variable, without_newlines,
};
use pm_bytes::{Blob, Memory};
use pm_vars::Vars;
use std::alloc::Global;

/// Why a text has no expansion: its length is over 1,048,576, or memory was wanting. The length is the sum of the
/// words' lengths in bytes and, where words are split, their number.
#[derive(Clone, Copy)]
pub enum ExpandRefused {
    Overflow { length: u64 },
    Memory,
}

impl From<Memory> for ExpandRefused {
    ghost use Rattle.pm_subst.specs.declared.expansion.ExpandRefused.TheVariants.{Memory};

    ghost from_gives = { λ _ refused. refused ≡ Memory };

    fn from(_: Memory) -> ExpandRefused {
        ExpandRefused::Memory
    }
}

/// The words of a text, with the outputs of its commands in their order. See procmailrc(5), "Environment".
pub fn expand(
    alloc: Global,
    text: &[u8],
    mode: Mode,
    vars: &Vars,
    outputs: &[Blob],
) -> Result<Vec<Blob>, ExpandRefused>
    requires { length outputs.now ≡ length (commands_in mode text.now) }
    ensures words { IfOk result (λ words. words.items ≡ words_in mode vars.now outputs.now text.now) }
    ensures fits { OnOk result (size_in mode vars.now outputs.now text.now ≤ most_length) }
    ensures refused { IfErr result (λ refused. IsRefusal (size_in mode vars.now outputs.now text.now) refused) }
{
    let buffer = fill(alloc, text, mode, vars, outputs)?;
    finish(buffer)
}

fn finish(buffer: Buffer) -> Result<Vec<Blob>, ExpandRefused>
    ensures words { (fields : Fields) → Holds buffer fields → IfOk result (λ words. words.items ≡ all_words fields) }
    ensures fits { (fields : Fields) → Holds buffer fields → OnOk result (size buffer.splits fields ≤ most_length) }
    ensures refused { (fields : Fields) → Holds buffer fields
        → IfErr result (λ refused. IsRefusal (size buffer.splits fields) refused) }
{
    if buffer.length > MOST_LENGTH {
        return Err(ExpandRefused::Overflow {
            length: buffer.length,
        });
    }
    let Buffer {
        mut done,
        current,
        begun,
        ..
    } = buffer;
    if begun {
        done.push(Blob::from_vec(current)).map_err(Memory::from)?;
    }
    Ok(done)
}

// The words of a text, up to the limit, and their length.
fn fill(
    alloc: Global,
    text: &[u8],
    mode: Mode,
    vars: &Vars,
    outputs: &[Blob],
) -> Result<Buffer, Memory>
    ensures splits { IfOk result (λ buffer. buffer.splits ≡ is_many mode) }
    ensures holds { IfOk result (λ buffer. Holds buffer (fields_in mode vars.now outputs.now text.now)) }
{
    let mut buffer = first_buffer(alloc, mode);
    let mut frames = Frames::new(alloc);
    let mut fresh = true;
    let mut unused = 0;
    let mut outputs = outputs;
    let mut at = 0;
    while at < text.len() {
        let rest = &text[at..];
        let rule = frames.rule(mode, fresh);
        let front = turn_at(rule, rest);
        let part = &rest[front.from..front.to];
        let output = first_of(outputs);
        push_used(
            &mut buffer,
            unused,
            front.kind,
            rule.quoted,
            part,
            vars,
            output,
        )?;
        unused = unused_behind(front.kind, part, unused, vars);
        outputs = outputs_behind(front.kind, outputs);
        frames.pass(front.kind, rule.quoted)?;
        fresh = fresh_behind(front.kind, fresh);
        at += front.taken;
    }
    Ok(buffer)
}

fn first_buffer(alloc: Global, mode: Mode) -> Buffer
    ensures splits { result.splits ≡ is_many mode }
    ensures holds { Holds result (first_fields mode) }
{
    match mode {
        Mode::Many => Buffer::new(alloc, true),
        Mode::One => one_word(alloc),
        Mode::Quoted => one_word(alloc),
    }
}

fn one_word(alloc: Global) -> Buffer
    ensures splits { result.splits ≡ false }
    ensures holds { Holds result (record { done = []; current = Some [] }) }
{
    let mut buffer = Buffer::new(alloc, false);
    buffer.begin();
    buffer
}

fn push_used(
    buffer: &mut Buffer,
    unused: usize,
    kind: Kind,
    quoted: bool,
    part: &[u8],
    vars: &Vars,
    output: &[u8],
) -> Result<(), Memory>
    ensures splits { buffer.new.splits ≡ buffer.old.splits }
    ensures holds { IfOk result (λ _. Gathers buffer.old buffer.new
        (used_elements unused vars.now output.now (token kind quoted part.now))) }
{
    if unused == 0 {
        push_part(buffer, kind, quoted, part, vars, output)
    } else {
        Ok(())
    }
}

fn push_part(
    buffer: &mut Buffer,
    kind: Kind,
    quoted: bool,
    part: &[u8],
    vars: &Vars,
    output: &[u8],
) -> Result<(), Memory>
    ensures splits { buffer.new.splits ≡ buffer.old.splits }
    ensures holds { IfOk result (λ _. Gathers buffer.old buffer.new
        (elements_of vars.now output.now (token kind quoted part.now) kind)) }
{
    match kind {
        Kind::Text => buffer.push_text(part),
        Kind::Single => {
            buffer.begin();
            buffer.push_text(part)
        }
        Kind::Space => buffer.push_spaces(part),
        Kind::QuotesOpen => {
            buffer.begin();
            Ok(())
        }
        Kind::Value => push_variable(buffer, quoted, part, vars),
        Kind::Literal => push_literal(buffer, quoted, part, vars),
        Kind::Parameter(parameter) => push_parameter(buffer, quoted, parameter, vars),
        Kind::Command => buffer.push_value(quoted, without_newlines(output)),
        Kind::FormOpen(test) => push_form_value(buffer, quoted, test, part, vars),
        Kind::QuotesClose | Kind::Join | Kind::Comment | Kind::FormClose => Ok(()),
    }
}

fn unused_behind(kind: Kind, name: &[u8], unused: usize, vars: &Vars) -> usize
    requires { unused < 2 ^ 63 }
    ensures unused { (quoted : Bool) → result ≡ unused_after vars.now (token kind quoted name.now) kind unused }
    ensures bound { result ≤ unused + 1 }
{
    match kind {
        Kind::FormOpen(test) => {
            if unused == 0 && is_text_used(test, name, vars) {
                0
            } else {
                unused + 1
            }
        }
        Kind::FormClose => unused.saturating_sub(1),
        _ => unused,
    }
}

fn first_of(outputs: &[Blob]) -> &[u8]
    ensures { result.now ≡ first_output outputs.now }
{
    match outputs {
        [] => b"",
        [output, ..] => output.as_slice(),
    }
}

fn outputs_behind(kind: Kind, outputs: &[Blob]) -> &[Blob]
    ensures { result.now ≡ outputs_after kind outputs.now }
{
    match (kind, outputs) {
        (Kind::Command, [_, rest @ ..]) => rest,
        _ => outputs,
    }
}

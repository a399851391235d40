//! Reading of an rcfile, once over its bytes.
ghost use Rattle.std.specs.Prelude.{◌≡◌, ◌<◌, ◌≤◌, IfOk, length, IfErr, OnOk, []};
ghost use Rattle.pm_recipe.specs.Refusal.{IsRefusal, most_length};
ghost use Rattle.pm_recipe.specs.Rc.{IsRc};
ghost use Rattle.pm_recipe.specs.Listed.{rc_of};
ghost use Rattle.pm_recipe.specs.Opens.{Knows};
ghost use Rattle.pm_recipe.specs.Ends.{Blocks, closings};
ghost use Rattle.pm_recipe.specs.Builder.{built_of, whole, Stands};

use crate::building::Builder;
use crate::ends::{Unended, none_unended, tell_missing, unended_after};
use crate::fronts::{Kind, front_at, situation_behind, statements_in, text_before};
use crate::items::take_span;
use crate::newlines::newlines_in;
use crate::quotes::open_words;
use crate::tree::{Rc, Statements};
use pm_bytes::Memory;
use std::alloc::Global;

/// The greatest length of an rcfile, in bytes.
pub const MOST_LENGTH: usize = 1_048_576;

/// Why an rcfile isn't read: it is of `length` bytes and thereby too long, or memory was wanting.
#[derive(Clone, Copy)]
pub enum RcRefused {
    TooLong { length: u64 },
    Memory,
}

impl From<Memory> for RcRefused {
    ghost use Rattle.pm_recipe.specs.declared.reader.RcRefused.TheVariants.{Memory};

    ghost from_gives = { λ _ refused. refused ≡ Memory };

    fn from(_: Memory) -> RcRefused {
        RcRefused::Memory
    }
}

/// The statements of an rcfile (procmailrc(5)).
pub fn read_rc(alloc: Global, bytes: &[u8]) -> Result<Rc, RcRefused>
    ensures statements { IfOk result (λ rc. IsRc bytes.now rc.statements) }
    ensures fits { OnOk result (length bytes.now ≤ most_length) }
    ensures refused { IfErr result (λ refused. IsRefusal (length bytes.now) refused) }
{
    if bytes.len() > MOST_LENGTH {
        return Err(RcRefused::TooLong {
            length: bytes.len() as u64,
        });
    }
    let statements = read_statements(alloc, bytes)?;
    Ok(Rc { statements })
}

fn read_statements(alloc: Global, bytes: &[u8]) -> Result<Statements, Memory>
    ensures { IfOk result (λ statements. statements ≡ rc_of bytes.now) }
{
    let mut builder = Builder::new(alloc);
    let mut situation = statements_in(0);
    let mut unended = none_unended();
    let mut known = Vec::new(alloc);
    let mut line = 1;
    let mut rest = bytes;
    while !rest.is_empty() {
        let front = front_at(&known, &situation, rest);
        learn(alloc, front.kind, bytes, &mut known)?;
        take_span(&mut builder, front.kind, line, front.name, front.text)?;
        unended = unended_after(front.kind, line, situation, unended);
        situation = situation_behind(front.kind, situation);
        line += newlines_in(text_before(rest, front.behind));
        rest = front.behind;
    }
    finish(builder, situation.depth, unended)
}

// The first text that isn't understood may have a quote that isn't closed: from then on it is known which words do.
pub fn learn(alloc: Global, kind: Kind, text: &[u8], known: &mut Vec<bool>) -> Result<(), Memory>
    requires { Knows known.old.items text.now }
    ensures { IfOk result (λ _. Knows known.new.items text.now) }
{
    if is_skipped(kind) && known.is_empty() {
        let found = open_words(alloc, text)?;
        *known = found;
    }
    Ok(())
}

fn is_skipped(kind: Kind) -> bool {
    match kind {
        Kind::Skipped => true,
        _ => false,
    }
}

// The statements where the text ends: the open blocks end, and it's told that their braces are missing.
fn finish(builder: Builder, depth: usize, unended: Unended) -> Result<Statements, Memory>
    requires { length builder.levels.items ≡ depth }
    ensures { IfOk result (λ statements. (blocks : Blocks) → Stands unended depth blocks
        → statements ≡ whole (built_of builder) (closings depth blocks)) }
{
    let mut builder = builder;
    let mut open = depth;
    while open > 0 {
        builder.close()?;
        open -= 1;
    }
    tell_missing(&mut builder, depth, unended)?;
    let statements = builder.end()?;
    Ok(statements)
}

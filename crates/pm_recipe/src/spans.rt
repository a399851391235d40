//! The cut of an rcfile's text into spans, as a value.
ghost use Rattle.std.specs.Prelude.{◌≡◌, ◌≤◌, IfOk, IfErr, OnOk, length};
ghost use Rattle.pm_recipe.specs.Refusal.{IsRefusal, most_length};
ghost use Rattle.pm_recipe.specs.Cuts.{AreSpans};

use crate::fronts::{Kind, front_at, situation_behind, statements_in, text_before};
use crate::newlines::newlines_in;
use crate::reader::{MOST_LENGTH, RcRefused, learn};
use pm_bytes::Memory;
use std::alloc::Global;

/// A span of an rcfile's text: what it is, the line on which it begins, from 1, the place of its first byte, from 0,
/// the name and the text in it, and all its bytes.
#[derive(Clone, Copy)]
pub struct Span<'a> {
    pub kind: Kind,
    pub line: u64,
    pub first: usize,
    pub name: &'a [u8],
    pub text: &'a [u8],
    pub bytes: &'a [u8],
}

/// The spans of an rcfile, from its first byte to its last (procmailrc(5)).
pub fn cut_rc(alloc: Global, bytes: &[u8]) -> Result<Vec<Span<'_>>, RcRefused>
    ensures spans { IfOk result (λ spans. AreSpans bytes.now spans.items) }
    ensures fits { OnOk result (length bytes.now ≤ most_length) }
    ensures refused { IfErr result (λ refused. IsRefusal (length bytes.now) refused) }
{
    if bytes.len() > MOST_LENGTH {
        return Err(RcRefused::TooLong {
            length: bytes.len() as u64,
        });
    }
    let spans = cut_spans(alloc, bytes)?;
    Ok(spans)
}

fn cut_spans(alloc: Global, bytes: &[u8]) -> Result<Vec<Span<'_>>, Memory>
    ensures { IfOk result (λ spans. AreSpans bytes.now spans.items) }
{
    let mut spans = Vec::new(alloc);
    let mut situation = statements_in(0);
    let mut known = Vec::new(alloc);
    let mut line = 1;
    let mut rest = bytes;
    while !rest.is_empty() {
        let front = front_at(&known, &situation, rest);
        learn(alloc, front.kind, bytes, &mut known)?;
        let taken = text_before(rest, front.behind);
        spans.push(Span {
            kind: front.kind,
            line,
            first: bytes.len() - rest.len(),
            name: front.name,
            text: front.text,
            bytes: taken,
        })?;
        situation = situation_behind(front.kind, situation);
        line += newlines_in(taken);
        rest = front.behind;
    }
    Ok(spans)
}

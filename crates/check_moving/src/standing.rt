//! What is known where a span stands, by the spans before it.
ghost use Rattle.std.specs.Prelude.{◌≡◌, IfOk};
ghost use Rattle.std.specs.List.{list_any};
ghost use Rattle.check_moving.specs.Standing.{after, after_brace, after_colon, after_mailbox, after_program};
ghost use Rattle.check_moving.specs.Standing.{after_value, after_weight, begin, held_after, is_copy, is_stripped};
ghost use Rattle.check_moving.specs.Standing.{names_maildir, strips};

use crate::conditions::{is_greatest, is_weight};
use crate::mailboxes::is_maildir;
use crate::recipes::is_unwatched;
use crate::text::{has_part, is, unquoted};
use crate::variables::is_mailbox;
use pm_bytes::{Blob, Memory};
use pm_recipe::{Flags, Kind, Span, Weight, read_condition, read_flags};
use std::alloc::Global;

/// What is known.
#[derive(Drop)]
pub struct Standing {
    /// The last colon line.
    pub colon: Blob,
    /// The lock file of LOCKFILE, as its value stands in the text; empty for none.
    pub held: Blob,
    /// A condition of the last recipe has a weight, and one has the greatest.
    pub weighted: bool,
    pub greatest: bool,
    /// No recipe has begun since a block did.
    pub fresh: bool,
    /// No recipe has begun since a block ended.
    pub closed: bool,
    /// The exit status of the last recipe's program isn't looked at, though it has a lock file.
    pub unwatched: bool,
    /// No maildir is told of any more.
    pub told: bool,
}

/// Before all spans.
pub fn begin(alloc: Global, spans: &[Span<'_>]) -> Standing
    ensures { result ≡ begin spans.now }
{
    Standing {
        colon: Blob::empty(alloc),
        held: Blob::empty(alloc),
        weighted: false,
        greatest: false,
        fresh: false,
        closed: false,
        unwatched: false,
        told: has_stripped(spans),
    }
}

fn strips(text: &[u8]) -> bool
    ensures { result ≡ strips text.now }
{
    has_part(b"formail", text) && has_part(b"-I", text) && has_part(b"From ", text)
}

fn is_stripped(span: &Span<'_>) -> bool
    ensures { result ≡ is_stripped span.now }
{
    strips(span.text)
}

fn has_stripped(spans: &[Span<'_>]) -> bool
    ensures { result ≡ list_any is_stripped spans.now }
{
    spans.iter().any(|span| is_stripped(span))
}

/// After a span.
pub fn after(alloc: Global, span: &Span<'_>, standing: Standing) -> Result<Standing, Memory>
    ensures { IfOk result (λ next. next ≡ after span.now standing) }
{
    match span.kind {
        Kind::Colon => after_colon(alloc, span.text, standing),
        Kind::Condition => {
            let condition = read_condition(alloc, span.text)?;
            Ok(after_weight(condition.weight, standing))
        }
        Kind::Open => Ok(after_brace(true, standing)),
        Kind::Close => Ok(after_brace(false, standing)),
        Kind::Assign => after_value(alloc, span.name, span.text, standing),
        Kind::Unset => after_value(alloc, span.name, &[], standing),
        Kind::Mailbox => Ok(after_mailbox(span.text, standing)),
        Kind::Pipe | Kind::Forward => {
            let goes_on = is_copy(read_flags(standing.colon.as_slice()));
            after_program(alloc, goes_on, standing)
        }
        Kind::Capture => after_program(alloc, true, standing),
        _ => Ok(standing),
    }
}

fn after_colon(alloc: Global, text: &[u8], standing: Standing) -> Result<Standing, Memory>
    ensures { IfOk result (λ next. next ≡ after_colon text.now standing) }
{
    Ok(Standing {
        colon: Blob::from_slice(alloc, text)?,
        weighted: false,
        greatest: false,
        fresh: false,
        closed: false,
        unwatched: false,
        ..standing
    })
}

fn after_weight(weight: Weight, standing: Standing) -> Standing
    ensures { result ≡ after_weight weight standing }
{
    Standing {
        weighted: standing.weighted || is_weight(weight),
        greatest: standing.greatest || is_greatest(weight),
        ..standing
    }
}

fn after_brace(opens: bool, standing: Standing) -> Standing
    ensures { result ≡ after_brace opens standing }
{
    Standing {
        fresh: opens,
        closed: !opens,
        unwatched: false,
        ..standing
    }
}

fn held_after(alloc: Global, name: &[u8], value: &[u8], held: Blob) -> Result<Blob, Memory>
    ensures { IfOk result (λ next. next ≡ held_after name.now value.now held) }
{
    if is(name, b"LOCKFILE") {
        Blob::from_slice(alloc, unquoted(value))
    } else {
        Ok(held)
    }
}

/// Whether DEFAULT or ORGMAIL is a maildir.
pub fn names_maildir(name: &[u8], value: &[u8]) -> bool
    ensures { result ≡ names_maildir name.now value.now }
{
    is_mailbox(name) && is_maildir(value)
}

fn after_value(
    alloc: Global,
    name: &[u8],
    value: &[u8],
    standing: Standing,
) -> Result<Standing, Memory>
    ensures { IfOk result (λ next. next ≡ after_value name.now value.now standing) }
{
    let told = standing.told || names_maildir(name, value);
    Ok(Standing {
        colon: standing.colon,
        held: held_after(alloc, name, value, standing.held)?,
        weighted: standing.weighted,
        greatest: standing.greatest,
        fresh: standing.fresh,
        closed: standing.closed,
        unwatched: standing.unwatched,
        told,
    })
}

fn after_mailbox(text: &[u8], standing: Standing) -> Standing
    ensures { result ≡ after_mailbox text.now standing }
{
    Standing {
        told: standing.told || is_maildir(text),
        ..standing
    }
}

fn is_copy(flags: Flags) -> bool
    ensures { result ≡ is_copy flags }
{
    flags.copy && !flags.filter
}

fn after_program(alloc: Global, goes_on: bool, standing: Standing) -> Result<Standing, Memory>
    ensures { IfOk result (λ next. next ≡ after_program goes_on standing) }
{
    let unwatched = is_unwatched(alloc, standing.colon.as_slice())?;
    Ok(Standing {
        unwatched: goes_on && unwatched,
        ..standing
    })
}

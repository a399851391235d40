//! What stands before an expression: `!`, `$`, and names with `??`.
ghost use Rattle.std.specs.Prelude.{◌≡◌};
ghost use Rattle.check_moving.specs.Leads;
ghost use Rattle.check_moving.specs.Leads.{front_in};
ghost use Rattle.check_moving.specs.Leads.{front_of};
ghost use Rattle.check_moving.specs.Leads.{begins_name_at};

use crate::text::{past, past_blanks, past_name};
use pm_bytes::begins_name;

/// What was read, and the text after it.
#[derive(Clone, Copy)]
pub struct Lead<'a> {
    /// The text is expanded first.
    pub expands: bool,
    /// An odd number of `!`.
    pub inverted: bool,
    /// A name with `??`.
    pub named: bool,
    /// Without blanks at its front.
    pub text: &'a [u8],
}

/// What stands before the expression of a condition without its weight, and the expression.
pub fn read_lead(text: &[u8]) -> Lead<'_>
    ensures { front_in result ≡ front_of text.now }
{
    let mut lead = unread(text);
    let mut left = text;
    while let Some((_, after)) = left.split_first() {
        if !goes_on(&lead) {
            return lead;
        }
        lead = next(&lead);
        left = after;
    }
    lead
}

fn unread(text: &[u8]) -> Lead<'_>
    ensures { front_in result ≡ Leads.unread text.now }
{
    Lead {
        expands: false,
        inverted: false,
        named: false,
        text: past_blanks(text),
    }
}

/// Whether a name can begin here.
pub fn begins_with_name(text: &[u8]) -> bool
    ensures { result ≡ begins_name_at text.now }
{
    match text {
        [] => false,
        [byte, ..] => begins_name(*byte),
    }
}

fn asks(text: &[u8]) -> bool
    ensures { result ≡ Leads.asks text.now }
{
    begins_with_name(text) && past_blanks(past_name(text)).starts_with(b"??")
}

fn is_dollar(lead: &Lead<'_>) -> bool
    ensures { result ≡ Leads.is_dollar (front_in lead.now) }
{
    !lead.expands && lead.text.starts_with(b"$")
}

fn goes_on(lead: &Lead<'_>) -> bool
    ensures { result ≡ Leads.goes_on (front_in lead.now) }
{
    lead.text.starts_with(b"!") || is_dollar(lead) || asks(lead.text)
}

fn next<'a>(lead: &Lead<'a>) -> Lead<'a>
    ensures { front_in result ≡ Leads.next (front_in lead.now) }
{
    if lead.text.starts_with(b"!") {
        return Lead {
            inverted: !lead.inverted,
            text: past_blanks(past(1, lead.text)),
            ..*lead
        };
    }
    if is_dollar(lead) {
        return Lead {
            expands: true,
            text: past_blanks(past(1, lead.text)),
            ..*lead
        };
    }
    Lead {
        named: true,
        text: past_blanks(past(2, past_blanks(past_name(lead.text)))),
        ..*lead
    }
}

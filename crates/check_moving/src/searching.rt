//! The forms of an rcfile, in the order of its text.
ghost use Rattle.std.specs.Prelude.{◌≡◌, ◌≤◌, ◌++◌, [], IfOk, IfErr, OnOk, length};
ghost use Rattle.pm_recipe.specs.Refusal.{IsRefusal, most_length};
ghost use Rattle.check_moving.specs.Found.{AreForms, at_span, found_from, of_span};
ghost use Rattle.check_moving.specs.Standing.{begin};

use crate::finding::Finding;
use crate::form::Form;
use crate::names::names_after;
use crate::spans::forms_of;
use crate::standing::{Standing, after, begin};
use pm_bytes::{Blob, Memory};
use pm_recipe::{RcRefused, Span, cut_rc};
use std::alloc::Global;

/// The forms in the text of an rcfile that do something else here than under procmail 3.22, in the order of the text.
pub fn find_forms(alloc: Global, text: &[u8]) -> Result<Vec<Finding>, RcRefused>
    ensures forms { IfOk result (λ findings. AreForms text.now findings.items) }
    ensures fits { OnOk result (length text.now ≤ most_length) }
    ensures refused { IfErr result (λ refused. IsRefusal (length text.now) refused) }
{
    let spans = cut_rc(alloc, text)?;
    let findings = found_in(alloc, spans.as_slice())?;
    Ok(findings)
}

fn found_in(alloc: Global, spans: &[Span<'_>]) -> Result<Vec<Finding>, Memory>
    ensures { IfOk result (λ findings. findings.items ≡ found_from (begin spans.now) [] spans.now) }
{
    let mut findings = Vec::new(alloc);
    let mut standing = begin(alloc, spans);
    let mut names = Vec::new(alloc);
    for span in spans {
        put_found(alloc, span, &standing, names.as_slice(), &mut findings)?;
        standing = after(alloc, span, standing)?;
        names = names_after(alloc, span, names)?;
    }
    Ok(findings)
}

fn put_found(
    alloc: Global,
    span: &Span<'_>,
    standing: &Standing,
    names: &[Blob],
    findings: &mut Vec<Finding>,
) -> Result<(), Memory>
    ensures { OnOk result (findings.new.items
        ≡ findings.old.items ++ at_span span.now (of_span standing.now names.now span.now)) }
{
    let forms = forms_of(alloc, standing, names, span)?;
    put(span, forms.as_slice(), findings)
}

fn put(span: &Span<'_>, forms: &[Form], findings: &mut Vec<Finding>) -> Result<(), Memory>
    ensures { OnOk result (findings.new.items ≡ findings.old.items ++ at_span span.now forms.now) }
{
    let mut rest = forms;
    while let Some((form, later)) = rest.split_first() {
        findings.push(Finding {
            form: *form,
            line: span.line,
            first: span.first,
        })?;
        rest = later;
    }
    Ok(())
}

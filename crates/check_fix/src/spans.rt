//! The edits of an rcfile, span for span.
ghost use Rattle.std.specs.Prelude.{◌≡◌, ◌++◌, IfOk, OnOk};
ghost use Rattle.check_fix.specs.Spans;
ghost use Rattle.check_fix.specs.Spans.{colon_edits, recipe_edits, kind_edits, found_edits};

use crate::colons::put_wait;
use crate::conditions::{put_great, put_size};
use crate::copies::{colon_after, is_between, put_copy, put_stop};
use crate::counts::put_count;
use crate::edits::Edit;
use crate::moved::{put_forms, put_locks};
use crate::scores::{is_free, no_score, put_name, put_score, score_after};
use check_moving::{Finding, Form};
use pm_bytes::Memory;
use pm_recipe::{Kind, Span};
use std::alloc::Global;

fn forms_at(alloc: Global, place: usize, findings: &[Finding]) -> Result<Vec<Form>, Memory>
    ensures { IfOk result (λ forms. forms.items ≡ Spans.forms_at place findings.now) }
{
    let mut forms = Vec::new(alloc);
    let mut rest = findings;
    while let Some((finding, later)) = rest.split_first() {
        if finding.first > place {
            return Ok(forms);
        }
        if finding.first == place {
            forms.push(finding.form)?;
        }
        rest = later;
    }
    Ok(forms)
}

fn later_than(place: usize, findings: &[Finding]) -> &[Finding]
    ensures { result.now ≡ Spans.later_than place findings.now }
{
    let mut rest = findings;
    while let Some((finding, later)) = rest.split_first() {
        if finding.first > place {
            return rest;
        }
        rest = later;
    }
    rest
}

fn from_action<'a, 'b>(spans: &'a [Span<'b>]) -> &'a [Span<'b>]
    ensures { result.now ≡ Spans.from_action spans.now }
{
    for i in 0..spans.len() {
        if !is_between(spans[i].kind) {
            return &spans[i..];
        }
    }
    &[]
}

fn put_colon(
    alloc: Global,
    span: &Span<'_>,
    action: &[Span<'_>],
    findings: &[Finding],
    edits: &mut Vec<Edit>,
) -> Result<(), Memory>
    ensures { OnOk result (edits.new.items ≡ edits.old.items ++ colon_edits span.now action.now findings.now) }
{
    match action.split_first() {
        None => Ok(()),
        Some((action, later)) => {
            let forms = forms_at(alloc, action.first, findings)?;
            put_wait(alloc, span, action.kind, edits)?;
            put_copy(alloc, span, action.kind, later, edits)?;
            put_locks(alloc, forms.as_slice(), span, edits)
        }
    }
}

fn put_recipe(
    alloc: Global,
    span: &Span<'_>,
    spans: &[Span<'_>],
    ended: bool,
    findings: &[Finding],
    edits: &mut Vec<Edit>,
) -> Result<(), Memory>
    ensures { OnOk result (edits.new.items
        ≡ edits.old.items ++ recipe_edits span.now spans.now ended findings.now) }
{
    let action = from_action(spans);
    put_name(alloc, span, spans, action, ended, edits)?;
    put_colon(alloc, span, action, findings, edits)?;
    put_score(alloc, spans, action, ended, edits)
}

fn put_kind(
    alloc: Global,
    span: &Span<'_>,
    spans: &[Span<'_>],
    ended: bool,
    findings: &[Finding],
    edits: &mut Vec<Edit>,
) -> Result<(), Memory>
    ensures { OnOk result (edits.new.items
        ≡ edits.old.items ++ kind_edits span.now.kind span.now spans.now ended findings.now) }
{
    match span.kind {
        Kind::Condition => {
            put_great(alloc, span, edits)?;
            put_size(alloc, span, edits)
        }
        Kind::Colon => put_recipe(alloc, span, spans, ended, findings, edits),
        Kind::Skipped => put_count(alloc, span, spans, edits),
        _ => Ok(()),
    }
}

fn put_found(
    alloc: Global,
    span: &Span<'_>,
    spans: &[Span<'_>],
    all: &[Span<'_>],
    findings: &[Finding],
    edits: &mut Vec<Edit>,
) -> Result<(), Memory>
    ensures { OnOk result (edits.new.items ≡ edits.old.items ++ found_edits span.now spans.now all.now findings.now) }
{
    let forms = forms_at(alloc, span.first, findings)?;
    put_forms(alloc, forms.as_slice(), span, spans, all, edits)
}

/// The edits of these spans, in which these forms were found.
pub fn edits_of(
    alloc: Global,
    spans: &[Span<'_>],
    findings: &[Finding],
) -> Result<Vec<Edit>, Memory>
    ensures { IfOk result (λ edits. edits.items ≡ Spans.edits_of spans.now findings.now) }
{
    let mut edits = Vec::new(alloc);
    let mut left = findings;
    let mut colon: &[u8] = &[];
    let mut score = no_score();
    let free = is_free(spans);
    for i in 0..spans.len() {
        let span = &spans[i];
        let later = &spans[i + 1..];
        put_found(alloc, span, later, spans, left, &mut edits)?;
        put_kind(alloc, span, later, score.this && free, left, &mut edits)?;
        put_stop(alloc, span, later, colon, &mut edits)?;
        colon = colon_after(span, colon);
        score = score_after(span, score);
        left = later_than(span.first, left);
    }
    Ok(edits)
}

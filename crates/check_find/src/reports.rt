//! The findings of an rcfile, gathered.
ghost use Rattle.std.specs.Prelude.{◌≡◌, ◌≤◌, ◌++◌, [], ◌∷◌, IfOk, OnOk, length};
ghost use Rattle.check_find.specs.Reports.{lines_of, unread_in, unread_of};
ghost use Rattle.check_find.specs.Statements.{defect_lines};

use crate::codes::Code;
use crate::conditions::fault_in_span;
use crate::defects::gather_lines;
use crate::finding::{Finding, column_at};
use crate::hints::hint_of;
use crate::mistakes::notices_in;
use crate::notices::Notice;
use pm_bytes::Memory;
use pm_recipe::{Kind, Span, Statements};
use std::alloc::Global;

/// Gathers the findings of a text with these statements and spans.
pub fn gather(
    alloc: Global,
    text: &[u8],
    statements: &Statements,
    spans: &[Span<'_>],
) -> Result<Vec<Finding>, Memory>
    ensures defects { IfOk result (λ findings. lines_of findings.items ≡ defect_lines statements.now) }
    ensures conditions { IfOk result (λ findings. unread_in findings.items ≡ unread_of spans.now) }
{
    let mut lines = Vec::new(alloc);
    gather_lines(statements, &mut lines)?;
    let mut findings = Vec::new(alloc);
    put_defects(text, spans, lines.as_slice(), &mut findings)?;
    put_conditions(alloc, text, spans, &mut findings)?;
    let notices = notices_in(alloc, spans)?;
    put_mistakes(text, notices.as_slice(), &mut findings)?;
    Ok(findings)
}

fn put_defects(
    text: &[u8],
    spans: &[Span<'_>],
    lines: &[u64],
    findings: &mut Vec<Finding>,
) -> Result<(), Memory>
    ensures defects { OnOk result (lines_of findings.new.items ≡ lines_of findings.old.items ++ lines.now) }
    ensures conditions { OnOk result (unread_in findings.new.items ≡ unread_in findings.old.items) }
{
    let mut before = 0;
    for line in lines {
        put(findings, defect_at(text, spans, *line, *line == before))?;
        before = *line;
    }
    Ok(())
}

fn put_conditions(
    alloc: Global,
    text: &[u8],
    spans: &[Span<'_>],
    findings: &mut Vec<Finding>,
) -> Result<(), Memory>
    ensures defects { OnOk result (lines_of findings.new.items ≡ lines_of findings.old.items) }
    ensures conditions { OnOk result (unread_in findings.new.items
        ≡ unread_in findings.old.items ++ unread_of spans.now) }
{
    for span in spans {
        put_condition(alloc, text, span, findings)?;
    }
    Ok(())
}

fn put_mistakes(
    text: &[u8],
    notices: &[Notice<'_>],
    findings: &mut Vec<Finding>,
) -> Result<(), Memory>
    ensures defects { OnOk result (lines_of findings.new.items ≡ lines_of findings.old.items) }
    ensures conditions { OnOk result (unread_in findings.new.items ≡ unread_in findings.old.items) }
{
    for notice in notices {
        let code = Code::Mistake(notice.mistake);
        put(findings, finding_at(text, &notice.about, code))?;
    }
    Ok(())
}

fn put_condition(
    alloc: Global,
    text: &[u8],
    span: &Span<'_>,
    findings: &mut Vec<Finding>,
) -> Result<(), Memory>
    ensures defects { OnOk result (lines_of findings.new.items ≡ lines_of findings.old.items) }
    ensures conditions { OnOk result (unread_in findings.new.items
        ≡ unread_in findings.old.items ++ unread_of (span.now ∷ [])) }
{
    match fault_in_span(alloc, span.kind, span.text)? {
        None => Ok(()),
        Some(fault) => put(findings, finding_at(text, span, Code::Condition(fault))),
    }
}

fn put(findings: &mut Vec<Finding>, finding: Finding) -> Result<(), Memory>
    ensures defects { OnOk result (lines_of findings.new.items ≡ lines_of findings.old.items ++ lines_of
        (finding ∷ [])) }
    ensures conditions { OnOk result (unread_in findings.new.items
        ≡ unread_in findings.old.items ++ unread_in (finding ∷ [])) }
{
    findings.push(finding)?;
    Ok(())
}

// A finding that is about a span.
fn finding_at(text: &[u8], span: &Span<'_>, code: Code) -> Finding
    ensures code { result.code ≡ code }
    ensures line { result.line ≡ span.now.line }
    ensures first { result.first ≡ span.now.first }
{
    Finding {
        code,
        line: span.line,
        column: column_at(text, span.first),
        first: span.first,
        last: span.first.saturating_add(span.bytes.len()),
    }
}

// The finding of a skipped line, whose span is sought by its line.
fn defect_at(text: &[u8], spans: &[Span<'_>], line: u64, again: bool) -> Finding
    ensures lines { lines_of (result ∷ []) ≡ line ∷ [] }
    ensures conditions { unread_in (result ∷ []) ≡ [] }
{
    let rest = &spans[skipped_from(spans, line_place(spans, line))..];
    let code = Code::Defect(hint_of(rest, again));
    match rest {
        [] => Finding {
            code,
            line,
            column: 1,
            first: 0,
            last: 0,
        },
        [span, ..] => Finding {
            code,
            line,
            column: column_at(text, span.first),
            first: span.first,
            last: span.first.saturating_add(span.bytes.len()),
        },
    }
}

// How many spans begin on lines before this one.
fn line_place(spans: &[Span<'_>], line: u64) -> usize
    ensures { result ≤ length spans.now }
{
    spans.partition_point(|span| span.line < line)
}

// The place of the next span that can be skipped.
fn skipped_from(spans: &[Span<'_>], from: usize) -> usize
    requires { from ≤ length spans.now }
    ensures { result ≤ length spans.now }
{
    for i in from..spans.len() {
        if can_be_skipped(spans[i].kind) {
            return i;
        }
    }
    spans.len()
}

fn can_be_skipped(kind: Kind) -> bool {
    match kind {
        Kind::Colon | Kind::TooDeep | Kind::Skipped => true,
        _ => false,
    }
}

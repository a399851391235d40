//! Regular expressions in texts (pm_match).
use crate::calls::failed::Failed;
use crate::calls::report::Report;
use pm_match::Engine;
use pm_regex::{Expr, Found, read};
use std::alloc::Global;

// Expressions that take capitals as small letters, and the areas that they are searched in.
const FOLDED: &[(&[u8], &[u8])] = &[
    (b"^Subject:.*\\/[0-9]+", b"Subject: 12 and 345\n"),
    (b"(a|ab)(c|bcd)\\/d*", b"xabcdd"),
    (b"x*\\/y?", b"ayy"),
    (b"a*b", b"aaaa"),
    (b"Hi", b"-hI"),
];

pub fn show(alloc: Global, report: &mut Report) {
    for (text, area) in FOLDED {
        let shown = find(alloc, report, text, true, area);
        report.lines(shown);
    }
    let shown = find(alloc, report, b"Hi", false, b"-hI");
    report.lines(shown);
    let shown = count(alloc, report);
    report.lines(shown);
}

fn find(
    alloc: Global,
    report: &mut Report,
    text: &[u8],
    fold: bool,
    area: &[u8],
) -> Result<(), Failed> {
    let expr = read(alloc, text)?;
    find_by(alloc, report, &expr, fold, area)
}

fn find_by(
    alloc: Global,
    report: &mut Report,
    expr: &Expr,
    fold: bool,
    area: &[u8],
) -> Result<(), Failed> {
    let mut engine = Engine::build(alloc, expr, fold)?;
    print_found(report, engine.find(area));
    Ok(())
}

fn print_found(report: &mut Report, found: Option<Found>) {
    match found {
        None => report.word("find", "None"),
        Some(Found { start, cut, end }) => report.answer("find", (start, cut, end)),
    }
}

// How many lines areas have, by one automaton.
fn count(alloc: Global, report: &mut Report) -> Result<(), Failed> {
    let expr = read(alloc, b"^.*$")?;
    count_by(alloc, report, &expr)
}

fn count_by(alloc: Global, report: &mut Report, expr: &Expr) -> Result<(), Failed> {
    let mut engine = Engine::build(alloc, expr, true)?;
    print_counts(report, &mut engine);
    Ok(())
}

fn print_counts(report: &mut Report, engine: &mut Engine) {
    report.answer("count", engine.count(b"a\nb\n"));
    report.answer("count", engine.count(b"a\nb"));
    report.answer("count", engine.count(b"a\n\nb\n"));
    report.answer("count", engine.count(b""));
}

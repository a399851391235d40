//! Scores (pm_meaning).
use crate::calls::report::Report;
use pm_meaning::{add_length, add_score};

pub fn show(report: &mut Report) {
    show_scores(report);
    show_lengths(report);
    show_no_lengths(report);
}

fn show_scores(report: &mut Report) {
    report.answer("add_score", add_score(2_147_483_000, 1, 1, 10_000));
    report.answer("add_score", add_score(5, -3, 0, 4));
    report.answer("add_score", add_score(5, -3, 1, 4));
    report.answer("add_score", add_score(5, 9, 1, 0));
    report.answer("add_score", add_score(0, 1, 2, 30));
    report.answer("add_score", add_score(0, 1, 2, 31));
    report.answer("add_score", add_score(0, -1, 2, 67_108_864));
    report.answer("add_score", add_score(4, 7, 0, 9));
}

// A mail of nine bytes against several numbers.
fn show_lengths(report: &mut Report) {
    report.answer("add_length", add_length(0, 100, 1, 9, 30, true));
    report.answer("add_length", add_length(0, -100, 1, 9, 30, false));
    report.answer("add_length", add_length(0, 7, 0, 9, 30, true));
    report.answer("add_length", add_length(0, 7, 2, 9, 5, true));
    report.answer("add_length", add_length(0, -100, 3, 9, 6, true));
}

fn show_no_lengths(report: &mut Report) {
    report.answer("add_length", add_length(0, 7, 0, 9, 0, true));
    report.answer("add_length", add_length(0, 7, 4, 9, 5, true));
    report.answer("add_length", add_length(0, 7, 2, 9, 134_217_729, true));
    report.answer("add_length", add_length(0, 7, -1, 9, 5, true));
}

//! The conditions of a recipe, with the programs that they ask (procmailrc(5), "Conditions").
ghost use Rattle.std.specs.Prelude.{◌≡◌, IfOk};
ghost use Rattle.pm_journal.specs.Executed.{Carries};
ghost use Rattle.pm_meaning.specs.Leads.{asking_of};
ghost use Rattle.pm_meaning.specs.Judging.{judged_with, comes_of, comes_within, come_with};
ghost use Rattle.pm_meaning.specs.Judging;
ghost use Rattle.pm_meaning.specs.Judging.{tested};
ghost use Rattle.pm_meaning.specs.Minds.{mind_of};
ghost use Rattle.pm_conds.specs.Notes.{Hears};

use crate::judging::{exited, has_weight, judge_one, question_of, test};
use crate::leads::read_lead;
use crate::observer::Observer;
use crate::scoring::{end_of_all, note_score};
use crate::searching::program_input;
use pm_bytes::Memory;
use pm_host::Command;
use pm_journal::Asks;
use pm_meaning::question::{Judgement, Outcome, Question};
use pm_meaning::{
    Expansion, ProgramLine, Run, code_of, expand_text, first_word, note_code, outputs_of,
    past_blanks, read_line, tell_run,
};
use pm_recipe::{Condition, Flags};
use pm_subst::Mode;
use std::alloc::Global;

/// How often the text of a condition is expanded at most.
const MOST_DOLLARS: u64 = 8;

/// Judges the conditions in order, up to one that ends it. MATCH is set by each that matches after a `\/`, `$?` by each
/// program, and `$=` where one of them has a weight. The observer hears what came of each.
pub fn judge<D: Asks, N: Observer>(
    alloc: Global,
    run: &mut Run<D>,
    conditions: &[Condition],
    flags: Flags,
    observer: &mut N,
) -> Result<Judgement, Memory>
    ensures carries { Carries (Judging.judge conditions.now flags (mind_of run.old.process))
        (λ verdict. judged_with verdict (mind_of run.new.process)) result
        run.old.journal run.new.journal (D.told run.old.outside) (D.told run.new.outside) }
    ensures hears { IfOk result (λ verdict. Hears conditions.now flags (mind_of run.old.process)
        (judged_with verdict (mind_of run.new.process)) run.old.journal run.new.journal
        (N.heard observer.old) (N.heard observer.new)) }
{
    let weighted = has_weight(conditions);
    let mut total = 0;
    for condition in conditions {
        let outcome = outcome(alloc, run, condition, flags)?;
        let text = &condition.text;
        let ended = judge_one(alloc, text, &outcome, &mut total, &mut run.process.vars)?;
        observer.judged(&outcome, total, run.journal.len())?;
        if let Some(end) = ended {
            note_score(weighted, total, &mut run.process.vars);
            return Ok(end);
        }
    }
    note_score(weighted, total, &mut run.process.vars);
    Ok(end_of_all(weighted, total))
}

// What comes of a condition. A weight with a number out of its range makes it a defect.
fn outcome<D: Asks>(
    alloc: Global,
    run: &mut Run<D>,
    condition: &Condition,
    flags: Flags,
) -> Result<Outcome, Memory>
    ensures carries { Carries (comes_of condition.now flags (mind_of run.old.process))
        (λ outcome. come_with outcome (mind_of run.new.process)) result
        run.old.journal run.new.journal (D.told run.old.outside) (D.told run.new.outside) }
{
    match question_of(condition.weight) {
        None => Ok(Outcome::Defective),
        Some(question) => {
            let text = condition.text.as_slice();
            ask(alloc, run, text, question, MOST_DOLLARS, flags)
        }
    }
}

// What comes of a text after a question; a `$` expands the rest, which is read again, `left` times at most.
fn ask<D: Asks>(
    alloc: Global,
    run: &mut Run<D>,
    text: &[u8],
    question: Question,
    left: u64,
    flags: Flags,
) -> Result<Outcome, Memory>
    ensures carries { Carries (comes_within left flags (asking_of text.now question) (mind_of run.old.process))
        (λ outcome. come_with outcome (mind_of run.new.process)) result
        run.old.journal run.new.journal (D.told run.old.outside) (D.told run.new.outside) }
{
    let mut question = question;
    let rest = read_lead(alloc, text, &mut question)?;
    if !rest.starts_with(b"$") {
        return ask_rest(alloc, run, rest, &question, flags);
    }
    if left == 0 {
        return Ok(Outcome::Defective);
    }
    let rest = &rest[1..];
    let outputs = outputs_of(alloc, run, rest, Mode::Quoted)?;
    match expand_text(
        alloc,
        rest,
        Mode::Quoted,
        &run.process.vars,
        outputs.as_slice(),
    )? {
        Expansion::TooLong(length) => Ok(Outcome::TooLong(length)),
        Expansion::Words(words) => {
            let value = first_word(alloc, words);
            let text = past_blanks(value.as_slice());
            ask(alloc, run, text, question, left - 1, flags)
        }
    }
}

// What comes of the test that the text is: `?` asks a program.
fn ask_rest<D: Asks>(
    alloc: Global,
    run: &mut Run<D>,
    text: &[u8],
    question: &Question,
    flags: Flags,
) -> Result<Outcome, Memory>
    ensures carries { Carries (tested flags (asking_of text.now question.now) (mind_of run.old.process))
        (λ outcome. come_with outcome (mind_of run.new.process)) result
        run.old.journal run.new.journal (D.told run.old.outside) (D.told run.new.outside) }
{
    if text.starts_with(b"?") {
        let line = past_blanks(&text[1..]);
        return ask_line(alloc, run, line, question, flags);
    }
    test(
        alloc,
        text,
        question,
        flags,
        &mut run.process.message,
        &run.process.vars,
    )
}

// What comes of a program's line. One that can't be run makes the condition a defect.
fn ask_line<D: Asks>(
    alloc: Global,
    run: &mut Run<D>,
    line: &[u8],
    question: &Question,
    flags: Flags,
) -> Result<Outcome, Memory>
    ensures carries { Carries (Judging.ask_line line.now flags question.now (mind_of run.old.process))
        (λ outcome. come_with outcome (mind_of run.new.process)) result
        run.old.journal run.new.journal (D.told run.old.outside) (D.told run.new.outside) }
{
    match read_line(alloc, run, line)? {
        ProgramLine::Runs(command) => ask_program(alloc, run, command, line, question, flags),
        ProgramLine::NoWords => Ok(Outcome::Defective),
        ProgramLine::Unusable => Ok(Outcome::Defective),
        ProgramLine::TooLong(length) => Ok(Outcome::TooLong(length)),
    }
}

// What comes of a program, which gets what the condition names.
fn ask_program<D: Asks>(
    alloc: Global,
    run: &mut Run<D>,
    command: Command,
    line: &[u8],
    question: &Question,
    flags: Flags,
) -> Result<Outcome, Memory>
    ensures carries { Carries (Judging.ask_program command line.now flags question.now (mind_of run.old.process))
        (λ outcome. come_with outcome (mind_of run.new.process)) result
        run.old.journal run.new.journal (D.told run.old.outside) (D.told run.new.outside) }
{
    let scope = &question.scope;
    let input = program_input(alloc, scope, flags, &run.process.message, &run.process.vars)?;
    let end = run.run_program(alloc, command, input, false)?;
    note_code(end, &mut run.process);
    tell_run(alloc, run, end, line)?;
    Ok(exited(question, code_of(end)))
}

//! Tries a run with each choice of failing calls, and reports what differs.
use crate::lost::with_lost;
use crate::plan::{Choice, Plan};
use crate::running::run;
use crate::tally::{IN_FULL, Tally};
use cases::{Difference, Refused, Told, differences, print_differences, show_words};

/// Runs the plan with each choice of failing calls.
pub fn try_plan<R: Print>(rt: &R, plan: &Plan, tally: &mut Tally) -> Result<(), Refused> {
    tally.begin_case();
    for failing in plan.tries.all()? {
        try_writes(rt, plan, failing, tally)?;
    }
    match tally.unshown() {
        0 => Ok(()),
        more => print_more(rt, plan, more),
    }
}

fn print_more<R: Print>(rt: &R, plan: &Plan, more: u64) -> Result<(), Refused> {
    let name = show_words(plan.alloc, &plan.name)?;
    Ok(println!(rt;
        "{}: run {name}: failed tries that are not shown: {more}",
        plan.line
    )?)
}

fn try_writes<R: Print>(
    rt: &R,
    plan: &Plan,
    failing: [u64; 2],
    tally: &mut Tally,
) -> Result<(), Refused> {
    let wanted = plan.tries.wanted(failing, plan.outside.fails.as_slice())?;
    let choice = Choice {
        failing,
        lost: None,
    };
    judge(rt, plan, choice, wanted, tally)?;
    for lost in 1..=plan.each_lost {
        let choice = Choice {
            failing,
            lost: Some(lost),
        };
        judge_lost(rt, plan, choice, wanted, tally)?;
    }
    Ok(())
}

// As what is wanted where this write is lost besides.
fn judge_lost<R: Print>(
    rt: &R,
    plan: &Plan,
    choice: Choice,
    wanted: &Told,
    tally: &mut Tally,
) -> Result<(), Refused> {
    let wanted = with_lost(plan.alloc, wanted, choice.lost.unwrap_or(0))?;
    judge(rt, plan, choice, &wanted, tally)
}

fn judge<R: Print>(
    rt: &R,
    plan: &Plan,
    choice: Choice,
    wanted: &Told,
    tally: &mut Tally,
) -> Result<(), Refused> {
    let came = run(plan, choice)?;
    let found = differences(plan.alloc, wanted.lines(), came.lines())?;
    tally.count(found.is_empty());
    if found.is_empty() || tally.failed_here > IN_FULL {
        Ok(())
    } else {
        print_found(rt, plan, choice, found.as_slice())
    }
}

fn print_found<R: Print>(
    rt: &R,
    plan: &Plan,
    choice: Choice,
    found: &[Difference],
) -> Result<(), Refused> {
    print_name(rt, plan, choice)?;
    print_differences(rt, plan.alloc, found)
}

fn print_name<R: Print>(rt: &R, plan: &Plan, choice: Choice) -> Result<(), Refused> {
    let name = show_words(plan.alloc, &plan.name)?;
    let failing = choice_text(plan, choice)?;
    Ok(println!(rt; "{}: run {name}{failing}", plan.line)?)
}

// What fails, where the plan has a choice of it.
fn choice_text(plan: &Plan, choice: Choice) -> Result<String, Refused> {
    let calls = plan.tries.choice(choice.failing)?;
    match choice.lost {
        Some(lost) => Ok(format!(in plan.alloc; "{calls}, write {lost} lost")?),
        None => Ok(calls),
    }
}

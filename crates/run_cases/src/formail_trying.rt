//! Tries a case of formail with each choice of failing calls, and reports what differs.
use crate::formail_case::FormailCase;
use crate::formail_running::run_formail;
use crate::tally::{IN_FULL, Tally};
use cases::{Difference, Refused, Words, differences, print_differences, show_words};

/// Runs the case with each choice of failing calls. `about` is what the cases here are about.
pub fn try_formail<R: Print>(
    rt: &R,
    case: &FormailCase,
    about: &Words,
    tally: &mut Tally,
) -> Result<(), Refused> {
    tally.begin_case();
    for failing in case.tries.all()? {
        let found = found_by(case, failing)?;
        tally.count(found.is_empty());
        if !found.is_empty() && tally.failed_here <= IN_FULL {
            print_choice(rt, case, about, failing)?;
            print_differences(rt, case.alloc, &found)?;
        }
    }
    match tally.unshown() {
        0 => Ok(()),
        more => print_more(rt, case, about, more),
    }
}

// What differs from what is wanted with these failing calls.
fn found_by(case: &FormailCase, failing: [u64; 2]) -> Result<Vec<Difference>, Refused> {
    let wanted = case.tries.wanted(failing, case.outside.fails.as_slice())?;
    let came = run_formail(case, failing)?;
    Ok(differences(case.alloc, wanted.lines(), came.lines())?)
}

fn print_choice<R: Print>(
    rt: &R,
    case: &FormailCase,
    about: &Words,
    failing: [u64; 2],
) -> Result<(), Refused> {
    let choice = case.tries.choice(failing)?;
    print_head(rt, case, about, choice.as_str())
}

fn print_more<R: Print>(
    rt: &R,
    case: &FormailCase,
    about: &Words,
    more: u64,
) -> Result<(), Refused> {
    let more = format!(in case.alloc; ": failed tries that are not shown: {more}")?;
    print_head(rt, case, about, more.as_str())
}

// The line of a case that failed: where it is, its command line, and this.
fn print_head<R: Print>(
    rt: &R,
    case: &FormailCase,
    about: &Words,
    rest: &str,
) -> Result<(), Refused> {
    let about = show_words(case.alloc, about)?;
    let words = show_words(case.alloc, &case.words)?;
    Ok(println!(rt; "{}: about {about}: formail {words}{rest}", case.line)?)
}

//! Where what came of a run differs from what is wanted.
use crate::{Refused, Words, copy_of, key_of, show_words};
use pm_bytes::Memory;
use std::alloc::Global;

// The lines of each group come in their order; a group's place among the others doesn't count.
const GROUPS: [&[&str]; 10] = [
    &["status"],
    &["entry", "says"],
    &["last", "err"],
    &["out"],
    &["got"],
    &["left"],
    &["gone"],
    &["made"],
    &["calls"],
    &["unread"],
];

/// A wanted line and the line that came in its place.
#[derive(Drop)]
pub struct Difference {
    pub wanted: Option<Words>,
    pub came: Option<Words>,
}

/// The lines that differ. Calls count only where some are wanted.
pub fn differences(
    alloc: Global,
    wanted: &[Words],
    came: &[Words],
) -> Result<Vec<Difference>, Memory> {
    let mut found = Vec::new(alloc);
    for group in GROUPS {
        push_group(alloc, &mut found, group, wanted, came)?;
    }
    Ok(found)
}

fn push_group(
    alloc: Global,
    found: &mut Vec<Difference>,
    group: &[&str],
    wanted: &[Words],
    came: &[Words],
) -> Result<(), Memory> {
    let wanted = lines_of(alloc, wanted, group)?;
    if wanted.is_empty() && group.contains(&"calls") {
        return Ok(());
    }
    let came = lines_of(alloc, came, group)?;
    push_differences(alloc, found, &wanted, &came)
}

// The lines of a group.
fn lines_of(alloc: Global, lines: &[Words], group: &[&str]) -> Result<Vec<Words>, Memory> {
    let mut found = Vec::new(alloc);
    for line in lines {
        if group.contains(&key_of(line)) {
            found.push(copy_of(alloc, line)?)?;
        }
    }
    Ok(found)
}

fn push_differences(
    alloc: Global,
    found: &mut Vec<Difference>,
    wanted: &[Words],
    came: &[Words],
) -> Result<(), Memory> {
    for at in 0..wanted.len().max(came.len()) {
        let (wanted, came) = (wanted.get(at), came.get(at));
        if wanted != came {
            let wanted = owned(alloc, wanted)?;
            let came = owned(alloc, came)?;
            found.push(Difference { wanted, came })?;
        }
    }
    Ok(())
}

fn owned(alloc: Global, line: Option<&Words>) -> Result<Option<Words>, Memory> {
    match line {
        Some(line) => Ok(Some(copy_of(alloc, line)?)),
        None => Ok(None),
    }
}

/// Prints each two lines that differ.
pub fn print_differences<R: Print>(
    rt: &R,
    alloc: Global,
    found: &[Difference],
) -> Result<(), Refused> {
    for difference in found {
        let wanted = line_text(alloc, &difference.wanted)?;
        let came = line_text(alloc, &difference.came)?;
        print_difference(rt, &wanted, &came)?;
    }
    Ok(())
}

fn print_difference<R: Print>(rt: &R, wanted: &str, came: &str) -> Result<(), Refused> {
    println!(rt; "  wanted {wanted}")?;
    println!(rt; "  came   {came}")?;
    Ok(())
}

fn line_text(alloc: Global, line: &Option<Words>) -> Result<String, Refused> {
    match line {
        Some(words) => Ok(show_words(alloc, words)?),
        None => Ok(String::from_str(alloc, "no such line")?),
    }
}

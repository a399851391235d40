//! What is found in the text of one rcfile by itself.
use crate::remarks::{Remark, of_disk, of_finding, of_form};
use check_find::{DiskMistake, Finding, find};
use check_moving::{Finding as FoundForm, find_forms};
use pm_bytes::Memory;
use pm_recipe::RcRefused;
use std::alloc::Global;

/// What is found in a text by itself, and the forms of procmail 3.22 in it, if it is from there.
pub fn found_in(alloc: Global, from_old: bool, text: &[u8]) -> Result<Vec<Remark>, Memory> {
    let mut remarks = Vec::new(alloc);
    add_all(alloc, from_old, text, &mut remarks)?;
    Ok(remarks)
}

fn add_all(
    alloc: Global,
    from_old: bool,
    text: &[u8],
    remarks: &mut Vec<Remark>,
) -> Result<(), Memory> {
    add_found(alloc, text, remarks)?;
    if from_old {
        add_forms(alloc, text, remarks)?;
    }
    Ok(())
}

fn add_found(alloc: Global, text: &[u8], remarks: &mut Vec<Remark>) -> Result<(), Memory> {
    match find(alloc, text) {
        Ok(findings) => add_findings(alloc, text, findings.as_slice(), remarks),
        Err(RcRefused::TooLong { .. }) => push_first(alloc, DiskMistake::TooLong, remarks),
        Err(RcRefused::Memory) => Err(Memory),
    }
}

fn add_findings(
    alloc: Global,
    text: &[u8],
    findings: &[Finding],
    remarks: &mut Vec<Remark>,
) -> Result<(), Memory> {
    for finding in findings {
        remarks.push(of_finding(alloc, text, finding)?)?;
    }
    Ok(())
}

// Of an rcfile that is too long nothing more is said.
fn add_forms(alloc: Global, text: &[u8], remarks: &mut Vec<Remark>) -> Result<(), Memory> {
    match find_forms(alloc, text) {
        Ok(found) => add_found_forms(alloc, text, found.as_slice(), remarks),
        Err(RcRefused::TooLong { .. }) => Ok(()),
        Err(RcRefused::Memory) => Err(Memory),
    }
}

fn add_found_forms(
    alloc: Global,
    text: &[u8],
    found: &[FoundForm],
    remarks: &mut Vec<Remark>,
) -> Result<(), Memory> {
    for one in found {
        remarks.push(of_form(alloc, text, one)?)?;
    }
    Ok(())
}

/// A remark on a whole rcfile.
pub fn push_first(
    alloc: Global,
    mistake: DiskMistake,
    remarks: &mut Vec<Remark>,
) -> Result<(), Memory> {
    Ok(remarks.push(of_disk(alloc, mistake, 1, 1, "")?)?)
}

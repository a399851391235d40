//! Codes that aren't reported: those of `--allow`, and those of a comment `# check: allow CODE ..` in the line above.
use crate::remarks::{Checked, Remark, code_of};
use bstr::ByteSlice;
use pm_bytes::Memory;
use std::alloc::{AllocError, Global};
use std::collections::BTreeMap;

/// Keeps what is reported of an rcfile, in the order of its lines.
pub fn keep_reported(alloc: Global, allowed: &[&str], file: &mut Checked) -> Result<(), Memory> {
    let Checked { text, remarks, .. } = file;
    keep_unallowed(alloc, allowed, text.as_slice(), remarks)?;
    remarks.sort_by_key(|remark: &Remark| remark.line)?;
    Ok(())
}

fn keep_unallowed(
    alloc: Global,
    allowed: &[&str],
    text: &[u8],
    remarks: &mut Vec<Remark>,
) -> Result<(), AllocError> {
    let comments = allowing_lines(alloc, text)?;
    keep_by(allowed, &comments, remarks);
    Ok(())
}

fn keep_by(allowed: &[&str], comments: &BTreeMap<u64, &[u8]>, remarks: &mut Vec<Remark>) {
    remarks.retain(|remark| {
        let above = comments.get(&remark.line.saturating_sub(1)).copied();
        !is_allowed(allowed, above, code_of(remark.source))
    });
}

fn is_allowed(allowed: &[&str], above: Option<&[u8]>, code: &str) -> bool {
    if allowed.iter().any(|one| *one == code) {
        return true;
    }
    match above {
        Some(names) => names_code(names, code.as_bytes()),
        None => false,
    }
}

// The lines of a text that are such comments, from 1, with the codes that they name.
fn allowing_lines(alloc: Global, text: &[u8]) -> Result<BTreeMap<u64, &[u8]>, AllocError> {
    let mut allowing = BTreeMap::new(alloc);
    let mut number: u64 = 0;
    for line in text.lines() {
        number = number.saturating_add(1);
        if let Some(codes) = codes_in(line) {
            allowing.insert(number, codes)?;
        }
    }
    Ok(allowing)
}

fn codes_in(line: &[u8]) -> Option<&[u8]> {
    let line = line.trim();
    if line.starts_with(b"# check: allow ") {
        return Some(&line[15..]);
    }
    None
}

// Whether one of the names, which have blanks between them, is this code.
fn names_code(names: &[u8], code: &[u8]) -> bool {
    names.fields().any(|name| name == code)
}

//! Findings as one JSON object.
ghost use Rattle.std.specs.Prelude.{◌≡◌, IfOk, map, count_by, string_bytes};
ghost use Rattle.serde_json.specs.View.{view};
ghost use Rattle.serde_json.specs.Written.{compact_text};
ghost use Rattle.check_find.specs.Objects.{findings_data, finding_data, is_error_word, is_warning_word};

use crate::codes::Severity;
use crate::line::{Line, severity_word};
use serde_json::{Value, json};
use std::alloc::{AllocError, Global};

/// One object on one line (RFC 8259), without a newline: the numbers `errors` and `warnings`, and `findings`, each with
/// `code`, `column`, `file`, `line`, `message` and `severity`.
#[tactic(auto, using(crate::proofs::NoFloats::of_findings))]
pub fn json_text(alloc: Global, lines: &[Line<'_>]) -> Result<String, AllocError>
    ensures { IfOk result (λ text. string_bytes text ≡ compact_text (findings_data lines.now)) }
{
    findings_json(alloc, lines)?.to_string(alloc)
}

fn findings_json(alloc: Global, lines: &[Line<'_>]) -> Result<Value, AllocError>
    ensures { IfOk result (λ object. view object ≡ findings_data lines.now) }
{
    let errors = count_errors(lines) as u64;
    let warnings = count_warnings(lines) as u64;
    let findings = Value::Array(objects(alloc, lines)?);
    json!(in alloc; {"errors": errors, "findings": findings, "warnings": warnings})
}

fn objects(alloc: Global, lines: &[Line<'_>]) -> Result<Vec<Value>, AllocError>
    ensures { IfOk result (λ objects. map view objects.items ≡ map finding_data lines.now) }
{
    let mut objects = Vec::new(alloc);
    for line in lines {
        objects.push(object(alloc, line)?)?;
    }
    Ok(objects)
}

fn object(alloc: Global, line: &Line<'_>) -> Result<Value, AllocError>
    ensures { IfOk result (λ object. view object ≡ finding_data line.now) }
{
    let severity = severity_word(line.severity);
    json!(in alloc; {
        "code": line.code,
        "column": line.column,
        "file": line.file,
        "line": line.line,
        "message": line.text,
        "severity": severity
    })
}

fn count_errors(lines: &[Line<'_>]) -> usize
    ensures { result ≡ count_by (λ line. is_error_word line.severity) lines.now }
{
    lines.iter().filter(|line| is_error(line.severity)).count()
}

fn count_warnings(lines: &[Line<'_>]) -> usize
    ensures { result ≡ count_by (λ line. is_warning_word line.severity) lines.now }
{
    lines
        .iter()
        .filter(|line| is_warning(line.severity))
        .count()
}

fn is_error(severity: Severity) -> bool
    ensures { result ≡ is_error_word severity }
{
    matches!(severity, Severity::Error)
}

fn is_warning(severity: Severity) -> bool
    ensures { result ≡ is_warning_word severity }
{
    matches!(severity, Severity::Warning)
}

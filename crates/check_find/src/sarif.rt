//! Findings as a log of SARIF 2.1.0, which code hosts and editors read.
ghost use Rattle.std.specs.Prelude.{◌≡◌, IfOk, map, string_bytes};
ghost use Rattle.serde_json.specs.View.{view};
ghost use Rattle.serde_json.specs.Written.{compact_text};
ghost use Rattle.check_find.specs.Objects.{location_data, log_data, result_data};
ghost use Rattle.check_find.specs.Uris.{path_of};

use crate::line::{Line, severity_word};
use percent_encoding::{AsciiSet, NON_ALPHANUMERIC, ascii_set, utf8_percent_encode};
use serde_json::{Value, json};
use std::alloc::{AllocError, Global};

// What does not stand as it is in a path of a URI.
const ESCAPED: AsciiSet = ascii_set!(
    NON_ALPHANUMERIC
        .remove(b'/')
        .remove(b'.')
        .remove(b'-')
        .remove(b'_')
        .remove(b'~')
);

/// One run of procmail-check, with each finding as a result, on one line without a newline. `version` is that of the
/// program.
#[tactic(auto, using(crate::proofs::NoFloats::of_log))]
pub fn sarif_text(alloc: Global, version: &str, lines: &[Line<'_>]) -> Result<String, AllocError>
    ensures { IfOk result (λ text. string_bytes text
        ≡ compact_text (log_data version.now (map result_data lines.now))) }
{
    sarif_log(alloc, version, lines)?.to_string(alloc)
}

#[tactic(auto, unfolding(crate::specs::Objects::log_data))]
fn sarif_log(alloc: Global, version: &str, lines: &[Line<'_>]) -> Result<Value, AllocError>
    ensures { IfOk result (λ log. view log ≡ log_data version.now (map result_data lines.now)) }
{
    let results = Value::Array(results(alloc, lines)?);
    json!(in alloc; {
        "$schema": "https://json.schemastore.org/sarif-2.1.0.json",
        "runs": [{
            "results": results,
            "tool": {"driver": {"name": "procmail-check", "version": version}}
        }],
        "version": "2.1.0"
    })
}

fn results(alloc: Global, lines: &[Line<'_>]) -> Result<Vec<Value>, AllocError>
    ensures { IfOk result (λ results. map view results.items ≡ map result_data lines.now) }
{
    let mut results = Vec::new(alloc);
    for line in lines {
        results.push(result_of(alloc, line)?)?;
    }
    Ok(results)
}

#[tactic(auto, unfolding(crate::specs::Objects::result_data))]
fn result_of(alloc: Global, line: &Line<'_>) -> Result<Value, AllocError>
    ensures { IfOk result (λ object. view object ≡ result_data line.now) }
{
    let severity = severity_word(line.severity);
    let place = location(alloc, line)?;
    json!(in alloc; {
        "level": severity,
        "locations": [place],
        "message": {"text": line.text},
        "ruleId": line.code
    })
}

fn location(alloc: Global, line: &Line<'_>) -> Result<Value, AllocError>
    ensures { IfOk result (λ object. view object ≡ location_data line.now) }
{
    let uri = uri_of(alloc, line.file)?;
    json!(in alloc; {
        "physicalLocation": {
            "artifactLocation": {"uri": uri.as_str()},
            "region": {"startColumn": line.column, "startLine": line.line}
        }
    })
}

#[tactic(auto, using(crate::proofs::Uris::path_encoded))]
fn uri_of(alloc: Global, file: &str) -> Result<String, AllocError>
    ensures { IfOk result (λ uri. string_bytes uri ≡ path_of file.now) }
{
    let mut uri = String::new(alloc);
    utf8_percent_encode(file, ESCAPED).append_to(&mut uri)?;
    Ok(uri)
}

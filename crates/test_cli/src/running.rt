//! The run of one test.
use crate::files::{Place, bytes_of, given_of};
use crate::status::Stopped;
use bstr::ByteSlice;
use explain_host::{Machine, OwnCode, lines_of};
use explain_text::{Destination, destinations_of, last_program, value_in};
use pm_bytes::{Blob, Environ, Memory, Pair};
use pm_journal::{Entry, Journal};
use pm_overlay::{Base, Given, Overlay, Void};
use pm_top::{MessageSource, procmail};
use std::alloc::Global;
use test_text::{Places, Report, Test, is_same, mailbox_name, name_of, shown_name, told_text};

/// Where a run delivered the mail to, as the names that tests have for it, what names mean in it, and its exit status.
#[derive(Drop)]
struct Delivered {
    names: Vec<Blob>,
    home: Blob,
    default: Blob,
    status: u8,
}

/// Runs procmail with this rcfile on the mail of a test.
pub fn run_test(
    rt: &HostRuntime,
    machine: &Machine,
    place: Place<'_>,
    rcfile: &str,
    test: &Test,
) -> Result<Report, Stopped> {
    let words = words(rt.alloc(), place.home, rcfile)?;
    let delivered = delivered_by(rt, machine, place, words.as_slice(), test)?;
    Ok(report(rt.alloc(), place, test, &delivered)?)
}

// The log and the last program tell where the mail went. MAILDIR is the home directory, as for an rcfile there,
// whatever the rcfile's name is.
fn words(alloc: Global, home: &str, rcfile: &str) -> Result<Vec<String>, Memory> {
    let folder = format!(in alloc; "MAILDIR={home}")?;
    copies(
        alloc,
        &[
            folder.as_str(),
            "LOGFILE=procmail-test.log",
            "LOGABSTRACT=all",
            "TRAP=procmail-test",
            rcfile,
        ],
    )
}

fn copies(alloc: Global, words: &[&str]) -> Result<Vec<String>, Memory> {
    let mut copies = Vec::new(alloc);
    for word in words {
        copies.push(String::from_str(alloc, word)?)?;
    }
    Ok(copies)
}

fn delivered_by(
    rt: &HostRuntime,
    machine: &Machine,
    place: Place<'_>,
    words: &[String],
    test: &Test,
) -> Result<Delivered, Stopped> {
    let mut source = MessageSource::new(bytes_of(rt, place, test.mail())?);
    let given = given_of(rt, place, test.answers())?;
    Ok(run(rt, machine, words, given, &mut source)?)
}

fn run(
    rt: &HostRuntime,
    machine: &Machine,
    words: &[String],
    given: Vec<Given>,
    source: &mut MessageSource,
) -> Result<Delivered, Memory> {
    let base = machine.base(rt)?;
    run_over(rt.alloc(), machine.env(), words, base, given, source)
}

// Over files of any kind, since a proof that sees all parts of the real host takes three times as long.
fn run_over<B: Base + Drop>(
    alloc: Global,
    env: &Environ,
    words: &[String],
    base: B,
    given: Vec<Given>,
    source: &mut MessageSource,
) -> Result<Delivered, Memory> {
    let answered = lines_of(alloc, given.as_slice())?;
    let overlay = Overlay::new(alloc, base, given);
    let mut host = OwnCode::new(alloc, overlay, answered)?;
    let mut journal = Journal::new(alloc);
    let status = procmail(
        alloc,
        words,
        env,
        source,
        &mut host,
        &mut Void::new(),
        &mut Void::new(),
        &mut journal,
    );
    drop(host);
    let delivered = where_delivered(alloc, journal.entries(), status);
    drop(journal);
    delivered
}

// TRAP's program is the last one, and its environment is that of the run at its end.
fn where_delivered(alloc: Global, entries: &[Entry], status: u8) -> Result<Delivered, Memory> {
    let names = names_in(alloc, entries)?;
    match last_program(entries) {
        Some(program) => {
            let env = program.env.as_slice();
            let folder = program.folder.as_str().as_bytes();
            delivered_in(alloc, names, env, folder, status)
        }
        None => Ok(Delivered {
            names,
            home: Blob::empty(alloc),
            default: Blob::empty(alloc),
            status,
        }),
    }
}

fn names_in(alloc: Global, entries: &[Entry]) -> Result<Vec<Blob>, Memory> {
    let destinations = destinations_of(alloc, entries)?;
    names_for(alloc, destinations.as_slice())
}

fn names_for(alloc: Global, destinations: &[Destination]) -> Result<Vec<Blob>, Memory> {
    let mut names = Vec::new(alloc);
    for destination in destinations {
        names.push(name_in(alloc, destination)?)?;
    }
    Ok(names)
}

fn delivered_in(
    alloc: Global,
    names: Vec<Blob>,
    env: &[Pair],
    folder: &[u8],
    status: u8,
) -> Result<Delivered, Memory> {
    let home = Blob::from_slice(alloc, value_in(env, b"HOME"))?;
    let default = default_in(alloc, names.as_slice(), env, folder)?;
    Ok(Delivered {
        names,
        home,
        default,
        status,
    })
}

fn default_in(alloc: Global, names: &[Blob], env: &[Pair], folder: &[u8]) -> Result<Blob, Memory> {
    let first = mailbox_name(alloc, value_in(env, b"DEFAULT"), folder)?;
    let second = mailbox_name(alloc, value_in(env, b"ORGMAIL"), folder)?;
    let is_second = !is_among(&first, names) && is_among(&second, names);
    Ok(if is_second { second } else { first })
}

fn is_among(name: &Blob, names: &[Blob]) -> bool {
    names
        .iter()
        .any(|other| other.as_slice() == name.as_slice())
}

fn name_in(alloc: Global, destination: &Destination) -> Result<Blob, Memory> {
    match destination {
        Destination::File(name) | Destination::Folder(name) => name.copy(alloc),
        Destination::Program(line) => behind(alloc, b"| ", line),
        Destination::Forward(addresses) => behind(alloc, b"forward ", addresses),
        Destination::Output => Blob::from_slice(alloc, b"standard output"),
    }
}

fn behind(alloc: Global, front: &[u8], name: &Blob) -> Result<Blob, Memory> {
    let mut text = Blob::from_slice(alloc, front)?;
    text.push_slice(name.as_slice())?;
    Ok(text)
}

fn report(
    alloc: Global,
    place: Place<'_>,
    test: &Test,
    delivered: &Delivered,
) -> Result<Report, Memory> {
    let status = test.status().map(|_| delivered.status);
    let passed = goes_right(alloc, test, delivered)? && status == test.status();
    let file = Blob::from_slice(alloc, place.file.as_bytes())?;
    let mail = readable(alloc, test.mail())?;
    let wanted = told(alloc, test.wanted(), test.status())?;
    let got = got_text(alloc, delivered, status)?;
    Ok(Report {
        file,
        line: place.line,
        mail,
        wanted,
        got,
        passed,
    })
}

// Whether the mail went to where it was to go.
fn goes_right(alloc: Global, test: &Test, delivered: &Delivered) -> Result<bool, Memory> {
    let places = Places {
        home: delivered.home.as_slice(),
        default: delivered.default.as_slice(),
    };
    let wanted = wanted_names(alloc, test.wanted(), places)?;
    is_same(alloc, wanted.as_slice(), delivered.names.as_slice())
}

fn wanted_names(alloc: Global, texts: &[Blob], places: Places<'_>) -> Result<Vec<Blob>, Memory> {
    let mut wanted = Vec::new(alloc);
    for text in texts {
        wanted.push(name_of(alloc, text.as_slice(), places)?)?;
    }
    Ok(wanted)
}

fn got_text(alloc: Global, delivered: &Delivered, status: Option<u8>) -> Result<Blob, Memory> {
    let names = shown_names(alloc, delivered.names.as_slice(), delivered.home.as_slice())?;
    told(alloc, names.as_slice(), status)
}

fn shown_names(alloc: Global, names: &[Blob], home: &[u8]) -> Result<Vec<Blob>, Memory> {
    let mut shown = Vec::new(alloc);
    for name in names {
        shown.push(shown_name(alloc, name.as_slice(), home)?)?;
    }
    Ok(shown)
}

fn told(alloc: Global, names: &[Blob], status: Option<u8>) -> Result<Blob, Memory> {
    let text = told_text(alloc, names, status)?;
    readable(alloc, text.as_slice())
}

// Text, with U+FFFD for what is none, and for U+FFFE and U+FFFF, which XML can't have.
fn readable(alloc: Global, bytes: &[u8]) -> Result<Blob, Memory> {
    let text = bytes.to_str_lossy(alloc)?;
    without_both(alloc, text.as_str().as_bytes())
}

fn without_both(alloc: Global, text: &[u8]) -> Result<Blob, Memory> {
    let text = text.replace(alloc, "\u{fffe}".as_bytes(), "\u{fffd}".as_bytes())?;
    let text = text
        .as_slice()
        .replace(alloc, "\u{ffff}".as_bytes(), "\u{fffd}".as_bytes())?;
    Ok(Blob::from_vec(text))
}

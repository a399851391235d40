//! The command line of procmail-stat.
use clap::error::ErrorKind;
use clap::{Arg, ArgAction, Command, Error};
use log_summary::{Day, read_day};
use std::alloc::{AllocError, Global};

const VERSION: &str = "1.0.0";

/// How the sums are written.
#[derive(Clone, Copy)]
pub enum Format {
    Text,
    Json,
}

/// What is asked for.
#[derive(Drop)]
pub struct Options<'a> {
    pub logs: Vec<&'a str>,
    /// The log files are those that mailstat(1) or logrotate(8) put aside: each name with `.old` after it.
    pub old: bool,
    /// Only what comes from the first mail of this day or a later one on counts.
    pub first: Option<Day>,
    pub format: Format,
}

/// What the command line says.
#[derive(Drop)]
pub enum Parsed<'a> {
    Options(Options<'a>),
    /// A text that was asked for, as by `--help`.
    Shown(Error),
    Refused(Error),
    /// The day of `--since` is none.
    NoDay,
    Memory,
}

/// Reads the words of a command line, the program's name first.
pub fn read_options<'a>(alloc: Global, words: &'a [String]) -> Parsed<'a> {
    let command = match command(alloc) {
        Ok(command) => command,
        Err(AllocError) => return Parsed::Memory,
    };
    let matches = match command.try_get_matches_from(words) {
        Ok(matches) => matches,
        Err(error) => return refused(error),
    };
    let first = match matches.get_str("since") {
        None => None,
        Some(text) => match read_day(text.as_bytes()) {
            None => return Parsed::NoDay,
            Some(day) => Some(day),
        },
    };
    let logs = match matches.get_strs("log") {
        None => Ok(Vec::new(alloc)),
        Some(names) => names.to_vec(alloc),
    };
    match logs {
        Err(_) => Parsed::Memory,
        Ok(logs) => Parsed::Options(Options {
            logs,
            old: matches.get_flag("old"),
            first,
            format: format_of(matches.get_str("format")),
        }),
    }
}

fn format_of(word: Option<&str>) -> Format {
    match word {
        Some("json") => Format::Json,
        _ => Format::Text,
    }
}

fn refused<'a>(error: Error) -> Parsed<'a> {
    match error.kind() {
        ErrorKind::DisplayHelp | ErrorKind::DisplayVersion => Parsed::Shown(error),
        ErrorKind::OutOfMemory => Parsed::Memory,
        _ => Parsed::Refused(error),
    }
}

fn command<'a>(alloc: Global) -> Result<Command<'a>, AllocError> {
    Command::new(alloc, "procmail-stat")
        .version(VERSION)
        .about("Sums up the log files of procmail")
        .arg(old_argument(alloc))?
        .arg(since_argument(alloc))?
        .arg(format_argument(alloc))?
        .arg(log_argument(alloc))
}

fn old_argument<'a>(alloc: Global) -> Arg<'a> {
    Arg::new(alloc, "old")
        .short('o')
        .action(ArgAction::SetTrue)
        .help("Read the log files that were put aside: each name with .old after it")
}

fn since_argument<'a>(alloc: Global) -> Arg<'a> {
    Arg::new(alloc, "since")
        .long("since")
        .value_name("DATE")
        .help("Count from the first mail of this day on, as 2026-01-31")
}

fn format_argument<'a>(alloc: Global) -> Arg<'a> {
    Arg::new(alloc, "format")
        .long("format")
        .value_name("FORMAT")
        .value_parser(["text", "json"].as_slice())
        .help("How the sums are written")
}

fn log_argument<'a>(alloc: Global) -> Arg<'a> {
    Arg::new(alloc, "log")
        .value_name("LOGFILE")
        .required(true)
        .num_args(1..)
        .help("The log files")
}

//! The command line of procmail-test.
use clap::error::ErrorKind;
use clap::{Arg, ArgAction, ArgMatches, Command, Error};
use std::alloc::{AllocError, Global};

const VERSION: &str = "1.0.0";

/// How the report is written.
#[derive(Clone, Copy)]
pub enum Format {
    Tap,
    Junit,
}

/// What is asked for.
#[derive(Drop)]
pub struct Options<'a> {
    pub format: Format,
    /// The files of tests, one at least.
    pub files: Vec<&'a str>,
}

/// What the command line says.
#[derive(Drop)]
pub enum Parsed<'a> {
    Options(Options<'a>),
    /// A text that was asked for, as by `--help`.
    Shown(Error),
    Refused(Error),
    Memory,
}

/// Reads the words of a command line, the program's name first.
pub fn read_options<'a>(alloc: Global, words: &'a [String]) -> Parsed<'a> {
    match command(alloc) {
        Ok(command) => parsed_by(alloc, command, words),
        Err(AllocError) => Parsed::Memory,
    }
}

fn parsed_by<'a>(alloc: Global, command: Command<'a>, words: &'a [String]) -> Parsed<'a> {
    match command.try_get_matches_from(words) {
        Ok(matches) => parsed_of(alloc, &matches),
        Err(error) => refused(error),
    }
}

fn parsed_of<'a>(alloc: Global, matches: &ArgMatches<'a>) -> Parsed<'a> {
    match files(alloc, matches) {
        Ok(files) => Parsed::Options(Options {
            format: format_of(matches.get_str("format")),
            files,
        }),
        Err(AllocError) => Parsed::Memory,
    }
}

fn files<'a>(alloc: Global, matches: &ArgMatches<'a>) -> Result<Vec<&'a str>, AllocError> {
    match matches.get_strs("file") {
        None => Ok(Vec::new(alloc)),
        Some(files) => files.to_vec(alloc),
    }
}

fn format_of(word: Option<&str>) -> Format {
    match word {
        Some("junit") => Format::Junit,
        _ => Format::Tap,
    }
}

fn refused<'a>(error: Error) -> Parsed<'a> {
    match error.kind() {
        ErrorKind::DisplayHelp | ErrorKind::DisplayVersion => Parsed::Shown(error),
        ErrorKind::OutOfMemory => Parsed::Memory,
        _ => Parsed::Refused(error),
    }
}

fn command<'a>(alloc: Global) -> Result<Command<'a>, AllocError> {
    Command::new(alloc, "procmail-test")
        .version(VERSION)
        .about("Runs tests of rcfiles: where does each mail go?")
        .arg(format_option(alloc))?
        .arg(file_argument(alloc))
}

fn format_option<'a>(alloc: Global) -> Arg<'a> {
    Arg::new(alloc, "format")
        .long("format")
        .value_name("FORMAT")
        .value_parser(["tap", "junit"].as_slice())
        .help("How the report is written")
}

fn file_argument<'a>(alloc: Global) -> Arg<'a> {
    Arg::new(alloc, "file")
        .value_name("FILE")
        .action(ArgAction::Append)
        .required(true)
        .num_args(1..)
        .help("Files of tests")
}

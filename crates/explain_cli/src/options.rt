//! The command line of procmail-explain.
use clap::error::ErrorKind;
use clap::{Arg, ArgAction, ArgMatches, Command, Error};
use std::alloc::{AllocError, Global};

const VERSION: &str = "1.0.0";

/// How it is written.
#[derive(Clone, Copy)]
pub enum Format {
    Text,
    Json,
}

/// What is asked for.
#[derive(Drop)]
pub struct Options<'a> {
    /// The result alone is printed.
    pub quiet: bool,
    /// Standard input is a mailbox.
    pub is_mailbox: bool,
    pub format: Format,
    /// Programs of conditions, backquotes and filters are started.
    pub starts: bool,
    /// The rcfile to compare with.
    pub rcfile: Option<&'a str>,
    /// What programs answer, as `LINE=CODE[:FILE]`.
    pub answers: Vec<&'a str>,
    /// procmail's own options and arguments.
    pub words: Vec<&'a str>,
}

/// What the command line says.
#[derive(Drop)]
pub enum Parsed<'a> {
    Options(Options<'a>),
    /// A text that was asked for, as by `--help`.
    Shown(Error),
    Refused(Error),
    Memory,
}

/// Reads the words of a command line, the program's name first.
pub fn read_options<'a>(alloc: Global, words: &'a [String]) -> Parsed<'a> {
    match command(alloc) {
        Ok(command) => parsed_by(alloc, command, words),
        Err(AllocError) => Parsed::Memory,
    }
}

fn parsed_by<'a>(alloc: Global, command: Command<'a>, words: &'a [String]) -> Parsed<'a> {
    match command.try_get_matches_from(words) {
        Ok(matches) => parsed_of(alloc, &matches),
        Err(error) => refused(error),
    }
}

fn parsed_of<'a>(alloc: Global, matches: &ArgMatches<'a>) -> Parsed<'a> {
    match options_of(alloc, matches) {
        Ok(options) => Parsed::Options(options),
        Err(AllocError) => Parsed::Memory,
    }
}

fn options_of<'a>(alloc: Global, matches: &ArgMatches<'a>) -> Result<Options<'a>, AllocError> {
    let answers = texts(alloc, matches, "answer")?;
    let words = texts(alloc, matches, "word")?;
    Ok(Options {
        quiet: matches.get_flag("quiet"),
        is_mailbox: matches.get_flag("mailbox"),
        format: format_of(matches.get_str("format")),
        starts: matches.get_flag("run"),
        rcfile: matches.get_str("compare"),
        answers,
        words,
    })
}

fn texts<'a>(
    alloc: Global,
    matches: &ArgMatches<'a>,
    name: &str,
) -> Result<Vec<&'a str>, AllocError> {
    match matches.get_strs(name) {
        None => Ok(Vec::new(alloc)),
        Some(texts) => texts.to_vec(alloc),
    }
}

fn format_of(word: Option<&str>) -> Format {
    match word {
        Some("json") => Format::Json,
        _ => Format::Text,
    }
}

fn refused<'a>(error: Error) -> Parsed<'a> {
    match error.kind() {
        ErrorKind::DisplayHelp | ErrorKind::DisplayVersion => Parsed::Shown(error),
        ErrorKind::OutOfMemory => Parsed::Memory,
        _ => Parsed::Refused(error),
    }
}

fn command<'a>(alloc: Global) -> Result<Command<'a>, AllocError> {
    Command::new(alloc, "procmail-explain")
        .version(VERSION)
        .about("Prints what procmail would do with the mail on standard input")
        .arg(flag(alloc, "quiet", 'q', "Print the result alone"))?
        .arg(flag(
            alloc,
            "mailbox",
            's',
            "Standard input is a mailbox: take each mail of it",
        ))?
        .arg(format_option(alloc))?
        .arg(run_option(alloc))?
        .arg(answer_option(alloc))?
        .arg(compare_option(alloc))?
        .arg(word(alloc))
}

fn flag<'a>(alloc: Global, name: &'a str, letter: char, help: &'a str) -> Arg<'a> {
    Arg::new(alloc, name)
        .short(letter)
        .action(ArgAction::SetTrue)
        .help(help)
}

fn format_option<'a>(alloc: Global) -> Arg<'a> {
    Arg::new(alloc, "format")
        .long("format")
        .value_name("FORMAT")
        .value_parser(["text", "json"].as_slice())
        .help("How it is written")
}

fn run_option<'a>(alloc: Global) -> Arg<'a> {
    Arg::new(alloc, "run")
        .long("run")
        .action(ArgAction::SetTrue)
        .help("Start the programs of conditions, backquotes and filters")
}

fn answer_option<'a>(alloc: Global) -> Arg<'a> {
    Arg::new(alloc, "answer")
        .long("answer")
        .value_name("LINE=CODE[:FILE]")
        .action(ArgAction::Append)
        .help("The program of this line ends with CODE, and its output is FILE")
}

fn compare_option<'a>(alloc: Global) -> Arg<'a> {
    Arg::new(alloc, "compare")
        .long("compare")
        .value_name("NEWRC")
        .help("Print which mails go elsewhere by this rcfile")
}

fn word<'a>(alloc: Global) -> Arg<'a> {
    Arg::new(alloc, "word")
        .value_name("WORD")
        .num_args(0..)
        .trailing_var_arg(true)
        .allow_hyphen_values(true)
        .help("procmail's options, assignments and rcfiles")
}

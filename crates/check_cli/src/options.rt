//! The command line of procmail-check.
use clap::error::ErrorKind;
use clap::{Arg, ArgAction, ArgMatches, Command, Error};
use std::alloc::{AllocError, Global};

/// The version of the program.
pub const VERSION: &str = "1.0.0";

/// How findings are written.
#[derive(Clone, Copy)]
pub enum Format {
    Text,
    Json,
    Sarif,
}

/// What is asked for.
#[derive(Drop)]
pub struct Options<'a> {
    /// Nothing is printed.
    pub quiet: bool,
    pub format: Format,
    /// Codes that aren't reported.
    pub allowed: Vec<&'a str>,
    /// Only the rcfiles that are named are read, and the disk is asked for nothing else.
    pub no_disk: bool,
    /// Forms that do something else under procmail 3.22 are reported, too.
    pub from_old: bool,
    /// Rcfiles for procmail 3.22 are written anew, on standard output or in their place.
    pub fix: bool,
    pub in_place: bool,
    /// The rcfile is for procmail -m.
    pub filter: bool,
    /// Assignments and names of rcfiles, in their order.
    pub words: Vec<&'a str>,
}

/// What the command line says.
#[derive(Drop)]
pub enum Parsed<'a> {
    Options(Options<'a>),
    /// A text that was asked for, as by `--help`.
    Shown(Error),
    Refused(Error),
    Memory,
}

/// Reads the words of a command line, the program's name first.
pub fn read_options<'a>(alloc: Global, words: &'a [String]) -> Parsed<'a> {
    match command(alloc) {
        Ok(command) => parsed_by(alloc, command, words),
        Err(AllocError) => Parsed::Memory,
    }
}

fn parsed_by<'a>(alloc: Global, command: Command<'a>, words: &'a [String]) -> Parsed<'a> {
    match command.try_get_matches_from(words) {
        Ok(matches) => parsed_of(alloc, &matches),
        Err(error) => refused(error),
    }
}

fn parsed_of<'a>(alloc: Global, matches: &ArgMatches<'a>) -> Parsed<'a> {
    match options_of(alloc, matches) {
        Ok(options) => Parsed::Options(options),
        Err(AllocError) => Parsed::Memory,
    }
}

fn options_of<'a>(alloc: Global, matches: &ArgMatches<'a>) -> Result<Options<'a>, AllocError> {
    let allowed = texts(alloc, matches.get_strs("allow"))?;
    let words = texts(alloc, matches.get_strs("word"))?;
    Ok(Options {
        quiet: matches.get_flag("quiet"),
        format: format_of(matches.get_str("format")),
        allowed,
        no_disk: matches.get_flag("no-disk"),
        from_old: matches.get_flag("from-3.22"),
        fix: matches.get_flag("fix"),
        in_place: matches.get_flag("in-place"),
        filter: matches.get_flag("filter"),
        words,
    })
}

fn texts<'a>(alloc: Global, given: Option<&[&'a str]>) -> Result<Vec<&'a str>, AllocError> {
    match given {
        None => Ok(Vec::new(alloc)),
        Some(texts) => texts.to_vec(alloc),
    }
}

fn format_of(word: Option<&str>) -> Format {
    match word {
        Some("json") => Format::Json,
        Some("sarif") => Format::Sarif,
        _ => Format::Text,
    }
}

fn refused<'a>(error: Error) -> Parsed<'a> {
    match error.kind() {
        ErrorKind::DisplayHelp | ErrorKind::DisplayVersion => Parsed::Shown(error),
        ErrorKind::OutOfMemory => Parsed::Memory,
        _ => Parsed::Refused(error),
    }
}

fn command<'a>(alloc: Global) -> Result<Command<'a>, AllocError> {
    Command::new(alloc, "procmail-check")
        .version(VERSION)
        .about("Finds mistakes in rcfiles of procmail")
        .arg(short_switch(alloc, "quiet", 'q', "Print nothing"))?
        .arg(format_option(alloc))?
        .arg(allow_option(alloc))?
        .arg(switch(alloc, "no-disk", "Read only the rcfiles that are named"))?
        .arg(switch(
            alloc,
            "from-3.22",
            "Report what does something else under procmail 3.22",
        ))?
        .arg(switch(alloc, "fix", "Write an rcfile for procmail 3.22 anew"))?
        .arg(switch(
            alloc,
            "in-place",
            "Write it in its place, and keep it as RCFILE.orig",
        ))?
        .arg(short_switch(alloc, "filter", 'm', "Check rcfiles for procmail -m"))?
        .arg(word_argument(alloc))
}

fn switch<'a>(alloc: Global, name: &'a str, help: &'a str) -> Arg<'a> {
    Arg::new(alloc, name)
        .long(name)
        .action(ArgAction::SetTrue)
        .help(help)
}

fn short_switch<'a>(alloc: Global, name: &'a str, letter: char, help: &'a str) -> Arg<'a> {
    Arg::new(alloc, name)
        .short(letter)
        .action(ArgAction::SetTrue)
        .help(help)
}

fn format_option<'a>(alloc: Global) -> Arg<'a> {
    Arg::new(alloc, "format")
        .long("format")
        .value_name("FORMAT")
        .value_parser(["text", "json", "sarif"].as_slice())
        .help("How findings are written")
}

fn allow_option<'a>(alloc: Global) -> Arg<'a> {
    Arg::new(alloc, "allow")
        .long("allow")
        .value_name("CODE")
        .action(ArgAction::Append)
        .help("Don't report this code")
}

fn word_argument<'a>(alloc: Global) -> Arg<'a> {
    Arg::new(alloc, "word")
        .value_name("NAME=VALUE|RCFILE")
        .num_args(0..)
        .help("Variables that procmail is started with, and the rcfiles; - is standard input")
}

//! The words of the command line, from the first to the last (procmail(1), "SYNOPSIS").
ghost use Rattle.std.specs.Prelude.{◌≡◌, IfOk, OnErr, IsSome, is_some};
ghost use Rattle.pm_top.specs.Words.{command_line, closed, has_some};
ghost use Rattle.pm_top.specs.Reading.{at};
ghost use Rattle.pm_meaning.specs.declared.command_line.CommandLine.{CommandLine};

use crate::lists::{add, finish, no_lists};
use crate::place::{Next, Place};
use crate::word::word_of;
use pm_bytes::Memory;
use pm_meaning::CommandLine;
use std::alloc::Global;

const START: Place = Place {
    next: Next::Any,
    filter: false,
    softly: false,
    named: false,
};

/// What the words ask for; `None` where they aren't read. `Memory` comes only where they are.
pub fn read_words(alloc: Global, words: &[String]) -> Result<Option<CommandLine>, Memory>
    ensures ok { IfOk result (λ found. found ≡ command_line words.now) }
    ensures memory { OnErr result (IsSome (command_line words.now)) }
{
    if !is_read(words) {
        return Ok(None);
    }
    make_line(alloc, words)
}

// Whether the words are read. It takes no memory.
fn is_read(words: &[String]) -> bool
    ensures { result ≡ is_some (command_line words.now) }
{
    let mut place = START;
    for word in words {
        match word_of(place, word.as_str()) {
            Some(found) => place = found.place,
            None => return false,
        }
    }
    can_end(place)
}

// Whether no text is wanting, and a mail filter has its rcfile.
fn can_end(place: Place) -> bool
    ensures { (line : CommandLine) → has_some line.rcfiles ≡ place.named
        → result ≡ is_some (closed place.next (at place line)) }
{
    let ends = match place.next {
        Next::Any | Next::Operand => true,
        Next::ArgumentText | Next::SenderText => false,
    };
    ends && (!place.filter || place.named)
}

fn make_line(alloc: Global, words: &[String]) -> Result<Option<CommandLine>, Memory>
    ensures { IfOk result (λ found. found ≡ command_line words.now) }
{
    let mut place = START;
    let mut lists = no_lists(alloc);
    for word in words {
        let Some(found) = word_of(place, word.as_str()) else {
            return Ok(None);
        };
        add(alloc, &mut lists, found.adds, found.text)?;
        place = found.place;
    }
    finish(place, lists)
}

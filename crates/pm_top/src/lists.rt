//! What the words read so far ask for besides the options.
ghost use Rattle.std.specs.Prelude.{◌≡◌, true, false, IfOk, OnOk, ◌++◌, ◌∷◌, []};
ghost use Rattle.pm_bytes.specs.Name.{has_zero};
ghost use Rattle.pm_top.specs.Words.{no_words, renewal as renewal_of, variable_of, is_equals, kept as kept_of};
ghost use Rattle.pm_top.specs.Words.{filter_line};
ghost use Rattle.pm_top.specs.Words.{closed};
ghost use Rattle.std.specs.List.{list_any};
ghost use Rattle.pm_top.specs.Reading.{CanAdd, added, line_of, at};

use crate::place::{Adds, Next, Place};
use pm_bytes::{Blob, Memory, Name, Names, Pair, Pairs};
use pm_meaning::CommandLine;
use pm_message::Renew;
use std::alloc::Global;

/// The sender, arguments, variables and rcfiles so far.
#[derive(Drop)]
pub struct Lists {
    pub renew: Renew,
    pub arguments: Vec<Name>,
    pub values: Vec<Pair>,
    pub rcfiles: Vec<Name>,
}

/// None of them. It takes no memory.
pub fn no_lists(alloc: Global) -> Lists
    ensures { line_of result ≡ no_words }
{
    Lists {
        renew: Renew::AddMissing,
        arguments: Vec::new(alloc),
        values: Vec::new(alloc),
        rcfiles: Vec::new(alloc),
    }
}

/// Adds what a word says.
pub fn add(alloc: Global, lists: &mut Lists, adds: Adds, text: &str) -> Result<(), Memory>
    requires { CanAdd adds text.now }
    ensures { OnOk result (line_of lists.new ≡ added adds text.now (line_of lists.old)) }
{
    match adds {
        Adds::Nothing => Ok(()),
        Adds::Argument => push_name(alloc, &mut lists.arguments, text),
        Adds::From => {
            lists.renew = renewal(alloc, text)?;
            Ok(())
        }
        Adds::Value => {
            lists.values.push(variable(alloc, text)?)?;
            Ok(())
        }
        Adds::Rcfile => push_name(alloc, &mut lists.rcfiles, text),
    }
}

fn push_name(alloc: Global, names: &mut Vec<Name>, text: &str) -> Result<(), Memory>
    requires { has_zero text.now ≡ false }
    ensures { OnOk result (names.new.items ≡ names.old.items ++ text.now ∷ []) }
{
    names.push(Name::from_text(String::from_str(alloc, text)?))?;
    Ok(())
}

// What `-f` asks for: `-` is a new date.
fn renewal(alloc: Global, text: &str) -> Result<Renew, Memory>
    ensures { IfOk result (λ renew. renew ≡ renewal_of text.now) }
{
    if text == "-" {
        return Ok(Renew::Date);
    }
    Ok(Renew::Sender(Blob::from_slice(alloc, text.as_bytes())?))
}

// The variable of an assignment.
fn variable(alloc: Global, word: &str) -> Result<Pair, Memory>
    requires usable { has_zero word.now ≡ false }
    requires assigns { list_any is_equals word.now ≡ true }
    ensures { IfOk result (λ pair. pair ≡ variable_of word.now) }
{
    let Some((name, value)) = word.split_once('=') else {
        unreachable!()
    };
    let name = Name::from_text(String::from_str(alloc, name)?);
    let value = Name::from_text(String::from_str(alloc, value)?);
    Ok(Pair { name, value })
}

/// The end of the words at this place; `None` where a text or the rcfile of a mail filter is wanting.
pub fn finish(place: Place, lists: Lists) -> Result<Option<CommandLine>, Memory>
    ensures { IfOk result (λ found. found ≡ closed place.next (at place (line_of lists))) }
{
    match place.next {
        Next::Any => finish_line(place, lists),
        Next::Operand => finish_line(place, lists),
        Next::ArgumentText => Ok(None),
        Next::SenderText => Ok(None),
    }
}

fn finish_line(place: Place, lists: Lists) -> Result<Option<CommandLine>, Memory>
    ensures { IfOk result (λ found. found ≡ closed Next.Any (at place (line_of lists))) }
{
    if place.filter {
        return make_filter(place.softly, lists);
    }
    Ok(Some(CommandLine {
        filter: false,
        fails_softly: place.softly,
        renew: lists.renew,
        arguments: Names::from_vec(lists.arguments),
        values: Pairs::from_vec(lists.values),
        rcfiles: Names::from_vec(lists.rcfiles),
    }))
}

// A mail filter has one rcfile, and what stands after it are arguments.
fn make_filter(softly: bool, lists: Lists) -> Result<Option<CommandLine>, Memory>
    ensures { IfOk result (λ found. found ≡ filter_line lists.rcfiles.items
        (record (line_of lists) { filter = true; fails_softly = softly })) }
{
    let Lists {
        renew,
        mut arguments,
        values,
        mut rcfiles,
    } = lists;
    if rcfiles.is_empty() {
        return Ok(None);
    }
    let mut behind = rcfiles.split_off(1)?;
    arguments.append(&mut behind)?;
    Ok(Some(CommandLine {
        filter: true,
        fails_softly: softly,
        renew: kept(renew),
        arguments: Names::from_vec(arguments),
        values: Pairs::from_vec(values),
        rcfiles: Names::from_vec(rcfiles),
    }))
}

// A mail filter without `-f` takes the mail as it is.
fn kept(renew: Renew) -> Renew
    ensures { result ≡ kept_of renew }
{
    match renew {
        Renew::AddMissing => Renew::Keep,
        other => other,
    }
}

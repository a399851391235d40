//! Where a run delivered the mail to, copies among it, as its journal tells. That a program got the mail as a delivery,
//! and wasn't asked by a condition, is seen by what comes after it: the abstract in the log, or a new LASTFOLDER.
ghost use Rattle.std.specs.Prelude.{◌≡◌, ◌++◌, IfOk, OnOk, option_copied, option_map, codes};
ghost use Rattle.bstr.specs.Text.{lines_of, without_terminator};
ghost use Rattle.pm_overlay.specs.Given.{line_of, spaced};
ghost use Rattle.explain_text.specs.Destinations.{destinations_of, delivered_in, destination_at, added, is_discarded};
ghost use Rattle.explain_text.specs.Destinations.{last_found};
ghost use Rattle.explain_text.specs.Destinations.{appended_to, placed_in, written_out, ran, delivered_by, forwarded_to};
ghost use Rattle.explain_text.specs.Destinations.{addresses_in, sendmail_front};
ghost use Rattle.explain_text.specs.Destinations.{tells_delivery, told_by, not_if_done, not_if_placed, not_if_written};
ghost use Rattle.explain_text.specs.Destinations.{is_other_folder, folder_told, folder_among, is_new};
ghost use Rattle.explain_text.specs.Destinations.{value_in, last_program, found_by};

use bstr::ByteSlice;
use log_summary::delivery_of;
use pm_bytes::{Blob, Memory, Name, Pair};
use pm_host::Command;
use pm_journal::{Act, Entry, Reply};
use pm_overlay::line_of;
use std::alloc::Global;

/// Where mail was delivered to. Names are as seen from where the run began.
#[derive(Drop)]
pub enum Destination {
    /// A mailbox, or `/dev/null`.
    File(Blob),
    /// A directory in which the mail is a file of its own, without the ending that asks for one.
    Folder(Blob),
    /// The line of a program.
    Program(Blob),
    /// The addresses that SENDMAIL got, with blanks between them.
    Forward(Blob),
    /// Standard output.
    Output,
}

/// All destinations, in order. A program counts where what comes after it tells so: an abstract in the log, or another
/// program that finds a new LASTFOLDER; SENDMAIL with an address counts where it ended with 0 as well. `/dev/null`
/// counts where the last program finds it in LASTFOLDER. So a run that is to be read whole has a program at its end, by
/// TRAP (procmailrc(5)).
pub fn destinations_of(alloc: Global, entries: &[Entry]) -> Result<Vec<Destination>, Memory>
    ensures { IfOk result (λ made. made.items ≡ destinations_of entries.now) }
{
    let mut made = delivered_in(alloc, entries)?;
    if is_discarded(entries) {
        made.push(Destination::File(Blob::from_slice(alloc, b"/dev/null")?))?;
    }
    Ok(made)
}

fn delivered_in(alloc: Global, entries: &[Entry]) -> Result<Vec<Destination>, Memory>
    ensures { IfOk result (λ made. made.items ≡ delivered_in entries.now) }
{
    let mut made = Vec::new(alloc);
    let mut left = entries;
    while let Some((entry, rest)) = left.split_first() {
        add(&mut made, destination_at(alloc, entry, rest)?)?;
        left = rest;
    }
    Ok(made)
}

fn add(made: &mut Vec<Destination>, one: Option<Destination>) -> Result<(), Memory>
    ensures { OnOk result (made.new.items ≡ made.old.items ++ added one) }
{
    if let Some(one) = one {
        made.push(one)?;
    }
    Ok(())
}

fn destination_at(
    alloc: Global,
    entry: &Entry,
    rest: &[Entry],
) -> Result<Option<Destination>, Memory>
    ensures { IfOk result (λ one. one ≡ destination_at entry.now.act entry.now.reply rest.now) }
{
    match &entry.act {
        Act::Append { name, .. } => appended_to(alloc, name, &entry.reply),
        Act::Place { folder, .. } => placed_in(alloc, folder, &entry.reply),
        Act::WriteOut { .. } => Ok(written_out(&entry.reply)),
        Act::Run { command, want, .. } => ran(alloc, command, *want, &entry.reply, rest),
        _ => Ok(None),
    }
}

fn appended_to(alloc: Global, name: &Name, reply: &Reply) -> Result<Option<Destination>, Memory>
    ensures { IfOk result (λ one. one ≡ appended_to name.now reply.now) }
{
    match reply {
        Reply::Done => Ok(Some(Destination::File(blob_of(alloc, name)?))),
        _ => Ok(None),
    }
}

fn placed_in(alloc: Global, folder: &Name, reply: &Reply) -> Result<Option<Destination>, Memory>
    ensures { IfOk result (λ one. one ≡ placed_in folder.now reply.now) }
{
    match reply {
        Reply::Placed(_) => Ok(Some(Destination::Folder(blob_of(alloc, folder)?))),
        _ => Ok(None),
    }
}

fn blob_of(alloc: Global, name: &Name) -> Result<Blob, Memory>
    ensures { IfOk result (λ blob. blob ≡ name.now) }
{
    Blob::from_slice(alloc, name.as_str().as_bytes())
}

fn written_out(reply: &Reply) -> Option<Destination>
    ensures { result ≡ written_out reply.now }
{
    match reply {
        Reply::Wrote => Some(Destination::Output),
        _ => None,
    }
}

fn ran(
    alloc: Global,
    command: &Command,
    want: bool,
    reply: &Reply,
    rest: &[Entry],
) -> Result<Option<Destination>, Memory>
    ensures { IfOk result (λ one. one ≡ ran command.now want reply.now rest.now) }
{
    match reply {
        Reply::Ended { code, .. } if !want => delivered_by(
            alloc,
            command,
            *code,
            tells_delivery(value_in(command.env.as_slice(), b"LASTFOLDER"), rest),
        ),
        _ => Ok(None),
    }
}

fn delivered_by(
    alloc: Global,
    command: &Command,
    code: u8,
    told: bool,
) -> Result<Option<Destination>, Memory>
    ensures { IfOk result (λ one. one ≡ delivered_by (forwarded_to command.now) command.now code told) }
{
    match forwarded_to(alloc, command)? {
        Some(addresses) if told || code == 0 => Ok(Some(Destination::Forward(addresses))),
        None if told => Ok(Some(Destination::Program(line_of(alloc, command)?))),
        _ => Ok(None),
    }
}

// The addresses, where the program is that of SENDMAIL with the words of SENDMAILFLAGS.
fn forwarded_to(alloc: Global, command: &Command) -> Result<Option<Blob>, Memory>
    ensures { IfOk result (λ found. found ≡ forwarded_to command.now) }
{
    let env = command.env.as_slice();
    if command.program.as_str().as_bytes() != value_in(env, b"SENDMAIL") {
        return Ok(None);
    }
    let front = sendmail_front(alloc, value_in(env, b"SENDMAILFLAGS"))?;
    let words = spaced(alloc, command.args.as_slice())?;
    addresses_of(alloc, words.as_slice(), front.as_slice())
}

fn addresses_of(alloc: Global, words: &[u8], front: &[u8]) -> Result<Option<Blob>, Memory>
    ensures { IfOk result (λ found. found ≡ addresses_in words.now front.now) }
{
    match addresses_in(words, front) {
        Some(addresses) => Ok(Some(Blob::from_slice(alloc, addresses)?)),
        None => Ok(None),
    }
}

#[tactic(auto, unfolding(crate::specs::Destinations::sendmail_front))]
fn sendmail_front(alloc: Global, flags: &[u8]) -> Result<Blob, Memory>
    ensures { IfOk result (λ front. front ≡ sendmail_front flags.now) }
{
    let mut front = Blob::from_slice(alloc, b" ")?;
    if !flags.is_empty() {
        front.push_slice(flags)?;
        front.push_slice(b" ")?;
    }
    Ok(front)
}

fn spaced(alloc: Global, words: &[Name]) -> Result<Blob, Memory>
    ensures { IfOk result (λ text. text ≡ spaced words.now) }
{
    let mut text = Blob::empty(alloc);
    for word in words {
        text.push_slice(b" ")?;
        text.push_slice(word.as_str().as_bytes())?;
    }
    Ok(text)
}

#[tactic(auto, unfolding(crate::specs::Destinations::addresses_in))]
fn addresses_in<'a>(words: &'a [u8], front: &[u8]) -> Option<&'a [u8]>
    ensures { option_map (λ found. found.now) result ≡ addresses_in words.now front.now }
{
    if words.starts_with(front) {
        let addresses = &words[front.len()..];
        if !addresses.is_empty() && !addresses.starts_with(b"-") {
            return Some(addresses);
        }
    }
    None
}

// Whether these entries tell that a program before them delivered, which found this LASTFOLDER.
fn tells_delivery(last: &[u8], rest: &[Entry]) -> bool
    ensures { result ≡ tells_delivery last.now rest.now }
{
    for entry in rest {
        if let Some(told) = told_by(last, entry) {
            return told;
        }
    }
    false
}

fn told_by(last: &[u8], entry: &Entry) -> Option<bool>
    ensures { result ≡ told_by last.now entry.now.act entry.now.reply }
{
    match &entry.act {
        Act::SayFile { text, .. } | Act::SayErr { text } => is_other_folder(folder_told(
            text.as_slice(),
        )),
        Act::Run { command, .. } => Some(is_new(
            last,
            value_in(command.env.as_slice(), b"LASTFOLDER"),
        )),
        Act::Append { .. } => not_if_done(&entry.reply),
        Act::Place { .. } => not_if_placed(&entry.reply),
        Act::WriteOut { .. } => not_if_written(&entry.reply),
        _ => None,
    }
}

fn not_if_done(reply: &Reply) -> Option<bool>
    ensures { result ≡ not_if_done reply.now }
{
    match reply {
        Reply::Done => Some(false),
        _ => None,
    }
}

fn not_if_placed(reply: &Reply) -> Option<bool>
    ensures { result ≡ not_if_placed reply.now }
{
    match reply {
        Reply::Placed(_) => Some(false),
        _ => None,
    }
}

fn not_if_written(reply: &Reply) -> Option<bool>
    ensures { result ≡ not_if_written reply.now }
{
    match reply {
        Reply::Wrote => Some(false),
        _ => None,
    }
}

fn is_other_folder(folder: Option<&[u8]>) -> Option<bool>
    ensures { result ≡ is_other_folder (option_map (λ name. name.now) folder.entry) }
{
    match folder {
        None => None,
        Some(name) => Some(name != b"/dev/null".as_slice()),
    }
}

// The folder that an abstract names.
fn folder_told(text: &[u8]) -> Option<&[u8]>
    ensures { option_map (λ name. name.now) result ≡ folder_told text.now }
{
    for line in text.lines() {
        if let Some(delivery) = delivery_of(line) {
            return Some(delivery.folder);
        }
    }
    None
}

fn is_new(last: &[u8], found: &[u8]) -> bool
    ensures { result ≡ is_new last.now found.now }
{
    found != last && found != b"/dev/null".as_slice()
}

/// The value of the variable; of several of one name the first counts, and one that isn't there is empty.
pub fn value_in<'a>(variables: &'a [Pair], name: &[u8]) -> &'a [u8]
    ensures { result.now ≡ value_in name.now variables.now }
{
    for pair in variables {
        if name == pair.name.as_str().as_bytes() {
            return pair.value.as_str().as_bytes();
        }
    }
    b""
}

fn is_discarded(entries: &[Entry]) -> bool
    ensures { result ≡ is_discarded (last_program entries.now) }
{
    match last_program(entries) {
        Some(command) => value_in(command.env.as_slice(), b"LASTFOLDER") == b"/dev/null".as_slice(),
        None => false,
    }
}

/// The last program that was run, whose environment is that of the process at that time.
pub fn last_program(entries: &[Entry]) -> Option<&Command>
    ensures { option_copied result ≡ last_program entries.now }
{
    let mut found = None;
    for entry in entries {
        if let Act::Run { command, .. } = &entry.act {
            found = Some(command);
        }
    }
    found
}

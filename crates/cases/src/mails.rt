//! Rows of mails: their parts, what of them is searched or goes to a mailbox, and their From line.
use crate::told::{answered, said};
use crate::{Refused, Words, only_word, read_i64, text_of};
use pm_bytes::{Blob, Memory};
use pm_message::{
    Feed, Kind, Message, Place, Renew, area, from_line, needs_line, piece, prepare, split, whole,
};
use std::alloc::Global;

/// The head and the body of a copy of a mail, and after them the whole of both where that isn't the mail.
pub fn parts(alloc: Global, mail: &[u8]) -> Result<Words, Memory> {
    let message = copied(alloc, mail)?;
    parts_in(alloc, &message, mail)
}

fn copied(alloc: Global, mail: &[u8]) -> Result<Message, Memory> {
    split(alloc, mail)?.copy(alloc)
}

fn parts_in(alloc: Global, message: &Message, mail: &[u8]) -> Result<Words, Memory> {
    let mut words = parts_of(alloc, message)?;
    push_whole(alloc, &mut words, message, mail)?;
    Ok(words)
}

fn push_whole(
    alloc: Global,
    words: &mut Words,
    message: &Message,
    mail: &[u8],
) -> Result<(), Memory> {
    let joined = whole(alloc, message)?;
    if joined.as_slice() != mail {
        words.push(joined.into_vec(alloc)?)?;
    }
    Ok(())
}

/// What of a mail is written or fed.
pub fn piece_of(
    alloc: Global,
    feed: &[u8],
    kind: &[u8],
    raw: &[u8],
    mail: &[u8],
) -> Result<Words, Refused> {
    let message = split(alloc, mail)?;
    piece_in(alloc, &message, feed, kind, raw)
}

fn piece_in(
    alloc: Global,
    message: &Message,
    feed: &[u8],
    kind: &[u8],
    raw: &[u8],
) -> Result<Words, Refused> {
    let raw = raw_of(raw)?;
    let text = piece(alloc, message, feed_of(feed)?, kind_of(kind)?, raw)?;
    answered(blob_word(alloc, text))
}

// A line of the one word that the blob is.
fn blob_word(alloc: Global, blob: Blob) -> Result<Words, Memory> {
    only_word(alloc, blob.into_vec(alloc)?)
}

/// What of a mail is searched.
pub fn area_of(alloc: Global, place: &[u8], mail: &[u8]) -> Result<Words, Refused> {
    let message = split(alloc, mail)?;
    area_in(alloc, &message, place)
}

fn area_in(alloc: Global, message: &Message, place: &[u8]) -> Result<Words, Refused> {
    let text = area(alloc, message, place_of(place)?)?;
    answered(blob_word(alloc, text))
}

/// Whether a From line is made.
pub fn line_needed(alloc: Global, renew: &[u8], mail: &[u8]) -> Result<Words, Refused> {
    let renew = renew_of(alloc, renew)?;
    said(alloc, needs_line(mail, &renew))
}

/// The From line of a sender at a moment.
pub fn line_of(alloc: Global, who: &[u8], moment: &[u8]) -> Result<Words, Refused> {
    let line = from_line(alloc, who, read_i64(moment)?)?;
    answered(blob_word(alloc, line))
}

/// The head and the body of a mail with its From line as it is asked for.
pub fn prepared(
    alloc: Global,
    renew: &[u8],
    logname: &[u8],
    moment: &[u8],
    mail: &[u8],
) -> Result<Words, Refused> {
    let message = prepared_message(alloc, renew, logname, read_i64(moment)?, mail)?;
    answered(parts_of(alloc, &message))
}

fn prepared_message(
    alloc: Global,
    renew: &[u8],
    logname: &[u8],
    moment: i64,
    mail: &[u8],
) -> Result<Message, Refused> {
    let renew = renew_of(alloc, renew)?;
    Ok(prepare(alloc, mail, &renew, logname, moment)?)
}

// The head and the body.
fn parts_of(alloc: Global, message: &Message) -> Result<Words, Memory> {
    let mut words = Vec::new(alloc);
    words.push(message.head.as_slice().to_vec(alloc)?)?;
    words.push(message.body.as_slice().to_vec(alloc)?)?;
    Ok(words)
}

/// The mail in one piece.
pub fn prepared_whole(
    alloc: Global,
    renew: &[u8],
    logname: &[u8],
    moment: &[u8],
    mail: &[u8],
) -> Result<Words, Refused> {
    let message = prepared_message(alloc, renew, logname, read_i64(moment)?, mail)?;
    answered(whole_word(alloc, &message))
}

fn whole_word(alloc: Global, message: &Message) -> Result<Words, Memory> {
    blob_word(alloc, whole(alloc, message)?)
}

fn feed_of(word: &[u8]) -> Result<Feed, Refused> {
    match text_of(word) {
        "both" => Ok(Feed::Both),
        "head" => Ok(Feed::Head),
        "body" => Ok(Feed::Body),
        _ => Err(Refused::Misread("both, head or body is fed")),
    }
}

fn place_of(word: &[u8]) -> Result<Place, Refused> {
    match text_of(word) {
        "H" => Ok(Place::H),
        "B" => Ok(Place::B),
        "HB" => Ok(Place::Hb),
        _ => Err(Refused::Misread("H, B or HB is searched")),
    }
}

fn kind_of(word: &[u8]) -> Result<Kind, Refused> {
    match text_of(word) {
        "mailbox" => Ok(Kind::MailboxFile),
        "other" => Ok(Kind::Other),
        _ => Err(Refused::Misread("a piece is for a mailbox or other")),
    }
}

fn raw_of(word: &[u8]) -> Result<bool, Refused> {
    match text_of(word) {
        "raw" => Ok(true),
        "ended" => Ok(false),
        _ => Err(Refused::Misread("a piece is raw or ended")),
    }
}

// A sender stands after `from:`.
fn renew_of(alloc: Global, word: &[u8]) -> Result<Renew, Refused> {
    match text_of(word) {
        "keep" => Ok(Renew::Keep),
        "missing" => Ok(Renew::AddMissing),
        "date" => Ok(Renew::Date),
        other => match other.strip_prefix("from:") {
            Some(who) => Ok(Renew::Sender(Blob::from_slice(alloc, who.as_bytes())?)),
            None => Err(Refused::Misread(
                "a From line is keep, missing, date or from: and a sender",
            )),
        },
    }
}

//! The macros of an expression, which are replaced before it is read.
ghost use Rattle.std.specs.Prelude.{◌≡◌, ℕ, ◌<◌, ◌≤◌, ◌++◌, List, length, take, OnOk, IfOk};
ghost use Rattle.pm_regex.specs.Macros.{macro_name, macro_text, macro_at, members_text, bracket_text, plain_span};
ghost use Rattle.pm_regex.specs.Macros.{put_for, Expands};
ghost use Rattle.pm_regex.specs.Expansion.{Puts, PutsPart};

use crate::error::ReadRefused;
use std::alloc::Global;

/// The greatest length of an expression after its macros, in bytes.
const MAX_LENGTH: usize = 65_536;

/// An abbreviation of an expression.
#[derive(Clone, Copy, Drop)]
pub enum Macro {
    ToAddress,
    ToWord,
    FromDaemon,
    FromMailer,
}

impl Macro {
    pub fn name(self) -> &'static [u8]
        ensures { result.now ≡ macro_name self }
    {
        match self {
            Macro::ToAddress => b"^TO_",
            Macro::ToWord => b"^TO",
            Macro::FromDaemon => b"^FROM_DAEMON",
            Macro::FromMailer => b"^FROM_MAILER",
        }
    }

    pub fn text(self) -> &'static [u8]
        ensures { result.now ≡ macro_text self }
    {
        match self {
            Macro::ToAddress =>
                b"(^((Original-)?(Resent-)?(To|Cc|Bcc)|(X-Envelope|Apparently(-Resent)?)-To):(.*[^-a-zA-Z0-9_.])?)",
            Macro::ToWord =>
                b"(^((Original-)?(Resent-)?(To|Cc|Bcc)|(X-Envelope|Apparently(-Resent)?)-To):(.*[^a-zA-Z])?)",
            Macro::FromDaemon =>
                b"(^(Mailing-List:|Precedence:.*(junk|bulk|list)|To: Multiple recipients of |\
                (((Resent-)?(From|Sender)|X-Envelope-From):|>?From )([^>]*[^(.%@a-z0-9])?(\
                Post(ma?(st(e?r)?|n)|office)|(send)?Mail(er)?|daemon|m(mdf|ajordomo)|n?uucp|LIST(SERV|proc)|NETSERV|\
                o(wner|ps)|\
                r(e(quest|sponse)|oot)|b(ounce|bs\\.smtp)|echo|mirror|s(erv(ices?|er)|mtp(error)?|ystem)|\
                A(dmin(istrator)?|MMGR|utoanswer))(([^).!:a-z0-9][-_a-z0-9]*)?[%@>\t ][^<)]*(\\(.*\\).*)?)?$([^>]|$)))",
            Macro::FromMailer =>
                b"(^(((Resent-)?(From|Sender)|X-Envelope-From):|>?From )([^>]*[^(.%@a-z0-9])?(\
                Post(ma(st(er)?|n)|office)|(send)?Mail(er)?|daemon|mmdf|n?uucp|ops|r(esponse|oot)|\
                (bbs\\.)?smtp(error)?|\
                s(erv(ices?|er)|ystem)|A(dmin(istrator)?|MMGR))\
                (([^).!:a-z0-9][-_a-z0-9]*)?[%@>\t ][^<)]*(\\(.*\\).*)?)?$([^>]|$))",
        }
    }
}

/// The macro that stands at the front of a text.
fn macro_at(text: &[u8]) -> Option<Macro>
    ensures { result ≡ macro_at text.now }
{
    if text.starts_with(Macro::ToAddress.name()) {
        return Some(Macro::ToAddress);
    }
    if text.starts_with(Macro::ToWord.name()) {
        return Some(Macro::ToWord);
    }
    if text.starts_with(Macro::FromDaemon.name()) {
        return Some(Macro::FromDaemon);
    }
    if text.starts_with(Macro::FromMailer.name()) {
        return Some(Macro::FromMailer);
    }
    None
}

/// How many bytes a bracket expression has after its `[` or `[^`.
fn members_length(text: &[u8]) -> usize
    ensures within { result ≤ length text.now }
    ensures text { take result text.now ≡ members_text text.now }
{
    for place in 1..text.len() {
        if text[place] == b']' {
            return place + 1;
        }
    }
    text.len()
}

/// How many bytes it has after its `[`.
fn bracket_length(text: &[u8]) -> usize
    ensures within { result ≤ length text.now }
    ensures text { take result text.now ≡ bracket_text text.now }
{
    if text.is_empty() || text[0] != b'^' {
        return members_length(text);
    }
    1 + members_length(&text[1..])
}

/// How many bytes the first part of a text has where no macro stands.
fn plain_length(text: &[u8]) -> usize
    requires { 0 < length text.now }
    ensures within { result ≤ length text.now }
    ensures text { take result text.now ≡ plain_span text.now }
{
    if text.len() == 1 {
        return 1;
    }
    if text[0] == b'\\' {
        return 2;
    }
    if text[0] == b'[' {
        return 1 + bracket_length(&text[1..]);
    }
    if text[0] == b'^' && text[1] == b'^' {
        return 2;
    }
    1
}

/// Adds bytes to the text after its macros.
fn put(after: &mut Vec<u8>, bytes: &[u8]) -> Result<(), ReadRefused>
    requires { length after.old.items ≤ 65536 }
    ensures ok { OnOk result (Puts after.old.items bytes.now after.new.items) }
    ensures defect { result ≡ Err ReadRefused.Defect → 65536 < length (after.old.items ++ bytes.now) }
{
    if MAX_LENGTH - after.len() < bytes.len() {
        return Err(ReadRefused::Defect);
    }
    after.extend_from_slice(bytes)?;
    Ok(())
}

/// Puts what stands for the first part of the text, and answers how many bytes that part has.
fn put_part(after: &mut Vec<u8>, text: &[u8]) -> Result<usize, ReadRefused>
    requires some { 0 < length text.now }
    requires room { length after.old.items ≤ 65536 }
    ensures ok { IfOk result (PutsPart text.now after.old.items after.new.items) }
    ensures defect { result ≡ Err ReadRefused.Defect
        → 65536 < length (after.old.items ++ put_for (macro_at text.now) text.now) }
{
    match macro_at(text) {
        Some(found) => {
            put(after, found.text())?;
            Ok(found.name().len())
        }
        None => {
            let length = plain_length(text);
            put(after, &text[..length])?;
            Ok(length)
        }
    }
}

/// The text after its macros are replaced. `Defect` means that it is longer than the limit.
pub fn expand(alloc: Global, text: &[u8]) -> Result<Vec<u8>, ReadRefused>
    ensures ok { IfOk result (λ after. Expands text.now after.items × (length after.items ≤ 65536)) }
    ensures defect { result ≡ Err ReadRefused.Defect → (after : List ℕ) → Expands text.now after
        → 65536 < length after }
{
    let mut after = Vec::new(alloc);
    let mut place = 0;
    while place < text.len() {
        place += put_part(&mut after, &text[place..])?;
    }
    Ok(after)
}

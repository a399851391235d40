//! A run of formail.
ghost use Rattle.std.specs.Prelude.{◌≡◌, ◌≤◌, ◌⊎◌, ℕ, List, false, Some, IfOk, IfSome, OnErr, map, string_bytes};
ghost use Rattle.formail_split.specs.Parts.{parts_of};
ghost use Rattle.formail_extra.specs.Stepping.{step_end};
ghost use Rattle.formail_top.specs.Run.{IsOutput, AsksAtMost, WritesAll, Writes, Puts, kept_status, PutsKept};
ghost use Rattle.formail_top.specs.Run.{AfterStep, Remembers, Treats, LeavesCache, Leaves, LeavesOff, Ended};
ghost use Rattle.formail_top.specs.Outputs.{mails_of};
ghost use Rattle.std.specs.List.{list_any, concat};

use crate::feeding::{command, feed, moment_for};
use crate::fronts::{unchanged_front, writes_mailbox};
use crate::outputs::{ids, kept_mails, mails, outputs};
use crate::request::read_request;
use crate::{Cache, Request};
use formail_extra::{CacheEnd, cache_step};
use pm_bytes::{Blob, Environ, Memory, Pairs};
use pm_host::{Child, Host, Sink, Source};
use pm_streams::{Mail, read_mail, write_texts};
use std::alloc::Global;

// The output for some mails, in parts, for which the host may be asked for the moment.
fn output<H: Host>(
    alloc: Global,
    mails: &[Blob],
    request: &Request,
    host: &mut H,
) -> Result<Vec<Blob>, Memory>
    ensures ok { IfOk result
        (λ texts. IsOutput request.now mails.now (concat texts.items) (H.told host.old) (H.told host.new)) }
    ensures memory { OnErr result (AsksAtMost (H.told host.old) (H.told host.new)) }
    ensures child { (H.told host.new).child ≡ (H.told host.old).child }
{
    let moment = moment_for(alloc, mails, request, host)?;
    let texts = outputs(alloc, mails, request, moment)?;
    Ok(texts)
}

// Room for short texts: as much as they all want, but not so much that to clear it costs more than it saves.
fn room_for(texts: &[Blob]) -> usize {
    let mut room: usize = 0;
    for text in texts {
        room = room.saturating_add(text.len());
    }
    room.min(65_536)
}

// Texts are written one after the other, and the status says whether all of them were.
fn write_all<O: Sink>(alloc: Global, texts: &[Blob], out: &mut O) -> Result<u8, Memory>
    ensures ok { IfOk result (λ status. WritesAll (concat texts.now) status (O.told out.old) (O.told out.new)) }
    ensures unwritten { OnErr result (O.told out.new ≡ O.told out.old) }
{
    let mut room = vec![in alloc; 0u8; room_for(texts)]?;
    if write_texts(out, texts, room.as_mut_slice()) {
        Ok(0)
    } else {
        Ok(74)
    }
}

// The output is written, and the status says whether all of it was.
fn write<H: Host, O: Sink>(
    alloc: Global,
    mails: &[Blob],
    request: &Request,
    host: &mut H,
    out: &mut O,
) -> Result<u8, Memory>
    ensures ok { IfOk result (λ status. Writes request.now mails.now status
        (H.told host.old) (H.told host.new) (O.told out.old) (O.told out.new)) }
    ensures asked { OnErr result (AsksAtMost (H.told host.old) (H.told host.new)) }
    ensures unwritten { OnErr result (O.told out.new ≡ O.told out.old) }
    ensures child { (H.told host.new).child ≡ (H.told host.old).child }
{
    let texts = output(alloc, mails, request, host)?;
    let status = write_all(alloc, texts.as_slice(), out)?;
    Ok(status)
}

// The same for all mails of a mailbox: those at its front that are written as they stand go there in one text.
fn write_mailbox<H: Host, O: Sink>(
    alloc: Global,
    mailbox: &Blob,
    request: &Request,
    host: &mut H,
    out: &mut O,
) -> Result<u8, Memory>
    requires mails { (bytes : List ℕ) → mails_of request.now bytes ≡ parts_of bytes }
    requires reply { request.now.reply ≡ false }
    ensures ok { IfOk result (λ status. Writes request.now (mails_of request.now mailbox.now) status
        (H.told host.old) (H.told host.new) (O.told out.old) (O.told out.new)) }
    ensures asked { OnErr result (AsksAtMost (H.told host.old) (H.told host.new)) }
    ensures unwritten { OnErr result (O.told out.new ≡ O.told out.old) }
    ensures child { (H.told host.new).child ≡ (H.told host.old).child }
{
    let front = unchanged_front(alloc, mailbox, request)?;
    let rest = mailbox.part(alloc, front, mailbox.len())?;
    let mails = mails(alloc, &rest, request)?;
    let mut texts = output(alloc, mails.as_slice(), request, host)?;
    texts.insert(0, mailbox.part(alloc, 0, front)?)?;
    let status = write_all(alloc, texts.as_slice(), out)?;
    Ok(status)
}

// What the words ask for, and the variables of the environment that a program gets.
#[derive(Clone, Copy)]
struct Asked<'a> {
    request: &'a Request,
    vars: &'a Pairs,
}

// The output for some mails is written, or given to children.
fn finish<H: Host, O: Sink>(
    alloc: Global,
    mails: &[Blob],
    asked: Asked<'_>,
    host: &mut H,
    out: &mut O,
) -> Result<u8, Memory>
    requires { (H.told host.old).child ≡ Child.NoChild }
    ensures ok { let request = asked.entry.request.now in
        IfOk result (λ status. Puts request.program request asked.entry.vars.now mails.now status
        (H.told host.old) (H.told host.new) (O.told out.old) (O.told out.new)) }
    ensures asked { OnErr result (AsksAtMost (H.told host.old) (H.told host.new)) }
    ensures unwritten { OnErr result (O.told out.new ≡ O.told out.old) }
    ensures none { (H.told host.new).child ≡ Child.NoChild }
{
    let Some(program) = &asked.request.program else {
        return write(alloc, mails, asked.request, host, out);
    };
    let command = command(alloc, program, &asked.request.arguments, asked.vars)?;
    feed(alloc, mails, asked.request, &command, host)
}

fn any_kept(kept: &[bool]) -> bool
    ensures { result ≡ list_any (λ keep. keep) kept.now }
{
    kept.iter().any(|keep| *keep)
}

fn status_of(kept: &[bool]) -> u8
    ensures { result ≡ kept_status kept.now }
{
    if any_kept(kept) { 1 } else { 0 }
}

// The mails that are kept are put where the words ask for, or the status says whether one is.
fn finish_kept<H: Host, O: Sink>(
    alloc: Global,
    mails: &[Blob],
    kept: &[bool],
    asked: Asked<'_>,
    host: &mut H,
    out: &mut O,
) -> Result<u8, Memory>
    requires { (H.told host.old).child ≡ Child.NoChild }
    ensures ok { let request = asked.entry.request.now in IfOk result
        (λ status. PutsKept request.split kept.now request asked.entry.vars.now mails.now status
        (H.told host.old) (H.told host.new) (O.told out.old) (O.told out.new)) }
    ensures asked { OnErr result (AsksAtMost (H.told host.old) (H.told host.new)) }
    ensures unwritten { OnErr result (O.told out.new ≡ O.told out.old) }
    ensures none { (H.told host.new).child ≡ Child.NoChild }
{
    if !asked.request.split {
        return Ok(status_of(kept));
    }
    let left = kept_mails(alloc, mails, kept)?;
    let status = finish(alloc, left.as_slice(), asked, host, out)?;
    Ok(status)
}

// What comes after the step with the cache.
fn after_step<H: Host, O: Sink>(
    alloc: Global,
    end: &CacheEnd,
    mails: &[Blob],
    asked: Asked<'_>,
    host: &mut H,
    out: &mut O,
) -> Result<u8, Memory>
    requires { (H.told host.old).child ≡ Child.NoChild }
    ensures ok { IfOk result (λ status. AfterStep end.now asked.entry.request.now asked.entry.vars.now mails.now status
        (H.told host.old) (H.told host.new) (O.told out.old) (O.told out.new)) }
    ensures asked { OnErr result (AsksAtMost (H.told host.old) (H.told host.new)) }
    ensures unwritten { OnErr result (O.told out.new ≡ O.told out.old) }
    ensures none { (H.told host.new).child ≡ Child.NoChild }
{
    match end {
        CacheEnd::Kept(kept) => {
            let kept = kept.as_slice();
            finish_kept(alloc, mails, kept, asked, host, out)
        }
        CacheEnd::Busy => Ok(73),
        CacheEnd::IsFolder => Ok(73),
        CacheEnd::Failed => Ok(74),
        CacheEnd::Raced => Ok(73),
        CacheEnd::Memory => Err(Memory),
    }
}

// The end of a step that was made.
fn made(end: CacheEnd) -> Result<CacheEnd, Memory>
    ensures ok { IfOk result (λ made. step_end end ≡ Some made) }
    ensures memory { OnErr result (end ≡ CacheEnd.Memory) }
{
    match end {
        CacheEnd::Memory => Err(Memory),
        CacheEnd::Kept(kept) => Ok(CacheEnd::Kept(kept)),
        CacheEnd::Busy => Ok(CacheEnd::Busy),
        CacheEnd::IsFolder => Ok(CacheEnd::IsFolder),
        CacheEnd::Failed => Ok(CacheEnd::Failed),
        CacheEnd::Raced => Ok(CacheEnd::Raced),
    }
}

// The mails are held against the cache.
fn remember<H: Host, O: Sink>(
    alloc: Global,
    cache: &Cache,
    mails: &[Blob],
    asked: Asked<'_>,
    host: &mut H,
    out: &mut O,
) -> Result<u8, Memory>
    requires none { (H.told host.old).child ≡ Child.NoChild }
    requires most { cache.now.most ≤ 1048576 }
    ensures ok { IfOk result
        (λ status. Remembers cache.now asked.entry.request.now asked.entry.vars.now mails.now status
        (H.told host.old) (H.told host.new) (O.told out.old) (O.told out.new)) }
    ensures left { OnErr result (LeavesCache cache.now (H.told host.old) (H.told host.new)) }
    ensures unwritten { OnErr result (O.told out.new ≡ O.told out.old) }
    ensures none { (H.told host.new).child ≡ Child.NoChild }
{
    let ids = ids(alloc, mails, asked.request)?;
    let end = made(cache_step(alloc, host, &cache.name, cache.most, ids.as_slice()))?;
    let status = after_step(alloc, &end, mails, asked, host, out)?;
    Ok(status)
}

// What becomes of some mails.
fn treat<H: Host, O: Sink>(
    alloc: Global,
    mails: &[Blob],
    asked: Asked<'_>,
    host: &mut H,
    out: &mut O,
) -> Result<u8, Memory>
    requires none { (H.told host.old).child ≡ Child.NoChild }
    requires most { IfSome asked.request.now.cache (λ cache. cache.most ≤ 1048576) }
    ensures ok { IfOk result
        (λ status. Treats asked.entry.request.now.cache asked.entry.request.now asked.entry.vars.now mails.now status
        (H.told host.old) (H.told host.new) (O.told out.old) (O.told out.new)) }
    ensures left { OnErr result (Leaves asked.entry.request.now.cache (H.told host.old) (H.told host.new)) }
    ensures unwritten { OnErr result (O.told out.new ≡ O.told out.old) }
    ensures none { (H.told host.new).child ≡ Child.NoChild }
{
    let Some(cache) = &asked.request.cache else {
        return finish(alloc, mails, asked, host, out);
    };
    remember(alloc, cache, mails, asked, host, out)
}

// What becomes of an input.
fn treat_all<H: Host, O: Sink>(
    alloc: Global,
    bytes: &Blob,
    asked: Asked<'_>,
    host: &mut H,
    out: &mut O,
) -> Result<u8, Memory>
    requires none { (H.told host.old).child ≡ Child.NoChild }
    requires most { IfSome asked.request.now.cache (λ cache. cache.most ≤ 1048576) }
    ensures ok { let request = asked.entry.request.now in IfOk result
        (λ status. Treats request.cache request asked.entry.vars.now (mails_of request bytes.now) status
        (H.told host.old) (H.told host.new) (O.told out.old) (O.told out.new)) }
    ensures left { OnErr result ((H.told host.new ≡ H.told host.old)
        ⊎ Leaves asked.entry.request.now.cache (H.told host.old) (H.told host.new)) }
    ensures unwritten { OnErr result (O.told out.new ≡ O.told out.old) }
    ensures none { (H.told host.new).child ≡ Child.NoChild }
{
    if writes_mailbox(asked.request) {
        let status = write_mailbox(alloc, bytes, asked.request, host, out)?;
        return Ok(status);
    }
    let mails = mails(alloc, bytes, asked.request)?;
    let status = treat(alloc, mails.as_slice(), asked, host, out)?;
    Ok(status)
}

// Everything but the status of a run for which memory is wanting.
fn run<S: Source, H: Host, O: Sink>(
    alloc: Global,
    words: &[String],
    env: &Environ,
    source: &mut S,
    host: &mut H,
    out: &mut O,
) -> Result<u8, Memory>
    requires { (H.told host.old).child ≡ Child.NoChild }
    ensures ok { IfOk result (λ status. Ended (map string_bytes words.now) env.now.vars status (record {
      source = S.told source.old;
      source' = S.told source.new;
      host = H.told host.old;
      host' = H.told host.new;
      out = O.told out.old;
      out' = O.told out.new;
    })) }
    ensures left { OnErr result (LeavesOff (map string_bytes words.now) (H.told host.old) (H.told host.new)) }
    ensures unwritten { OnErr result (O.told out.new ≡ O.told out.old) }
    ensures none { (H.told host.new).child ≡ Child.NoChild }
{
    let Some(request) = read_request(alloc, words)? else {
        return Ok(64);
    };
    match read_mail(alloc, source)? {
        Mail::TooMany => Ok(65),
        Mail::Failed => Ok(74),
        Mail::Bytes(mut bytes) => {
            bytes.share()?;
            let asked = Asked {
                request: &request,
                vars: &env.vars,
            };
            let status = treat_all(alloc, &bytes, asked, host, out)?;
            Ok(status)
        }
    }
}

/// Reads the source to its end, does what the words ask for, and gives the status that the program ends with
/// (formail(1)). Without a program: 0 where all was written, 74 where a read or a write failed. With one: 0 where each
/// child took its mail whole and ended with code 0, 1 where one didn't, 74 where a read failed, a child wasn't started,
/// or a call failed while it ran. With `-D` and without `-s`: 0 where the mail was seen before, 1 where it wasn't; and
/// with `-D` 73 where the cache's lock stays taken or the cache can't be used, 74 where a call failed. 64 says that the
/// words aren't read, 65 that the input has more than 67,108,864 bytes, 71 that memory is wanting.
pub fn formail<S: Source, H: Host, O: Sink, E: Sink>(
    alloc: Global,
    words: &[String],
    env: &Environ,
    source: &mut S,
    host: &mut H,
    out: &mut O,
    _err: &mut E,
) -> u8
    requires { (H.told host.old).child ≡ Child.NoChild }
    ensures ended { Ended (map string_bytes words.now) env.now.vars result (record {
      source = S.told source.old;
      source' = S.told source.new;
      host = H.told host.old;
      host' = H.told host.new;
      out = O.told out.old;
      out' = O.told out.new;
    }) }
    ensures quiet { E.told _err.new ≡ E.told _err.old }
    ensures none { (H.told host.new).child ≡ Child.NoChild }
{
    match run(alloc, words, env, source, host, out) {
        Ok(status) => status,
        Err(Memory) => 71,
    }
}

//! All that the words ask for.
ghost use Rattle.std.specs.Prelude.{◌≡◌, IfOk, OnOk, map, string_bytes, count_by};
ghost use Rattle.std.specs.List.{list_any, list_all};
ghost use Rattle.formail_top.specs.Asked.{is_split, is_skip, is_total, is_reply, is_trust, is_barred, is_once};
ghost use Rattle.formail_top.specs.Asked.{is_ranged, is_range_sound, is_reply_sound, is_cache, is_beside_cache};
ghost use Rattle.formail_top.specs.Asked.{is_cache_sound, is_sound, nothing, asked, request_of, request_in};
ghost use Rattle.formail_top.specs.Asked.{request_for};

use crate::words::read_words;
use crate::{Cache, Setting};
use formail_edit::{Edits, Listed};
use pm_bytes::{Blob, Memory, Name};
use std::alloc::Global;

/// What formail is asked to do (formail(1)).
#[derive(Drop)]
pub struct Request {
    pub edits: Edits,
    /// `-r`: the header of a reply is written in place of the mail.
    pub reply: bool,
    /// `-t`: a reply goes to whom the header names.
    pub trust: bool,
    /// `-D`: where the identifiers of mails are remembered.
    pub cache: Option<Cache>,
    /// `-s`: the input is a mailbox.
    pub split: bool,
    /// `+N`: so many of its mails are left out at its front.
    pub skip: u64,
    /// `-N`: at most so many others are wanted.
    pub total: Option<u64>,
    /// The program after `-s`: each mail's output is the input of a child of its own.
    pub program: Option<Name>,
    /// Its words.
    pub arguments: Listed<Name>,
}

fn splits(setting: &Setting) -> bool
    ensures { result ≡ is_split setting.now }
{
    match setting {
        Setting::Split => true,
        _ => false,
    }
}

fn skips(setting: &Setting) -> bool
    ensures { result ≡ is_skip setting.now }
{
    match setting {
        Setting::Skip(_) => true,
        _ => false,
    }
}

fn bounds_total(setting: &Setting) -> bool
    ensures { result ≡ is_total setting.now }
{
    match setting {
        Setting::Total(_) => true,
        _ => false,
    }
}

fn replies(setting: &Setting) -> bool
    ensures { result ≡ is_reply setting.now }
{
    match setting {
        Setting::Reply => true,
        _ => false,
    }
}

fn trusts(setting: &Setting) -> bool
    ensures { result ≡ is_trust setting.now }
{
    match setting {
        Setting::Trust => true,
        _ => false,
    }
}

fn bars_reply(setting: &Setting) -> bool
    ensures { result ≡ is_barred setting.now }
{
    match setting {
        Setting::Take(_) => true,
        Setting::Rename(_) => true,
        _ => false,
    }
}

fn count_skips(settings: &[Setting]) -> usize
    ensures { result ≡ count_by is_skip settings.now }
{
    let mut count = 0;
    for setting in settings {
        if skips(setting) {
            count += 1;
        }
    }
    count
}

fn count_totals(settings: &[Setting]) -> usize
    ensures { result ≡ count_by is_total settings.now }
{
    let mut count = 0;
    for setting in settings {
        if bounds_total(setting) {
            count += 1;
        }
    }
    count
}

fn has_skip(settings: &[Setting]) -> bool
    ensures { result ≡ list_any is_skip settings.now }
{
    settings.iter().any(|setting| skips(setting))
}

fn has_total(settings: &[Setting]) -> bool
    ensures { result ≡ list_any is_total settings.now }
{
    settings.iter().any(|setting| bounds_total(setting))
}

fn has_split(settings: &[Setting]) -> bool
    ensures { result ≡ list_any is_split settings.now }
{
    settings.iter().any(|setting| splits(setting))
}

fn has_reply(settings: &[Setting]) -> bool
    ensures { result ≡ list_any is_reply settings.now }
{
    settings.iter().any(|setting| replies(setting))
}

fn has_trust(settings: &[Setting]) -> bool
    ensures { result ≡ list_any is_trust settings.now }
{
    settings.iter().any(|setting| trusts(setting))
}

fn has_barred(settings: &[Setting]) -> bool
    ensures { result ≡ list_any is_barred settings.now }
{
    settings.iter().any(|setting| bars_reply(setting))
}

// Whether `+N` and `-N` stand at most once each.
fn stand_once(settings: &[Setting]) -> bool
    ensures { result ≡ is_once settings.now }
{
    count_skips(settings) <= 1 && count_totals(settings) <= 1
}

fn has_range(settings: &[Setting]) -> bool
    ensures { result ≡ is_ranged settings.now }
{
    has_skip(settings) || has_total(settings)
}

fn has_sound_range(settings: &[Setting]) -> bool
    ensures { result ≡ is_range_sound settings.now }
{
    stand_once(settings) && (has_split(settings) || !has_range(settings))
}

// Whether `-t` stands only with `-r`, and `-x`, `-X` and `-R` don't stand with it.
fn has_sound_reply(settings: &[Setting]) -> bool
    ensures { result ≡ is_reply_sound settings.now }
{
    if has_reply(settings) {
        !has_barred(settings)
    } else {
        !has_trust(settings)
    }
}

fn caches(setting: &Setting) -> bool
    ensures { result ≡ is_cache setting.now }
{
    match setting {
        Setting::Cache(_) => true,
        _ => false,
    }
}

fn goes_with_cache(setting: &Setting) -> bool
    ensures { result ≡ is_beside_cache setting.now }
{
    match setting {
        Setting::Cache(_) => true,
        Setting::Split => true,
        Setting::Program(_) => true,
        Setting::Argument(_) => true,
        Setting::Skip(_) => true,
        Setting::Total(_) => true,
        Setting::KeepFrom => true,
        Setting::KeepBody => true,
        Setting::Reply => true,
        _ => false,
    }
}

fn has_cache(settings: &[Setting]) -> bool
    ensures { result ≡ list_any is_cache settings.now }
{
    settings.iter().any(|setting| caches(setting))
}

fn count_caches(settings: &[Setting]) -> usize
    ensures { result ≡ count_by is_cache settings.now }
{
    let mut count = 0;
    for setting in settings {
        if caches(setting) {
            count += 1;
        }
    }
    count
}

fn all_go_with_cache(settings: &[Setting]) -> bool
    ensures { result ≡ list_all is_beside_cache settings.now }
{
    settings.iter().all(|setting| goes_with_cache(setting))
}

fn has_sound_cache(settings: &[Setting]) -> bool
    ensures { result ≡ is_cache_sound settings.now }
{
    if !has_cache(settings) {
        return true;
    }
    count_caches(settings) <= 1 && all_go_with_cache(settings)
}

fn are_sound(settings: &[Setting]) -> bool
    ensures { result ≡ is_sound settings.now }
{
    has_sound_range(settings) && has_sound_reply(settings) && has_sound_cache(settings)
}

fn nothing_asked(alloc: Global) -> Result<Request, Memory>
    ensures { IfOk result (λ request. request ≡ nothing) }
{
    Ok(Request {
        edits: Edits {
            renames: Listed::empty(alloc),
            puts: Listed::empty(alloc),
            uniques: Listed::empty(alloc),
            takes: Listed::empty(alloc),
            prefix: Blob::from_slice(alloc, b">")?,
            keep_from: false,
            keep_body: false,
            zap: false,
            join: false,
            with_body: false,
        },
        reply: false,
        trust: false,
        split: false,
        cache: None,
        skip: 0,
        total: None,
        program: None,
        arguments: Listed::empty(alloc),
    })
}

fn ask(request: &mut Request, setting: Setting) -> Result<(), Memory>
    ensures { OnOk result (request.new ≡ asked request.old setting) }
{
    match setting {
        Setting::Join => request.edits.join = true,
        Setting::Zap => request.edits.zap = true,
        Setting::KeepFrom => request.edits.keep_from = true,
        Setting::KeepBody => request.edits.keep_body = true,
        Setting::WithBody => request.edits.with_body = true,
        Setting::Prefix(text) => request.edits.prefix = text,
        Setting::Take(wanted) => request.edits.takes.push(wanted)?,
        Setting::Put(put) => request.edits.puts.push(put)?,
        Setting::Unique(unique) => request.edits.uniques.push(unique)?,
        Setting::Rename(rename) => request.edits.renames.push(rename)?,
        Setting::Reply => request.reply = true,
        Setting::Trust => request.trust = true,
        Setting::Cache(cache) => request.cache = Some(cache),
        Setting::Split => request.split = true,
        Setting::Skip(count) => request.skip = count,
        Setting::Total(count) => request.total = Some(count),
        Setting::Program(name) => request.program = Some(name),
        Setting::Argument(word) => request.arguments.push(word)?,
    }
    Ok(())
}

fn gather(alloc: Global, settings: Vec<Setting>) -> Result<Request, Memory>
    ensures { IfOk result (λ request. request ≡ request_of settings.items) }
{
    let mut request = nothing_asked(alloc)?;
    for setting in settings {
        ask(&mut request, setting)?;
    }
    Ok(request)
}

/// What the words ask for. `None` comes exactly where they aren't read; `Memory` is the only error.
pub fn read_request(alloc: Global, words: &[String]) -> Result<Option<Request>, Memory>
    ensures { IfOk result (λ request. request ≡ request_for (map string_bytes words.now)) }
{
    let Some(settings) = read_words(alloc, words)? else {
        return Ok(None);
    };
    if !are_sound(settings.as_slice()) {
        return Ok(None);
    }
    Ok(Some(gather(alloc, settings)?))
}

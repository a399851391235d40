//! The lock of a cache by LOCKFILE that is brought over.
ghost use Rattle.std.specs.Prelude.{◌≡◌, ◌++◌, ◌||◌, IfOk, OnOk, nat_eq};
ghost use Rattle.check_fix.specs.Locks;
ghost use Rattle.check_fix.specs.Locks.{without_end};
ghost use Rattle.check_fix.specs.Locks.{held_edits};

use crate::edits::{Edit, put};
use crate::parts::{has_part, is, unquoted};
use pm_bytes::{Blob, Memory};
use pm_recipe::Span;
use std::alloc::Global;

fn without_end(count: usize, text: &[u8]) -> &[u8]
    ensures { result.now ≡ without_end count text.now }
{
    &text[..text.len().saturating_sub(count)]
}

fn cache_of(name: &[u8]) -> &[u8]
    ensures { result.now ≡ Locks.cache_of name.now }
{
    if name.ends_with(b".lock") {
        without_end(5, name)
    } else if name.ends_with(b"$LOCKEXT") {
        without_end(8, name)
    } else if name.ends_with(b"${LOCKEXT}") {
        without_end(10, name)
    } else {
        &[]
    }
}

fn is_brace(byte: u8) -> bool
    ensures { result ≡ (nat_eq byte 123 || nat_eq byte 125) }
{
    byte == b'{' || byte == b'}'
}

fn without_braces(alloc: Global, text: &[u8]) -> Result<Vec<u8>, Memory>
    ensures { IfOk result (λ plain. plain.items ≡ Locks.without_braces text.now) }
{
    let mut plain = Vec::new(alloc);
    let mut rest = text;
    while let Some((byte, after)) = rest.split_first() {
        if !is_brace(*byte) {
            plain.push(*byte)?;
        }
        rest = after;
    }
    Ok(plain)
}

fn calls_cache(text: &[u8]) -> bool
    ensures { result ≡ Locks.calls_cache text.now }
{
    has_part(b"formail -D", text)
        || has_part(b"FORMAIL -D", text)
        || has_part(b"formail -rD", text)
        || has_part(b"FORMAIL -rD", text)
}

fn uses_cache(cache: &[u8], text: &[u8]) -> bool
    ensures { result ≡ Locks.uses_cache cache.now text.now }
{
    calls_cache(text) && has_part(cache, text)
}

fn span_uses(alloc: Global, cache: &[u8], span: &Span<'_>) -> Result<bool, Memory>
    ensures { IfOk result (λ uses. uses ≡ Locks.uses_cache cache.now (Locks.without_braces span.now.bytes.now)) }
{
    let plain = without_braces(alloc, span.bytes)?;
    Ok(uses_cache(cache, plain.as_slice()))
}

fn cache_follows(alloc: Global, cache: &[u8], spans: &[Span<'_>]) -> Result<bool, Memory>
    ensures { IfOk result (λ uses. uses ≡ Locks.cache_follows cache.now spans.now) }
{
    for span in spans {
        if is(span.name, b"LOCKFILE") {
            return Ok(false);
        }
        if span_uses(alloc, cache, span)? {
            return Ok(true);
        }
    }
    Ok(false)
}

fn locks_cache(alloc: Global, cache: &[u8], spans: &[Span<'_>]) -> Result<bool, Memory>
    ensures { IfOk result (λ is. is ≡ Locks.locks_cache cache.now spans.now) }
{
    if is(cache, b"") {
        Ok(false)
    } else {
        cache_follows(alloc, cache, spans)
    }
}

/// LOCKFILE by the lock file of a cache that is used after it.
pub fn put_held(
    alloc: Global,
    span: &Span<'_>,
    spans: &[Span<'_>],
    edits: &mut Vec<Edit>,
) -> Result<(), Memory>
    ensures { OnOk result (edits.new.items ≡ edits.old.items
        ++ held_edits span.now.first span.now.bytes.now span.now.text.now spans.now) }
{
    let cache = without_braces(alloc, cache_of(unquoted(span.text)))?;
    if locks_cache(alloc, cache.as_slice(), spans)? {
        put(alloc, span, span.text, span.text.len(), &[], edits)
    } else {
        Ok(())
    }
}

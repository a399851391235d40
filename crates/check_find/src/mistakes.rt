//! Mistakes of an rcfile that procmail doesn't log, found by one pass over its spans.
use crate::actions::{
    has_tilde, has_words, is_device, lacks_filter, lacks_lock, lacks_star, lacks_wait, locks_cache,
    loses_part,
};
use crate::codes::Mistake;
use crate::judged::put_judged;
use crate::notices::{Notice, put_if};
use crate::words::{first_word, from_part, has_part, past_blanks, past_word};
use pm_bytes::{Blob, COLON, DOLLAR, HASH, Memory, NEWLINE, is_blank};
use pm_recipe::{Flags, Kind, Span, read_flags, read_lock};
use std::alloc::Global;

// What is known where the pass stands.
#[derive(Drop)]
struct Standing {
    // The flags of the last colon line, its lock's text, and whether conditions stood after it.
    flags: Flags,
    lock: Option<Blob>,
    has_conditions: bool,
    // How many blocks are open, and the outermost of them that holds a lock file; 0 for none.
    depth: usize,
    held: usize,
    // Whether LOCKFILE is set.
    is_global: bool,
    // The line after the last action, or 0.
    next_line: u64,
    // The depth of a block whose mails are all delivered here.
    ended: Option<usize>,
}

// What is known of the whole text.
#[derive(Drop)]
struct Known<'a> {
    // Whether some condition keeps mails from going in circles.
    stops_loops: bool,
    // The directories that programs change to.
    folders: Vec<&'a [u8]>,
}

/// The mistakes in these spans, in their order.
pub fn notices_in<'a>(alloc: Global, spans: &[Span<'a>]) -> Result<Vec<Notice<'a>>, Memory> {
    let mut notices = Vec::new(alloc);
    let mut standing = Standing {
        flags: read_flags(b":0"),
        lock: None,
        has_conditions: false,
        depth: 0,
        held: 0,
        is_global: false,
        next_line: 0,
        ended: None,
    };
    let known = Known {
        stops_loops: spans.iter().any(|span| stops_loops(span)),
        folders: folders_in(alloc, spans)?,
    };
    for span in spans {
        note(alloc, span, &known, &standing, &mut notices)?;
        standing = after(alloc, span, standing)?;
    }
    Ok(notices)
}

// The names after `cd` in programs' lines.
fn folders_in<'a>(alloc: Global, spans: &[Span<'a>]) -> Result<Vec<&'a [u8]>, Memory> {
    let mut folders = Vec::new(alloc);
    for span in spans {
        match span.kind {
            Kind::Pipe => {
                if let Some(line) = from_part(span.text, b"cd ") {
                    folders.push(first_word(past_word(line)))?;
                }
            }
            _ => {}
        }
    }
    Ok(folders)
}

fn is_among(folders: &[&[u8]], name: &[u8]) -> bool {
    folders.iter().any(|folder| *folder == name)
}

fn stops_loops(span: &Span<'_>) -> bool {
    match span.kind {
        Kind::Condition => {
            has_part(span.text, b"x-loop")
                || has_part(span.text, b"from_daemon")
                || has_part(span.text, b"from_mailer")
        }
        _ => false,
    }
}

fn note<'a>(
    alloc: Global,
    span: &Span<'a>,
    known: &Known<'a>,
    standing: &Standing,
    notices: &mut Vec<Notice<'a>>,
) -> Result<(), Memory> {
    match span.kind {
        Kind::Colon => put_if(
            has_variable(span.text),
            Mistake::ColonVariable,
            span,
            notices,
        ),
        Kind::Condition => {
            let late = is_late(standing);
            put_if(late, Mistake::Unreachable, span, notices)?;
            put_judged(alloc, standing.flags, span, notices)
        }
        Kind::Mailbox => put_mailbox(known, standing, span, notices),
        Kind::Pipe => put_program(standing, span, notices),
        Kind::Forward => put_forward(known, standing, span, notices),
        Kind::Assign => put_if(has_tilde(span.text), Mistake::Tilde, span, notices),
        Kind::Unset => put_if(
            is_bare_word(standing, span),
            Mistake::BareWord,
            span,
            notices,
        ),
        _ => Ok(()),
    }
}

// A `$` among the flags.
fn has_variable(text: &[u8]) -> bool {
    let mut before = COLON;
    for byte in text.iter().skip(1) {
        if *byte == COLON || (*byte == HASH && is_blank(before)) {
            return false;
        }
        if *byte == DOLLAR {
            return true;
        }
        before = *byte;
    }
    false
}

fn is_late(standing: &Standing) -> bool {
    match standing.ended {
        None => false,
        Some(depth) => depth == standing.depth && !standing.flags.on_error,
    }
}

fn is_bare_word(standing: &Standing, span: &Span<'_>) -> bool {
    span.line == standing.next_line && span.name.iter().any(|byte| byte.is_ascii_lowercase())
}

fn is_locked(standing: &Standing) -> bool {
    standing.is_global || standing.held > 0 || standing.lock.is_some()
}

fn put_mailbox<'a>(
    known: &Known<'a>,
    standing: &Standing,
    span: &Span<'a>,
    notices: &mut Vec<Notice<'a>>,
) -> Result<(), Memory> {
    let is_folder = is_among(known.folders.as_slice(), first_word(span.text));
    let unlocked = !is_locked(standing) && !is_folder && lacks_lock(span);
    put_if(lacks_star(span.text), Mistake::NoStar, span, notices)?;
    put_if(unlocked, Mistake::NoLock, span, notices)?;
    put_if(has_words(span.text), Mistake::Words, span, notices)?;
    put_if(is_device(span.text), Mistake::Dev, span, notices)?;
    put_if(has_tilde(span.text), Mistake::Tilde, span, notices)?;
    put_if(
        loses_part(standing.flags, span),
        Mistake::LostPart,
        span,
        notices,
    )
}

fn put_program<'a>(
    standing: &Standing,
    span: &Span<'a>,
    notices: &mut Vec<Notice<'a>>,
) -> Result<(), Memory> {
    let flags = standing.flags;
    let unlocked = !is_locked(standing) && !flags.filter && lacks_lock(span);
    let waits = match &standing.lock {
        None => false,
        Some(lock) => locks_cache(lock.as_slice(), span),
    };
    put_if(unlocked, Mistake::NoLock, span, notices)?;
    put_if(lacks_wait(flags, span), Mistake::FilterW, span, notices)?;
    put_if(lacks_filter(flags, span), Mistake::PipeF, span, notices)?;
    put_if(waits, Mistake::FormailLock, span, notices)
}

fn put_forward<'a>(
    known: &Known<'a>,
    standing: &Standing,
    span: &Span<'a>,
    notices: &mut Vec<Notice<'a>>,
) -> Result<(), Memory> {
    let all = !standing.has_conditions && standing.depth == 0;
    put_if(lacks_star(span.text), Mistake::NoStar, span, notices)?;
    put_if(all && !known.stops_loops, Mistake::Loop, span, notices)?;
    put_if(
        loses_part(standing.flags, span),
        Mistake::LostPart,
        span,
        notices,
    )
}

// What is known after a span.
fn after(alloc: Global, span: &Span<'_>, standing: Standing) -> Result<Standing, Memory> {
    match span.kind {
        Kind::Gap => Ok(standing),
        Kind::Colon => Ok(Standing {
            flags: read_flags(span.text),
            lock: read_lock(alloc, span.text)?,
            has_conditions: false,
            next_line: 0,
            ..standing
        }),
        Kind::Condition => Ok(Standing {
            has_conditions: true,
            ended: None,
            ..standing
        }),
        Kind::Open => Ok(opened(standing)),
        Kind::Close => Ok(closed(standing)),
        Kind::Assign => Ok(Standing {
            is_global: is_global_after(span, standing.is_global),
            next_line: 0,
            ..standing
        }),
        Kind::Mailbox => {
            let ended = end_after(&standing, span);
            Ok(Standing {
                next_line: line_after(span),
                ended,
                ..standing
            })
        }
        Kind::Pipe | Kind::Forward | Kind::Capture | Kind::WriteOut => Ok(Standing {
            next_line: line_after(span),
            ..standing
        }),
        Kind::Unset => Ok(Standing {
            next_line: 0,
            ..standing
        }),
        _ => Ok(standing),
    }
}

fn line_after(span: &Span<'_>) -> u64 {
    let mut line = span.line.saturating_add(1);
    for byte in span.bytes {
        if *byte == NEWLINE {
            line = line.saturating_add(1);
        }
    }
    line
}

fn opened(standing: Standing) -> Standing {
    let depth = standing.depth.saturating_add(1);
    Standing {
        depth,
        held: if standing.held == 0 && standing.lock.is_some() {
            depth
        } else {
            standing.held
        },
        next_line: 0,
        ..standing
    }
}

fn closed(standing: Standing) -> Standing {
    Standing {
        held: if standing.held == standing.depth {
            0
        } else {
            standing.held
        },
        depth: standing.depth.saturating_sub(1),
        next_line: 0,
        ended: None,
        ..standing
    }
}

fn is_global_after(span: &Span<'_>, is_global: bool) -> bool {
    if span.name == b"LOCKFILE".as_slice() {
        !span.text.is_empty()
    } else {
        is_global
    }
}

// Each mail that comes to a mailbox without conditions and flags of a chain ends there.
fn end_after(standing: &Standing, span: &Span<'_>) -> Option<usize> {
    let flags = standing.flags;
    let chained = flags.and_chain || flags.and_ok || flags.or_else || flags.on_error;
    if standing.has_conditions || flags.copy || chained || past_blanks(span.text).is_empty() {
        standing.ended
    } else {
        Some(standing.depth)
    }
}

//! Mistakes in the action of a recipe.
use crate::words::{are_plain, first_word, from_part, has_part, past_blanks, past_word};
use pm_bytes::{MINUS, SPACE, is_blank, is_digit};
use pm_recipe::{Flags, Kind, Span};

/// A file is written to, though two mails can come at once. A directory needs no lock file, and of a name that isn't
/// known before the run nothing is said.
pub fn lacks_lock(action: &Span<'_>) -> bool {
    match action.kind {
        Kind::Mailbox => is_mailbox_file(action.text),
        Kind::Pipe => appends(action.text),
        _ => false,
    }
}

fn is_mailbox_file(text: &[u8]) -> bool {
    let name = first_word(text);
    is_mailbox_name(text) && !name.ends_with(b"/") && !name.ends_with(b"/.") && !lacks_star(text)
}

// A name that is known before the run, and none in /dev.
fn is_mailbox_name(text: &[u8]) -> bool {
    are_plain(first_word(text)) && !text.starts_with(b"/dev/")
}

// What the shell appends to a file. After a digit it is another stream than the standard output.
fn appends(text: &[u8]) -> bool {
    let mut before = 0;
    for i in 0..text.len() {
        match &text[i..] {
            [b'>', b'>', name @ ..] => if !is_digit(before) {
                return !past_blanks(name).starts_with(b"/dev/");
            },
            _ => {}
        }
        before = text[i];
    }
    false
}

/// A line that looks like a condition without its star: it is a mailbox by this name, or an address to forward to.
pub fn lacks_star(text: &[u8]) -> bool {
    match past_blanks(text) {
        [b'^', ..] => true,
        [b'<' | b'>' | b'?', next, ..] => is_blank(*next) || is_digit(*next),
        _ => false,
    }
}

/// Words without quotes that look like one name with a blank in it: `Sent Items`, or `Mail/sent items`.
pub fn has_words(text: &[u8]) -> bool {
    let first = first_word(text);
    let rest = past_word(text);
    let in_folder = has_part(first, b"/") && !has_part(rest, b"/");
    are_plain(text)
        && !rest.is_empty()
        && !lacks_star(text)
        && (in_folder || (has_capital(first) && has_capital(rest)))
}

fn has_capital(text: &[u8]) -> bool {
    match text {
        [byte, ..] => byte.is_ascii_uppercase(),
        [] => false,
    }
}

/// A file in /dev that isn't /dev/null.
pub fn is_device(text: &[u8]) -> bool {
    text.starts_with(b"/dev/") && first_word(text) != b"/dev/null".as_slice()
}

/// A tilde, which no one expands.
pub fn has_tilde(text: &[u8]) -> bool {
    text.starts_with(b"~") || text.starts_with(b"\"~")
}

/// A filter that may fail unseen: the flag w is missing.
pub fn lacks_wait(flags: Flags, action: &Span<'_>) -> bool {
    match action.kind {
        Kind::Pipe => flags.filter && !flags.wait && !flags.wait_quiet,
        _ => false,
    }
}

/// formail changes a field of what nobody gets: the flag f is missing.
pub fn lacks_filter(flags: Flags, action: &Span<'_>) -> bool {
    match action.kind {
        Kind::Pipe => !flags.filter && is_lone_formail(past_blanks(action.text)),
        _ => false,
    }
}

fn is_lone_formail(line: &[u8]) -> bool {
    let program = first_word(line);
    let options = past_word(line);
    (program == b"formail".as_slice() || program.ends_with(b"/formail"))
        && has_option(options, b"aAiI")
        && !has_option(options, b"Ds")
        && !options.iter().any(|byte| leads_on(*byte))
}

// Whether a group of options has one of these letters.
fn has_option(options: &[u8], letters: &[u8]) -> bool {
    let mut before = SPACE;
    for i in 0..options.len() {
        match &options[i..] {
            [MINUS, group @ ..] => if is_blank(before) && has_letter(first_word(group), letters) {
                return true;
            },
            _ => {}
        }
        before = options[i];
    }
    false
}

fn has_letter(group: &[u8], letters: &[u8]) -> bool {
    group.iter().any(|byte| letters.contains(byte))
}

// Bytes by which the shell hands the output on.
fn leads_on(byte: u8) -> bool {
    byte == b'|' || byte == b'>' || byte == b'&' || byte == b';'
}

/// Only the head or only the body is delivered, and the rest is lost.
pub fn loses_part(flags: Flags, action: &Span<'_>) -> bool {
    if flags.copy || flags.filter || flags.feed_head == flags.feed_body {
        return false;
    }
    match action.kind {
        Kind::Mailbox => is_mailbox_name(action.text),
        Kind::Forward => true,
        _ => false,
    }
}

/// The lock file of the recipe is the one that formail makes for its cache: formail waits for it in vain.
pub fn locks_cache(lock: &[u8], action: &Span<'_>) -> bool {
    match action.kind {
        Kind::Pipe => match cache_in(past_blanks(action.text)) {
            None => false,
            Some(cache) => {
                !cache.is_empty()
                    && lock.starts_with(cache)
                    && lock.ends_with(b".lock")
                    && lock.len() - cache.len() == 5
            }
        },
        _ => false,
    }
}

// The cache of a line with `formail -D SIZE CACHE`.
fn cache_in(line: &[u8]) -> Option<&[u8]> {
    let options = from_part(line, b"formail")?;
    let option = from_part(options, b"D ")?;
    Some(first_word(past_word(past_word(option))))
}

//! Words as a report shows them: in the form in which a file has them, but that long ones are cut.
use std::alloc::{AllocError, Global};
use std::fmt::Write;

// The longest word that is shown whole, and how many bytes a longer one shows.
const SHOWN_WHOLE: usize = 2_000;

const SHOWN_FRONT: usize = 200;

/// The words with a blank between them.
pub fn show_words(alloc: Global, words: &[Vec<u8>]) -> Result<String, AllocError> {
    let mut text = String::new(alloc);
    for word in words {
        if !text.is_empty() {
            text.push(' ')?;
        }
        push_shown(&mut text, word)?;
    }
    Ok(text)
}

fn push_shown(text: &mut String, word: &[u8]) -> Result<(), AllocError> {
    if is_plain(word) && word.len() <= SHOWN_WHOLE {
        return push_plain(text, word);
    }
    let front = if word.len() <= SHOWN_WHOLE {
        word
    } else {
        word.get(..SHOWN_FRONT).unwrap_or(word)
    };
    text.push('"')?;
    push_all(text, front)?;
    text.push('"')?;
    if front.len() < word.len() {
        write!(text, "..({} bytes)", word.len())?;
    }
    Ok(())
}

// Whether the word needs no quotes.
fn is_plain(word: &[u8]) -> bool {
    if word.is_empty() || word.starts_with(b"\"") || word.starts_with(b"@") {
        return false;
    }
    word.iter().all(|byte| *byte > b' ' && *byte < 127)
}

fn push_plain(text: &mut String, word: &[u8]) -> Result<(), AllocError> {
    for byte in word {
        text.push(char::from(*byte))?;
    }
    Ok(())
}

fn push_all(text: &mut String, bytes: &[u8]) -> Result<(), AllocError> {
    for byte in bytes {
        push_byte(text, *byte)?;
    }
    Ok(())
}

fn push_byte(text: &mut String, byte: u8) -> Result<(), AllocError> {
    match byte {
        b'\n' => text.push_str("\\n"),
        b'\r' => text.push_str("\\r"),
        b'\t' => text.push_str("\\t"),
        0 => text.push_str("\\0"),
        b'\\' => text.push_str("\\\\"),
        b'"' => text.push_str("\\\""),
        b' '..=b'~' => text.push(char::from(byte)),
        _ => write!(text, "\\x{byte:02x}"),
    }
}

//! Which program a line starts.
ghost use Rattle.std.specs.Prelude.{◌≤◌, length};

use bstr::ByteSlice;

// The shell's own commands that can begin a line.
const OF_SHELL: [&[u8]; 26] = [
    b".", b"case", b"cd", b"command", b"echo", b"eval", b"exec", b"exit", b"export", b"false",
    b"for", b"if", b"kill", b"printf", b"pwd", b"read", b"set", b"test", b"trap", b"true", b"type",
    b"ulimit", b"umask", b"until", b"wait", b"while",
];

/// The name of the program that a program line begins with, if it is written out and no command of the shell's own.
pub fn program_of(line: &[u8]) -> Option<&[u8]> {
    let line = line.trim_start();
    let end = plain_end(line);
    let word = &line[..end];
    if word.is_empty() || is_of_shell(word) {
        return None;
    }
    match line[end..].first() {
        Some(b' ' | b'\t' | b'\n') | None => Some(word),
        Some(_) => None,
    }
}

// How many bytes of a plain name the line begins with.
fn plain_end(line: &[u8]) -> usize
    ensures { result ≤ length line.now }
{
    match line.iter().position(|byte| !is_plain(*byte)) {
        Some(end) => end,
        None => line.len(),
    }
}

fn is_plain(byte: u8) -> bool {
    byte.is_ascii_alphanumeric() || matches!(byte, b'_' | b'-' | b'+' | b'.' | b'/')
}

fn is_of_shell(word: &[u8]) -> bool {
    OF_SHELL.iter().any(|name| *name == word)
}

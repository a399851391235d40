//! The words of a line: plain ones, which end at a blank, and quoted ones with their escapes.
use crate::Refused;
use std::alloc::Global;
use std::collections::BTreeMap;

/// The texts that have a name.
pub(crate) type Texts = BTreeMap<Vec<u8>, Vec<u8>>;

// Where the reading of a line stands.
#[derive(Clone, Copy)]
enum Place {
    Between,
    Plain,
    Quoted,
    Escape,
    FirstDigit,
    SecondDigit(u8),
    Times(usize),
    AfterQuote,
    Name,
}

// A repetition that is open: where its text begins, and how often it comes.
#[derive(Clone, Copy)]
struct Open {
    start: usize,
    times: usize,
}

#[derive(Drop)]
struct WordReader {
    alloc: Global,
    words: Vec<Vec<u8>>,
    word: Vec<u8>,
    name: Vec<u8>,
    open: Vec<Open>,
    place: Place,
}

/// The words of a line.
pub(crate) fn read_words(
    alloc: Global,
    line: &str,
    texts: &Texts,
) -> Result<Vec<Vec<u8>>, Refused> {
    let mut reader = WordReader {
        alloc,
        words: Vec::new(alloc),
        word: Vec::new(alloc),
        name: Vec::new(alloc),
        open: Vec::new(alloc),
        place: Place::Between,
    };
    for byte in line.as_bytes() {
        reader.take(*byte, texts)?;
    }
    reader.finish(texts)
}

fn is_blank(byte: u8) -> bool {
    byte == b' ' || byte == b'\t'
}

impl WordReader {
    fn take(&mut self, byte: u8, texts: &Texts) -> Result<(), Refused> {
        match self.place {
            Place::Between => self.begin(byte),
            Place::Plain => self.plain(byte),
            Place::Quoted => self.quoted(byte),
            Place::Escape => self.escaped(byte),
            Place::FirstDigit => {
                self.place = Place::SecondDigit(digit_of(byte)?);
                Ok(())
            }
            Place::SecondDigit(first) => self.numbered(first, byte),
            Place::Times(times) => self.times(times, byte),
            Place::AfterQuote => self.after_quote(byte),
            Place::Name => self.named(byte, texts),
        }
    }

    fn begin(&mut self, byte: u8) -> Result<(), Refused> {
        if is_blank(byte) {
            return Ok(());
        }
        match byte {
            b'"' => self.place = Place::Quoted,
            b'@' => self.place = Place::Name,
            _ => {
                self.place = Place::Plain;
                self.word.push(byte)?;
            }
        }
        Ok(())
    }

    fn plain(&mut self, byte: u8) -> Result<(), Refused> {
        if is_blank(byte) {
            return self.end_word();
        }
        self.word.push(byte)?;
        Ok(())
    }

    fn quoted(&mut self, byte: u8) -> Result<(), Refused> {
        match byte {
            b'"' => self.place = Place::AfterQuote,
            b'\\' => self.place = Place::Escape,
            _ => self.word.push(byte)?,
        }
        Ok(())
    }

    fn escaped(&mut self, byte: u8) -> Result<(), Refused> {
        self.place = Place::Quoted;
        match byte {
            b'n' => self.word.push(b'\n')?,
            b'r' => self.word.push(b'\r')?,
            b't' => self.word.push(b'\t')?,
            b'0' => self.word.push(0)?,
            b'\\' => self.word.push(b'\\')?,
            b'"' => self.word.push(b'"')?,
            b'x' => self.place = Place::FirstDigit,
            b'(' => self.place = Place::Times(0),
            b')' => self.repeat()?,
            _ => return Err(Refused::Misread("no such escape")),
        }
        Ok(())
    }

    fn numbered(&mut self, first: u8, byte: u8) -> Result<(), Refused> {
        let second = digit_of(byte)?;
        self.word.push(first.wrapping_mul(16).wrapping_add(second))?;
        self.place = Place::Quoted;
        Ok(())
    }

    fn times(&mut self, times: usize, byte: u8) -> Result<(), Refused> {
        if byte == b' ' {
            let start = self.word.len();
            self.open.push(Open { start, times })?;
            self.place = Place::Quoted;
            return Ok(());
        }
        if !byte.is_ascii_digit() {
            return Err(Refused::Misread("a repetition begins with a number and a blank"));
        }
        let digit = usize::from(byte.wrapping_sub(b'0'));
        self.place = Place::Times(times.saturating_mul(10).saturating_add(digit));
        Ok(())
    }

    // Ends the repetition that was begun last.
    fn repeat(&mut self) -> Result<(), Refused> {
        let Some(open) = self.open.pop() else {
            return Err(Refused::Misread("no repetition was begun"));
        };
        let unit = match self.word.get(open.start..) {
            Some(unit) => unit.to_vec(self.alloc)?,
            None => Vec::new(self.alloc),
        };
        self.word.truncate(open.start);
        for _ in 0..open.times {
            self.word.extend_from_slice(&unit)?;
        }
        Ok(())
    }

    fn after_quote(&mut self, byte: u8) -> Result<(), Refused> {
        if is_blank(byte) {
            return self.end_word();
        }
        match byte {
            b'"' => self.place = Place::Quoted,
            b'@' => self.place = Place::Name,
            _ => return Err(Refused::Misread("a quote ends within a word")),
        }
        Ok(())
    }

    fn named(&mut self, byte: u8, texts: &Texts) -> Result<(), Refused> {
        if is_blank(byte) {
            self.put_named(texts)?;
            return self.end_word();
        }
        if byte == b'"' {
            self.put_named(texts)?;
            self.place = Place::Quoted;
            return Ok(());
        }
        self.name.push(byte)?;
        Ok(())
    }

    fn put_named(&mut self, texts: &Texts) -> Result<(), Refused> {
        match texts.get(self.name.as_slice()) {
            Some(text) => self.word.extend_from_slice(text)?,
            None => return Err(Refused::Misread("no such text")),
        }
        self.name.clear();
        Ok(())
    }

    fn end_word(&mut self) -> Result<(), Refused> {
        self.place = Place::Between;
        if !self.open.is_empty() {
            return Err(Refused::Misread("a repetition isn't ended"));
        }
        let empty = Vec::new(self.alloc);
        let word = std::mem::replace(&mut self.word, empty);
        self.words.push(word)?;
        Ok(())
    }

    fn finish(mut self, texts: &Texts) -> Result<Vec<Vec<u8>>, Refused> {
        match self.place {
            Place::Between => {}
            Place::Plain => self.end_word()?,
            Place::AfterQuote => self.end_word()?,
            Place::Name => {
                self.put_named(texts)?;
                self.end_word()?;
            }
            _ => return Err(Refused::Misread("a quote isn't ended")),
        }
        Ok(self.words)
    }
}

fn digit_of(byte: u8) -> Result<u8, Refused> {
    match byte {
        b'0'..=b'9' => Ok(byte.wrapping_sub(b'0')),
        b'a'..=b'f' => Ok(byte.wrapping_sub(b'a').wrapping_add(10)),
        _ => Err(Refused::Misread("behind \\x stand two digits, or letters from a to f")),
    }
}

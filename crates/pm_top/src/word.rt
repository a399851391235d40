//! One word by itself: a group of letters, the text of a letter, a variable or an rcfile (procmail(1)).
ghost use Rattle.std.specs.Prelude.{◌≡◌, ◌<◌, ◌&&◌, true, false, nat_le};
ghost use Rattle.std.specs.Prelude.{IfSome, option_map, drop};
ghost use Rattle.std.specs.List.{list_all};
ghost use Rattle.pm_bytes.specs.Letter.{is_name_byte};
ghost use Rattle.pm_top.specs.Words.{is_sender as can_send, is_variable as can_name, is_options, operand as operand_of};
ghost use Rattle.pm_top.specs.Words.{read_word, letters, text_word as text_of, rest_or_next as rest_of};
ghost use Rattle.pm_top.specs.Words.{awaited as awaited_by};
ghost use Rattle.pm_top.specs.Words.{with_letter as letter_of};
ghost use Rattle.pm_top.specs.Reading.{Says, Fits, at};
ghost use Rattle.pm_meaning.specs.declared.command_line.CommandLine.{CommandLine};

use crate::place::{Adds, Next, Place, Word};
use pm_bytes::{begins_name, continues_name};

/// What a word says at this place; `None` where it isn't read.
pub fn word_of<'a>(place: Place, word: &'a str) -> Option<Word<'a>>
    ensures says { Says (read_word place.next word.now) place result }
    ensures fits { IfSome result (Fits place) }
{
    match place.next {
        Next::SenderText => text_word(place, Next::SenderText, word),
        Next::ArgumentText => text_word(place, Next::ArgumentText, word),
        Next::Operand => operand(place, word),
        Next::Any => any_word(place, word),
    }
}

// A word where options are read.
fn any_word<'a>(place: Place, word: &'a str) -> Option<Word<'a>>
    requires { place.next ≡ Next.Any }
    ensures says { Says (read_word Next.Any word.now) place result }
    ensures fits { IfSome result (Fits place) }
{
    let behind = place.filter && place.named;
    if !behind && word == "--" {
        Some(Word {
            place: Place {
                next: Next::Operand,
                ..place
            },
            adds: Adds::Nothing,
            text: word,
        })
    } else if !behind && has_options(word) {
        read_letters(place, word)
    } else {
        operand(place, word)
    }
}

fn has_options(word: &str) -> bool
    ensures { result ≡ is_options word.now }
{
    word.as_bytes().starts_with(b"-") && word != "-"
}

// The letters after a `-`.
fn read_letters<'a>(place: Place, word: &'a str) -> Option<Word<'a>>
    requires { place.next ≡ Next.Any }
    ensures says { Says (letters (drop 1 word.now)) place result }
    ensures fits { IfSome result (Fits place) }
{
    let mut now = place;
    for k in 1..word.len() {
        let letter = word.as_bytes()[k];
        if let Some(next) = awaited(letter) {
            return rest_or_next(now, next, &word[k + 1..]);
        }
        let Some(changed) = with_letter(letter, now) else {
            return None;
        };
        now = changed;
    }
    Some(Word {
        place: now,
        adds: Adds::Nothing,
        text: word,
    })
}

// What the letter awaits, if it takes a text.
fn awaited(letter: u8) -> Option<Next>
    ensures is { result ≡ awaited_by letter }
    ensures ascii { IfSome result (λ next. letter < 128) }
{
    match letter {
        b'f' | b'r' => Some(Next::SenderText),
        b'a' => Some(Next::ArgumentText),
        _ => None,
    }
}

// A letter that stands alone.
fn with_letter(letter: u8, place: Place) -> Option<Place>
    ensures says { (line : CommandLine) → letter_of letter (at place line) ≡ option_map (λ now. at now line) result }
    ensures same { IfSome result (λ now. (now.named ≡ place.named) × (now.next ≡ place.next)) }
{
    match letter {
        b't' => Some(Place {
            softly: true,
            ..place
        }),
        b'm' => Some(Place {
            filter: true,
            ..place
        }),
        b'Y' | b'o' => Some(place),
        _ => None,
    }
}

// A letter's text is what is left of its group, or the next word where nothing is left.
fn rest_or_next<'a>(place: Place, next: Next, rest: &'a str) -> Option<Word<'a>>
    ensures says { Says (rest_of next rest.now) place result }
    ensures fits { IfSome result (Fits place) }
{
    if !rest.is_empty() {
        return text_word(place, next, rest);
    }
    Some(Word {
        place: Place { next, ..place },
        adds: Adds::Nothing,
        text: rest,
    })
}

// The text of a letter.
fn text_word<'a>(place: Place, awaited: Next, text: &'a str) -> Option<Word<'a>>
    ensures says { Says (text_of awaited text.now) place result }
    ensures fits { IfSome result (Fits place) }
{
    match awaited {
        Next::SenderText => sender(place, text),
        Next::ArgumentText => argument(place, text),
        Next::Any => None,
        Next::Operand => None,
    }
}

fn sender<'a>(place: Place, text: &'a str) -> Option<Word<'a>>
    ensures says { Says (text_of Next.SenderText text.now) place result }
    ensures fits { IfSome result (Fits place) }
{
    if !is_sender(text) {
        return None;
    }
    Some(Word {
        place: Place {
            next: Next::Any,
            ..place
        },
        adds: Adds::From,
        text,
    })
}

fn argument<'a>(place: Place, text: &'a str) -> Option<Word<'a>>
    ensures says { Says (text_of Next.ArgumentText text.now) place result }
    ensures fits { IfSome result (Fits place) }
{
    if text.as_bytes().contains(&0) {
        return None;
    }
    Some(Word {
        place: Place {
            next: Next::Any,
            ..place
        },
        adds: Adds::Argument,
        text,
    })
}

fn is_sender(text: &str) -> bool
    ensures { result ≡ can_send text.now }
{
    !text.is_empty() && is_visible(text.as_bytes())
}

// Whether each byte stands after the blank.
fn is_visible(bytes: &[u8]) -> bool
    ensures { result ≡ list_all (λ byte. nat_le 33 byte) bytes.now }
{
    bytes.iter().all(|byte| *byte >= 33)
}

// A word that is no option.
fn operand<'a>(place: Place, word: &'a str) -> Option<Word<'a>>
    ensures says { Says (operand_of place.next word.now) place result }
    ensures fits { IfSome result (Fits place) }
{
    if word.as_bytes().contains(&0) {
        return None;
    }
    if place.filter && place.named {
        return Some(rcfile(place, word));
    }
    match word.split_once('=') {
        Some((name, _)) => {
            if !is_variable(name.as_bytes()) {
                return None;
            }
            Some(Word {
                place,
                adds: Adds::Value,
                text: word,
            })
        }
        None => {
            if word.is_empty() {
                return None;
            }
            Some(rcfile(place, word))
        }
    }
}

// An rcfile, or an argument after that of a mail filter.
fn rcfile<'a>(place: Place, word: &'a str) -> Word<'a>
    ensures place { result.place ≡ record place { named = true } }
    ensures adds { result.adds ≡ Adds.Rcfile }
    ensures text { result.text.now ≡ word.now }
{
    Word {
        place: Place {
            named: true,
            ..place
        },
        adds: Adds::Rcfile,
        text: word,
    }
}

fn is_variable(name: &[u8]) -> bool
    ensures { result ≡ can_name name.now }
{
    match name {
        [first, rest @ ..] => begins_name(*first) && continue_name(rest),
        [] => false,
    }
}

fn continue_name(bytes: &[u8]) -> bool
    ensures { result ≡ list_all is_name_byte bytes.now }
{
    bytes.iter().all(|byte| continues_name(*byte))
}

//! procmail's words with another rcfile.
ghost use Rattle.std.specs.Prelude.{◌≡◌, ◌∷◌, [], ◌++◌, IfOk, OnOk, codes, map, flat_map};
ghost use Rattle.explain_mails.specs.Words.{words_of, words_with, option_words, telling_words, word_if, renewal_words};
ghost use Rattle.explain_mails.specs.Words.{argument_words, value_word};
ghost use Rattle.explain_mails.specs.Words.{earlier, last_rcfile, word_beside, seen_from_here, full_name, steps_up};

use pm_bytes::{Blob, Memory, Name, Pair};
use pm_meaning::CommandLine;
use pm_message::Renew;
use std::alloc::Global;

/// Words that ask for what the command line asks for. The variables LOGABSTRACT and TRAP are set before all others, so
/// that the journal tells each delivery (`destination_names`).
pub fn words_of(alloc: Global, line: &CommandLine) -> Result<Vec<Blob>, Memory>
    ensures { IfOk result (λ words. words.items ≡ words_of line.now) }
{
    let mut words = option_words(alloc, line)?;
    push_names(alloc, &mut words, line.rcfiles.as_slice())?;
    Ok(words)
}

/// As `words_of`: words that ask for what the command line asks for, with this rcfile in the place of the last one, or
/// of the user's own where none is named. `folder` is the full name of the current folder. Both runs begin in the same
/// folder.
pub fn words_with(
    alloc: Global,
    line: &CommandLine,
    folder: &[u8],
    rcfile: &[u8],
) -> Result<Vec<Blob>, Memory>
    ensures { IfOk result (λ words. words.items ≡ words_with line.now folder.now rcfile.now) }
{
    let mut words = option_words(alloc, line)?;
    let rcfiles = line.rcfiles.as_slice();
    push_names(alloc, &mut words, earlier(rcfiles))?;
    words.push(word_beside(alloc, last_rcfile(rcfiles), folder, rcfile)?)?;
    Ok(words)
}

fn option_words(alloc: Global, line: &CommandLine) -> Result<Vec<Blob>, Memory>
    ensures { IfOk result (λ words. words.items ≡ option_words line.now) }
{
    let mut words = Vec::new(alloc);
    push_if(alloc, &mut words, line.filter, b"-m")?;
    push_if(alloc, &mut words, line.fails_softly, b"-t")?;
    push_renewal(alloc, &mut words, &line.renew)?;
    push_arguments(alloc, &mut words, line.arguments.as_slice())?;
    push_word(alloc, &mut words, b"--")?;
    push_telling(alloc, &mut words)?;
    push_values(alloc, &mut words, line.values.as_slice())?;
    Ok(words)
}

#[tactic(auto, unfolding(crate::specs::Words::telling_words))]
fn push_telling(alloc: Global, words: &mut Vec<Blob>) -> Result<(), Memory>
    ensures { OnOk result (words.new.items ≡ words.old.items ++ telling_words) }
{
    push_both(alloc, words, b"LOGABSTRACT=all", b"TRAP=procmail-explain")
}

fn push_word(alloc: Global, words: &mut Vec<Blob>, word: &[u8]) -> Result<(), Memory>
    ensures { OnOk result (words.new.items ≡ words.old.items ++ word.now ∷ []) }
{
    words.push(Blob::from_slice(alloc, word)?)?;
    Ok(())
}

fn push_if(alloc: Global, words: &mut Vec<Blob>, wanted: bool, word: &[u8]) -> Result<(), Memory>
    ensures { OnOk result (words.new.items ≡ words.old.items ++ word_if wanted word.now) }
{
    if wanted {
        push_word(alloc, words, word)?;
    }
    Ok(())
}

fn push_renewal(alloc: Global, words: &mut Vec<Blob>, renew: &Renew) -> Result<(), Memory>
    ensures { OnOk result (words.new.items ≡ words.old.items ++ renewal_words renew.now) }
{
    match renew {
        Renew::Keep | Renew::AddMissing => Ok(()),
        Renew::Sender(who) => push_both(alloc, words, b"-f", who.as_slice()),
        Renew::Date => push_both(alloc, words, b"-f", b"-"),
    }
}

fn push_both(alloc: Global, words: &mut Vec<Blob>, option: &[u8], text: &[u8]) -> Result<(), Memory>
    ensures { OnOk result (words.new.items ≡ words.old.items ++ option.now ∷ text.now ∷ []) }
{
    push_word(alloc, words, option)?;
    push_word(alloc, words, text)
}

fn push_arguments(alloc: Global, words: &mut Vec<Blob>, arguments: &[Name]) -> Result<(), Memory>
    ensures { OnOk result (words.new.items ≡ words.old.items ++ flat_map argument_words arguments.now) }
{
    for argument in arguments {
        push_both(alloc, words, b"-a", argument.as_str().as_bytes())?;
    }
    Ok(())
}

fn push_values(alloc: Global, words: &mut Vec<Blob>, values: &[Pair]) -> Result<(), Memory>
    ensures { OnOk result (words.new.items ≡ words.old.items ++ map value_word values.now) }
{
    for pair in values {
        words.push(value_word(alloc, pair)?)?;
    }
    Ok(())
}

fn value_word(alloc: Global, pair: &Pair) -> Result<Blob, Memory>
    ensures { IfOk result (λ word. word ≡ value_word pair.now) }
{
    let mut word = Blob::from_slice(alloc, pair.name.as_str().as_bytes())?;
    word.push_slice(b"=")?;
    word.push_slice(pair.value.as_str().as_bytes())?;
    Ok(word)
}

fn push_names(alloc: Global, words: &mut Vec<Blob>, names: &[Name]) -> Result<(), Memory>
    ensures { OnOk result (words.new.items ≡ words.old.items ++ names.now) }
{
    for name in names {
        push_word(alloc, words, name.as_str().as_bytes())?;
    }
    Ok(())
}

fn earlier(rcfiles: &[Name]) -> &[Name]
    ensures { result.now ≡ earlier rcfiles.now }
{
    &rcfiles[..rcfiles.len().saturating_sub(1)]
}

fn last_rcfile(rcfiles: &[Name]) -> &[u8]
    ensures { result.now ≡ last_rcfile rcfiles.now }
{
    let mut last: &[u8] = b".procmailrc";
    for rcfile in rcfiles {
        last = rcfile.as_str().as_bytes();
    }
    last
}

fn word_beside(alloc: Global, other: &[u8], folder: &[u8], rcfile: &[u8]) -> Result<Blob, Memory>
    ensures { IfOk result (λ word. word ≡ word_beside other.now folder.now rcfile.now) }
{
    if other.starts_with(b"./") {
        seen_from_here(alloc, folder, rcfile)
    } else {
        full_name(alloc, folder, rcfile)
    }
}

fn seen_from_here(alloc: Global, folder: &[u8], rcfile: &[u8]) -> Result<Blob, Memory>
    ensures { IfOk result (λ word. word ≡ seen_from_here folder.now rcfile.now) }
{
    let mut word = Blob::from_slice(alloc, b"./")?;
    if rcfile.starts_with(b"/") {
        push_steps_up(&mut word, folder)?;
    }
    word.push_slice(rcfile)?;
    Ok(word)
}

fn push_steps_up(word: &mut Blob, folder: &[u8]) -> Result<(), Memory>
    ensures { OnOk result (word.new ≡ word.old ++ steps_up folder.now) }
{
    for byte in folder {
        if *byte == b'/' {
            word.push_slice(b"../")?;
        }
    }
    Ok(())
}

fn full_name(alloc: Global, folder: &[u8], rcfile: &[u8]) -> Result<Blob, Memory>
    ensures { IfOk result (λ word. word ≡ full_name folder.now rcfile.now) }
{
    if rcfile.starts_with(b"/") {
        return Blob::from_slice(alloc, rcfile);
    }
    let mut word = Blob::from_slice(alloc, folder)?;
    word.push_slice(b"/")?;
    word.push_slice(rcfile)?;
    Ok(word)
}

//! One thing of procmail's, done once: what `bench/egrep.sh`, `bench/rcfiles.sh` and `bench/score.sh` measure.
//!
//! The words are `search`, then `none`, `find` or `count`, a regular expression, what the area is made of (`a`, `re`,
//! `text`, `links`, `prose` or `pairs`), and its size: `none` makes the automata and searches nothing. Or they are
//! `rcfile`, then `none` or `read`, a text, and the size of the rcfile, which is that text again and again.
use crate::calls::failed::Failed;
use crate::calls::reading::read_rcfile;
use crate::calls::searching::search_area;

/// Does what the words say.
pub fn measure(rt: &HostRuntime, words: &[String]) -> Result<(), Failed> {
    match words {
        [part, task, text, kind, size] if part.as_str() == "search" => {
            let size = number_of(size)?;
            search_area(
                rt,
                task.as_str(),
                text.as_str().as_bytes(),
                kind.as_str(),
                size,
            )
        }
        [part, task, text, size] if part.as_str() == "rcfile" => {
            let size = number_of(size)?;
            read_rcfile(rt, task.as_str(), text.as_str().as_bytes(), size)
        }
        _ => Err(Failed::Usage),
    }
}

fn number_of(word: &String) -> Result<usize, Failed> {
    match word.parse::<usize>() {
        Ok(number) => Ok(number),
        Err(_) => Err(Failed::Usage),
    }
}

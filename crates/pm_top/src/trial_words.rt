//! The words of a trial.
ghost use Rattle.std.specs.Prelude.{◌≡◌};
ghost use Rattle.pm_top.specs.Words.{all_bytes};
ghost use Rattle.pm_top.specs.TrialWords.{trial_count, count_in};

use pm_bytes::read_count;

// The most digits of the number, and the most messages.
const MOST_DIGITS: usize = 4;

const MOST_MESSAGES: u64 = 2000;

/// How many messages the words ask for, where they are `--trial N`; `None` where they ask for no trial.
pub fn read_trial(words: &[String]) -> Option<u64>
    ensures { result ≡ trial_count (all_bytes words.now) }
{
    match words {
        [option, number] => if option.as_str() == "--trial" {
            count_of(number.as_str())
        } else {
            None
        },
        _ => None,
    }
}

// The number of messages that a word writes.
fn count_of(number: &str) -> Option<u64>
    ensures { result ≡ count_in number.now }
{
    if number.len() > MOST_DIGITS {
        return None;
    }
    let count = read_count(number.as_bytes())?;
    if count < 1 || count > MOST_MESSAGES {
        return None;
    }
    Some(count)
}

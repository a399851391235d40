//! Each text is given to a child of its own (formail(1), option -s with a program).
ghost use Rattle.std.specs.Prelude.{◌≡◌, []};
ghost use Rattle.pm_pipe.specs.Runs.{fed_reply};
ghost use Rattle.formail_split.specs.Feeding.{FeedsEach, came_to, worse};

use pm_bytes::Blob;
use pm_host::{Child, Command, Host};
use pm_journal::Reply;
use pm_pipe::{Fate, feed_child};

/// The worst that came of giving some texts to children.
#[derive(Clone, Copy)]
pub enum Outcome {
    /// Each child took its text whole and ended with code 0.
    Fine,
    /// No call failed, but a child ended with another code, or closed its input early.
    Amiss,
    /// A child wasn't started, or a call failed while it was fed or waited for.
    Failed,
}

fn ended(len: u64, code: u8, took: u64) -> Outcome
    ensures { result ≡ came_to len (Reply.Ended code took []) }
{
    if code == 0 && took == len {
        Outcome::Fine
    } else {
        Outcome::Amiss
    }
}

// What a child came to that was given so many bytes.
fn outcome_of(len: u64, fate: Fate) -> Outcome
    ensures { result ≡ came_to len (fed_reply fate) }
{
    match fate {
        Fate::Ended { code, took } => ended(len, code, took),
        Fate::NotStarted => Outcome::Failed,
        Fate::Broken { .. } => Outcome::Failed,
    }
}

fn worse_of(first: Outcome, second: Outcome) -> Outcome
    ensures { result ≡ worse first second }
{
    match (first, second) {
        (Outcome::Fine, other) => other,
        (Outcome::Failed, _) => Outcome::Failed,
        (Outcome::Amiss, Outcome::Failed) => Outcome::Failed,
        (Outcome::Amiss, _) => Outcome::Amiss,
    }
}

/// Gives each text to a child of its own, one after the other; after one that couldn't be started or fed the next is
/// still tried. No child runs afterwards. It takes no memory.
pub fn feed_each<H: Host>(host: &mut H, command: &Command, texts: &[Blob]) -> Outcome
    requires { (H.told host.old).child ≡ Child.NoChild }
    ensures fed { FeedsEach command.now texts.now result (H.told host.old) (H.told host.new) }
    ensures none { (H.told host.new).child ≡ Child.NoChild }
{
    let mut worst = Outcome::Fine;
    for text in texts {
        let bytes = text.as_slice();
        let fate = feed_child(host, command, bytes);
        worst = worse_of(worst, outcome_of(bytes.len() as u64, fate));
    }
    worst
}

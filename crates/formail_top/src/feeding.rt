//! Where the output goes: to `out`, or each mail's to a child of its own.
ghost use Rattle.std.specs.Prelude.{◌≡◌, ◌++◌, IfOk, OnErr, codes};
ghost use Rattle.formail_top.specs.Outputs.{wants_moment};
ghost use Rattle.formail_top.specs.Run.{AsksAtMost, AsksIf, Feeds, command_for, feed_status};

use crate::Request;
use crate::outputs::{each_output, want_moment};
use formail_edit::Listed;
use formail_split::{Outcome, feed_each};
use pm_bytes::{Blob, Memory, Name, Names, Pairs};
use pm_host::{Child, Command, Host};
use std::alloc::Global;

/// The host's moment, where the output of some mail begins with a line that names it.
pub fn moment_for<H: Host>(
    alloc: Global,
    mails: &[Blob],
    request: &Request,
    host: &mut H,
) -> Result<i64, Memory>
    ensures ok { IfOk result (λ moment. AsksIf (wants_moment request.now mails.now) moment
        (H.told host.old) (H.told host.new)) }
    ensures memory { OnErr result (H.told host.new ≡ H.told host.old) }
    ensures child { (H.told host.new).child ≡ (H.told host.old).child }
{
    if want_moment(alloc, mails, request)? {
        return Ok(host.now());
    }
    Ok(0)
}

fn here(alloc: Global) -> Result<Name, Memory>
    ensures { IfOk result (λ name. name ≡ codes ".") }
{
    Ok(Name::from_text(String::from_str(alloc, ".")?))
}

fn copies(alloc: Global, words: &[Name]) -> Result<Names, Memory>
    ensures { IfOk result (λ copies. copies ≡ words.now) }
{
    let mut copies = Vec::new(alloc);
    for word in words {
        copies.push(word.copy(alloc)?)?;
    }
    Ok(Names::from_vec(copies))
}

/// The program with its words, as it is started for each mail: in the folder and with the environment of this run.
pub fn command(
    alloc: Global,
    program: &Name,
    arguments: &Listed<Name>,
    vars: &Pairs,
) -> Result<Command, Memory>
    ensures { IfOk result (λ command. command ≡ command_for vars.now program.now arguments.now) }
{
    Ok(Command {
        program: program.copy(alloc)?,
        args: copies(alloc, arguments.as_slice())?,
        env: vars.copy(alloc)?,
        folder: here(alloc)?,
    })
}

fn status_of(outcome: Outcome) -> u8
    ensures { result ≡ feed_status outcome }
{
    match outcome {
        Outcome::Fine => 0,
        Outcome::Amiss => 1,
        Outcome::Failed => 74,
    }
}

/// Each mail's output is given to a child of its own. All memory is taken before the first one.
pub fn feed<H: Host>(
    alloc: Global,
    mails: &[Blob],
    request: &Request,
    command: &Command,
    host: &mut H,
) -> Result<u8, Memory>
    requires { (H.told host.old).child ≡ Child.NoChild }
    ensures ok { IfOk result (λ status. Feeds command.now request.now mails.now status (H.told host.old)
        (H.told host.new)) }
    ensures asked { OnErr result (AsksAtMost (H.told host.old) (H.told host.new)) }
    ensures none { (H.told host.new).child ≡ Child.NoChild }
{
    let moment = moment_for(alloc, mails, request, host)?;
    let texts = each_output(alloc, mails, request, moment)?;
    let outcome = feed_each(host, command, texts.as_slice());
    Ok(status_of(outcome))
}

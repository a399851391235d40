//! A child of the real host from its start to its end.
use crate::calls::answers::shortened;
use cases::{Refused, Words, number_word, one_word, text_of};
use pm_bytes::{Name, Names, Pair, Pairs};
use pm_host::{Command, Host};
use pm_pipe::{ChildEnd, run_child};
use pm_real::RealHost;
use std::alloc::Global;

/// How a child ended that was given this input: its code, how many bytes it took, and its output where that is wanted.
/// It has no variable but a PATH whose first folder isn't there.
pub fn run(
    alloc: Global,
    host: &mut RealHost<HostRuntime>,
    arguments: &[Vec<u8>],
) -> Result<Words, Refused> {
    let [wanted, folder, input, program, words @ ..] = arguments else {
        return Err(Refused::Misread("a child has a folder, an input and a program"));
    };
    let want = text_of(wanted) == "wanted";
    let command = command_of(alloc, folder, program, words)?;
    let end = run_child(alloc, host, &command, input, want);
    told(alloc, end, want)
}

fn command_of(
    alloc: Global,
    folder: &[u8],
    program: &[u8],
    words: &[Vec<u8>],
) -> Result<Command, Refused> {
    let mut args = Vec::new(alloc);
    for word in words {
        args.push(Name::read(alloc, word)?)?;
    }
    let mut env = Vec::new(alloc);
    env.push(Pair {
        name: Name::read(alloc, b"PATH")?,
        value: Name::read(alloc, b"/nowhere:/bin:/usr/bin")?,
    })?;
    Ok(Command {
        program: Name::read(alloc, program)?,
        args: Names::from_vec(args),
        env: Pairs::from_vec(env),
        folder: Name::read(alloc, folder)?,
    })
}

fn told(alloc: Global, end: ChildEnd, want: bool) -> Result<Words, Refused> {
    match end {
        ChildEnd::Ended { code, took, output } => {
            let mut words = one_word(alloc, "ended")?;
            words.push(number_word(alloc, u64::from(code))?)?;
            words.push(number_word(alloc, took)?)?;
            if want {
                words.push(shortened(alloc, output.as_slice())?)?;
            }
            Ok(words)
        }
        ChildEnd::NotStarted => Ok(one_word(alloc, "failed")?),
        _ => Ok(one_word(alloc, "broken")?),
    }
}

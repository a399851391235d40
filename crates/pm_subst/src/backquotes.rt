//! The backquoted commands of a text.
ghost use Rattle.std.specs.Prelude.{◌≡◌, ◌++◌, IfOk, false};
ghost use Rattle.pm_subst.specs.Commands.{commands_in, command_of, command_text};

use crate::frames::{Frames, fresh_behind};
use crate::kinds::{Kind, Mode};
use crate::reading::turn_at;
use memchr::memchr;
use pm_bytes::{BACKQUOTE, BACKSLASH, Blob, Memory};
use std::alloc::Global;

/// The commands of a text from left to right, also those in texts of forms that aren't used.
pub fn commands(alloc: Global, text: &[u8], mode: Mode) -> Result<Vec<Blob>, Memory>
    ensures { IfOk result (λ commands. commands.items ≡ commands_in mode text.now) }
{
    match memchr(BACKQUOTE, text) {
        None => Ok(Vec::new(alloc)),
        Some(_) => read_commands(alloc, text, mode),
    }
}

fn read_commands(alloc: Global, text: &[u8], mode: Mode) -> Result<Vec<Blob>, Memory>
    ensures { IfOk result (λ commands. commands.items ≡ commands_in mode text.now) }
{
    let mut commands = Vec::new(alloc);
    let mut frames = Frames::new(alloc);
    let mut fresh = true;
    let mut at = 0;
    while at < text.len() {
        let rest = &text[at..];
        let rule = frames.rule(mode, fresh);
        let front = turn_at(rule, rest);
        push_command(
            alloc,
            &mut commands,
            front.kind,
            &rest[front.from..front.to],
        )?;
        frames.pass(front.kind, rule.quoted)?;
        fresh = fresh_behind(front.kind, fresh);
        at += front.taken;
    }
    Ok(commands)
}

fn push_command(
    alloc: Global,
    commands: &mut Vec<Blob>,
    kind: Kind,
    text: &[u8],
) -> Result<(), Memory>
    ensures { IfOk result (λ _. commands.new.items ≡ commands.old.items ++ command_of kind text.now) }
{
    if matches!(kind, Kind::Command) {
        commands.push(Blob::from_vec(command(alloc, text)?))?;
    }
    Ok(())
}

// What stands between backquotes, without the backslashes that are dropped.
fn command(alloc: Global, text: &[u8]) -> Result<Vec<u8>, Memory>
    ensures { IfOk result (λ command. command.items ≡ command_text false text.now) }
{
    let mut command = Vec::new(alloc);
    let mut escaped = false;
    for byte in text {
        if escaped && *byte != BACKQUOTE && *byte != BACKSLASH {
            command.push(BACKSLASH)?;
        }
        if escaped || *byte != BACKSLASH {
            command.push(*byte)?;
            escaped = false;
        } else {
            escaped = true;
        }
    }
    if escaped {
        command.push(BACKSLASH)?;
    }
    Ok(command)
}

//! Recipes that deliver to mailboxes (procmailrc(5), "Recipe action line"), and default mailboxes.
ghost use Rattle.std.specs.Prelude.{◌≡◌, OnErr};
ghost use Rattle.pm_journal.specs.Executed.{Carries};
ghost use Rattle.pm_recipe.specs.View.{act_of, top_of};
ghost use Rattle.pm_meaning.specs.Acting.{act_on};
ghost use Rattle.pm_meaning.specs.Delivering.{attempt_acted, settled};
ghost use Rattle.pm_meaning.specs.Delivering;
ghost use Rattle.pm_meaning.specs.Turns.{refuse_name};
ghost use Rattle.pm_meaning.specs.Delivering.{deliver};
ghost use Rattle.pm_meaning.specs.Minds.{mind_of};
ghost use Rattle.pm_perform.specs.Copies.{IsFreeLock};
ghost use Rattle.pm_meaning.specs.Apart.{acted_with};
ghost use Rattle.pm_meaning.specs.Turning.{turn_of};
ghost use Rattle.pm_perform.specs.Undelivered.{Undelivered};

use crate::attempting::{file_all, file_locked};
use crate::filing::is_stored;
use crate::locks::lock_text;
use crate::pipes::{capture, forward, pipe, write_out};
use crate::refusing::tell_refusal;
use crate::saying::{attempt_lines, say_each};
use crate::target::{target_among, target_of};
use pm_bytes::{Blob, Memory, Name};
use pm_journal::{Effects, unusable_name};
use pm_meaning::{
    Acted, Attempt, Cause, Destination, End, Filed, Process, Ready, Run, make_ready, push_copy,
    succeed, tell,
};
use pm_recipe::{Action, Flags, Recipe};
use pm_subst::{Mode, commands};
use std::alloc::Global;

/// What an action asks for: its flags, the text of its lock file, and its own text.
#[derive(Drop)]
pub struct Order<'a> {
    pub flags: Flags,
    pub lock: &'a Option<Blob>,
    pub text: &'a [u8],
}

/// Does the action of a recipe that is executed. One with a block isn't done here.
pub fn perform<D: Effects>(
    alloc: Global,
    run: &mut Run<D>,
    recipe: &Recipe,
) -> Result<Acted, Memory>
    ensures carries { Carries
        (act_on (top_of recipe.now) (act_of recipe.now.action) (mind_of run.old.process))
        (λ acted. acted_with acted (mind_of run.new.process)) result
        run.old.journal run.new.journal (D.told run.old.outside) (D.told run.new.outside) }
    ensures sure { OnErr result (Undelivered recipe.now.flags run.old.journal run.new.journal) }
{
    match &recipe.action {
        Action::Mailbox(text) => {
            let order = order_of(recipe, text);
            deliver_mail(alloc, run, &order)
        }
        Action::Pipe(line) => {
            let order = order_of(recipe, line);
            pipe(alloc, run, &order)
        }
        Action::Capture { name, line } => {
            let order = order_of(recipe, line);
            capture(alloc, run, &order, name)
        }
        Action::Forward(text) => {
            let order = order_of(recipe, text);
            forward(alloc, run, &order)
        }
        Action::WriteOut => write_out(alloc, run, recipe.flags, &recipe.lock),
        Action::Block(_) => Ok(Acted::Went),
    }
}

fn order_of<'a>(recipe: &'a Recipe, text: &'a Blob) -> Order<'a>
    ensures flags { result.flags ≡ recipe.now.flags }
    ensures lock { result.lock.now ≡ recipe.now.lock }
    ensures text { result.text.now ≡ text.now }
{
    Order {
        flags: recipe.flags,
        lock: &recipe.lock,
        text: text.as_slice(),
    }
}

/// Delivers to a default mailbox, under its automatic lock file.
pub fn deliver_default<D: Effects>(
    alloc: Global,
    run: &mut Run<D>,
    mailbox: &Blob,
) -> Result<Acted, Memory>
    ensures carries { Carries (Delivering.deliver_default mailbox.now (mind_of run.old.process))
        (λ acted. acted_with acted (mind_of run.new.process)) result
        run.old.journal run.new.journal (D.told run.old.outside) (D.told run.new.outside) }
    ensures sure { OnErr result (Undelivered Delivering.no_flags run.old.journal run.new.journal) }
{
    let lock = Some(Blob::empty(alloc));
    let word = mailbox.copy(alloc)?;
    let order = Order {
        flags: no_flags(),
        lock: &lock,
        text: mailbox.as_slice(),
    };
    match target_among(alloc, &order, Blob::empty(alloc), &[word], &run.process) {
        Ok(target) => file_and_say(
            alloc,
            run,
            target.lock,
            &order,
            target.destinations.as_slice(),
        ),
        Err(refusal) => tell_refusal(alloc, run, refusal),
    }
}

// The flags of a recipe that has no letters.
fn no_flags() -> Flags
    ensures { result ≡ Delivering.no_flags }
{
    Flags {
        search_head: false,
        search_body: false,
        distinguish: false,
        feed_head: false,
        feed_body: false,
        filter: false,
        copy: false,
        wait: false,
        wait_quiet: false,
        ignore: false,
        raw: false,
        and_chain: false,
        and_ok: false,
        or_else: false,
        on_error: false,
    }
}

// Runs the commands of the lock file's text and of the action's, and then delivers by their outputs.
fn deliver_mail<D: Effects>(
    alloc: Global,
    run: &mut Run<D>,
    order: &Order<'_>,
) -> Result<Acted, Memory>
    ensures carries { let o = order.now in
        Carries (deliver o.flags o.lock.now o.text.now (mind_of run.old.process))
        (λ acted. acted_with acted (mind_of run.new.process)) result
        run.old.journal run.new.journal (D.told run.old.outside) (D.told run.new.outside) }
    ensures sure { OnErr result (Undelivered order.now.flags run.old.journal run.new.journal) }
{
    let lock_commands = commands(alloc, lock_text(order.lock), Mode::One)?;
    let text_commands = commands(alloc, order.text, Mode::Many)?;
    let ready = make_ready(
        alloc,
        run,
        lock_commands.as_slice(),
        text_commands.as_slice(),
    )?;
    match target_of(alloc, order, &ready, &run.process) {
        Ok(target) => file_and_say(
            alloc,
            run,
            target.lock,
            order,
            target.destinations.as_slice(),
        ),
        Err(refusal) => tell_refusal(alloc, run, refusal),
    }
}

// Delivers, and says what came of it.
fn file_and_say<D: Effects>(
    alloc: Global,
    run: &mut Run<D>,
    lock: Option<Name>,
    order: &Order<'_>,
    destinations: &[Destination],
) -> Result<Acted, Memory>
    requires free { IsFreeLock lock run.old.process.locks.names }
    ensures carries { let o = order.now in
        Carries (Delivering.file_and_say o.flags lock o.text.now destinations.now (mind_of run.old.process))
        (λ acted. acted_with acted (mind_of run.new.process)) result
        run.old.journal run.new.journal (D.told run.old.outside) (D.told run.new.outside) }
    ensures sure { OnErr result (Undelivered order.now.flags run.old.journal run.new.journal) }
{
    let attempt = match lock {
        None => file_all(alloc, run, order.flags, destinations)?,
        Some(name) => file_locked(alloc, run, name, order.flags, destinations)?,
    };
    settle(&attempt, &mut run.process);
    let acted = acted_by(order.flags, &attempt);
    let mut lines = attempt_lines(alloc, order.text, &attempt)?;
    push_copy(
        alloc,
        is_done(&attempt),
        order.flags,
        &run.process,
        &mut lines,
    )?;
    say_each(alloc, run, lines, acted)
}

/// The name of a file can't be used: this is told of the text.
pub fn refuse<D: Effects>(
    alloc: Global,
    run: &mut Run<D>,
    text: &[u8],
) -> Result<Option<End>, Memory>
    ensures carries { Carries (refuse_name text.now (mind_of run.old.process))
        (λ end. turn_of end (mind_of run.new.process)) result
        run.old.journal run.new.journal (D.told run.old.outside) (D.told run.new.outside) }
    ensures same { run.new.process ≡ run.old.process }
{
    let line = unusable_name(alloc, text)?;
    tell(alloc, run, line)?;
    Ok(None)
}

// A recipe that got the mail to each destination succeeded.
fn settle(attempt: &Attempt, process: &mut Process)
    ensures mind { mind_of process.new ≡ settled attempt.now (mind_of process.old) }
    ensures locks { process.new.locks ≡ process.old.locks }
{
    if is_done(attempt) {
        process.chain = succeed(&process.chain);
    }
}

fn is_done(attempt: &Attempt) -> bool
    ensures { result ≡ Delivering.is_done attempt.now }
{
    match attempt {
        Attempt::Unlocked(filed) => is_stored(filed),
        Attempt::NotLocked { .. } => false,
        Attempt::Locked { filed, .. } => is_stored(filed),
    }
}

// What came of an attempt.
fn acted_by(flags: Flags, attempt: &Attempt) -> Acted
    ensures { result ≡ attempt_acted flags attempt.now }
{
    match attempt {
        Attempt::Unlocked(filed) => filed_acted(flags, filed),
        Attempt::NotLocked { cause, .. } => Acted::Failed(*cause),
        Attempt::Locked { filed, .. } => filed_acted(flags, filed),
    }
}

// What came of the destinations.
fn filed_acted(flags: Flags, filed: &Filed) -> Acted
    ensures { result ≡ Delivering.filed_acted flags filed.now }
{
    match filed {
        Filed::Stored => all_stored(flags),
        Filed::Unwritten(_) => Acted::Failed(Cause::Undone),
        Filed::Raced(_) => Acted::Failed(Cause::Raced),
        Filed::Left { .. } => Acted::Failed(Cause::Torn),
        Filed::Crowded(_) => Acted::Failed(Cause::NamesOut),
        Filed::Unnamed => Acted::Failed(Cause::BadName),
    }
}

/// The mail, or under the flag c a copy, was delivered.
pub fn all_stored(flags: Flags) -> Acted
    ensures { result ≡ Delivering.all_stored flags }
{
    if flags.copy {
        Acted::CopyDone
    } else {
        Acted::Delivered
    }
}

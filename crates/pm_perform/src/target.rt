//! Where a recipe delivers to (procmailrc(5), "Recipe action line"): its texts are expanded, the names in them are
//! read, and its lock file is looked at. All of this only reads the process, and nothing is told yet.
ghost use Rattle.std.specs.Prelude.{◌≡◌, ℕ, List, Option, [], length, IfOk};
ghost use Rattle.pm_subst.specs.Commands.{commands_in};
ghost use Rattle.pm_subst.specs.declared.kinds.Mode.TheVariants.{One, Many};
ghost use Rattle.pm_meaning.specs.Delivering.{deliver_with, deliver_text, deliver_to, deliver_named, deliver_at};
ghost use Rattle.pm_meaning.specs.Delivering.{file_and_say};
ghost use Rattle.pm_meaning.specs.Locks;
ghost use Rattle.pm_meaning.specs.Locks.{text_or};
ghost use Rattle.pm_meaning.specs.Minds.{Mind, mind_of};
ghost use Rattle.pm_meaning.specs.Ready.{ready_of};
ghost use Rattle.pm_perform.specs.Copies.{IsFreeLock};
ghost use Rattle.pm_perform.specs.Refusals.{Continues};
ghost use Rattle.pm_perform.specs.Targets.{file_at};

use crate::delivering::Order;
use crate::locks::{
    any_held, blamed_text, full_lock, full_names, is_taken, lock_name, lock_text, lock_word,
};
use crate::refusing::Refusal;
use pm_bytes::{Blob, Name, NameRefused};
use pm_meaning::{
    Cause, Destination, Expansion, Process, Ready, destinations, expand_text, first_word,
};
use pm_subst::Mode;
use std::alloc::Global;

/// The lock file of a delivery, if one is asked for, and its destinations.
#[derive(Drop)]
pub struct Target {
    pub lock: Option<Name>,
    pub destinations: Vec<Destination>,
}

/// The target of a recipe, by the outputs of the commands in its texts.
pub fn target_of<'a>(
    alloc: Global,
    order: &Order<'a>,
    ready: &Ready,
    process: &Process,
) -> Result<Target, Refusal<'a>>
    requires locks { length ready.now.lock_outputs.items ≡ length (commands_in One (text_or [] order.now.lock.now)) }
    requires each { length ready.now.outputs.items ≡ length (commands_in Many order.now.text.now) }
    ensures target { let o = order.now in let p = mind_of process.now in
        Continues (file_at o.flags o.text.now p)
        (deliver_with o.flags o.lock.now o.text.now (ready_of ready.now p)) p result }
    ensures free { IfOk result (λ target. IsFreeLock target.lock process.now.locks.names) }
{
    let value = expand_lock(alloc, order, ready, process)?;
    let words = expand_words(alloc, order, ready.outputs.as_slice(), process)?;
    target_among(alloc, order, value, words.as_slice(), process)
}

// Expands the text of the lock file.
fn expand_lock<'a>(
    alloc: Global,
    order: &Order<'a>,
    ready: &Ready,
    process: &Process,
) -> Result<Blob, Refusal<'a>>
    requires { length ready.now.lock_outputs.items ≡ length (commands_in One (text_or [] order.now.lock.now)) }
    ensures { let o = order.now in let p = mind_of process.now in
        Continues (λ value. deliver_text o.flags o.lock.now value o.text.now ready.now.outputs.items p)
        (deliver_with o.flags o.lock.now o.text.now (ready_of ready.now p)) p result }
{
    let text = lock_text(order.lock);
    let outputs = ready.lock_outputs.as_slice();
    match expand_text(alloc, text, Mode::One, &process.vars, outputs)? {
        Expansion::Words(words) => Ok(first_word(alloc, words)),
        Expansion::TooLong(length) => Err(Refusal::TooLong(length)),
    }
}

// Expands the text of the action.
fn expand_words<'a>(
    alloc: Global,
    order: &Order<'a>,
    outputs: &[Blob],
    process: &Process,
) -> Result<Vec<Blob>, Refusal<'a>>
    requires { length outputs.now ≡ length (commands_in Many order.now.text.now) }
    ensures { (value : List ℕ) → let o = order.now in let p = mind_of process.now in
        Continues (λ words. deliver_to o.flags o.lock.now value o.text.now words.items p)
        (deliver_text o.flags o.lock.now value o.text.now outputs.now p) p result }
{
    match expand_text(alloc, order.text, Mode::Many, &process.vars, outputs)? {
        Expansion::Words(words) => Ok(words),
        Expansion::TooLong(length) => Err(Refusal::TooLong(length)),
    }
}

/// The target of a recipe whose lock file's text and own text expand to this.
pub fn target_among<'a>(
    alloc: Global,
    order: &Order<'a>,
    value: Blob,
    words: &[Blob],
    process: &Process,
) -> Result<Target, Refusal<'a>>
    ensures target { let o = order.now in let p = mind_of process.now in
        Continues (file_at o.flags o.text.now p)
        (deliver_to o.flags o.lock.now value o.text.now words.now p) p result }
    ensures free { IfOk result (λ target. IsFreeLock target.lock process.now.locks.names) }
{
    let word = name_lock(alloc, order, value, words, process)?;
    let lock = full_lock(alloc, &process.base, word)?;
    let destinations = name_destinations(alloc, order, words)?;
    check_free(alloc, order, &lock, destinations.as_slice(), process)?;
    Ok(Target { lock, destinations })
}

// The word that names the lock file, where there is a destination and that can be a file's name.
fn name_lock<'a>(
    alloc: Global,
    order: &Order<'a>,
    value: Blob,
    words: &[Blob],
    process: &Process,
) -> Result<Option<Name>, Refusal<'a>>
    ensures { let o = order.now in let p = mind_of process.now in
        Continues (λ word. deliver_named o.flags word (Locks.blamed_text o.lock.now o.text.now) o.text.now words.now p)
        (deliver_to o.flags o.lock.now value o.text.now words.now p) p result }
{
    if words.len() == 0 {
        return Err(Refusal::Unusable(Cause::NoWords, order.text));
    }
    let word = lock_word(alloc, order.lock, value, words, process)?;
    match lock_name(alloc, word) {
        Ok(name) => Ok(name),
        Err(NameRefused::Unusable) => {
            let text = blamed_text(order.lock, order.text);
            Err(Refusal::Unusable(Cause::BadName, text))
        }
        Err(NameRefused::Memory) => Err(Refusal::Memory),
    }
}

// The destinations, where each word can be the name of a file or a folder.
fn name_destinations<'a>(
    alloc: Global,
    order: &Order<'a>,
    words: &[Blob],
) -> Result<Vec<Destination>, Refusal<'a>>
    ensures { (word : Option (List ℕ)) → (p : Mind) → let o = order.now in
        let blamed = Locks.blamed_text o.lock.now o.text.now in
        Continues (λ all. deliver_at o.flags (Locks.full_lock p.base word) blamed o.text.now all.items p)
        (deliver_named o.flags word blamed o.text.now words.now p) p result }
{
    match destinations(alloc, words)? {
        None => Err(Refusal::Unusable(Cause::BadName, order.text)),
        Some(all) => Ok(all),
    }
}

// Looks whether the lock file is none of the destinations and nothing of all this is held.
fn check_free<'a>(
    alloc: Global,
    order: &Order<'a>,
    lock: &Option<Name>,
    destinations: &[Destination],
    process: &Process,
) -> Result<(), Refusal<'a>>
    ensures free { IfOk result (λ _. IsFreeLock lock.now process.now.locks.names) }
    ensures goes_on { let o = order.now in let p = mind_of process.now in
        Continues (λ _. file_and_say o.flags lock.now o.text.now destinations.now p)
        (deliver_at o.flags lock.now (Locks.blamed_text o.lock.now o.text.now) o.text.now destinations.now p) p result }
{
    let files = full_names(alloc, &process.base, destinations)?;
    if is_taken(lock, files.as_slice(), &process.locks) {
        let text = blamed_text(order.lock, order.text);
        return Err(Refusal::Unusable(Cause::NameIsLock, text));
    }
    if any_held(files.as_slice(), &process.locks) {
        return Err(Refusal::Unusable(Cause::NameIsLock, order.text));
    }
    Ok(())
}

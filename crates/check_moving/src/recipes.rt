//! Forms of colon lines and of blocks.
ghost use Rattle.std.specs.Prelude.{◌≡◌, IfOk};
ghost use Rattle.check_moving.specs.Kept;
ghost use Rattle.check_moving.specs.Recipes;
ghost use Rattle.check_moving.specs.Recipes.{begun, opened, sent};

use crate::form::{Form, ProgramForm, RecipeForm};
use crate::kept::kept;
use crate::mailboxes::is_automatic;
use crate::text::is;
use pm_bytes::{Blob, Memory};
use pm_recipe::{Flags, read_flags, read_lock};
use std::alloc::Global;

/// The forms of a colon line: `fresh` as the first of a block, `closed` right after a block, `unwatched` after a recipe
/// with a lock file and without w, and under the lock file `held`, or none.
pub fn colon_forms(
    alloc: Global,
    fresh: bool,
    closed: bool,
    unwatched: bool,
    held: &[u8],
    colon: &[u8],
) -> Result<Vec<Form>, Memory>
    ensures { IfOk result (λ forms. forms.items ≡ Kept.kept (begun fresh closed unwatched held.now colon.now)) }
{
    let flags = read_flags(colon);
    let lock = read_lock(alloc, colon)?;
    let reasons = [
        (
            is_first_chain(fresh, flags),
            Form::Recipe(RecipeForm::FirstChain),
        ),
        (
            is_after_block(closed, flags),
            Form::Recipe(RecipeForm::AfterBlock),
        ),
        (is_lock(held, &lock), Form::Recipe(RecipeForm::HeldLock)),
        (
            is_after_lock(unwatched, flags),
            Form::Recipe(RecipeForm::AfterLock),
        ),
    ];
    kept(alloc, &reasons)
}

/// The forms of a block under this colon line.
pub fn block_forms(alloc: Global, colon: &[u8]) -> Result<Vec<Form>, Memory>
    ensures { IfOk result (λ forms. forms.items ≡ Kept.kept (opened colon.now)) }
{
    let flags = read_flags(colon);
    let lock = read_lock(alloc, colon)?;
    let reasons = [
        (
            is_block_lock(flags, &lock),
            Form::Recipe(RecipeForm::BlockLock),
        ),
        (is_automatic(&lock), Form::Recipe(RecipeForm::BlockAutoLock)),
        (flags.copy, Form::Recipe(RecipeForm::BlockCopy)),
    ];
    kept(alloc, &reasons)
}

/// The forms of a program or a forward under this colon line.
pub fn sent_forms(alloc: Global, colon: &[u8]) -> Result<Vec<Form>, Memory>
    ensures { IfOk result (λ forms. forms.items ≡ Kept.kept (sent colon.now)) }
{
    let reasons = [(is_lost(alloc, colon)?, Form::Program(ProgramForm::LockWait))];
    kept(alloc, &reasons)
}

fn is_first_chain(fresh: bool, flags: Flags) -> bool
    ensures { result ≡ Recipes.is_first_chain fresh flags }
{
    fresh && (flags.and_chain || flags.and_ok || flags.on_error)
}

fn is_after_block(closed: bool, flags: Flags) -> bool
    ensures { result ≡ Recipes.is_after_block closed flags }
{
    closed && (flags.and_ok || flags.on_error)
}

fn is_lock(name: &[u8], lock: &Option<Blob>) -> bool
    ensures { result ≡ Recipes.is_lock name.now lock.now }
{
    match lock {
        None => false,
        Some(lock) => is(lock.as_slice(), name) && !is(lock.as_slice(), b""),
    }
}

fn is_named(lock: &Option<Blob>) -> bool
    ensures { result ≡ Recipes.is_named lock.now }
{
    match lock {
        None => false,
        Some(lock) => !is(lock.as_slice(), b""),
    }
}

fn is_block_lock(flags: Flags, lock: &Option<Blob>) -> bool
    ensures { result ≡ Recipes.is_block_lock flags lock.now }
{
    is_named(lock) && !flags.copy
}

fn is_after_lock(unwatched: bool, flags: Flags) -> bool
    ensures { result ≡ Recipes.is_after_lock unwatched flags }
{
    unwatched && (flags.and_ok || flags.on_error)
}

fn lacks_wait(flags: Flags) -> bool
    ensures { result ≡ Recipes.lacks_wait flags }
{
    !(flags.wait || flags.wait_quiet)
}

fn is_locked(flags: Flags, lock: &Option<Blob>) -> bool
    ensures { result ≡ Recipes.is_locked flags lock.now }
{
    match lock {
        None => false,
        Some(_) => lacks_wait(flags),
    }
}

/// Whether the exit status of a program under this colon line isn't looked at, though it has a lock file.
pub fn is_unwatched(alloc: Global, colon: &[u8]) -> Result<bool, Memory>
    ensures { IfOk result (λ unwatched. unwatched ≡ Recipes.is_unwatched colon.now) }
{
    let lock = read_lock(alloc, colon)?;
    Ok(is_locked(read_flags(colon), &lock))
}

fn is_lost(alloc: Global, colon: &[u8]) -> Result<bool, Memory>
    ensures { IfOk result (λ lost. lost ≡ Recipes.is_lost colon.now) }
{
    let flags = read_flags(colon);
    let unwatched = is_unwatched(alloc, colon)?;
    Ok(unwatched && !flags.filter && !flags.copy)
}

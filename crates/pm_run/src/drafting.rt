//! Drafts of abstracts. What an abstract says of the mail is written before a delivery, with room for the rest, and the
//! name of its log file too. So no memory is wanted for it once the mail is delivered.
ghost use Rattle.std.specs.Prelude.{◌≡◌, ◌≤◌, ◌-◌, true, [], codes, IfOk, vec_capacity, vec_len};
ghost use Rattle.pm_journal.specs.Executed.{Carries};
ghost use Rattle.pm_meaning.specs.Abstracts.{abstract_of};
ghost use Rattle.pm_meaning.specs.Locks;
ghost use Rattle.pm_meaning.specs.Logging.{log, logged};
ghost use Rattle.pm_meaning.specs.Minds.{mind_of};
ghost use Rattle.pm_run.specs.Drafts.{IsDrafted, is_draft_for};

use crate::draft::Draft;
use pm_bytes::{Blob, Memory};
use pm_journal::Effects;
use pm_meaning::{Process, Run, log_name, logs_last, mail_part, push_folder, tell_in, value_or};
use std::alloc::Global;
use std::mem;

/// How many bytes a draft has room for after the mail's part: twice the longest name of a file, and the other words.
const ROOM: usize = 8_300;

/// The draft for the next delivery takes the place of the last one, which is dropped.
pub fn renew(alloc: Global, process: &Process, draft: &mut Option<Draft>) -> Result<(), Memory>
    ensures { IfOk result (λ _. IsDrafted draft.new (mind_of process.now)) }
{
    let next = draft_for(alloc, process)?;
    drop(mem::replace(draft, next));
    Ok(())
}

// The draft for the next delivery, where its abstract will be logged.
fn draft_for(alloc: Global, process: &Process) -> Result<Option<Draft>, Memory>
    ensures { IfOk result (λ draft. IsDrafted draft (mind_of process.now)) }
{
    if !logs_last(process) {
        return Ok(None);
    }
    let draft = draft_of(alloc, process)?;
    Ok(Some(draft))
}

fn draft_of(alloc: Global, process: &Process) -> Result<Draft, Memory>
    ensures head { IfOk result (λ draft. draft.head ≡ process.now.message.head) }
    ensures value { IfOk result (λ draft. draft.value ≡ Locks.value_or [] (codes "LOGFILE") process.now.vars) }
    ensures base { IfOk result (λ draft. draft.base ≡ process.now.base) }
    ensures room { IfOk result (λ draft. 8300 ≤ vec_capacity draft.text - vec_len draft.text) }
{
    let parts = process.message.parts();
    let text = mail_part(alloc, parts, ROOM)?;
    let base = process.base.copy(alloc)?;
    let file = log_name(alloc, process)?;
    let logfile = Blob::from_slice(alloc, value_or(b"", b"LOGFILE", &process.vars))?;
    let head = parts.head.copy(alloc)?;
    Ok(Draft {
        head,
        text,
        value: logfile,
        base,
        file,
    })
}

/// Whether the draft is that of this process's mail and log file.
pub fn is_for(draft: &Draft, process: &Process) -> bool
    ensures { result ≡ is_draft_for draft.now (mind_of process.now) }
{
    draft.head.as_slice() == process.message.parts().head.as_slice()
        && draft.value.as_slice() == value_or(b"", b"LOGFILE", &process.vars)
        && draft.base.as_str().as_bytes() == process.base.as_str().as_bytes()
}

/// Finishes the draft, which is for this process, and logs it as the abstract of the last delivery.
pub fn tell_draft<D: Effects>(run: &mut Run<D>, draft: Draft) -> Result<(), Memory>
    requires suits { is_draft_for draft (mind_of run.old.process) ≡ true }
    ensures carries { let p = mind_of run.old.process in Carries (log (abstract_of p) p) (λ _. logged) result
        run.old.journal run.new.journal (D.told run.old.outside) (D.told run.new.outside) }
    ensures same { run.new.process ≡ run.old.process }
{
    let Draft {
        head,
        mut text,
        value,
        file,
        ..
    } = draft;
    drop(head);
    drop(value);
    push_folder(&run.process.stored, &mut text)?;
    tell_in(run, file, Blob::from_vec(text))
}

//! Forms that were found, by what brings them over.
ghost use Rattle.std.specs.Prelude.{◌≡◌, ◌++◌, OnOk};
ghost use Rattle.std.specs.List.{list_any};
ghost use Rattle.check_fix.specs.Moved.{variable_edits, weight_edits, condition_edits, search_edits, mailbox_edits};
ghost use Rattle.check_fix.specs.Moved.{program_edits, field_edits, form_edits, block_edits, mailbox_lock_edits};
ghost use Rattle.check_fix.specs.Moved.{program_lock_edits};
ghost use Rattle.check_fix.specs.Moved.{lock_edits, all_form_edits, all_lock_edits};
ghost use Rattle.check_fix.specs.Moved.{moves_variable, moves_recipe, moves_condition, moves_search, moves_mailbox};
ghost use Rattle.check_fix.specs.Moved;
ghost use Rattle.check_fix.specs.Moved.{moves_program, moves_field};

use crate::braces::put_brace;
use crate::calls::{
    put_appended, put_empty, put_length, put_quiet, put_removed, put_reply, put_trust,
};
use crate::colons::{put_automatic, put_cache_lock, put_lock_wait, put_own_lock};
use crate::conditions::{put_late, put_supreme};
use crate::edits::Edit;
use crate::fed::gets_body;
use crate::locks::put_held;
use crate::mailboxes::{put_hash, put_match, put_several};
use crate::numbers::put_number;
use crate::searches::{put_anchors, put_backslash, put_continued, put_end};
use crate::values::{put_delivered, put_host, put_idle, put_log};
use check_moving::{
    ConditionForm, Form, MailboxForm, ProgramForm, RecipeForm, ReplyForm, SearchForm, VariableForm,
};
use pm_bytes::Memory;
use pm_recipe::Span;
use std::alloc::Global;

fn put_variable(
    alloc: Global,
    form: VariableForm,
    span: &Span<'_>,
    spans: &[Span<'_>],
    edits: &mut Vec<Edit>,
) -> Result<(), Memory>
    ensures { OnOk result (edits.new.items ≡ edits.old.items ++ variable_edits form span.now spans.now) }
{
    match form {
        VariableForm::Host => put_host(alloc, span, spans, edits),
        VariableForm::NoEffect => put_idle(alloc, span, edits),
        VariableForm::LogAbstract => put_log(alloc, span, edits),
        VariableForm::Delivered => put_delivered(alloc, span, edits),
        VariableForm::LockFile => put_held(alloc, span, spans, edits),
        VariableForm::OpenBrace => put_brace(alloc, span, spans, edits),
        _ => Ok(()),
    }
}

fn put_weight(
    alloc: Global,
    span: &Span<'_>,
    all: &[Span<'_>],
    edits: &mut Vec<Edit>,
) -> Result<(), Memory>
    ensures { OnOk result (edits.new.items ≡ edits.old.items ++ weight_edits span.now all.now) }
{
    put_supreme(alloc, span, edits)?;
    put_number(alloc, span, all, edits)
}

fn put_condition(
    alloc: Global,
    form: ConditionForm,
    span: &Span<'_>,
    all: &[Span<'_>],
    edits: &mut Vec<Edit>,
) -> Result<(), Memory>
    ensures { OnOk result (edits.new.items ≡ edits.old.items ++ condition_edits form span.now all.now) }
{
    match form {
        ConditionForm::LateWeight => put_late(alloc, span, edits),
        ConditionForm::VariableWeight => put_weight(alloc, span, all, edits),
        ConditionForm::Continued => put_continued(alloc, span, edits),
        _ => Ok(()),
    }
}

fn put_search(
    alloc: Global,
    form: SearchForm,
    span: &Span<'_>,
    edits: &mut Vec<Edit>,
) -> Result<(), Memory>
    ensures { OnOk result (edits.new.items ≡ edits.old.items ++ search_edits form span.now) }
{
    match form {
        SearchForm::Backslash => put_backslash(alloc, span, edits),
        SearchForm::MatchEnd => put_end(alloc, span, edits),
        SearchForm::TwoAnchors => put_anchors(alloc, span, edits),
        _ => Ok(()),
    }
}

fn put_mailbox(
    alloc: Global,
    form: MailboxForm,
    span: &Span<'_>,
    edits: &mut Vec<Edit>,
) -> Result<(), Memory>
    ensures { OnOk result (edits.new.items ≡ edits.old.items ++ mailbox_edits form span.now) }
{
    match form {
        MailboxForm::Several => put_several(alloc, span, edits),
        MailboxForm::Hash => put_hash(alloc, span, edits),
        MailboxForm::MatchName => put_match(alloc, span, edits),
        _ => Ok(()),
    }
}

fn put_program(
    alloc: Global,
    form: ProgramForm,
    span: &Span<'_>,
    edits: &mut Vec<Edit>,
) -> Result<(), Memory>
    ensures { OnOk result (edits.new.items ≡ edits.old.items ++ program_edits form span.now) }
{
    match form {
        ProgramForm::CacheLength => put_length(alloc, span, edits),
        ProgramForm::FromAppended => put_appended(alloc, span, edits),
        ProgramForm::OldOption => put_quiet(alloc, span, edits),
        _ => Ok(()),
    }
}

fn put_field(
    alloc: Global,
    form: ReplyForm,
    span: &Span<'_>,
    all: &[Span<'_>],
    edits: &mut Vec<Edit>,
) -> Result<(), Memory>
    ensures { OnOk result (edits.new.items ≡ edits.old.items ++ field_edits form span.now all.now) }
{
    match form {
        ReplyForm::ReplyField => put_reply(alloc, span, edits),
        ReplyForm::TrustAlone => put_trust(alloc, span, edits),
        ReplyForm::EmptyField => if gets_body(span, all) {
            Ok(())
        } else {
            put_empty(alloc, span, edits)
        },
        ReplyForm::FromRemoved => put_removed(alloc, span, edits),
        _ => Ok(()),
    }
}

fn put_form(
    alloc: Global,
    form: Form,
    span: &Span<'_>,
    spans: &[Span<'_>],
    all: &[Span<'_>],
    edits: &mut Vec<Edit>,
) -> Result<(), Memory>
    ensures { OnOk result (edits.new.items ≡ edits.old.items ++ form_edits form span.now spans.now all.now) }
{
    match form {
        Form::Variable(form) => put_variable(alloc, form, span, spans, edits),
        Form::Condition(form) => put_condition(alloc, form, span, all, edits),
        Form::Search(form) => put_search(alloc, form, span, edits),
        Form::Mailbox(form) => put_mailbox(alloc, form, span, edits),
        Form::Program(form) => put_program(alloc, form, span, edits),
        Form::Reply(form) => put_field(alloc, form, span, all, edits),
        _ => Ok(()),
    }
}

/// Forms, in the span where they were found. `all` are the spans of the whole text.
pub fn put_forms(
    alloc: Global,
    forms: &[Form],
    span: &Span<'_>,
    spans: &[Span<'_>],
    all: &[Span<'_>],
    edits: &mut Vec<Edit>,
) -> Result<(), Memory>
    ensures { OnOk result (edits.new.items
        ≡ edits.old.items ++ all_form_edits forms.now span.now spans.now all.now) }
{
    let mut rest = forms;
    while let Some((form, later)) = rest.split_first() {
        put_form(alloc, *form, span, spans, all, edits)?;
        rest = later;
    }
    Ok(())
}

fn put_block(
    alloc: Global,
    form: RecipeForm,
    span: &Span<'_>,
    edits: &mut Vec<Edit>,
) -> Result<(), Memory>
    ensures { OnOk result (edits.new.items ≡ edits.old.items ++ block_edits form span.now) }
{
    match form {
        RecipeForm::BlockAutoLock => put_automatic(alloc, span, edits),
        _ => Ok(()),
    }
}

fn put_mailbox_lock(
    alloc: Global,
    form: MailboxForm,
    span: &Span<'_>,
    edits: &mut Vec<Edit>,
) -> Result<(), Memory>
    ensures { OnOk result (edits.new.items ≡ edits.old.items ++ mailbox_lock_edits form span.now) }
{
    match form {
        MailboxForm::FolderLock => put_automatic(alloc, span, edits),
        MailboxForm::OwnLock => put_own_lock(alloc, span, edits),
        _ => Ok(()),
    }
}

fn put_program_lock(
    alloc: Global,
    form: ProgramForm,
    span: &Span<'_>,
    edits: &mut Vec<Edit>,
) -> Result<(), Memory>
    ensures { OnOk result (edits.new.items ≡ edits.old.items ++ program_lock_edits form span.now) }
{
    match form {
        ProgramForm::CacheLock => put_cache_lock(alloc, span, edits),
        ProgramForm::LockWait => put_lock_wait(alloc, span, edits),
        _ => Ok(()),
    }
}

fn put_lock(alloc: Global, form: Form, span: &Span<'_>, edits: &mut Vec<Edit>) -> Result<(), Memory>
    ensures { OnOk result (edits.new.items ≡ edits.old.items ++ lock_edits form span.now) }
{
    match form {
        Form::Recipe(form) => put_block(alloc, form, span, edits),
        Form::Mailbox(form) => put_mailbox_lock(alloc, form, span, edits),
        Form::Program(form) => put_program_lock(alloc, form, span, edits),
        _ => Ok(()),
    }
}

/// Forms of an action, in the colon line of its recipe.
pub fn put_locks(
    alloc: Global,
    forms: &[Form],
    span: &Span<'_>,
    edits: &mut Vec<Edit>,
) -> Result<(), Memory>
    ensures { OnOk result (edits.new.items ≡ edits.old.items ++ all_lock_edits forms.now span.now) }
{
    let mut rest = forms;
    while let Some((form, later)) = rest.split_first() {
        put_lock(alloc, *form, span, edits)?;
        rest = later;
    }
    Ok(())
}

/// Whether forms of this kind are brought over.
pub fn moves(form: Form) -> bool
    ensures { result ≡ Moved.moves form }
{
    match form {
        Form::Variable(form) => moves_variable(form),
        Form::Expanded(_) => false,
        Form::Recipe(form) => moves_recipe(form),
        Form::Condition(form) => moves_condition(form),
        Form::Search(form) => moves_search(form),
        Form::Mailbox(form) => moves_mailbox(form),
        Form::Program(form) => moves_program(form),
        Form::Reply(form) => moves_field(form),
    }
}

fn moves_variable(form: VariableForm) -> bool
    ensures { result ≡ moves_variable form }
{
    match form {
        VariableForm::Host
        | VariableForm::NoEffect
        | VariableForm::LogAbstract
        | VariableForm::Delivered
        | VariableForm::OpenBrace => true,
        _ => false,
    }
}

fn moves_recipe(form: RecipeForm) -> bool
    ensures { result ≡ moves_recipe form }
{
    match form {
        RecipeForm::BlockAutoLock => true,
        _ => false,
    }
}

fn moves_condition(form: ConditionForm) -> bool
    ensures { result ≡ moves_condition form }
{
    match form {
        ConditionForm::LateWeight | ConditionForm::VariableWeight | ConditionForm::Continued => {
            true
        }
        _ => false,
    }
}

fn moves_search(form: SearchForm) -> bool
    ensures { result ≡ moves_search form }
{
    match form {
        SearchForm::Backslash | SearchForm::MatchEnd | SearchForm::TwoAnchors => true,
        _ => false,
    }
}

fn moves_mailbox(form: MailboxForm) -> bool
    ensures { result ≡ moves_mailbox form }
{
    match form {
        MailboxForm::Several
        | MailboxForm::Hash
        | MailboxForm::MatchName
        | MailboxForm::OwnLock
        | MailboxForm::FolderLock => true,
        _ => false,
    }
}

fn moves_program(form: ProgramForm) -> bool
    ensures { result ≡ moves_program form }
{
    match form {
        ProgramForm::CacheLock
        | ProgramForm::CacheLength
        | ProgramForm::FromAppended
        | ProgramForm::LockWait => true,
        _ => false,
    }
}

fn moves_field(form: ReplyForm) -> bool
    ensures { result ≡ moves_field form }
{
    match form {
        ReplyForm::ReplyField
        | ReplyForm::TrustAlone
        | ReplyForm::EmptyField
        | ReplyForm::FromRemoved => true,
        _ => false,
    }
}

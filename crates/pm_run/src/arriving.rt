//! The beginning of a run: the mail gets its From line, the words of the command line set variables, and the first of
//! its rcfiles that can be read is opened.
ghost use Rattle.std.specs.Prelude.{◌≡◌, ◌||◌, ◌∷◌, ℕ, List, [], false, reverse, bytes_eq, codes, IfOk, OnErr};
ghost use Rattle.std.specs.Prelude.{if◌then◌else◌};
ghost use Rattle.pm_bytes.specs.Name.{has_zero};
ghost use Rattle.pm_journal.specs.Executed.{Carries};
ghost use Rattle.pm_journal.specs.Plan.{ask};
ghost use Rattle.pm_journal.specs.Walking.{Go};
ghost use Rattle.pm_journal.specs.declared.acts.Act.TheVariants.{Moment};
ghost use Rattle.pm_journal.specs.declared.acts.Reply.TheVariants.{Now};
ghost use Rattle.pm_meaning.specs.Delivering;
ghost use Rattle.pm_meaning.specs.FirstValues.{home_folder};
ghost use Rattle.pm_meaning.specs.Minds.{mind_of};
ghost use Rattle.pm_meaning.specs.Running.{Event, Arrived, Setting, step};
ghost use Rattle.pm_meaning.specs.Running;
ghost use Rattle.pm_meaning.specs.declared.command_line.CommandLine.{CommandLine as Words};
ghost use Rattle.pm_run.specs.Opening.{OpensFrom};
ghost use Rattle.pm_run.specs.RunningOut.{MayRunOut, RunsOut};
ghost use Rattle.pm_run.specs.Stretches.{Walks};
ghost use Rattle.pm_run.specs.Turned.{turn_in};

use crate::assigning::assign_value;
use crate::first_values::{begin, home, login};
use crate::opening::{Rule, open_first};
use crate::turned::Turned;
use pm_bytes::{Blob, Environ, Memory, Name, Names, Pair};
use pm_code::Code;
use pm_journal::Effects;
use pm_meaning::{CommandLine, End, Idle, Process, Run};
use pm_message::{Mail, needs_line, prepare_mail};
use std::alloc::Global;
use std::ops::ControlFlow;

/// The process that begins with this mail, which gets its From line.
pub fn arrive<D: Effects>(
    alloc: Global,
    line: &CommandLine,
    env: &Environ,
    bytes: Blob,
    outside: &mut D,
    idle: &mut Idle<D::Kept>,
) -> Result<Process, Memory>
    ensures carries { let home = Running.home_by line.now.values (home_folder env.now) in
        Carries (step (Arrived line.now env.now bytes))
        (λ process. Go (Setting line.now.values line.now home (mind_of process)))
        result idle.old.journal idle.new.journal (D.told outside.old) (D.told outside.new) }
    ensures locks { IfOk result (λ process. process.locks.names ≡ []) }
{
    if !needs_line(bytes.as_slice(), &line.renew) {
        let message = Mail::split_own(alloc, bytes)?;
        return begin(alloc, line, env, message);
    }
    let moment = ask_moment(outside, idle)?;
    let message = prepare_mail(alloc, bytes, &line.renew, login(env).as_bytes(), moment)?;
    begin(alloc, line, env, message)
}

// The moment, in seconds since 1970 in UTC, while no lock is held. If memory runs out, nothing was noted.
fn ask_moment<D: Effects>(outside: &mut D, idle: &mut Idle<D::Kept>) -> Result<i64, Memory>
    ensures carries { Carries (ask Moment) (λ moment. Now moment) result
        idle.old.journal idle.new.journal (D.told outside.old) (D.told outside.new) }
    ensures untouched { OnErr result (idle.new.journal.entries ≡ idle.old.journal.entries) }
{
    idle.journal.reserve(1)?;
    Ok(outside.moment(&mut idle.journal))
}

/// The words of the command line set variables, and its rcfiles are opened in order, up to one that is read.
pub fn begin_rcfiles<D: Effects>(
    alloc: Global,
    run: &mut Run<D>,
    line: &CommandLine,
    env: &Environ,
) -> Result<ControlFlow<End, Option<Code>>, Memory>
    ensures opens { let home = Running.home_by line.now.values (home_folder env.now) in IfOk result (λ opened. OpensFrom
        (Setting line.now.values line.now home (mind_of run.old.process)) opened (mind_of run.new.process)
        run.old.journal run.new.journal (D.told run.old.outside) (D.told run.new.outside)) }
    ensures memory { let home = Running.home_by line.now.values (home_folder env.now) in
        OnErr result (RunsOut {X = Event} step MayRunOut
        (Setting line.now.values line.now home (mind_of run.old.process))
        run.old.journal run.new.journal (D.told run.old.outside) (D.told run.new.outside)) }
{
    let values = line.values.as_slice();
    set_words(alloc, run, values)?;
    let rule = Rule {
        is_implied: is_without(&line.rcfiles),
        keeps_folder: sets_folder(values),
    };
    let names = rcfiles_of(alloc, line, home_by(values, home(env)))?;
    open_first(alloc, run, rule, names)
}

// The words that set variables, one after the other.
fn set_words<D: Effects>(alloc: Global, run: &mut Run<D>, values: &[Pair]) -> Result<(), Memory>
    ensures walks { (line : Words) (home : List ℕ) → Walks (Setting values.now line home (mind_of run.old.process))
        (λ _. Setting [] line home (mind_of run.new.process)) result
        run.old.journal run.new.journal (D.told run.old.outside) (D.told run.new.outside) }
{
    for value in values {
        set_by_word(alloc, run, value)?;
    }
    Ok(())
}

// A word that sets a variable names no other rcfile and no other host.
fn set_by_word<D: Effects>(alloc: Global, run: &mut Run<D>, word: &Pair) -> Result<Turned, Memory>
    ensures carries { Carries (Running.set_by_word word.now (mind_of run.old.process))
        (λ turned. turn_in turned (mind_of run.new.process)) result
        run.old.journal run.new.journal (D.told run.old.outside) (D.told run.new.outside) }
{
    let name = word.name.as_str().as_bytes();
    if names_rcfile(name) {
        return Ok(Turned::Goes);
    }
    let value = Blob::from_slice(alloc, word.value.as_str().as_bytes())?;
    if is_host(name) {
        run.process.vars.set(name, value)?;
        return Ok(Turned::Goes);
    }
    assign_value(alloc, run, name, value)
}

// Whether the variable is INCLUDERC or SWITCHRC.
fn names_rcfile(name: &[u8]) -> bool
    ensures { result ≡ (bytes_eq name.now (codes "INCLUDERC") || bytes_eq name.now (codes "SWITCHRC")) }
{
    name == b"INCLUDERC".as_slice() || name == b"SWITCHRC".as_slice()
}

// Whether the variable is HOST.
fn is_host(name: &[u8]) -> bool
    ensures { result ≡ bytes_eq name.now (codes "HOST") }
{
    name == b"HOST".as_slice()
}

// Whether a word sets MAILDIR.
fn sets_folder(values: &[Pair]) -> bool
    ensures { result ≡ Running.sets_folder values.now }
{
    values.iter().any(|value| value.name.as_str().as_bytes() == b"MAILDIR".as_slice())
}

// The home folder after these words.
fn home_by<'a>(values: &'a [Pair], home: &'a str) -> &'a str
    requires usable { has_zero home.now ≡ false }
    ensures same { result.now ≡ Running.home_by values.now home.now }
    ensures usable { has_zero result.now ≡ false }
{
    let mut found = home;
    for value in values {
        found = home_of(value, found);
    }
    found
}

// The home folder after this word.
fn home_of<'a>(word: &'a Pair, home: &'a str) -> &'a str
    requires usable { has_zero home.now ≡ false }
    ensures same { result.now ≡ (if bytes_eq word.now.name (codes "HOME") then word.now.value else home.now) }
    ensures usable { has_zero result.now ≡ false }
{
    if word.name.as_str().as_bytes() == b"HOME".as_slice() {
        word.value.as_str()
    } else {
        home
    }
}

// The rcfiles that are tried, the last one first; without a word for one that of the home folder.
fn rcfiles_of(alloc: Global, line: &CommandLine, home: &str) -> Result<Vec<Name>, Memory>
    requires usable { has_zero home.now ≡ false }
    ensures { IfOk result (λ names. reverse names.items ≡ Running.rcfiles_of line.now home.now) }
{
    if is_without(&line.rcfiles) {
        return own_rcfile(alloc, home);
    }
    let mut names = Vec::new(alloc);
    for word in line.rcfiles.as_slice() {
        names.push(named_rcfile(alloc, line.filter, home, word)?)?;
    }
    names.reverse();
    Ok(names)
}

// Whether there is no name.
fn is_without(names: &Names) -> bool
    ensures { result ≡ Delivering.is_without names.now }
{
    names.as_slice().is_empty()
}

// The rcfile of the home folder.
fn own_rcfile(alloc: Global, home: &str) -> Result<Vec<Name>, Memory>
    requires usable { has_zero home.now ≡ false }
    ensures { IfOk result (λ names. names.items ≡ Running.in_home home.now (codes ".procmailrc") ∷ []) }
{
    let mut names = Vec::new(alloc);
    names.push(in_home(alloc, home, ".procmailrc")?)?;
    Ok(names)
}

// The rcfile of this word.
fn named_rcfile(alloc: Global, filter: bool, home: &str, word: &Name) -> Result<Name, Memory>
    requires usable { has_zero home.now ≡ false }
    ensures { IfOk result (λ name. name ≡ Running.named_rcfile filter home.now word.now) }
{
    let bytes = word.as_str().as_bytes();
    if filter || bytes.starts_with(b"/") || bytes.starts_with(b"./") {
        return word.copy(alloc);
    }
    in_home(alloc, home, word.as_str())
}

// A name in the home folder.
fn in_home(alloc: Global, home: &str, word: &str) -> Result<Name, Memory>
    requires usable { has_zero home.now ≡ false }
    requires word { has_zero word.now ≡ false }
    ensures { IfOk result (λ name. name ≡ Running.in_home home.now word.now) }
{
    let mut text = String::from_str(alloc, home)?;
    text.push_str("/")?;
    text.push_str(word)?;
    Ok(Name::from_text(text))
}

//! The words of the command line (lockfile(1)): settings, each of which holds for the names after it, and names.
ghost use Rattle.std.specs.Prelude.{◌≡◌, ◌≤◌, IfOk, IfSome, option_map, option_and_then};
ghost use Rattle.pm_bytes.specs.Name.{has_zero};
ghost use Rattle.pm_bytes.specs.Number.{number_of};
ghost use Rattle.lockfile_top.specs.Words.{first_rule, tries_for, with_value};
ghost use Rattle.lockfile_top.specs.Words;
ghost use Rattle.lockfile_top.specs.Words.{is_lock_name};
ghost use Rattle.lockfile_top.specs.Words.{tasks_in, is_inverted, line_of};
ghost use Rattle.lockfile_top.specs.Words.{command_line, all_bytes, ReadsOn, NamesLock, IsNoName};
ghost use Rattle.lockfile_top.specs.Jobs.{IsFit, AllFit, KeepsFit};

use crate::{CommandLine, Setting, Task, Tasks};
use pm_bytes::{Environ, Memory, Name, NameRefused, read_count, read_number};
use pm_journal::LockRule;
use pm_start::login;
use std::alloc::Global;
use std::collections::VecDeque;

/// What a word says by itself.
#[derive(Clone, Copy)]
pub enum Word {
    /// The settings are these from now on.
    Sets(LockRule),
    /// The next word is the value of this setting.
    Awaits(Setting),
    /// It is the name of a lock file.
    Takes,
    TakesMailbox,
    GivesMailbox,
    Unread,
}

// How far the words were read.
#[derive(Drop)]
struct Reading {
    rule: LockRule,
    waiting: Option<Setting>,
    tasks: VecDeque<Task>,
}

/// What the words ask for; `None` where one isn't read, and where they name no lock file.
pub fn read_words(
    alloc: Global,
    env: &Environ,
    words: &[String],
) -> Result<Option<CommandLine>, Memory>
    ensures line { IfOk result (λ found. found ≡ command_line env.now (all_bytes words.now)) }
    ensures fit { IfOk result (λ found. IfSome found (λ line. AllFit line.tasks)) }
{
    let inverted = has_inversion(words);
    match read_tasks(alloc, env, words)? {
        Some(tasks) => Ok(make_line(inverted, tasks)),
        None => Ok(None),
    }
}

fn has_inversion(words: &[String]) -> bool
    ensures { result ≡ is_inverted (all_bytes words.now) }
{
    for word in words {
        if word.as_str() == "-!" {
            return true;
        }
    }
    false
}

fn make_line(inverted: bool, tasks: VecDeque<Task>) -> Option<CommandLine>
    ensures { result ≡ line_of inverted tasks.items }
{
    if tasks.is_empty() {
        return None;
    }
    Some(CommandLine {
        tasks: Tasks::from_queue(tasks),
        inverted,
    })
}

fn read_tasks(
    alloc: Global,
    env: &Environ,
    words: &[String],
) -> Result<Option<VecDeque<Task>>, Memory>
    ensures tasks { IfOk result (λ found. option_map (λ tasks. tasks.items) found
        ≡ tasks_in (Words.mailbox_lock env.now) first_rule None (all_bytes words.now)) }
    ensures fit { IfOk result (λ found. IfSome found (λ tasks. AllFit tasks.items)) }
{
    let mut reading = Reading {
        rule: LockRule {
            sleep: 8,
            limit: 0,
            suspend: 16,
            tries: 1_000_000,
        },
        waiting: None,
        tasks: VecDeque::new(alloc),
    };
    for word in words {
        if !read_word(alloc, env, word.as_str(), &mut reading)? {
            return Ok(None);
        }
    }
    if reading.waiting.is_some() {
        return Ok(None);
    }
    Ok(Some(reading.tasks))
}

// One word more; false where it isn't read.
fn read_word(
    alloc: Global,
    env: &Environ,
    word: &str,
    reading: &mut Reading,
) -> Result<bool, Memory>
    requires rule { IsFit reading.old.rule }
    requires tasks { AllFit reading.old.tasks.items }
    ensures reads { IfOk result (λ is_read. ReadsOn (Words.mailbox_lock env.now) word.now is_read
        reading.old.rule reading.old.waiting reading.old.tasks.items
        reading.new.rule reading.new.waiting reading.new.tasks.items) }
    ensures rule { IsFit reading.new.rule }
    ensures tasks { AllFit reading.new.tasks.items }
{
    if let Some(setting) = reading.waiting {
        let Some(rule) = change(setting, word.as_bytes(), reading.rule) else {
            return Ok(false);
        };
        reading.rule = rule;
        reading.waiting = None;
        return Ok(true);
    }
    let rule = reading.rule;
    match word_of(rule, word) {
        Word::Sets(changed) => {
            reading.rule = changed;
            Ok(true)
        }
        Word::Awaits(setting) => {
            reading.waiting = Some(setting);
            Ok(true)
        }
        Word::Takes => {
            let name = Name::from_text(String::from_str(alloc, word)?);
            reading.tasks.push_back(Task::Take { name, rule })?;
            Ok(true)
        }
        Word::TakesMailbox => {
            let name = mailbox_lock(alloc, env)?;
            reading.tasks.push_back(Task::Take { name, rule })?;
            Ok(true)
        }
        Word::GivesMailbox => {
            let name = mailbox_lock(alloc, env)?;
            reading.tasks.push_back(Task::Give { name })?;
            Ok(true)
        }
        Word::Unread => Ok(false),
    }
}

// What a word says, where these are the settings.
fn word_of(rule: LockRule, word: &str) -> Word
    ensures says { result ≡ Words.word_of rule word.now }
    ensures name { NamesLock result word.now }
    ensures fit { KeepsFit rule result }
{
    if word == "-!" {
        Word::Sets(rule)
    } else if word == "-ml" {
        Word::TakesMailbox
    } else if word == "-mu" {
        Word::GivesMailbox
    } else if word.as_bytes().starts_with(b"-") {
        setting_word(rule, &word.as_bytes()[1..])
    } else if can_name_lock(word) {
        Word::Takes
    } else {
        Word::Unread
    }
}

// Whether the word isn't empty and has no byte 0.
fn can_name_lock(word: &str) -> bool
    ensures { result ≡ is_lock_name word.now }
{
    !word.is_empty() && !word.as_bytes().contains(&0)
}

// A word that begins with `-`, without it.
fn setting_word(rule: LockRule, text: &[u8]) -> Word
    ensures says { result ≡ Words.setting_word rule text.now }
    ensures name { IsNoName result }
    ensures fit { KeepsFit rule result }
{
    let Some((letter, value)) = text.split_first() else {
        return Word::Unread;
    };
    match setting_of(*letter) {
        Some(setting) => value_word(setting, rule, value),
        None => changed(change(Setting::Sleep, text, rule)),
    }
}

fn setting_of(letter: u8) -> Option<Setting>
    ensures { result ≡ Words.setting_of letter }
{
    match letter {
        b'r' => Some(Setting::Retries),
        b'l' => Some(Setting::Limit),
        b's' => Some(Setting::Suspend),
        _ => None,
    }
}

fn value_word(setting: Setting, rule: LockRule, value: &[u8]) -> Word
    ensures says { result ≡ Words.value_word setting rule value.now }
    ensures name { IsNoName result }
    ensures fit { KeepsFit rule result }
{
    if value.is_empty() {
        Word::Awaits(setting)
    } else {
        changed(change(setting, value, rule))
    }
}

fn changed(rule: Option<LockRule>) -> Word
    ensures says { result ≡ Words.changed rule }
    ensures name { IsNoName result }
{
    match rule {
        Some(rule) => Word::Sets(rule),
        None => Word::Unread,
    }
}

// The rule with this setting changed; `None` where the value isn't a number in its range.
fn change(setting: Setting, text: &[u8], rule: LockRule) -> Option<LockRule>
    ensures value { result ≡ with_value setting text.now rule }
    ensures fit { IfSome result (λ changed. IsFit rule → IsFit changed) }
{
    match setting {
        Setting::Sleep => Some(LockRule {
            sleep: seconds_of(text)?,
            ..rule
        }),
        Setting::Retries => Some(LockRule {
            tries: tries_of(text)?,
            ..rule
        }),
        Setting::Limit => Some(LockRule {
            limit: seconds_of(text)?,
            ..rule
        }),
        Setting::Suspend => Some(LockRule {
            suspend: seconds_of(text)?,
            ..rule
        }),
    }
}

fn seconds_of(text: &[u8]) -> Option<u64>
    ensures { result ≡ Words.seconds_of text.now }
{
    if text.len() > 9 {
        return None;
    }
    read_count(text)
}

// One more than the retries, and the most that there are for -1.
fn tries_of(text: &[u8]) -> Option<u32>
    ensures tries { result ≡ option_and_then tries_for (number_of text.now) }
    ensures fit { IfSome result (λ tries. (1 ≤ tries) × (tries ≤ 1000000)) }
{
    let retries = read_number(text)?;
    if retries == -1 {
        Some(1_000_000)
    } else if 0 <= retries && retries <= 999_999 {
        Some(retries as u32 + 1)
    } else {
        None
    }
}

// The lock file of the system mailbox.
fn mailbox_lock(alloc: Global, env: &Environ) -> Result<Name, Memory>
    ensures { IfOk result (λ name. name ≡ Words.mailbox_lock env.now) }
{
    let mut text = String::from_str(alloc, "/var/mail/")?;
    text.push_str(login(env))?;
    text.push_str(".lock")?;
    match Name::read(alloc, text.as_str().as_bytes()) {
        Ok(name) => Ok(name),
        Err(_) => Err(Memory),
    }
}

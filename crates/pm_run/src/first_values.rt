//! The variables with which a process begins (procmailrc(5), "Environment variables assignments").
ghost use Rattle.std.specs.Prelude.{◌≡◌, ◌++◌, [], false, nat_le, pos, IfOk, option_copied};
ghost use Rattle.std.specs.List.{list_all};
ghost use Rattle.pm_bytes.specs.Name.{has_zero};
ghost use Rattle.pm_vars.specs.Variables.{with_value};
ghost use Rattle.pm_meaning.specs.Minds.{mind_of};
ghost use Rattle.pm_meaning.specs.FirstValues.{environment_value, is_login, login_name};
ghost use Rattle.pm_meaning.specs.FirstValues.{home_folder, search_path, time_zone, first_folder};
ghost use Rattle.pm_meaning.specs.FirstValues.{user_values, place_values, mailbox_values};
ghost use Rattle.pm_meaning.specs.FirstValues.{program_values, file_values, all_set, first_table, first_process};

use pm_bytes::{Blob, Environ, Memory, Name, Names};
use pm_journal::HeldLocks;
use pm_meaning::{CommandLine, Process, Stored, new_chain};
use pm_message::Mail;
use pm_vars::Vars;
use std::alloc::Global;

/// A process that begins with the arguments of this command line and this mail.
pub fn begin(
    alloc: Global,
    line: &CommandLine,
    env: &Environ,
    message: Mail,
) -> Result<Process, Memory>
    ensures mind { IfOk result (λ process. mind_of process
        ≡ first_process line.now.filter line.now.fails_softly line.now.arguments env.now message) }
    ensures locks { IfOk result (λ process. process.locks.names ≡ []) }
{
    match first_of(alloc, line, env) {
        Ok(first) => Ok(Process {
            filter: line.filter,
            fails_softly: line.fails_softly,
            message,
            vars: first.vars,
            base: first.base,
            host_name: first.host_name,
            locks: HeldLocks::new(alloc),
            global: None,
            chain: new_chain(),
            placed: 0,
            rcfile: Name::from_text(String::new(alloc)),
            openings: 0,
            is_clone: false,
            later: Vec::new(alloc),
            stored: Stored {
                folder: Blob::empty(alloc),
                size: 0,
            },
        }),
        Err(Memory) => {
            drop(message);
            Err(Memory)
        }
    }
}

// What a process begins with besides its mail.
#[derive(Drop)]
struct First {
    vars: Vars,
    base: Name,
    host_name: Name,
}

fn first_of(alloc: Global, line: &CommandLine, env: &Environ) -> Result<First, Memory>
    ensures vars { IfOk result (λ first. first.vars
        ≡ first_table line.now.filter line.now.arguments env.now) }
    ensures base { IfOk result (λ first. first.base ≡ first_folder line.now.filter env.now) }
    ensures host { IfOk result (λ first. first.host_name ≡ env.now.host_name) }
{
    let base = start_base(alloc, line.filter, env)?;
    let host_name = env.host_name.copy(alloc)?;
    let vars = first_vars(alloc, line, env)?;
    Ok(First {
        vars,
        base,
        host_name,
    })
}

// The variables, with the arguments of the command line.
fn first_vars(alloc: Global, line: &CommandLine, env: &Environ) -> Result<Vars, Memory>
    ensures { IfOk result (λ vars. vars ≡ first_table line.now.filter line.now.arguments env.now) }
{
    let mut vars = Vars::new(alloc, env.pid);
    match fill(alloc, &mut vars, line, env) {
        Ok(()) => Ok(vars),
        Err(Memory) => {
            drop(vars);
            Err(Memory)
        }
    }
}

// The arguments and the variables go into the table of a process that begins.
fn fill(alloc: Global, vars: &mut Vars, line: &CommandLine, env: &Environ) -> Result<(), Memory>
    requires empty { vars.old ≡ record {
      variables = [];
      arguments = [];
      marks = record { pid = env.now.pid; code = 0; score = pos 0; rcfile = [] };
    } }
    ensures { IfOk result (λ _. vars.new ≡ first_table line.now.filter line.now.arguments env.now) }
{
    add_arguments(alloc, vars, &line.arguments)?;
    set_user(alloc, vars, env)?;
    set_time_zone(alloc, vars, env)?;
    set_place(alloc, vars, line.filter, env)?;
    set_mailbox(alloc, vars, line.filter, env)?;
    set_programs(alloc, vars)?;
    set_files(alloc, vars)
}

fn add_arguments(alloc: Global, vars: &mut Vars, arguments: &Names) -> Result<(), Memory>
    ensures { IfOk result (λ _.
        vars.new ≡ record vars.old { arguments = vars.old.arguments ++ arguments.now }) }
{
    for argument in arguments.as_slice() {
        vars.add_argument(Blob::from_slice(alloc, argument.as_str().as_bytes())?)?;
    }
    Ok(())
}

fn set(alloc: Global, vars: &mut Vars, name: &[u8], value: &[u8]) -> Result<(), Memory>
    ensures { IfOk result (λ _.
        vars.new ≡ record vars.old { variables = with_value name.now value.now vars.old.variables }) }
{
    vars.set(name, Blob::from_slice(alloc, value)?)
}

// Who runs the program.
fn set_user(alloc: Global, vars: &mut Vars, env: &Environ) -> Result<(), Memory>
    ensures { IfOk result (λ _.
        vars.new ≡ record vars.old { variables = all_set (user_values env.now) vars.old.variables }) }
{
    set(alloc, vars, b"LOGNAME", login(env).as_bytes())?;
    set(alloc, vars, b"HOME", home(env).as_bytes())?;
    set(alloc, vars, b"SHELL", b"/bin/sh")?;
    set(alloc, vars, b"PATH", path(env).as_bytes())
}

fn set_time_zone(alloc: Global, vars: &mut Vars, env: &Environ) -> Result<(), Memory>
    ensures { IfOk result (λ _.
        vars.new ≡ record vars.old { variables = all_set (time_zone env.now) vars.old.variables }) }
{
    match value_in_environment(env, b"TZ") {
        Some(zone) => set(alloc, vars, b"TZ", zone.as_str().as_bytes()),
        None => Ok(()),
    }
}

// Where the program runs.
fn set_place(alloc: Global, vars: &mut Vars, filter: bool, env: &Environ) -> Result<(), Memory>
    ensures { IfOk result (λ _.
        vars.new ≡ record vars.old { variables = all_set (place_values filter env.now) vars.old.variables }) }
{
    set(alloc, vars, b"HOST", env.host_name.as_str().as_bytes())?;
    set(
        alloc,
        vars,
        b"MAILDIR",
        start_folder(filter, env).as_bytes(),
    )
}

// A mail filter has no default mailbox.
fn set_mailbox(alloc: Global, vars: &mut Vars, filter: bool, env: &Environ) -> Result<(), Memory>
    ensures { IfOk result (λ _.
        vars.new ≡ record vars.old
        { variables = all_set (mailbox_values filter env.now) vars.old.variables }) }
{
    if filter {
        return Ok(());
    }
    let mut mailbox = Blob::from_slice(alloc, b"/var/mail/")?;
    mailbox.push_slice(login(env).as_bytes())?;
    set(alloc, vars, b"ORGMAIL", mailbox.as_slice())?;
    vars.set(b"DEFAULT", mailbox)
}

fn set_programs(alloc: Global, vars: &mut Vars) -> Result<(), Memory>
    ensures { IfOk result (λ _.
        vars.new ≡ record vars.old { variables = all_set program_values vars.old.variables }) }
{
    set(alloc, vars, b"SENDMAIL", b"/usr/sbin/sendmail")?;
    set(alloc, vars, b"SENDMAILFLAGS", b"-oi")?;
    set(alloc, vars, b"SHELLMETAS", b"&|<>~;?*[")?;
    set(alloc, vars, b"SHELLFLAGS", b"-c")
}

fn set_files(alloc: Global, vars: &mut Vars) -> Result<(), Memory>
    ensures { IfOk result (λ _.
        vars.new ≡ record vars.old { variables = all_set file_values vars.old.variables }) }
{
    set(alloc, vars, b"MSGPREFIX", b"msg.")?;
    set(alloc, vars, b"LOCKEXT", b".lock")?;
    set(alloc, vars, b"LOCKSLEEP", b"8")?;
    set(alloc, vars, b"LOCKTIMEOUT", b"1024")?;
    set(alloc, vars, b"SUSPEND", b"16")?;
    set(alloc, vars, b"PROCMAIL_VERSION", b"3.22")
}

/// The login name: LOGNAME of the environment, where it is not empty and has no byte below 33.
pub fn login(env: &Environ) -> &str
    ensures { result.now ≡ login_name env.now }
{
    match value_in_environment(env, b"LOGNAME") {
        Some(name) if can_log_in(name.as_str().as_bytes()) => name.as_str(),
        _ => "nobody",
    }
}

fn can_log_in(name: &[u8]) -> bool
    ensures { result ≡ is_login name.now }
{
    !name.is_empty() && has_no_blank(name)
}

// Whether the name has no blank and no control character.
fn has_no_blank(name: &[u8]) -> bool
    ensures { result ≡ list_all (λ byte. nat_le 33 byte) name.now }
{
    name.iter().all(|byte| 33 <= *byte)
}

/// The home folder: HOME of the environment, or the root.
pub fn home(env: &Environ) -> &str
    ensures same { result.now ≡ home_folder env.now }
    ensures usable { has_zero result.now ≡ false }
{
    match value_in_environment(env, b"HOME") {
        Some(folder) if !folder.as_str().is_empty() => folder.as_str(),
        _ => "/",
    }
}

fn path(env: &Environ) -> &str
    ensures { result.now ≡ search_path env.now }
{
    match value_in_environment(env, b"PATH") {
        Some(path) if !path.as_str().is_empty() => path.as_str(),
        _ => "/usr/bin:/bin",
    }
}

fn start_folder(filter: bool, env: &Environ) -> &str
    ensures { result.now ≡ first_folder filter env.now }
{
    if filter { "." } else { home(env) }
}

fn start_base(alloc: Global, filter: bool, env: &Environ) -> Result<Name, Memory>
    ensures { IfOk result (λ base. base ≡ first_folder filter env.now) }
{
    if filter {
        return Ok(Name::from_text(String::from_str(alloc, ".")?));
    }
    match value_in_environment(env, b"HOME") {
        Some(folder) if !folder.as_str().is_empty() => folder.copy(alloc),
        _ => Ok(Name::from_text(String::from_str(alloc, "/")?)),
    }
}

// The value of the first pair of this name.
fn value_in_environment<'a>(env: &'a Environ, name: &[u8]) -> Option<&'a Name>
    ensures { option_copied result ≡ environment_value env.now name.now }
{
    for pair in env.vars.as_slice() {
        if name == pair.name.as_str().as_bytes() {
            return Some(&pair.value);
        }
    }
    None
}

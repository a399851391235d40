//! The machine as runs find it, which only read there.
ghost use Rattle.std.specs.Prelude.{◌≡◌, IfOk};
ghost use Rattle.pm_host.specs.declared.answers.Child.{Child};

use pm_bytes::{Environ, Memory, Name};
use pm_overlay::ReadOnly;
use pm_real::{RealHost, Setup, can_be_host_name, read_regular};
use pm_start::{first_line, machine_name, read_environment};
use std::fs::File;
use std::io::{self, ErrorKind};

/// What all runs of a program share.
#[derive(Drop)]
pub struct Machine {
    setup: Setup<File>,
    env: Environ,
}

impl Machine {
    pub fn new(rt: &HostRuntime) -> io::Result<Machine> {
        let setup = Setup::new(rt)?;
        match surroundings(rt) {
            Ok(env) => Ok(Machine { setup, env }),
            Err(Memory) => Err(io::Error::from(ErrorKind::OutOfMemory)),
        }
    }

    /// The environment of the program.
    pub fn env(&self) -> &Environ {
        &self.env
    }

    /// The files of the machine for one run, which reads them and changes nothing.
    pub fn base(&self, rt: &HostRuntime) -> Result<ReadOnly<RealHost<HostRuntime>>, Memory> {
        Ok(ReadOnly::new(self.host(rt)?))
    }

    /// The machine itself, for a run that starts programs.
    pub fn host(&self, rt: &HostRuntime) -> Result<RealHost<HostRuntime>, Memory>
        ensures { IfOk result (λ host. host.child ≡ Child.NoChild) }
    {
        RealHost::new(rt, rt.alloc(), self.env.pid, &self.setup)
    }
}

fn surroundings(rt: &HostRuntime) -> Result<Environ, Memory> {
    let alloc = rt.alloc();
    Ok(Environ {
        vars: read_environment(alloc, rt)?,
        pid: std::process::id(rt.process()),
        host_name: host_name(rt)?,
    })
}

// The host has no name if `/etc/hostname` can't be read, or if its line can't be a part of the name of a maildir's
// file.
fn host_name(rt: &HostRuntime) -> Result<Name, Memory> {
    let alloc = rt.alloc();
    match read_regular(rt, "/etc/hostname") {
        Ok(text) if can_be_host_name(first_line(text.as_slice())) => machine_name(
            alloc,
            text.as_slice(),
        ),
        _ => machine_name(alloc, b""),
    }
}

//! Reads an rcfile once.
ghost use Rattle.std.specs.Prelude.{◌≡◌, ◌<◌, IfOk, length, vec_len};

use crate::calls::failed::Failed;
use pm_recipe::read_rc;
use std::alloc::{AllocError, Global};

/// Makes an rcfile of this size out of the text, and reads it as the task says.
pub fn read_rcfile(rt: &HostRuntime, task: &str, text: &[u8], size: usize) -> Result<(), Failed> {
    if text.is_empty() {
        return Err(Failed::Usage);
    }
    let rcfile = filled(rt.alloc(), text, size)?;
    read_once(rt, task, rcfile.as_slice())
}

/// An rcfile of this many bytes.
fn filled(alloc: Global, part: &[u8], size: usize) -> Result<Vec<u8>, AllocError>
    requires { 0 < length part.now }
    ensures { IfOk result (λ rcfile. vec_len rcfile ≡ size) }
{
    let mut rcfile = Vec::new(alloc);
    for index in 0..size {
        rcfile.push(part[index % part.len()])?;
    }
    Ok(rcfile)
}

fn read_once(rt: &HostRuntime, task: &str, rcfile: &[u8]) -> Result<(), Failed> {
    match task {
        "none" => println!(rt; "not read")?,
        "read" => {
            let _rc = read_rc(rt.alloc(), rcfile)?;
            println!(rt; "read")?;
        }
        _ => return Err(Failed::Usage),
    }
    Ok(())
}

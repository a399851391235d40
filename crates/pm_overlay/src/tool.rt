//! The programs that are answered by their own code.
ghost use Rattle.std.specs.Prelude.{◌≡◌, codes};
ghost use Rattle.pm_overlay.specs.Tools.{tool_of, is_named};

use pm_bytes::Name;

/// A program that a trial answers by its own code.
#[derive(Clone, Copy)]
pub enum Tool {
    Formail,
    Lockfile,
}

/// Which of them has this name, or a path that ends with it.
pub fn tool_of(program: &Name) -> Option<Tool>
    ensures { result ≡ tool_of program.now }
{
    let name = program.as_str().as_bytes();
    if is_formail(name) {
        Some(Tool::Formail)
    } else if is_lockfile(name) {
        Some(Tool::Lockfile)
    } else {
        None
    }
}

fn is_formail(name: &[u8]) -> bool
    ensures { result ≡ is_named (codes "formail") name.now }
{
    name == b"formail".as_slice() || name.ends_with(b"/formail")
}

fn is_lockfile(name: &[u8]) -> bool
    ensures { result ≡ is_named (codes "lockfile") name.now }
{
    name == b"lockfile".as_slice() || name.ends_with(b"/lockfile")
}

//! Searches an area once for an expression.
use crate::calls::area::{kind_of, make};
use crate::calls::failed::Failed;
use pm_match::Engine;
use pm_regex::{Found, read};

/// Makes an area of this kind and size, and searches it for the expression as the task says.
pub fn search_area(
    rt: &HostRuntime,
    task: &str,
    text: &[u8],
    kind: &str,
    size: usize,
) -> Result<(), Failed> {
    let kind = kind_of(kind).ok_or(Failed::Usage)?;
    let area = make(rt.alloc(), kind, size)?;
    search(rt, task, text, area.as_slice())
}

fn search(rt: &HostRuntime, task: &str, text: &[u8], area: &[u8]) -> Result<(), Failed> {
    let expr = read(rt.alloc(), text)?;
    let mut engine = Engine::build(rt.alloc(), &expr, true)?;
    match task {
        "none" => {
            println!(rt; "not searched")?;
        }
        "find" => {
            let found = engine.find(area);
            print_found(rt, found)?;
        }
        "count" => {
            engine.reserve(area.len())?;
            let count = engine.count(area);
            println!(rt; "{count}")?;
        }
        _ => return Err(Failed::Usage),
    }
    Ok(())
}

fn print_found(rt: &HostRuntime, found: Option<Found>) -> Result<(), Failed> {
    match found {
        None => println!(rt; "none")?,
        Some(Found { start, cut, end }) => match cut {
            None => println!(rt; "from {start} to {end}")?,
            Some(cut) => println!(rt; "from {start} to {end}, cut at {cut}")?,
        },
    }
    Ok(())
}

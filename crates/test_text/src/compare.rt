//! Two lists of names without regard to their order.
ghost use Rattle.std.specs.Prelude.{◌≡◌, IfOk};
ghost use Rattle.test_text.specs.Bags.{left_over, is_over, times, is_same};

use pm_bytes::{Blob, Memory};
use std::alloc::Global;

/// What the first list has more often than the second, in its order.
pub fn left_over(alloc: Global, names: &[Blob], others: &[Blob]) -> Result<Vec<Blob>, Memory>
    ensures { IfOk result (λ over. over.items ≡ left_over names.now others.now) }
{
    let mut over = Vec::new(alloc);
    let mut left = names;
    while let Some((name, rest)) = left.split_first() {
        if is_over(name.as_slice(), rest, others) {
            over.push(name.copy(alloc)?)?;
        }
        left = rest;
    }
    Ok(over)
}

// Whether this name, before these ones, is one that the others have no more.
#[tactic(auto, unfolding(crate::specs::Bags::is_over))]
fn is_over(name: &[u8], rest: &[Blob], others: &[Blob]) -> bool
    ensures { result ≡ is_over name.now rest.now others.now }
{
    times(name, others) <= times(name, rest)
}

fn times(name: &[u8], names: &[Blob]) -> usize
    ensures { result ≡ times name.now names.now }
{
    names
        .iter()
        .filter(|other| other.as_slice() == name)
        .count()
}

/// Whether each name stands in both lists equally often.
pub fn is_same(alloc: Global, names: &[Blob], others: &[Blob]) -> Result<bool, Memory>
    ensures { IfOk result (λ same. same ≡ is_same names.now others.now) }
{
    Ok(left_over(alloc, names, others)?.is_empty() && left_over(alloc, others, names)?.is_empty())
}

//! Which mails `+N` and `-N` leave.
ghost use Rattle.std.specs.Prelude.{◌≡◌, ◌≤◌, length};
ghost use Rattle.formail_split.specs.Parts.{first_of, after_last_of};

use pm_bytes::Blob;

fn select_of(count: usize, skip: u64, total: Option<u64>) -> (usize, usize)
    ensures first { result.0 ≡ first_of count skip }
    ensures last { result.1 ≡ after_last_of count skip total }
    ensures ordered { result.0 ≤ result.1 }
    ensures within { result.1 ≤ count }
{
    let first = (count as u64).min(skip) as usize;
    let last = match total {
        None => count,
        Some(total) => first + ((count - first) as u64).min(total) as usize,
    };
    (first, last)
}

/// Of some mails the place of the first one that is wanted, and the place after the last. The first `skip` are left
/// out, and of the others all are wanted, or at most `total` (formail(1), options +N and -N).
pub fn select(parts: &[Blob], skip: u64, total: Option<u64>) -> (usize, usize)
    ensures first { result.0 ≡ first_of (length parts.now) skip }
    ensures last { result.1 ≡ after_last_of (length parts.now) skip total }
    ensures ordered { result.0 ≤ result.1 }
    ensures within { result.1 ≤ length parts.now }
{
    select_of(parts.len(), skip, total)
}

//! Moments and ages.
ghost use Rattle.std.specs.Prelude.{◌≡◌, ◌-ℤ◌, pos, IfSome};
ghost use Rattle.pm_host.specs.World.{age_at, later_moment};

/// So many seconds later, and no later than the greatest moment.
pub(crate) fn moment_after(moment: i64, seconds: u64) -> i64
    ensures { result ≡ later_moment moment seconds }
{
    let sum = moment as i128 + seconds as i128;
    if sum <= i64::MAX as i128 {
        sum as i64
    } else {
        i64::MAX
    }
}

/// Seconds from the moment at which a file was made; none where it is a later one.
pub(crate) fn seconds_since(made: i64, moment: i64) -> u64
    ensures { result ≡ age_at moment made }
{
    if made <= moment {
        moment.abs_diff(made)
    } else {
        0
    }
}

/// The moment so many seconds before, if it is one.
pub(crate) fn moment_before(moment: i64, seconds: u64) -> Option<i64>
    ensures { IfSome result (λ before. before ≡ moment -ℤ pos seconds) }
{
    let before = moment as i128 - seconds as i128;
    if before >= i64::MIN as i128 {
        Some(before as i64)
    } else {
        None
    }
}

//! What stands at a name: what the run made of it, or what the base has.
ghost use Rattle.std.specs.Prelude.{◌≡◌, ◌<◌, ◌+◌, ◌-ℤ◌, pos, min, IfSome, length, option_copied};
ghost use Rattle.pm_host.specs.Answers.{IsWithin};
ghost use Rattle.pm_host.specs.World.{LooksRight, AgesRight, later_moment};
ghost use Rattle.pm_overlay.specs.Base.{Holds, Stays};
ghost use Rattle.pm_overlay.specs.Changes.{stands, changed, unchanged, front_length};
ghost use Rattle.pm_overlay.specs.Steps.{ReadsAs, IsLength, IsAge};

use crate::Base;
use crate::changed::{Changed, Grown};
use crate::moment::{moment_after, moment_before, seconds_since};
use crate::part::copy_part;
use pm_host::{Aged, Got, Looked};

pub(crate) fn look_at<B: Base>(base: &mut B, change: Option<&Changed>, name: &str) -> Looked
    ensures stays { Stays (B.told base.old) (B.told base.new) }
    ensures right { Holds (B.told base.new) (λ w. LooksRight (stands (option_copied change.entry) w name.now) result) }
{
    match change {
        None => base.look(name),
        Some(Changed::Gone) => Looked::Nothing,
        Some(Changed::Folder) => Looked::Folder,
        Some(Changed::New(file)) => Looked::File(file.bytes.len() as u64),
        Some(Changed::Grown(grown)) => look_grown(base, grown),
    }
}

// Nothing stands where the base has no file any more.
fn look_grown<B: Base>(base: &mut B, grown: &Grown) -> Looked
    ensures stays { Stays (B.told base.old) (B.told base.new) }
    ensures right { Holds (B.told base.new) (λ w. LooksRight (changed (Changed.Grown grown.now) w) result) }
{
    match base.look(grown.from.as_str()) {
        Looked::File(len) => length_of(grown.kept.min(len), grown.more.len() as u64),
        Looked::Folder | Looked::Nothing => Looked::Nothing,
        Looked::Failed => Looked::Failed,
    }
}

fn length_of(front: u64, more: u64) -> Looked
    ensures { IsLength (front + more) result }
{
    match front.checked_add(more) {
        Some(len) => Looked::File(len),
        None => Looked::Failed,
    }
}

/// How many bytes of a file of the base are at the front of what the run made of a name.
pub(crate) fn front_of<B: Base>(base: &mut B, change: &Changed) -> Option<u64>
    ensures stays { Stays (B.told base.old) (B.told base.new) }
    ensures front { IfSome result (λ front. Holds (B.told base.new) (λ w. front ≡ front_length change.now w)) }
{
    let Changed::Grown(grown) = change else {
        return Some(0);
    };
    match base.look(grown.from.as_str()) {
        Looked::File(len) => Some(grown.kept.min(len)),
        Looked::Folder | Looked::Nothing => Some(0),
        Looked::Failed => None,
    }
}

pub(crate) fn read_at<B: Base>(
    base: &mut B,
    change: Option<&Changed>,
    name: &str,
    at: u64,
    room: &mut [u8],
) -> Got
    requires { 0 < length room.old }
    ensures stays { Stays (B.told base.old) (B.told base.new) }
    ensures right { Holds (B.told base.new) (λ w. ReadsAs (stands (option_copied change.entry) w name.now)
        at result room.new) }
    ensures within { IsWithin result (length room.old) }
{
    match change {
        None => base.read(name, at, room),
        Some(Changed::Gone) | Some(Changed::Folder) => Got::Failed,
        Some(Changed::New(file)) => Got::Got(copy_part(file.bytes.as_slice(), at, room)),
        Some(Changed::Grown(grown)) => read_grown(base, grown, at, room),
    }
}

fn read_grown<B: Base>(base: &mut B, grown: &Grown, at: u64, room: &mut [u8]) -> Got
    requires { 0 < length room.old }
    ensures stays { Stays (B.told base.old) (B.told base.new) }
    ensures right { Holds (B.told base.new) (λ w. ReadsAs (changed (Changed.Grown grown.now) w) at result room.new) }
    ensures within { IsWithin result (length room.old) }
{
    let Looked::File(len) = base.look(grown.from.as_str()) else {
        return Got::Failed;
    };
    let front = grown.kept.min(len);
    if at >= front {
        return Got::Got(copy_part(grown.more.as_slice(), at - front, room));
    }
    match base.read(grown.from.as_str(), at, room) {
        Got::Got(count) => Got::Got(capped(front - at, count)),
        Got::Failed => Got::Failed,
    }
}

// The least of two counts.
fn capped(left: u64, count: usize) -> usize
    ensures { result ≡ min left count }
{
    left.min(count as u64) as usize
}

/// Seconds since the file was made, after so many seconds of sleep.
pub(crate) fn age_at<B: Base>(
    base: &mut B,
    change: Option<&Changed>,
    name: &str,
    slept: u64,
) -> Aged
    ensures stays { Stays (B.told base.old) (B.told base.new) }
    ensures right { Holds (B.told base.new) (λ w. AgesRight (stands (option_copied change.entry) w name.now)
        (later_moment w.moment slept) result) }
{
    match change {
        None => age_in_base(base, name, slept),
        Some(Changed::Gone) => Aged::Absent,
        Some(Changed::Folder) => Aged::Failed,
        Some(Changed::New(file)) => {
            let now = moment_after(base.now(), slept);
            Aged::Age(seconds_since(file.made, now))
        }
        Some(Changed::Grown(grown)) => age_in_base(base, grown.from.as_str(), slept),
    }
}

// A file's age by its age before the base's moment.
fn age_in_base<B: Base>(base: &mut B, name: &str, slept: u64) -> Aged
    ensures stays { Stays (B.told base.old) (B.told base.new) }
    ensures right { Holds (B.told base.new) (λ w. AgesRight (unchanged (w.nodes name.now) w.moment)
        (later_moment w.moment slept) result) }
{
    match base.age(name) {
        Aged::Age(age) => {
            let now = base.now();
            age_of(now, age, slept)
        }
        Aged::Absent => Aged::Absent,
        Aged::Failed => Aged::Failed,
    }
}

// The age, after so many seconds of sleep, of a file that had this one at the moment.
fn age_of(now: i64, age: u64, slept: u64) -> Aged
    ensures { IsAge (later_moment now slept) (now -ℤ pos age) result }
{
    match moment_before(now, age) {
        Some(made) => Aged::Age(seconds_since(made, moment_after(now, slept))),
        None => Aged::Failed,
    }
}

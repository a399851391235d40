//! The line `From ` with its date.
ghost use Rattle.std.specs.Prelude.{◌≡◌, ◌<◌, ◌≤◌, ◌++◌, pos, IsOk, IfOk, OnOk};
ghost use Rattle.jiff.specs.Words.{epoch_day};
ghost use Rattle.pm_message.specs.Calendar.{day_at, IsDayNumber};
ghost use Rattle.pm_message.specs.Date.{weekday_of, month_of, two_places, clock_of, date_of, moved, last_moment};
ghost use Rattle.pm_message.specs.Date.{from_line_of};

use itoa::Buffer;
use jiff::civil::{self, Date};
use jiff::{Error, ToSpan};
use pm_bytes::{Blob, Memory};
use std::alloc::Global;

/// The last second of the year 9998.
const LAST_MOMENT: i64 = 253_370_764_799;

/// How many seconds a day has.
const DAY: u64 = 86_400;

/// A day of the calendar: its year, its month from 1, and its day of the month from 1.
#[derive(Clone, Copy)]
struct Day {
    year: u16,
    month: u8,
    day: u8,
}

/// jiff's date so many days after 1 January 1970, up to the end of the year 9998.
fn date_after(number: u64) -> Result<Date, Error>
    requires { number < 2_932_532 }
    ensures succeeds { IsOk result }
    ensures value { IfOk result (λ date. epoch_day date ≡ pos number) }
{
    civil::date(1970, 1, 1).checked_add((number as i64).days())
}

/// The day that comes so many days after 1 January 1970, up to the end of the year 9998.
fn civil_day(number: u64) -> Day
    requires { number < 2_932_532 }
    ensures value { result ≡ day_at number }
    ensures counted { IsDayNumber number result }
{
    match date_after(number) {
        Ok(date) => Day {
            year: date.year() as u16,
            month: date.month() as u8,
            day: date.day() as u8,
        },
        Err(_) => unreachable!(),
    }
}

/// The name of the weekday that comes so many days after 1 January 1970.
fn weekday(number: u64) -> &'static [u8]
    ensures { result.now ≡ weekday_of number }
{
    match number % 7 {
        0 => b"Thu",
        1 => b"Fri",
        2 => b"Sat",
        3 => b"Sun",
        4 => b"Mon",
        5 => b"Tue",
        _ => b"Wed",
    }
}

/// The name of the month.
fn month_name(month: u8) -> &'static [u8]
    requires low { 1 ≤ month }
    requires high { month ≤ 12 }
    ensures { result.now ≡ month_of month }
{
    match month {
        1 => b"Jan",
        2 => b"Feb",
        3 => b"Mar",
        4 => b"Apr",
        5 => b"May",
        6 => b"Jun",
        7 => b"Jul",
        8 => b"Aug",
        9 => b"Sep",
        10 => b"Oct",
        11 => b"Nov",
        _ => b"Dec",
    }
}

/// Adds a number below 100 in two places.
fn push_places(text: &mut Blob, filler: &[u8], number: u64) -> Result<(), Memory>
    ensures { OnOk result (text.new ≡ text.old ++ two_places filler.now number) }
{
    if number < 10 {
        text.push_slice(filler)?;
    }
    text.push_slice(Buffer::new().format(number).as_bytes())?;
    Ok(())
}

/// Adds seconds since midnight as hours, minutes and seconds.
fn push_clock(text: &mut Blob, seconds: u64) -> Result<(), Memory>
    ensures { OnOk result (text.new ≡ text.old ++ clock_of seconds) }
{
    push_places(text, b"0", seconds / 3600)?;
    text.push_slice(b":")?;
    push_places(text, b"0", seconds / 60 % 60)?;
    text.push_slice(b":")?;
    push_places(text, b"0", seconds % 60)
}

/// Adds the date of seconds since 1970.
fn push_date(text: &mut Blob, seconds: u64) -> Result<(), Memory>
    requires { seconds ≤ last_moment }
    ensures { OnOk result (text.new ≡ text.old ++ date_of seconds) }
{
    let day = civil_day(seconds / DAY);
    text.push_slice(weekday(seconds / DAY))?;
    text.push_slice(b" ")?;
    text.push_slice(month_name(day.month))?;
    text.push_slice(b" ")?;
    push_places(text, b" ", day.day as u64)?;
    text.push_slice(b" ")?;
    push_clock(text, seconds % DAY)?;
    text.push_slice(b" ")?;
    text.push_slice(Buffer::new().format(day.year).as_bytes())?;
    Ok(())
}

/// The seconds since 1970 that are printed for a moment.
fn shown(moment: i64) -> u64
    ensures value { result ≡ moved moment }
    ensures bound { result ≤ last_moment }
{
    moment.clamp(0, LAST_MOMENT) as u64
}

/// A line `From ` as it begins a mail in a mailbox (procmail(1), option -f). `moment` is in seconds
/// since 1970, in UTC. A moment before 1970 is printed as 1970's first second, and one past the year
/// 9998 as that year's last. `Memory` is the only error.
pub fn from_line(alloc: Global, who: &[u8], moment: i64) -> Result<Blob, Memory>
    ensures { IfOk result (λ line. line ≡ from_line_of who.now moment) }
{
    let mut line = Blob::from_slice(alloc, b"From ")?;
    line.push_slice(who)?;
    line.push_slice(b" ")?;
    push_date(&mut line, shown(moment))?;
    line.push_slice(b"\n")?;
    Ok(line)
}

//! The days of a log.
ghost use Rattle.std.specs.Prelude.{◌≡◌, ◌≤◌, length};
ghost use Rattle.log_summary.specs.Days.{day_of_line, day_of_moment, day_of, day_written, joined, month_of, is_earlier};
ghost use Rattle.pm_bytes.specs.Number.{count_of};

use pm_bytes::{SPACE, read_count};

/// A day of the calendar.
#[derive(Clone, Copy)]
pub struct Day {
    pub year: u64,
    /// From 1 on.
    pub month: u64,
    /// Of the month, from 1 on.
    pub day: u64,
}

impl Day {
    /// Whether this day comes before the other one.
    pub fn is_earlier(self, other: Day) -> bool
        ensures { result ≡ is_earlier self other }
    {
        if self.year != other.year {
            return self.year < other.year;
        }
        if self.month != other.month {
            return self.month < other.month;
        }
        self.day < other.day
    }
}

/// The day of a line `From ` with a moment such as `Thu Jan  1 00:00:00 1970` at its end.
pub fn day_of_line(line: &[u8]) -> Option<Day>
    ensures { result ≡ day_of_line line.now }
{
    if line.starts_with(b"From ") && line.len() >= 29 {
        return day_of_moment(&line[line.len() - 24..]);
    }
    None
}

fn day_of_moment(text: &[u8]) -> Option<Day>
    requires { 24 ≤ length text.now }
    ensures { result ≡ day_of_moment text.now }
{
    let year = read_count(&text[20..24])?;
    let month = month_of(&text[4..7])?;
    let day = day_of(&text[8..10])?;
    Some(Day { year, month, day })
}

fn day_of(text: &[u8]) -> Option<u64>
    ensures { result ≡ day_of text.now }
{
    let (first, rest) = text.split_first()?;
    if *first == SPACE {
        return read_count(rest);
    }
    read_count(text)
}

fn month_of(name: &[u8]) -> Option<u64>
    ensures { result ≡ month_of name.now }
{
    let number = match name {
        b"Jan" => 1,
        b"Feb" => 2,
        b"Mar" => 3,
        b"Apr" => 4,
        b"May" => 5,
        b"Jun" => 6,
        b"Jul" => 7,
        b"Aug" => 8,
        b"Sep" => 9,
        b"Oct" => 10,
        b"Nov" => 11,
        b"Dec" => 12,
        _ => return None,
    };
    Some(number)
}

/// A day as `2026-01-31`.
pub fn read_day(text: &[u8]) -> Option<Day>
    ensures { result ≡ day_written text.now }
{
    if text.len() == 10 && text[4] == b'-' && text[7] == b'-' {
        return day_of_numbers(&text[..4], &text[5..7], &text[8..]);
    }
    None
}

fn day_of_numbers(year: &[u8], month: &[u8], day: &[u8]) -> Option<Day>
    ensures { result ≡ joined (count_of year.now) (count_of month.now) (count_of day.now) }
{
    let year = read_count(year)?;
    let month = read_count(month)?;
    let day = read_count(day)?;
    Some(Day { year, month, day })
}

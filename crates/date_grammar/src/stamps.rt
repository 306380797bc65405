//! The dates of IMAP, read: internal dates, and the days of a search (RFC 3501 §9).
ghost use Rattle.std.specs.Prelude.{◌≡◌, ◌+◌, ◌<◌, ◌≤◌, IfSome, length};
ghost use Rattle.date_grammar.specs.Calendar.{IsDateTime};
ghost use Rattle.date_grammar.specs.Parts.{numeric_zone as numeric_zone_of};
ghost use Rattle.date_grammar.specs.Reading.{date_time as date_time_of};
ghost use Rattle.date_grammar.specs.Dates.{internal_stamp, search_day};
ghost use Rattle.date_grammar.specs.Stamps.{clock_time as clock_time_of, dashed_day as dashed_day_of, date_text as date_text_of, internal_date as internal_date_of, padded_day as padded_day_of, spaced_date as spaced_date_of, stamp_of};

use crate::days::{existing, number_of};
use crate::names::month_of;
use crate::numbers::{self, day_of_month, part};
use crate::parts::{CalendarDay, DateTime, Stamp, TimeOfDay};
use crate::printing::{minutes_ahead, moment};
use crate::times::{numeric_zone, time_of};

/// The moment of a date as `01-Jul-2003 10:52:37 +0200`, without quotes. The day may have one digit, with a space before it or
/// not. None where the text is no such date.
#[tactic(auto, unfolding(crate::specs::Dates::internal_stamp))]
pub fn read_internal(text: &[u8]) -> Option<Stamp>
    ensures { result ≡ internal_stamp text.now }
{
    let date = internal_date(text)?;
    Some(stamp(date))
}

fn stamp(date: DateTime) -> Stamp
    requires { IsDateTime date }
    ensures { result ≡ stamp_of date }
{
    Stamp {
        seconds: moment(date),
        zone: minutes_ahead(date.zone),
    }
}

/// The number of a day as `01-Jul-2003`, without quotes, where 1970-01-01 is 0. The day may have one digit, with a space before
/// it or not. None where the text is no such day.
#[tactic(auto, unfolding(crate::specs::Dates::search_day))]
pub fn read_day(text: &[u8]) -> Option<i64>
    ensures { result ≡ search_day text.now }
{
    let day = date_text(text)?;
    Some(number_of(day))
}

fn internal_date(text: &[u8]) -> Option<DateTime>
    ensures { result ≡ internal_date_of text.now }
{
    match text.len() {
        25 => spaced_date(10, text),
        26 => spaced_date(11, text),
        _ => None,
    }
}

/// A day of so many bytes, a time and a zone.
fn spaced_date(n: usize, text: &[u8]) -> Option<DateTime>
    requires { n + 15 ≡ length text.now }
    ensures { result ≡ spaced_date_of n text.now }
{
    if text[n] != b' ' || text[n + 9] != b' ' {
        return None;
    }
    date_time(
        part(0, n, text),
        part(n + 1, 8, text),
        part(n + 10, 5, text),
    )
}

fn date_time(day: &[u8], time: &[u8], zone: &[u8]) -> Option<DateTime>
    ensures { result ≡ date_time_of (date_text_of day.now) (clock_time_of time.now) (numeric_zone_of zone.now) }
{
    let day = date_text(day)?;
    let time = clock_time(time)?;
    let zone = numeric_zone(zone)?;
    Some(DateTime { day, time, zone })
}

fn clock_time(text: &[u8]) -> Option<TimeOfDay>
    ensures { result ≡ clock_time_of text.now }
{
    let time = time_of(text)?;
    if time.second < 60 { Some(time) } else { None }
}

fn date_text(text: &[u8]) -> Option<CalendarDay>
    ensures { result ≡ date_text_of text.now }
{
    match text.len() {
        10 => dashed_day(1, text),
        11 => dashed_day(2, text),
        _ => None,
    }
}

/// A day with dashes, whose first part has so many bytes.
fn dashed_day(n: usize, text: &[u8]) -> Option<CalendarDay>
    requires length { n + 9 ≡ length text.now }
    requires short { n ≤ 2 }
    ensures { result ≡ dashed_day_of n text.now }
{
    if text[n] != b'-' || text[n + 4] != b'-' {
        return None;
    }
    let day = padded_day(part(0, n, text))?;
    let month = month_of(part(n + 1, 3, text))?;
    let year = numbers::number_of(part(n + 5, 4, text))?;
    existing(CalendarDay { year, month, day })
}

/// A day of one or two digits, or of a space and a digit.
fn padded_day(text: &[u8]) -> Option<u8>
    requires { length text.now ≤ 2 }
    ensures value { result ≡ padded_day_of text.now }
    ensures bound { IfSome result (λ n. n < 100) }
{
    if text.len() == 2 && text[0] == b' ' {
        day_of_month(part(1, 1, text))
    } else {
        day_of_month(text)
    }
}

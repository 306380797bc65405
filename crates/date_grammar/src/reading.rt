//! Dates of header fields, read.
ghost use Rattle.std.specs.Prelude.{◌≡◌, MatchOption, option_map};
ghost use Rattle.date_grammar.specs.Words.{words};
ghost use Rattle.date_grammar.specs.Parts.{calendar_day as calendar_day_of, day_of_month as day_of_word, month_of as month_of_word, time_of as time_of_word, year_of as year_of_word, zone_of as zone_of_word};
ghost use Rattle.date_grammar.specs.Reading.{date_time as date_time_of, date_words, reading as reading_of, without_day_name as without_day_name_of};
ghost use Rattle.date_grammar.specs.Scanning.{HasNoWord, words_after};

use crate::days::existing;
use crate::names::{are_letters, month_of};
use crate::numbers::{day_of_month, year_of};
use crate::parts::{CalendarDay, DateTime};
use crate::times::{time_of, zone_of};
use crate::words::{is_gap, next_word};

/// The date that a value reads as.
pub(crate) fn header_date(value: &[u8]) -> Option<DateTime>
    ensures { result ≡ reading_of value.now }
{
    let (day, rest) = first_word(value)?;
    let (month, rest) = next_word(rest)?;
    let (year, rest) = next_word(rest)?;
    let (time, rest) = next_word(rest)?;
    let (zone, rest) = next_word(rest)?;
    if !is_gap(rest) {
        return None;
    }
    date_time(day, month, year, time, zone)
}

/// The first word of a date without the name of the day, and what stands behind it. None where there is none, or where a comment
/// before it doesn't end.
fn first_word(value: &[u8]) -> Option<(&[u8], &[u8])>
    ensures { MatchOption result (HasNoWord (option_map date_words (words value.now))) (λ r. option_map date_words (words value.now) ≡ words_after r.0.now r.1.now) }
{
    let (word, rest) = next_word(value)?;
    let word = without_day_name(word);
    if word.is_empty() {
        next_word(rest)
    } else {
        Some((word, rest))
    }
}

fn without_day_name(word: &[u8]) -> &[u8]
    ensures { result.now ≡ without_day_name_of word.now }
{
    if word.len() >= 4 && word[3] == b',' && are_letters(&word[..3]) {
        &word[4..]
    } else {
        word
    }
}

fn date_time(day: &[u8], month: &[u8], year: &[u8], time: &[u8], zone: &[u8]) -> Option<DateTime>
    ensures { result ≡ date_time_of (calendar_day_of (day_of_word day.now) (month_of_word month.now) (year_of_word year.now)) (time_of_word time.now) (zone_of_word zone.now) }
{
    let day = calendar_day(day, month, year)?;
    let time = time_of(time)?;
    let zone = zone_of(zone)?;
    Some(DateTime { day, time, zone })
}

fn calendar_day(day: &[u8], month: &[u8], year: &[u8]) -> Option<CalendarDay>
    ensures { result ≡ calendar_day_of (day_of_word day.now) (month_of_word month.now) (year_of_word year.now) }
{
    let day = day_of_month(day)?;
    let month = month_of(month)?;
    let year = year_of(year)?;
    existing(CalendarDay { year, month, day })
}

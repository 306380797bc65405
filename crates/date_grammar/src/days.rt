//! Days of the calendar and their numbers.
ghost use Rattle.std.specs.Prelude.{◌≡◌, ◌<◌, true, pos, neg_ℤ, ◌≤ℤ◌, Some};
ghost use Rattle.jiff_core.specs.Date.{epoch_day};
ghost use Rattle.jiff_core.specs.Calendar.{IsBetween};
ghost use Rattle.date_grammar.specs.Calendar.{day_number as day_number_of, exists as exists_of};
ghost use Rattle.date_grammar.specs.Parts.{existing as existing_of};

use crate::parts::CalendarDay;
use jiff_core::civil::Date;

/// The day with these parts, where the calendar has it.
#[tactic(auto, unfolding(crate::specs::Calendar::exists))]
pub(crate) fn existing(day: CalendarDay) -> Option<CalendarDay>
    requires year { day.year < 10000 }
    requires month { day.month < 100 }
    requires day { day.day < 100 }
    ensures { result ≡ existing_of day }
{
    let found = day.year > 0 && Date::new(day.year as i16, day.month as i8, day.day as i8).is_ok();
    if found { Some(day) } else { None }
}

/// A day that the calendar has, as a date.
#[tactic(auto, unfolding(crate::specs::Calendar::exists))]
pub(crate) fn date_of(day: CalendarDay) -> Date
    requires { exists_of day ≡ true }
    ensures year { result.year ≡ pos day.year }
    ensures month { result.month ≡ day.month }
    ensures day { result.day ≡ day.day }
{
    match Date::new(day.year as i16, day.month as i8, day.day as i8) {
        Ok(date) => date,
        Err(_) => unreachable!(),
    }
}

/// The number of a day, where 1970-01-01 is 0.
pub(crate) fn number_of(day: CalendarDay) -> i64
    requires { exists_of day ≡ true }
    ensures value { result ≡ day_number_of day }
    ensures bound { IsBetween (neg_ℤ (pos 4_371_587)) (pos 2_932_896) result }
{
    i64::from(date_of(day).to_unix_epoch_day())
}

/// The day with that number.
pub(crate) fn day_of(number: i64) -> CalendarDay
    requires { IsBetween (neg_ℤ (pos 719_162)) (pos 2_932_896) number }
    ensures exists { exists_of result ≡ true }
    ensures value { day_number_of result ≡ number }
{
    let date = date_at(number);
    CalendarDay {
        year: year_of(date),
        month: date.month,
        day: date.day,
    }
}

fn date_at(number: i64) -> Date
    requires { IsBetween (neg_ℤ (pos 719_162)) (pos 2_932_896) number }
    ensures value { epoch_day result ≡ number }
    ensures positive { pos 1 ≤ℤ result.year }
{
    match Date::from_unix_epoch_day(number) {
        Ok(date) => date,
        Err(_) => unreachable!(),
    }
}

fn year_of(date: Date) -> u16
    requires { pos 1 ≤ℤ date.year }
    ensures { pos result ≡ date.year }
{
    date.year as u16
}

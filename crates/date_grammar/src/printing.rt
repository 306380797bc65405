//! Dates of header fields, printed.
ghost use Rattle.std.specs.Prelude.{◌≡◌, ◌<◌, ◌≤◌, true};
ghost use Rattle.jiff_core.specs.Calendar.{weekday_number};
ghost use Rattle.date_grammar.specs.Calendar.{day_number as day_number_of, exists, IsDateTime, IsShown, moment as moment_of, minutes_ahead as minutes_ahead_of, second_of_day as second_of_day_of};
ghost use Rattle.date_grammar.specs.Printing.{four_digits as four_digits_of, printed as printed_date, printed_day as printed_day_of, printed_time as printed_time_of, printed_zone as printed_zone_of, sent as sent_of, two_digits as two_digits_of};

use crate::days::{date_of, number_of};
use crate::names::{month_name, weekday_name};
use crate::parts::{CalendarDay, DateTime, TimeOfDay, Zone};
use mime_tree::SentDate;

pub(crate) fn two_digits(n: u8) -> [u8; 2]
    requires { n < 100 }
    ensures { result ≡ two_digits_of n }
{
    [b'0' + n / 10, b'0' + n % 10]
}

pub(crate) fn four_digits(n: u16) -> [u8; 4]
    requires { n < 10000 }
    ensures { result ≡ four_digits_of n }
{
    let [a, b] = two_digits((n / 100) as u8);
    let [c, d] = two_digits((n % 100) as u8);
    [a, b, c, d]
}

/// A time as `10:52:37`.
pub(crate) fn printed_time(time: TimeOfDay) -> [u8; 8]
    requires hour { time.hour < 100 }
    requires minute { time.minute < 100 }
    requires second { time.second < 100 }
    ensures { result ≡ printed_time_of time }
{
    let [a, b] = two_digits(time.hour);
    let [c, d] = two_digits(time.minute);
    let [e, f] = two_digits(time.second);
    [a, b, b':', c, d, b':', e, f]
}

/// A zone as `+0200`.
pub(crate) fn printed_zone(zone: Zone) -> [u8; 5]
    requires { zone.minutes < 1440 }
    ensures { result ≡ printed_zone_of zone }
{
    let sign = if zone.behind { b'-' } else { b'+' };
    let [a, b] = two_digits((zone.minutes / 60) as u8);
    let [c, d] = two_digits((zone.minutes % 60) as u8);
    [sign, a, b, c, d]
}

/// A date as `Tue, 01 Jul 2003 10:52:37 +0200`.
pub(crate) fn printed(date: DateTime) -> [u8; 31]
    requires { IsDateTime date }
    ensures { result ≡ printed_date date }
{
    let d = printed_day(date.day);
    let t = printed_time(date.time);
    let z = printed_zone(date.zone);
    [
        d[0], d[1], d[2], d[3], d[4], d[5], d[6], d[7], d[8], d[9], d[10], d[11], d[12], d[13],
        d[14], d[15], b' ', t[0], t[1], t[2], t[3], t[4], t[5], t[6], t[7], b' ', z[0], z[1], z[2],
        z[3], z[4],
    ]
}

/// A day as `Tue, 01 Jul 2003`.
#[tactic(auto, using(crate::proofs::DayLemmas::exists_bounds))]
fn printed_day(day: CalendarDay) -> [u8; 16]
    requires { exists day ≡ true }
    ensures { result ≡ printed_day_of day }
{
    let w = weekday_name(weekday(day));
    let d = two_digits(day.day);
    let m = month_name(day.month);
    let y = four_digits(day.year);
    [
        w[0], w[1], w[2], b',', b' ', d[0], d[1], b' ', m[0], m[1], m[2], b' ', y[0], y[1], y[2],
        y[3],
    ]
}

/// The day of the week, from 0 for Monday.
fn weekday(day: CalendarDay) -> u8
    requires { exists day ≡ true }
    ensures value { result ≡ weekday_number (day_number_of day) }
    ensures bound { result < 7 }
{
    date_of(day).weekday().index()
}

/// The moment of a date, in seconds since 1970-01-01 00:00:00 +0000.
pub(crate) fn moment(date: DateTime) -> i64
    requires { IsDateTime date }
    ensures { result ≡ moment_of date }
{
    let day = number_of(date.day);
    let second = second_of_day(date.time);
    let ahead = minutes_ahead(date.zone);
    day * 86400 + i64::from(second) - 60 * i64::from(ahead)
}

fn second_of_day(time: TimeOfDay) -> u32
    requires { IsShown time }
    ensures value { result ≡ second_of_day_of time }
    ensures bound { result ≤ 86400 }
{
    3600 * u32::from(time.hour) + 60 * u32::from(time.minute) + u32::from(time.second)
}

/// The minutes that a zone is ahead of universal time.
pub(crate) fn minutes_ahead(zone: Zone) -> i16
    requires { zone.minutes < 1440 }
    ensures { result ≡ minutes_ahead_of zone }
{
    if zone.behind {
        -(zone.minutes as i16)
    } else {
        zone.minutes as i16
    }
}

/// A date as it is kept.
pub(crate) fn sent(date: DateTime) -> SentDate
    requires { IsDateTime date }
    ensures { result ≡ sent_of date }
{
    SentDate {
        text: printed(date),
        seconds: moment(date),
        day: number_of(date.day),
    }
}

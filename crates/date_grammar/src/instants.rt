//! Moments, printed in a zone.
ghost use Rattle.std.specs.Prelude.{◌≡◌, ◌<◌, ◌*◌, ◌+◌, true, pos, ◌+ℤ◌, ◌*ℤ◌};
ghost use Rattle.std.specs.Int.{int_div_euclid, int_rem_euclid};
ghost use Rattle.jiff_core.specs.Calendar.{IsWithin};
ghost use Rattle.date_grammar.specs.Calendar.{IsDateTime, IsShown, exists, minutes_ahead, second_of_day};
ghost use Rattle.date_grammar.specs.Dates.{IsInternalPrint, IsNowPrint};
ghost use Rattle.date_grammar.specs.Stamps.{HasPrint, IsDateAt, civil_day_of, printed_dashed as printed_dashed_of, printed_internal};

use crate::days::day_of;
use crate::names::month_name;
use crate::parts::{CalendarDay, DateTime, Stamp, TimeOfDay, Zone};
use crate::printing::{four_digits, printed, printed_time, printed_zone, two_digits};

/// The last second of the year 9999.
const LAST_SECOND: u64 = 253_402_300_799;

/// A moment as the date of a header field in +0000: `Tue, 01 Jul 2003 08:52:37 +0000`. The moment is told in seconds since
/// 1970-01-01 00:00:00 +0000. One behind the year 9999 is printed as its last second.
pub fn print_now(now: u64) -> [u8; 31]
    ensures { IsNowPrint now result }
{
    let seconds = now.min(LAST_SECOND) as i64;
    printed(date_at(Stamp { seconds, zone: 0 }))
}

/// A moment in its zone as `01-Jul-2003 10:52:37 +0200`, without quotes.
pub fn print_internal(stamp: Stamp) -> [u8; 26]
    requires { HasPrint stamp }
    ensures { IsInternalPrint stamp result }
{
    internal(date_at(stamp))
}

/// The day of a moment where its zone is, counted from 1970-01-01.
pub fn civil_day(stamp: Stamp) -> i64
    ensures { result ≡ civil_day_of stamp }
{
    let second = moved(second_in(stamp.seconds), stamp.zone);
    days_in(stamp.seconds) + days_in(second)
}

/// The days in some seconds, rounded down.
fn days_in(seconds: i64) -> i64
    ensures value { result ≡ int_div_euclid seconds (pos 86400) }
    ensures bound { IsWithin 106_751_991_167_301 result }
{
    seconds.div_euclid(86400)
}

/// The seconds above whole days.
fn second_in(seconds: i64) -> u32
    ensures value { pos result ≡ int_rem_euclid seconds (pos 86400) }
    ensures bound { result < 86400 }
{
    seconds.rem_euclid(86400) as u32
}

/// A second of the day, told where the zone is.
fn moved(second: u32, zone: i16) -> i64
    ensures { result ≡ pos second +ℤ pos 60 *ℤ zone }
{
    i64::from(second) + 60 * i64::from(zone)
}

/// The date of a moment in its zone.
fn date_at(stamp: Stamp) -> DateTime
    requires { HasPrint stamp }
    ensures { IsDateAt stamp.seconds stamp.zone result }
{
    let day = day_of(civil_day(stamp));
    let time = time_at(local_second(stamp));
    let zone = zone_at(stamp.zone);
    DateTime { day, time, zone }
}

/// The seconds since midnight where the zone is.
fn local_second(stamp: Stamp) -> u32
    requires { HasPrint stamp }
    ensures value { pos result ≡ int_rem_euclid (stamp.seconds +ℤ pos 60 *ℤ stamp.zone) (pos 86400) }
    ensures bound { result < 86400 }
{
    second_in(stamp.seconds + 60 * i64::from(stamp.zone))
}

fn time_at(second: u32) -> TimeOfDay
    requires { second < 86400 }
    ensures shown { IsShown result }
    ensures no_leap { result.second < 60 }
    ensures value { second_of_day result ≡ second }
{
    TimeOfDay {
        hour: (second / 3600) as u8,
        minute: (second % 3600 / 60) as u8,
        second: (second % 60) as u8,
    }
}

fn zone_at(minutes: i16) -> Zone
    requires { IsWithin 1439 minutes }
    ensures value { minutes_ahead result ≡ minutes }
    ensures bound { result.minutes < 1440 }
    ensures sign { result.behind ≡ true → 0 < result.minutes }
{
    Zone {
        behind: minutes < 0,
        minutes: minutes.unsigned_abs(),
    }
}

/// A date as `01-Jul-2003 10:52:37 +0200`.
fn internal(date: DateTime) -> [u8; 26]
    requires { IsDateTime date }
    ensures { result ≡ printed_internal date }
{
    let d = printed_dashed(date.day);
    let t = printed_time(date.time);
    let z = printed_zone(date.zone);
    [
        d[0], d[1], d[2], d[3], d[4], d[5], d[6], d[7], d[8], d[9], d[10], b' ', t[0], t[1], t[2],
        t[3], t[4], t[5], t[6], t[7], b' ', z[0], z[1], z[2], z[3], z[4],
    ]
}

/// A day as `01-Jul-2003`.
#[tactic(auto, using(crate::proofs::DayLemmas::exists_bounds))]
fn printed_dashed(day: CalendarDay) -> [u8; 11]
    requires { exists day ≡ true }
    ensures { result ≡ printed_dashed_of day }
{
    let d = two_digits(day.day);
    let m = month_name(day.month);
    let y = four_digits(day.year);
    [
        d[0], d[1], b'-', m[0], m[1], m[2], b'-', y[0], y[1], y[2], y[3],
    ]
}

//! Times of the day and zones.
ghost use Rattle.std.specs.Prelude.{◌≡◌, ◌<◌};
ghost use Rattle.date_grammar.specs.Parts.{numeric_zone as numeric_zone_of, seconds_at as seconds_of_word, signed_zone as signed_zone_of, time_of as time_of_word, zone_of as zone_of_word};

use crate::names::{are_letters, named_zone};
use crate::numbers::pair_at;
use crate::parts::{TimeOfDay, Zone};

/// A time `hh:mm` or `hh:mm:ss`.
pub(crate) fn time_of(word: &[u8]) -> Option<TimeOfDay>
    ensures { result ≡ time_of_word word.now }
{
    let second = second_of(word)?;
    if word[2] != b':' {
        return None;
    }
    let hour = pair_at(0, word, 24)?;
    let minute = pair_at(3, word, 60)?;
    Some(TimeOfDay {
        hour,
        minute,
        second,
    })
}

/// The seconds of a time, 0 where it tells none.
fn second_of(word: &[u8]) -> Option<u8>
    ensures { result ≡ seconds_of_word word.now }
{
    match word.len() {
        5 => Some(0),
        8 if word[5] == b':' => pair_at(6, word, 61),
        _ => None,
    }
}

/// A zone: a name, or a sign and four digits.
pub(crate) fn zone_of(word: &[u8]) -> Option<Zone>
    ensures { result ≡ zone_of_word word.now }
{
    if !word.is_empty() && word.len() <= 5 && are_letters(word) {
        return Some(named_zone(word));
    }
    numeric_zone(word)
}

/// A zone as a sign and four digits.
pub(crate) fn numeric_zone(word: &[u8]) -> Option<Zone>
    ensures { result ≡ numeric_zone_of word.now }
{
    match word {
        [b'+', ..] => signed_zone(false, word),
        [b'-', ..] => signed_zone(true, word),
        _ => None,
    }
}

/// Hours and minutes behind a sign.
fn signed_zone(behind: bool, word: &[u8]) -> Option<Zone>
    ensures { result ≡ signed_zone_of behind word.now }
{
    if word.len() != 5 {
        return None;
    }
    let hours = pair_at(1, word, 24)?;
    let minutes = pair_at(3, word, 60)?;
    Some(Zone {
        behind,
        minutes: 60 * u16::from(hours) + u16::from(minutes),
    })
}

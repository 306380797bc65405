//! The names of months, days of the week and zones.
ghost use Rattle.std.specs.Prelude.{◌≡◌, ◌≤◌, ◌<◌, IfSome, [], length, position};
ghost use Rattle.std.specs.List.{list_all, slice_index_or};
ghost use Rattle.std.specs.Char.{is_ascii_alphabetic};
ghost use Rattle.mail_text.specs.Case.{is_same};
ghost use Rattle.date_grammar.specs.Names.{american, universal, weekdays};
ghost use Rattle.date_grammar.specs.Printing.{month_name as month_name_of};
ghost use Rattle.date_grammar.specs.Parts.{hours_behind as hours_behind_of, month_of as month_of_word, named_zone as named_zone_of};

use crate::parts::Zone;
use mail_text::same;

const MONTHS: [[u8; 3]; 12] = [
    *b"Jan", *b"Feb", *b"Mar", *b"Apr", *b"May", *b"Jun", *b"Jul", *b"Aug", *b"Sep", *b"Oct",
    *b"Nov", *b"Dec",
];

const WEEKDAYS: [[u8; 3]; 7] = [
    *b"Mon", *b"Tue", *b"Wed", *b"Thu", *b"Fri", *b"Sat", *b"Sun",
];

/// The number of a month, from 1, by its name in any case.
pub(crate) fn month_of(word: &[u8]) -> Option<u8>
    ensures value { result ≡ month_of_word word.now }
    ensures bound { IfSome result (λ m. m ≤ 12) }
{
    let place = place_in(&MONTHS, word)?;
    Some(place as u8 + 1)
}

/// The first place of a word in a list of names, in any case.
fn place_in(names: &[[u8; 3]], word: &[u8]) -> Option<usize>
    ensures value { result ≡ position (λ name. is_same word.now name) names.now }
    ensures bound { IfSome result (λ place. place < length names.now) }
{
    names.iter().position(|name| same(word, name))
}

/// Whether a text has letters alone.
pub(crate) fn are_letters(text: &[u8]) -> bool
    ensures { result ≡ list_all is_ascii_alphabetic text.now }
{
    text.iter().all(|b| b.is_ascii_alphabetic())
}

/// The zone that a word is the name of, in any case (RFC 5322 §4.3).
pub(crate) fn named_zone(word: &[u8]) -> Zone
    ensures { result ≡ named_zone_of word.now }
{
    if same(word, b"UT") || same(word, b"GMT") || same(word, b"Z") {
        return Zone {
            behind: false,
            minutes: 0,
        };
    }
    Zone {
        behind: true,
        minutes: 60 * hours_behind(word),
    }
}

/// The hours that a zone of North America is behind universal time, by its name. 0 for other names.
fn hours_behind(word: &[u8]) -> u16
    ensures value { result ≡ hours_behind_of american word.now }
    ensures bound { result ≤ 8 }
{
    if same(word, b"EDT") {
        4
    } else if same(word, b"EST") || same(word, b"CDT") {
        5
    } else if same(word, b"CST") || same(word, b"MDT") {
        6
    } else if same(word, b"MST") || same(word, b"PDT") {
        7
    } else if same(word, b"PST") {
        8
    } else {
        0
    }
}

/// The name of a month, by its number from 1.
pub(crate) fn month_name(month: u8) -> [u8; 3]
    requires low { 1 ≤ month }
    requires high { month ≤ 12 }
    ensures { result ≡ month_name_of month }
{
    MONTHS[month as usize - 1]
}

/// The name of a day of the week, by its number from 0 for Monday.
pub(crate) fn weekday_name(weekday: u8) -> [u8; 3]
    requires { weekday < 7 }
    ensures { result ≡ slice_index_or weekdays weekday [] }
{
    WEEKDAYS[weekday as usize]
}

//! Numbers in dates.
ghost use Rattle.std.specs.Prelude.{◌≡◌, ◌+◌, ◌≤◌, ◌<◌, ◌^◌, IfSome, length};
ghost use Rattle.mail_text.specs.Decimals.{decimal_value};
ghost use Rattle.date_grammar.specs.Parts.{day_of_month as day_of_word, pair_at as pair_at_of, part as part_of, year_of as year_of_word};

use mail_text::decimal;

/// The number of the two digits at a place, where it is below the limit.
pub(crate) fn pair_at(at: usize, text: &[u8], limit: u8) -> Option<u8>
    requires { at + 2 ≤ length text.now }
    ensures value { result ≡ pair_at_of at text.now limit }
    ensures bound { IfSome result (λ n. n < limit) }
{
    let n = decimal(part(at, 2, text))?;
    if n < u64::from(limit) {
        Some(n as u8)
    } else {
        None
    }
}

/// The number of a day, of one or two digits.
pub(crate) fn day_of_month(word: &[u8]) -> Option<u8>
    ensures value { result ≡ day_of_word word.now }
    ensures bound { IfSome result (λ n. n < 100) }
{
    if word.len() > 2 {
        return None;
    }
    let n = number_of(word)?;
    Some(n as u8)
}

/// The year that a word of digits stands for (RFC 5322 §4.3).
pub(crate) fn year_of(word: &[u8]) -> Option<u16>
    ensures value { result ≡ year_of_word word.now }
    ensures bound { IfSome result (λ n. n < 10000) }
{
    if word.len() > 4 {
        return None;
    }
    let n = number_of(word)?;
    match word.len() {
        2 if n < 50 => Some(n + 2000),
        2 | 3 => Some(n + 1900),
        4 if n >= 1900 => Some(n),
        _ => None,
    }
}

/// The number of up to four digits.
pub(crate) fn number_of(word: &[u8]) -> Option<u16>
    requires { length word.now ≤ 4 }
    ensures value { result ≡ decimal_value word.now }
    ensures short { IfSome result (λ n. n < 10 ^ length word.now) }
    ensures bound { IfSome result (λ n. n < 10000) }
{
    let n = decimal(word)?;
    Some(n as u16)
}

/// So many bytes of a text, from a place on.
pub(crate) fn part(at: usize, size: usize, text: &[u8]) -> &[u8]
    requires { at + size ≤ length text.now }
    ensures { result.now ≡ part_of at size text.now }
{
    &text[at..at + size]
}

//! The texts of scripts.
//!
//! A line `open imap` opens a session, `send N MOMENT TEXT` has the peer of session N send the bytes of TEXT at that
//! moment, `end N` has it close its side, and `lose N` loses its link. Sessions have the numbers from 1, in the order in
//! which they open. In TEXT `\r`, `\n`, `\\` and `\xHH` stand for bytes, and the other printable bytes of ASCII for
//! themselves. An empty line, or one that begins with `#`, says nothing.

ghost use Rattle.std.specs.Prelude.{ℕ, ◌≡◌, ◌≤◌, ◌<◌, ◌+◌, ◌*◌, ◌==◌, List, [], ◌∷◌, ◌++◌, Option, Ok, Err, None, IfOk, IsOkAnd, MatchOption, MatchResult, length, count_by, position, option_map, IsTrue};
ghost use Rattle.std.specs.List.{before_first, after_first, list_all};
ghost use Rattle.std.specs.Char.{is_ascii_digit};
ghost use Rattle.port_model.specs.declared.script.ScriptFault.TheVariants.{BadLine};
ghost use Rattle.port_model.specs.declared.events.Event.{Event};
ghost use Rattle.port_model.specs.Script.{script_events, AreEvents, number_up_to, session_number, is_number, text_bytes, behind_backslash, behind_x, in_front, sized, sent_piece, closing_event, line_event, says_nothing, next_event, follows, opens, closes, word, behind_word, script_lines, Spells};
ghost use Rattle.port_model.specs.ScriptLines.{AreAllGood, IsFirstBad};
ghost use Rattle.port_model.specs.OpenSessions.{TellOpen};

use crate::calls::Kind;
use crate::events::Event;
use crate::open_sessions::OpenSessions;
use octets::Octets;
use std::alloc::{AllocError, AllocFailed, Global};

/// Why the text of a script gives no events.
#[derive(Clone, Copy, Debug, PartialEq, Eq)]
pub enum ScriptFault {
    /// The first line that is bad, counted from 1.
    BadLine(u64),
    /// There is no memory for the events.
    NoMemory,
}

const MOST_BYTES: usize = 65_536;

const LAST_MOMENT: u64 = 253_402_300_799;

/// The events of a script, in its order.
pub fn parse_script(alloc: Global, text: &[u8]) -> Result<Vec<Event>, ScriptFault>
    requires { length text.now ≤ 67_108_864 }
    ensures events { IfOk result (λ events. script_events text.now ≡ Ok events.items) }
    ensures bad_line { (n : ℕ) → result ≡ Err (BadLine n) → script_events text.now ≡ Err n }
    ensures kept { IfOk result (λ events. AreEvents events.items) }
{
    let mut events = Vec::new(alloc);
    let mut sessions = OpenSessions::new(alloc);
    let mut left = text;
    let mut number: u64 = 0;
    while !left.is_empty() {
        let (line, rest) = split_at_byte(left, b'\n');
        number += 1;
        if !says_nothing(line) {
            let Some(event) = next_event(alloc, &sessions, line)? else {
                return Err(ScriptFault::BadLine(number));
            };
            sessions.note(&event)?;
            events.push(event)?;
        }
        left = rest;
    }
    Ok(events)
}

/// A script is good where each of its lines is good behind the lines before it, and its events are theirs; else the
/// number of the first bad line is one more than the number of the lines before it.
pub fn law_script_lines()
    ensures good { (text : List ℕ) (events : List Event) → script_events text ≡ Ok events → AreAllGood (script_lines text) events }
    ensures bad { (text : List ℕ) (n : ℕ) → script_events text ≡ Err n → (before : ℕ) × (n ≡ before + 1) × IsFirstBad (script_lines text) before }
{}

fn says_nothing(line: &[u8]) -> bool
    ensures { result ≡ says_nothing line.now }
{
    match line.first() {
        Some(first) => *first == b'#',
        None => true,
    }
}

/// The event of a line, if it may come while these sessions are open.
fn next_event(
    alloc: Global,
    sessions: &OpenSessions,
    line: &[u8],
) -> Result<Option<Event>, AllocError>
    ensures { IfOk result (λ event. (before : List Event) → TellOpen before sessions.now → event ≡ next_event before line.now) }
{
    let event = parse_line(alloc, line)?;
    Ok(event.filter(|event| sessions.may_come(event)))
}

/// The event of a line, by itself.
fn parse_line(alloc: Global, line: &[u8]) -> Result<Option<Event>, AllocError>
    ensures { IfOk result (λ event. event ≡ line_event line.now) }
{
    if line == b"open imap".as_slice() {
        return Ok(Some(Event::Opens(Kind::Imap)));
    }
    match line.strip_prefix(b"send ") {
        Some(words) => parse_piece(alloc, words),
        None => Ok(parse_closing(line)),
    }
}

#[tactic(auto, unfolding(crate::specs::Script::closing_event))]
fn parse_closing(line: &[u8]) -> Option<Event>
    ensures { result ≡ closing_event line.now }
{
    if let Some(digits) = line.strip_prefix(b"end ") {
        return Some(Event::Ends(session_number(digits)?));
    }
    let digits = line.strip_prefix(b"lose ")?;
    Some(Event::Loses(session_number(digits)?))
}

fn session_number(digits: &[u8]) -> Option<u32>
    ensures { result ≡ session_number digits.now }
{
    let number = decimal_up_to(u64::from(u32::MAX), digits)?;
    Some(number as u32)
}

fn parse_piece(alloc: Global, line: &[u8]) -> Result<Option<Event>, AllocError>
    ensures { IfOk result (λ event. event ≡ sent_piece line.now) }
{
    let (number, rest) = split_at_byte(line, b' ');
    let (moment, text) = split_at_byte(rest, b' ');
    let Some(number) = session_number(number) else {
        return Ok(None);
    };
    let Some(moment) = decimal_up_to(LAST_MOMENT, moment) else {
        return Ok(None);
    };
    let Some(bytes) = parse_text(alloc, text)? else {
        return Ok(None);
    };
    Ok(Some(Event::Piece {
        number,
        bytes,
        moment,
    }))
}

/// The bytes that a text stands for, if there are as many as a piece may have.
#[tactic(auto, unfolding(crate::specs::Script::text_bytes))]
fn parse_text(alloc: Global, text: &[u8]) -> Result<Option<Octets>, AllocError>
    ensures { IfOk result (λ bytes. bytes ≡ sized (text_bytes text.now)) }
{
    let mut bytes = Vec::with_capacity(alloc, text.len().min(MOST_BYTES))?;
    let mut left = text;
    while !left.is_empty() {
        let Some((byte, rest)) = spelled(left) else {
            return Ok(None);
        };
        if bytes.len() == MOST_BYTES {
            return Ok(None);
        }
        bytes.push(byte)?;
        left = rest;
    }
    if bytes.is_empty() {
        return Ok(None);
    }
    Ok(Some(Octets::new(bytes)))
}

/// The first byte that a text stands for, and the text behind it.
#[tactic(auto, unfolding(crate::specs::Script::text_bytes))]
fn spelled(text: &[u8]) -> Option<(u8, &[u8])>
    requires { 0 < length text.now }
    ensures { Spells text.now (text_bytes text.now) result }
{
    let (first, rest) = text.split_first()?;
    match *first {
        b'\\' => spelled_behind_backslash(rest),
        b' '..=b'~' => Some((*first, rest)),
        _ => None,
    }
}

#[tactic(auto, unfolding(crate::specs::Script::text_bytes))]
fn spelled_behind_backslash(text: &[u8]) -> Option<(u8, &[u8])>
    ensures { Spells text.now (behind_backslash text.now) result }
{
    let (first, rest) = text.split_first()?;
    match *first {
        b'r' => Some((b'\r', rest)),
        b'n' => Some((b'\n', rest)),
        b'\\' => Some((b'\\', rest)),
        b'x' => spelled_behind_x(rest),
        _ => None,
    }
}

#[tactic(auto, unfolding(crate::specs::Script::text_bytes))]
fn spelled_behind_x(text: &[u8]) -> Option<(u8, &[u8])>
    ensures { Spells text.now (behind_x text.now) result }
{
    let (high, rest) = text.split_first()?;
    let (low, rest) = rest.split_first()?;
    let high = char::from(*high).to_digit(16)?;
    let low = char::from(*low).to_digit(16)?;
    Some(((16 * high + low) as u8, rest))
}

fn decimal_up_to(most: u64, digits: &[u8]) -> Option<u64>
    requires { most ≤ 1_000_000_000_000 }
    ensures { result ≡ number_up_to most digits.now }
{
    if !is_decimal(digits) {
        return None;
    }
    let mut value: u64 = 0;
    for digit in digits {
        value = value * 10 + u64::from(*digit - b'0');
        if value > most {
            return None;
        }
    }
    Some(value)
}

fn is_decimal(digits: &[u8]) -> bool
    ensures { result ≡ is_number digits.now }
{
    all_digits(digits) && (digits.len() == 1 || (digits.len() > 1 && digits[0] != b'0'))
}

fn all_digits(digits: &[u8]) -> bool
    ensures { result ≡ list_all is_ascii_digit digits.now }
{
    digits.iter().all(|c| c.is_ascii_digit())
}

/// What stands before the first such byte, or all, and what stands behind it, or nothing.
fn split_at_byte(text: &[u8], byte: u8) -> (&[u8], &[u8])
    ensures before { result.0.now ≡ before_first (λ c. c == byte) text.now }
    ensures behind { result.1.now ≡ after_first (λ c. c == byte) text.now }
{
    match place_of(text, byte) {
        Some(at) => (&text[..at], &text[at + 1..]),
        None => (text, &[]),
    }
}

fn place_of(text: &[u8], byte: u8) -> Option<usize>
    ensures { result ≡ position (λ c. c == byte) text.now }
{
    text.iter().position(|c| *c == byte)
}

impl From<AllocError> for ScriptFault {
    ghost use Rattle.port_model.specs.declared.script.ScriptFault.TheVariants.{NoMemory};

    ghost from_gives = { λ _ fault. fault ≡ NoMemory };

    fn from(_error: AllocError) -> ScriptFault
        ensures { result ≡ NoMemory }
    {
        ScriptFault::NoMemory
    }
}

impl<T: Drop> From<AllocFailed<T>> for ScriptFault {
    ghost use Rattle.port_model.specs.declared.script.ScriptFault.TheVariants.{NoMemory};

    ghost from_gives = { λ _ fault. fault ≡ NoMemory };

    fn from(_error: AllocFailed<T>) -> ScriptFault
        ensures { result ≡ NoMemory }
    {
        ScriptFault::NoMemory
    }
}

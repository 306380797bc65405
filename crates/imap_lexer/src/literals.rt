//! What lines announce, and what they show of a unit.

ghost use Rattle.std.specs.Prelude.{◌≡◌, ◌≤◌, ◌+◌, ◌*◌, length, min};
ghost use Rattle.imap_lexer.specs.Literals.{announced as announced_by, announcement as announcement_of, literal_behind, number as number_of};
ghost use Rattle.imap_lexer.specs.Lexer.{IsRead, capped, form_of, line_so_far, too_many};
ghost use Rattle.imap_lexer.specs.Units.{behind_line, behind_line_byte, line_limit, literal_limit};

use crate::units::Fed;

/// How many bytes the lines of a unit may have together, with their CRLFs.
const LINE_LIMIT: usize = 8192;

/// How many bytes the literals of a unit may have together.
const LITERAL_LIMIT: usize = 33_554_432;

/// One more than the literals may have: a larger number of bytes counts as this one.
const TOO_MANY: usize = 33_554_433;

/// What a line shows of its unit, and how many bytes the lines and the literals have together that are before the next
/// line's begin.
#[derive(Clone, Copy, Debug, PartialEq, Eq)]
pub(crate) struct LineRead {
    pub(crate) fed: Fed,
    pub(crate) lines: usize,
    pub(crate) literals: usize,
}

/// A number with one more digit, or `TOO_MANY`.
fn with_digit(value: usize, digit: u8) -> usize
    requires within { value ≤ too_many }
    requires small { digit ≤ 9 }
    ensures { result ≡ min too_many (value * 10 + digit) }
{
    (value * 10 + usize::from(digit)).min(TOO_MANY)
}

/// The number that a text is, of one or more decimal digits.
fn number(text: &[u8]) -> Option<usize>
    ensures { result ≡ capped (number_of text.now) }
{
    if text.is_empty() {
        return None;
    }
    let mut value: usize = 0;
    'digits: for digit in text {
        if !digit.is_ascii_digit() {
            return None;
        }
        value = with_digit(value, *digit - b'0');
    }
    Some(value)
}

/// The number of a text that is an announcement and nothing else.
fn announcement(text: &[u8]) -> Option<usize>
    ensures { result ≡ capped (announcement_of text.now) }
{
    match text {
        [b'{', behind @ ..] if behind.ends_with(b"}\r\n") => number(&behind[..behind.len() - 3]),
        _ => None,
    }
}

/// The number of the announcement with which a line ends.
fn announced(line: &[u8]) -> Option<usize>
    ensures { result ≡ capped (announced_by line.now) }
{
    'starts: for start in 0..line.len() {
        match announcement(&line[start..]) {
            Some(count) => return Some(count),
            None => {}
        }
    }
    None
}

/// What a whole line shows, behind lines and literals of so many bytes together.
fn read_line_end(plain: bool, line: &[u8], lines: usize, literals: usize) -> LineRead
    requires lines { lines + length line.now ≤ line_limit }
    requires literals { literals ≤ literal_limit }
    ensures { IsRead result (behind_line (line_so_far line.now lines literals) (literal_behind (form_of plain) line.now)) }
{
    let count = if plain { None } else { announced(line) };
    match count {
        None => LineRead {
            fed: Fed::Unit,
            lines,
            literals,
        },
        Some(count) if count > LITERAL_LIMIT - literals => LineRead {
            fed: Fed::LiteralTooLong,
            lines,
            literals,
        },
        Some(count) => LineRead {
            fed: Fed::Continue,
            lines: lines + line.len(),
            literals: literals + count,
        },
    }
}

/// What a line so far shows, behind lines and literals of so many bytes together.
pub(crate) fn read_line(plain: bool, line: &[u8], lines: usize, literals: usize) -> LineRead
    requires lines { lines ≤ line_limit }
    requires literals { literals ≤ literal_limit }
    ensures { IsRead result (behind_line_byte (form_of plain) (line_so_far line.now lines literals)) }
{
    if line.len() > LINE_LIMIT - lines {
        return LineRead {
            fed: Fed::LineTooLong,
            lines,
            literals,
        };
    }
    if !line.ends_with(b"\r\n") {
        return LineRead {
            fed: Fed::More,
            lines,
            literals,
        };
    }
    read_line_end(plain, line, lines, literals)
}

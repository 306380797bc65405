//! One pass over the lines of a header, which takes no memory.
ghost use Rattle.std.specs.Prelude.{◌≡◌, ◌+◌, ◌-◌, ◌^◌, ◌&&◌, ◌||◌, not, min, nat_lt, length};
ghost use Rattle.mail_text.specs.Texts.{begins, is_blank as is_blank_of};
ghost use Rattle.mail_text.specs.Lines.{has, lines};
ghost use Rattle.header_reader.specs.Fields.{header, is_field_line as is_field_line_of};
ghost use Rattle.header_reader.specs.Faults.{are_fields, have_cr, header_size, longest_header};
ghost use Rattle.header_reader.specs.Places.{IsBodyPlace};

use crate::line::{is_continuation, is_field_line, next_line};
use mail_text::has_byte;

/// What a pass over a header found.
#[derive(Clone, Copy)]
pub(crate) struct Scan {
    /// Whether a line has a CR.
    pub(crate) lone_cr: bool,
    /// Whether each line is a field's or continues one.
    pub(crate) are_fields: bool,
    /// How long the header is, each line with a CRLF; at most `usize::MAX`.
    pub(crate) size: usize,
    /// Where the body begins.
    pub(crate) place: usize,
}

/// How long a header may be, in bytes.
const LONGEST_HEADER: usize = 262_144;

impl Scan {
    pub(crate) fn is_long(&self) -> bool
        ensures { result ≡ nat_lt longest_header self.now.size }
    {
        self.size > LONGEST_HEADER
    }

    fn with_line(self, line: &[u8], first: bool) -> Scan
        ensures cr { result.lone_cr ≡ (self.lone_cr || has 13 line.now) }
        ensures fields { result.are_fields ≡ (self.are_fields && (is_field_line_of line.now || (not first && begins is_blank_of line.now))) }
        ensures size { result.size ≡ min (self.size + length line.now + 2) (2 ^ 64 - 1) }
        ensures place { result.place ≡ self.place }
    {
        Scan {
            lone_cr: self.lone_cr || has_byte(line, b'\r'),
            are_fields: self.are_fields && fits(line, first),
            size: self.size.saturating_add(line.len()).saturating_add(2),
            place: self.place,
        }
    }
}

/// Whether a line is a field's, or continues one. Nothing stands before the first line.
fn fits(line: &[u8], first: bool) -> bool
    ensures { result ≡ (is_field_line_of line.now || (not first && begins is_blank_of line.now)) }
{
    is_field_line(line) || (!first && is_continuation(line))
}

/// Passes over the header of a text.
pub(crate) fn scan_header(text: &[u8]) -> Scan
    ensures cr { result.lone_cr ≡ have_cr (header (lines text.now)) }
    ensures fields { result.are_fields ≡ are_fields (header (lines text.now)) }
    ensures size { nat_lt longest_header result.size ≡ nat_lt longest_header (header_size (header (lines text.now))) }
    ensures place { IsBodyPlace text.now result.place }
{
    let mut seen = Scan {
        lone_cr: false,
        are_fields: true,
        size: 0,
        place: 0,
    };
    let mut rest = text;
    let mut first = true;
    'lines: loop {
        let (line, behind) = next_line(rest);
        if line.is_empty() {
            seen.place = text.len() - behind.len();
            return seen;
        }
        seen = seen.with_line(line, first);
        first = false;
        rest = behind;
    }
}

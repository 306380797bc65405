//! Single lines of a header.
ghost use Rattle.std.specs.Prelude.{◌≡◌, ◌≤◌, not, take, drop, length, IfOk};
ghost use Rattle.mail_text.specs.Texts.{begins, behind, front, is_blank as is_blank_of};
ghost use Rattle.header_reader.specs.Fields.{begins_with_dashes as begins_with_dashes_of, field_of, is_colon, is_field_line as is_field_line_of, is_name as is_name_of, rest as rest_of};
ghost use Rattle.header_reader.specs.Places.{IsNextLine};

use crate::raw::RawField;
use mail_text::{ByteClass, front_len, is_blank, split_line, trim, trim_start};
use memchr::memchr;
use octets::Octets;
use std::alloc::{AllocError, Global};

/// The first line of a text, and what stands behind it.
pub(crate) fn next_line(text: &[u8]) -> (&[u8], &[u8])
    ensures { IsNextLine text.now result.0.now result.1.now }
{
    match split_line(text) {
        Some(split) => split,
        None => (text, &text[text.len()..]),
    }
}

fn is_name(b: u8) -> bool
    ensures { result ≡ is_name_of b }
{
    33 <= b && b <= 126 && b != b':'
}

/// The bytes of names.
struct NameByte;

impl ByteClass for NameByte {
    ghost test = { is_name_of };

    fn contains(b: u8) -> bool {
        is_name(b)
    }
}

fn begins_with_dashes(line: &[u8]) -> bool
    ensures { result ≡ begins_with_dashes_of line.now }
{
    line.len() >= 2 && line[0] == b'-' && line[1] == b'-'
}

/// Whether a line begins a field.
pub(crate) fn is_field_line(line: &[u8]) -> bool
    ensures { result ≡ is_field_line_of line.now }
{
    let end = front_len::<NameByte>(line);
    let after = trim_start(&line[end..]);
    end > 0 && !begins_with_dashes(line) && !after.is_empty() && after[0] == b':'
}

/// Whether a line continues the one before it.
pub(crate) fn is_continuation(line: &[u8]) -> bool
    ensures { result ≡ begins is_blank_of line.now }
{
    !line.is_empty() && is_blank(line[0])
}

/// What stands behind the first colon.
fn after_colon(line: &[u8]) -> &[u8]
    ensures { result.now ≡ rest_of (behind (λ c. not (is_colon c)) line.now) }
{
    match memchr(b':', line) {
        Some(at) => &line[at + 1..],
        None => &line[line.len()..],
    }
}

/// The field of an unfolded line.
pub(crate) fn field(alloc: Global, line: &[u8]) -> Result<RawField, AllocError>
    ensures { IfOk result (λ f. f ≡ field_of line.now) }
{
    let name = line[..front_len::<NameByte>(line)].to_vec(alloc)?;
    let value = trim(after_colon(line)).to_vec(alloc)?;
    Ok(RawField {
        name: Octets::new(name),
        value: Octets::new(value),
    })
}

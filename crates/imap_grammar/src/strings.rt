//! Atoms, strings and numbers.
ghost use Rattle.std.specs.Prelude.{◌≡◌, ◌≤◌, ◌<◌, ◌+◌, false, length, IfOk, IfSome};
ghost use Rattle.imap_grammar.specs.Strings as spec;
ghost use Rattle.imap_grammar.specs.Readings.{Reads};

use crate::classes::Class;
use crate::reader::{Fault, Reader};
use crate::spellings::Spelling;
use mail_text::decimal;

/// One or more bytes of the class.
#[tactic(auto, unfolding(crate::specs::Strings::some))]
pub(crate) fn some<'a>(reader: &mut Reader<'a>, class: Class) -> Result<Spelling<'a>, Fault>
    ensures { Reads (spec.some class reader.old) result reader.new }
{
    let bytes = reader.front(class);
    if bytes.is_empty() {
        return Err(Fault::NoReading);
    }
    Ok(Spelling::plain(bytes))
}

/// A number within bounds.
#[tactic(auto, unfolding(crate::specs::Strings::number))]
pub(crate) fn number(reader: &mut Reader<'_>, low: u64, high: u64) -> Result<u64, Fault>
    ensures reads { Reads (spec.number low high reader.old) result reader.new }
    ensures bound { IfOk result (λ n. n ≤ high) }
{
    match decimal(reader.front(Class::Digit)) {
        Some(n) if low <= n && n <= high => Ok(n),
        _ => Err(Fault::NoReading),
    }
}

/// The place of the quote that ends a quoted string.
fn closing(text: &[u8]) -> Option<usize>
    ensures value { result ≡ spec.closing false text.now }
    ensures within { IfSome result (λ n. n < length text.now) }
{
    let mut escaped = false;
    for (at, b) in text.iter().enumerate() {
        if escaped {
            if *b != b'"' && *b != b'\\' {
                return None;
            }
            escaped = false;
        } else if *b == b'"' {
            return Some(at);
        } else if *b == b'\\' {
            escaped = true;
        } else if *b == 0 || *b == b'\n' || *b == b'\r' {
            return None;
        }
    }
    None
}

/// A string in quotes.
#[tactic(auto, unfolding(crate::specs::Strings::quoted))]
pub(crate) fn quoted<'a>(reader: &mut Reader<'a>) -> Result<Spelling<'a>, Fault>
    ensures { Reads (spec.quoted reader.old) result reader.new }
{
    reader.byte(b'"')?;
    let Some(len) = closing(reader.rest()) else {
        return Err(Fault::NoReading);
    };
    Ok(Spelling::quoted(reader.split(len)))
}

/// A string of a count of bytes.
#[tactic(auto, unfolding(crate::specs::Strings::literal))]
pub(crate) fn literal<'a>(reader: &mut Reader<'a>) -> Result<Spelling<'a>, Fault>
    ensures { Reads (spec.literal reader.old) result reader.new }
{
    reader.byte(b'{')?;
    let n = number(reader, 0, u64::MAX)?;
    reader.byte(b'}')?;
    reader.byte(b'\r')?;
    reader.byte(b'\n')?;
    reader.counted(n)
}

/// A string in quotes or of a count.
#[tactic(auto, unfolding(crate::specs::Strings::string))]
pub(crate) fn string<'a>(reader: &mut Reader<'a>) -> Result<Spelling<'a>, Fault>
    ensures { Reads (spec.string reader.old) result reader.new }
{
    if reader.sees(b'"') {
        quoted(reader)
    } else {
        literal(reader)
    }
}

/// A string, or an atom of the class.
#[tactic(auto, unfolding(crate::specs::Strings::string_or))]
pub(crate) fn string_or<'a>(reader: &mut Reader<'a>, class: Class) -> Result<Spelling<'a>, Fault>
    ensures { Reads (spec.string_or class reader.old) result reader.new }
{
    if reader.sees(b'"') {
        quoted(reader)
    } else if reader.sees(b'{') {
        literal(reader)
    } else {
        some(reader, class)
    }
}

/// A number of 32 bits.
#[tactic(auto, unfolding(crate::specs::Strings::number32))]
pub(crate) fn number32(reader: &mut Reader<'_>, low: u32) -> Result<u32, Fault>
    ensures { Reads (spec.number32 low reader.old) result reader.new }
{
    let n = number(reader, u64::from(low), u64::from(u32::MAX))?;
    Ok(n as u32)
}

/// The greatest mod-sequence.
const LAST_MODSEQ: u64 = u64::MAX - 1;

/// A mod-sequence.
#[tactic(auto, unfolding(crate::specs::Strings::modseq))]
pub(crate) fn modseq(reader: &mut Reader<'_>, low: u64) -> Result<u64, Fault>
    ensures { Reads (spec.modseq low reader.old) result reader.new }
{
    number(reader, low, LAST_MODSEQ)
}

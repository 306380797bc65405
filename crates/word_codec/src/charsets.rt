//! Bytes read by a charset.
ghost use Rattle.std.specs.Prelude.{◌≡◌, ◌++◌, IfOk, OnOk, encode_utf8_all, map, string_bytes};
ghost use Rattle.word_codec.specs.Charsets.{ascii_char as ascii_char_of, charset_of, text_by, text_in};

use crate::unicode::push_utf8;
use mail_text::same;
use std::alloc::{AllocError, Global};

/// The charsets that are known.
#[derive(Clone, Copy, Debug, PartialEq, Eq)]
pub(crate) enum Charset {
    UsAscii,
    Utf8,
    Latin1,
}

fn named(name: &[u8]) -> Charset
    ensures { result ≡ charset_of name.now }
{
    if same(name, b"utf-8") {
        Charset::Utf8
    } else if same(name, b"iso-8859-1") {
        Charset::Latin1
    } else {
        Charset::UsAscii
    }
}

/// Bytes as a text, by the charset of a name: US-ASCII, UTF-8 or ISO-8859-1, in any case. U+FFFD stands for each byte that
/// begins no UTF-8 sequence, and for a byte over 127 in US-ASCII and in a charset that isn't known.
pub fn charset_text(alloc: Global, charset: &[u8], bytes: &[u8]) -> Result<String, AllocError>
    ensures { IfOk result (λ t. string_bytes t ≡ text_by charset.now bytes.now) }
{
    let mut out = String::with_capacity(alloc, bytes.len())?;
    push_by(&mut out, charset, bytes)?;
    Ok(out)
}

/// Appends bytes as a text, by the charset of a name.
pub(crate) fn push_by(out: &mut String, name: &[u8], bytes: &[u8]) -> Result<(), AllocError>
    ensures { OnOk result (string_bytes out.new ≡ string_bytes out.old ++ text_by name.now bytes.now) }
{
    match named(name) {
        Charset::Utf8 => push_utf8(out, bytes)?,
        Charset::Latin1 => push_latin1(out, bytes)?,
        Charset::UsAscii => push_ascii(out, bytes)?,
    }
    Ok(())
}

fn push_latin1(out: &mut String, bytes: &[u8]) -> Result<(), AllocError>
    ensures { OnOk result (string_bytes out.new ≡ string_bytes out.old ++ encode_utf8_all bytes.now) }
{
    for b in bytes {
        out.push(char::from(*b))?;
    }
    Ok(())
}

fn ascii_char(b: u8) -> char
    ensures { result ≡ ascii_char_of b }
{
    if b.is_ascii() {
        char::from(b)
    } else {
        '\u{FFFD}'
    }
}

fn push_ascii(out: &mut String, bytes: &[u8]) -> Result<(), AllocError>
    ensures { OnOk result (string_bytes out.new ≡ string_bytes out.old ++ encode_utf8_all (map ascii_char_of bytes.now)) }
{
    for b in bytes {
        out.push(ascii_char(*b))?;
    }
    Ok(())
}

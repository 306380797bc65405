//! Texts and numbers as clients read them.
ghost use Rattle.std.specs.Prelude.{◌≡◌, ◌++◌, ◌∷◌, [], IfOk, OnOk, length, decimal};
ghost use Rattle.std.specs.List.{list_all};
ghost use Rattle.imap_writer.specs.Texts.{escaped as escaped_of, is_printable as is_printable_of, literal, quoted, text_of};

use itoa::Buffer;
use std::alloc::{AllocError, Global};

/// A text as a string: quoted, or a literal where some byte can't stand in quotes (RFC 3501 §4.3).
pub fn text(alloc: Global, bytes: &[u8]) -> Result<Vec<u8>, AllocError>
    ensures { IfOk result (λ text. text.items ≡ text_of bytes.now) }
{
    let mut out = Vec::new(alloc);
    push_text(&mut out, bytes)?;
    Ok(out)
}

/// Writes a text as a string behind what is there.
#[tactic(auto, unfolding(crate::specs::Texts::text_of))]
pub fn push_text(out: &mut Vec<u8>, bytes: &[u8]) -> Result<(), AllocError>
    ensures { OnOk result (out.new.items ≡ out.old.items ++ text_of bytes.now) }
{
    if are_printable(bytes) {
        push_quoted(out, bytes)
    } else {
        push_literal(out, bytes)
    }
}

fn are_printable(bytes: &[u8]) -> bool
    ensures { result ≡ list_all is_printable_of bytes.now }
{
    bytes.iter().all(|b| *b >= 0x20 && *b <= 0x7E)
}

fn push_quoted(out: &mut Vec<u8>, bytes: &[u8]) -> Result<(), AllocError>
    ensures { OnOk result (out.new.items ≡ out.old.items ++ quoted bytes.now) }
{
    out.extend_from_slice(b"\"")?;
    for b in bytes {
        push_escaped(out, *b)?;
    }
    out.extend_from_slice(b"\"")
}

fn push_escaped(out: &mut Vec<u8>, b: u8) -> Result<(), AllocError>
    ensures { OnOk result (out.new.items ≡ out.old.items ++ escaped_of b) }
{
    if b == b'"' || b == b'\\' {
        out.push(b'\\')?;
    }
    out.push(b)?;
    Ok(())
}

pub(crate) fn push_literal(out: &mut Vec<u8>, bytes: &[u8]) -> Result<(), AllocError>
    ensures { OnOk result (out.new.items ≡ out.old.items ++ literal bytes.now) }
{
    out.extend_from_slice(b"{")?;
    push_number(out, bytes.len() as u64)?;
    out.extend_from_slice(b"}\r\n")?;
    out.extend_from_slice(bytes)
}

/// Writes a number in decimal digits behind what is there.
pub fn push_number(out: &mut Vec<u8>, number: u64) -> Result<(), AllocError>
    ensures { OnOk result (out.new.items ≡ out.old.items ++ decimal number) }
{
    let mut digits = Buffer::new();
    out.extend_from_slice(digits.format(number).as_bytes())
}

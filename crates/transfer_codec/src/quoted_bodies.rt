//! Quoted-printable bodies, as they are read for a search.
ghost use Rattle.std.specs.Prelude.{◌≡◌, ◌<◌, ◌≤◌, ◌++◌, IfOk, IfSome, OnOk, SomeIff, length};
ghost use Rattle.std.specs.Char.{digit_value};
ghost use Rattle.std.specs.Option.{option_copied};
ghost use Rattle.transfer_codec.specs.Quoted.{decoded_quoted, escape as escape_of, hex_byte as hex_byte_of, line_text, unescaped, without_equals as without_equals_of};

use mail_text::{split_crlf, trim_end};
use std::alloc::{AllocError, Global};

fn hex(digit: u8) -> Option<u8>
    ensures { SomeIff result (digit_value digit < 16) (digit_value digit) }
{
    match char::from(digit).to_digit(16) {
        Some(value) => Some(value as u8),
        None => None,
    }
}

fn hex_byte(high: u8, low: u8) -> Option<u8>
    ensures { result ≡ hex_byte_of high low }
{
    match hex(high) {
        Some(high) => match hex(low) {
            Some(low) => Some(high * 16 + low),
            None => None,
        },
        None => None,
    }
}

/// The byte that stands at the front of a text as `=` and two hexadecimal digits, in either case.
pub fn escape(text: &[u8]) -> Option<u8>
    ensures value { result ≡ escape_of text.now }
    ensures within { IfSome result (λ b. 3 ≤ length text.now) }
{
    if text.len() >= 3 && text[0] == b'=' {
        hex_byte(text[1], text[2])
    } else {
        None
    }
}

/// The text of a quoted-printable body, for a search: blanks at the ends of lines are dropped, a `=` at a line's end joins the
/// line with the next, `=` and two hexadecimal digits are a byte, and a `=` that fits nothing stays. A line ends with CRLF or
/// with the body.
pub fn decode_quoted(alloc: Global, body: &[u8]) -> Result<Vec<u8>, AllocError>
    ensures { IfOk result (λ v. v.items ≡ decoded_quoted body.now) }
{
    let mut out = Vec::with_capacity(alloc, body.len())?;
    let mut rest = body;
    while let Some((line, behind)) = split_crlf(rest) {
        push_line(&mut out, line, b"\r\n")?;
        rest = behind;
    }
    push_line(&mut out, rest, b"")?;
    Ok(out)
}

/// A line without the `=` at its end; None where it doesn't end in one.
fn without_equals(line: &[u8]) -> Option<&[u8]>
    ensures { option_copied result ≡ without_equals_of line.now }
{
    let n = line.len();
    if n > 0 && line[n - 1] == b'=' {
        Some(&line[..n - 1])
    } else {
        None
    }
}

/// Appends what a line says, and its end, unless the line is joined with the next.
fn push_line(out: &mut Vec<u8>, line: &[u8], ending: &[u8]) -> Result<(), AllocError>
    ensures { OnOk result (out.new.items ≡ out.old.items ++ line_text line.now ending.now) }
{
    let line = trim_end(line);
    match without_equals(line) {
        Some(front) => push_unescaped(out, front)?,
        None => {
            push_unescaped(out, line)?;
            out.extend_from_slice(ending)?;
        }
    }
    Ok(())
}

fn push_unescaped(out: &mut Vec<u8>, text: &[u8]) -> Result<(), AllocError>
    ensures { OnOk result (out.new.items ≡ out.old.items ++ unescaped text.now) }
{
    let mut at = 0;
    while at < text.len() {
        match escape(&text[at..]) {
            Some(b) => {
                out.push(b)?;
                at += 3;
            }
            None => {
                out.push(text[at])?;
                at += 1;
            }
        }
    }
    Ok(())
}

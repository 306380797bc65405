//! The printed form of what sessions got.

ghost use Rattle.std.specs.Prelude.{ℕ, ◌≡◌, ◌<◌, ◌++◌, ◌∷◌, List, Some, OnOk, OnErr, All, length, position, ◌==◌, ◌^◌, is_ok, if◌then◌else◌};
ghost use Rattle.std.specs.Char.{digit_char};
ghost use Rattle.port_model.specs.Script.{text_bytes};
ghost use Rattle.port_model.specs.Transcript.{spelling, escaped, pieces, session_line, session_lines, Extends};

use itoa::Buffer;
use std::alloc::AllocError;

/// Prints the bytes that the session of a number got: each of their lines, and the rest behind the last, as a line
/// that begins with the number, as `1: * OK IMAP4rev1 ready\r\n`.
pub fn print_session(out: &mut Vec<u8>, number: u32, bytes: &[u8]) -> Result<(), AllocError>
    ensures printed { OnOk result (out.new.items ≡ out.old.items ++ session_lines number bytes.now) }
    ensures unchanged { OnErr result (out.new.items ≡ out.old.items) }
{
    let start = out.len();
    let printed = print_pieces(out, number, bytes);
    if printed.is_err() {
        out.truncate(start);
    }
    printed
}

/// What `print_session` prints of bytes is read back as these, where it stands for the TEXT of a script.
pub fn law_escaped_text()
    ensures { (bytes : List ℕ) → All (λ c. c < 2 ^ 8) bytes → text_bytes (escaped bytes) ≡ Some bytes }
{}

fn print_pieces(out: &mut Vec<u8>, number: u32, bytes: &[u8]) -> Result<(), AllocError>
    ensures printed { OnOk result (out.new.items ≡ out.old.items ++ session_lines number bytes.now) }
    ensures kept { OnErr result (Extends out.old.items out.new.items) }
{
    let mut left = bytes;
    while !left.is_empty() {
        let (piece, rest) = first_piece(left);
        print_piece(out, number, piece)?;
        left = rest;
    }
    Ok(())
}

/// The bytes up to and with the first LF, or all, and those behind.
fn first_piece(bytes: &[u8]) -> (&[u8], &[u8])
    requires { 0 < length bytes.now }
    ensures pieces { pieces bytes.now ≡ result.0.now ∷ pieces result.1.now }
    ensures shorter { length result.1.now < length bytes.now }
{
    match line_end(bytes) {
        Some(end) => bytes.split_at(end + 1),
        None => (bytes, &[]),
    }
}

fn line_end(bytes: &[u8]) -> Option<usize>
    ensures { result ≡ position (λ c. c == 10) bytes.now }
{
    bytes.iter().position(|c| *c == b'\n')
}

fn print_piece(out: &mut Vec<u8>, number: u32, bytes: &[u8]) -> Result<(), AllocError>
    ensures printed { OnOk result (out.new.items ≡ out.old.items ++ session_line number bytes.now) }
    ensures kept { OnErr result (Extends out.old.items out.new.items) }
{
    let mut digits = Buffer::new();
    out.extend_from_slice(digits.format(number).as_bytes())?;
    out.extend_from_slice(b": ")?;
    print_escaped(out, bytes)?;
    out.extend_from_slice(b"\n")
}

fn print_escaped(out: &mut Vec<u8>, bytes: &[u8]) -> Result<(), AllocError>
    ensures printed { OnOk result (out.new.items ≡ out.old.items ++ escaped bytes.now) }
    ensures kept { OnErr result (Extends out.old.items out.new.items) }
{
    for byte in bytes {
        print_byte(out, *byte)?;
    }
    Ok(())
}

fn print_byte(out: &mut Vec<u8>, byte: u8) -> Result<(), AllocError>
    ensures { out.new.items ≡ (if is_ok result then out.old.items ++ spelling byte else out.old.items) }
{
    match byte {
        b'\r' => out.extend_from_slice(b"\\r"),
        b'\n' => out.extend_from_slice(b"\\n"),
        b'\\' => out.extend_from_slice(b"\\\\"),
        b' '..=b'~' => out.extend_from_slice(&[byte]),
        _ => out.extend_from_slice(&[
            b'\\',
            b'x',
            hexadecimal_digit(byte / 16),
            hexadecimal_digit(byte % 16),
        ]),
    }
}

fn hexadecimal_digit(value: u8) -> u8
    requires { value < 16 }
    ensures { result ≡ digit_char value }
{
    if value < 10 {
        b'0' + value
    } else {
        b'a' + (value - 10)
    }
}

//! Base64 as the body of a message, in lines.
ghost use Rattle.std.specs.Prelude.{◌≡◌, ◌+◌, ◌^◌, ◌++◌, ◌<◌, ◌≤◌, IfOk, OnErr, OnOk, SomeIff, length, max, vec_capacity};
ghost use Rattle.std.specs.Option.{option_map};
ghost use Rattle.transfer_codec.specs.Base64.{base64};
ghost use Rattle.transfer_codec.specs.Engines.{IsStandard};
ghost use Rattle.transfer_codec.specs.Layout.{decoded64, ended, is_content as is_content_of, printed64, printed64_size, without_layout as without_layout_of};

use crate::engines::{decode_letters, standard_engine};
use crate::laws::law_base64;
use base64::engine::GeneralPurpose;
use mail_text::is_blank;
use std::alloc::{AllocError, Global};

fn is_content(b: u8) -> bool
    ensures { result ≡ is_content_of b }
{
    !is_blank(b) && b != b'\r' && b != b'\n'
}

fn without_layout(alloc: Global, body: &[u8]) -> Result<Vec<u8>, AllocError>
    ensures { IfOk result (λ v. v.items ≡ without_layout_of body.now) }
{
    let mut text = body.to_vec(alloc)?;
    text.retain(|b| is_content(*b));
    Ok(text)
}

/// The bytes that a body is the base64 of, with spaces, tabs, CRs and LFs anywhere in it; None where it is that of none. The
/// base64 is canonical (RFC 4648 §3.5): padded, and with zeros for the bits of no byte.
pub fn decode64(alloc: Global, body: &[u8]) -> Result<Option<Vec<u8>>, AllocError>
    ensures { IfOk result (λ found. option_map (λ v. v.items) found ≡ decoded64 body.now) }
{
    let text = without_layout(alloc, body)?;
    decode_letters(alloc, &standard_engine(), &text)
}

/// How many bytes a line's letters stand for.
const LINE_BYTES: usize = 57;

/// How many letters a line has (RFC 2045 §6.8).
const LINE_LETTERS: usize = 76;

/// The base64 of bytes in lines of 76 letters, of which the last may be shorter, each with a CRLF. No bytes are no line.
pub fn print64(alloc: Global, bytes: &[u8]) -> Result<Vec<u8>, AllocError>
    ensures { IfOk result (λ v. v.items ≡ printed64 bytes.now) }
{
    let mut out = Vec::new(alloc);
    append64(&mut out, bytes)?;
    Ok(out)
}

/// How long the print of so many bytes is; None where a `usize` can't say it.
pub fn printed64_len(size: usize) -> Option<usize>
    ensures { SomeIff result (printed64_size size < 2 ^ 64) (printed64_size size) }
{
    let ends = size.div_ceil(LINE_BYTES) * 2;
    size.div_ceil(3).checked_mul(4)?.checked_add(ends)
}

/// Appends the same. It makes room for what it appends and for no more, and that at once.
pub fn append64(out: &mut Vec<u8>, bytes: &[u8]) -> Result<(), AllocError>
    ensures items { OnOk result (out.new.items ≡ out.old.items ++ printed64 bytes.now) }
    ensures room { OnOk result (vec_capacity out.new ≡ max (vec_capacity out.old) (length out.old.items + length (printed64 bytes.now))) }
    ensures full { OnErr result (vec_capacity out.old < length out.old.items + length (printed64 bytes.now)) }
{
    law_base64();
    match printed64_len(bytes.len()) {
        Some(size) => append_sized(out, size, bytes),
        None => {
            let _less = out.capacity();
            Err(AllocError)
        }
    }
}

fn append_sized(out: &mut Vec<u8>, size: usize, bytes: &[u8]) -> Result<(), AllocError>
    requires { size ≡ length (printed64 bytes.now) }
    ensures items { OnOk result (out.new.items ≡ out.old.items ++ printed64 bytes.now) }
    ensures room { OnOk result (vec_capacity out.new ≡ max (vec_capacity out.old) (length out.old.items + length (printed64 bytes.now))) }
    ensures full { OnErr result (vec_capacity out.old < length out.old.items + length (printed64 bytes.now)) }
{
    out.reserve_exact(size)?;
    push_lines(out, bytes);
    Ok(())
}

fn push_lines(out: &mut Vec<u8>, bytes: &[u8])
    requires { length out.old.items + length (printed64 bytes.now) ≤ vec_capacity out.old }
    ensures items { out.new.items ≡ out.old.items ++ printed64 bytes.now }
    ensures room { vec_capacity out.new ≡ vec_capacity out.old }
{
    let engine = standard_engine();
    let mut rest = bytes;
    while !rest.is_empty() {
        let (line, behind) = rest.split_at(LINE_BYTES.min(rest.len()));
        push_line(out, &engine, line);
        rest = behind;
    }
}

fn push_line(out: &mut Vec<u8>, engine: &GeneralPurpose, bytes: &[u8])
    requires standard { IsStandard engine.now }
    requires short { length bytes.now ≤ LINE_BYTES }
    requires room { length out.old.items + length (ended (base64 bytes.now)) ≤ vec_capacity out.old }
    ensures items { out.new.items ≡ out.old.items ++ ended (base64 bytes.now) }
    ensures room { vec_capacity out.new ≡ vec_capacity out.old }
{
    let mut letters = [0; LINE_LETTERS];
    let Ok(len) = engine.encode_slice(bytes, &mut letters) else {
        unreachable!();
    };
    push_all(out, &letters[..len]);
    push_all(out, b"\r\n");
}

/// Appends bytes for which there is room.
fn push_all(out: &mut Vec<u8>, bytes: &[u8])
    requires { length out.old.items + length bytes.now ≤ vec_capacity out.old }
    ensures items { out.new.items ≡ out.old.items ++ bytes.now }
    ensures room { vec_capacity out.new ≡ vec_capacity out.old }
{
    for b in bytes {
        out.push_reserved(*b);
    }
}

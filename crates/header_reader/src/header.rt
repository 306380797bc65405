//! The fields of a header.
ghost use Rattle.std.specs.Prelude.{◌≡◌, IfErr, IfOk, None};
ghost use Rattle.mail_text.specs.Lines.{lines};
ghost use Rattle.header_reader.specs.Fields.{fields_of, header};
ghost use Rattle.header_reader.specs.Faults.{IsFault, fault_of};
ghost use Rattle.header_reader.specs.Places.{IsBodyPlace};

use crate::faults::HeaderFault;
use crate::line::{field, is_continuation, next_line};
use crate::raw::RawField;
use crate::scan::scan_header;
use std::alloc::{AllocError, Global};

/// The fields of a message or a part, each unfolded, and the place where its body begins. A line ends with LF or CRLF.
///
/// It passes over the header twice, and takes memory for the fields alone: time and memory go with the header's length. A
/// header that is too long is passed over once, without memory.
pub fn fields(alloc: Global, text: &[u8]) -> Result<(Vec<RawField>, usize), HeaderFault>
    ensures sound { IfOk result (λ r. fault_of (header (lines text.now)) ≡ None) }
    ensures fields { IfOk result (λ r. r.0.items ≡ fields_of (header (lines text.now))) }
    ensures place { IfOk result (λ r. IsBodyPlace text.now r.1) }
    ensures fault { IfErr result (λ e. IsFault e (fault_of (header (lines text.now)))) }
{
    let seen = scan_header(text);
    if seen.lone_cr {
        return Err(HeaderFault::LoneCr);
    }
    if !seen.are_fields {
        return Err(HeaderFault::BadLine);
    }
    if seen.is_long() {
        return Err(HeaderFault::LongHeader);
    }
    match unfold(alloc, text) {
        Ok(fields) => Ok((fields, seen.place)),
        Err(_) => Err(HeaderFault::NoMemory),
    }
}

fn unfold(alloc: Global, text: &[u8]) -> Result<Vec<RawField>, AllocError>
    ensures { IfOk result (λ v. v.items ≡ fields_of (header (lines text.now))) }
{
    let mut out = Vec::new(alloc);
    let (first, mut rest) = next_line(text);
    if first.is_empty() {
        return Ok(out);
    }
    let mut current = first.to_vec(alloc)?;
    'lines: loop {
        let (line, behind) = next_line(rest);
        rest = behind;
        if is_continuation(line) {
            current.extend_from_slice(line)?;
            continue;
        }
        out.push(field(alloc, &current)?)?;
        if line.is_empty() {
            return Ok(out);
        }
        current = line.to_vec(alloc)?;
    }
}

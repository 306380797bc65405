//! How many lines messages have, told without their prints.
ghost use Rattle.std.specs.Prelude.{◌≡◌, IfOk};
ghost use Rattle.mime_tree.specs.Contents.{content_of, trees_of};
ghost use Rattle.mime_reader.specs.Kinds.{boundary_of as boundary_of_fields};
ghost use Rattle.canon_writer.specs.Counting.{capped};
ghost use Rattle.canon_writer.specs.Printing.{ended, header_lines as header_lines_of, print, print_body, print_parts};
ghost use Rattle.envelope_view.specs.Lines.{ended_lines as ended_lines_of, line_count as line_count_of};

use crate::boundaries::boundary_of;
use crate::lines::{ended_leaf_lines, ended_lines, leaf_lines, line_count};
use canon_writer::write_header;
use mime_tree::{Body, Field, Message};
use std::alloc::{AllocError, Global};

/// How many lines a header has, its empty line too.
fn header_lines(alloc: Global, fields: &[Field]) -> Result<usize, AllocError>
    ensures { IfOk result (λ count. count ≡ capped (ended_lines_of (ended (header_lines_of fields.now)))) }
{
    let text = write_header(alloc, fields)?;
    Ok(line_count(&text))
}

/// How many lines a message has.
#[cycle(counting)]
pub(crate) fn message_lines(alloc: Global, message: &Message) -> Result<usize, AllocError>
    ensures { IfOk result (λ count. count ≡ capped (line_count_of (print message.now))) }
{
    let header = header_lines(alloc, &message.fields)?;
    let body = body_lines(alloc, &message.fields, &message.body)?;
    Ok(header.saturating_add(body))
}

#[cycle(counting)]
fn body_lines(alloc: Global, fields: &[Field], body: &Body) -> Result<usize, AllocError>
    ensures { IfOk result (λ count. count ≡ capped (line_count_of (print_body (boundary_of_fields fields.now) (content_of body.now)))) }
{
    match body {
        Body::Leaf { encoding, bytes } => Ok(leaf_lines(*encoding, bytes.as_slice())),
        Body::Multi(parts) => {
            let boundary = boundary_of(alloc, fields)?;
            parts_lines(alloc, &boundary, parts)
        }
        Body::Nested(inner) => message_lines(alloc, inner),
    }
}

/// How many lines the parts of a multipart have with their delimiters.
#[cycle(ended)]
fn parts_lines(alloc: Global, boundary: &[u8], parts: &[Message]) -> Result<usize, AllocError>
    ensures { IfOk result (λ count. count ≡ capped (line_count_of (print_parts boundary.now (trees_of parts.now)))) }
{
    let around = ended_lines(boundary);
    let mut count: usize = 0;
    for part in parts {
        let lines = ended_message_lines(alloc, part)?;
        count = count.saturating_add(around).saturating_add(lines);
    }
    Ok(count.saturating_add(around))
}

/// How many lines a message has where a CRLF stands behind it.
#[cycle(ended)]
fn ended_message_lines(alloc: Global, message: &Message) -> Result<usize, AllocError>
    ensures { IfOk result (λ count. count ≡ capped (ended_lines_of (print message.now))) }
{
    let header = header_lines(alloc, &message.fields)?;
    let body = ended_body_lines(alloc, &message.fields, &message.body)?;
    Ok(header.saturating_add(body))
}

#[cycle(ended)]
fn ended_body_lines(alloc: Global, fields: &[Field], body: &Body) -> Result<usize, AllocError>
    ensures { IfOk result (λ count. count ≡ capped (ended_lines_of (print_body (boundary_of_fields fields.now) (content_of body.now)))) }
{
    match body {
        Body::Leaf { encoding, bytes } => Ok(ended_leaf_lines(*encoding, bytes.as_slice())),
        Body::Multi(parts) => {
            let boundary = boundary_of(alloc, fields)?;
            let lines = parts_lines(alloc, &boundary, parts)?;
            Ok(lines.saturating_add(1))
        }
        Body::Nested(inner) => ended_message_lines(alloc, inner),
    }
}

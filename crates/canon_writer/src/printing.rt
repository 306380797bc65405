//! Messages, headers and bodies as canonical text.
ghost use Rattle.std.specs.Prelude.{◌≡◌, [], ◌∷◌, ◌++◌, IfOk, OnOk};
ghost use Rattle.mime_tree.specs.Contents.{content_of, trees_of};
ghost use Rattle.mime_reader.specs.Kinds.{boundary_of as boundary_of_fields};
ghost use Rattle.mime_reader.specs.Bodies.{delimiter};
ghost use Rattle.canon_writer.specs.Folding.{field_lines};
ghost use Rattle.canon_writer.specs.Printing.{ended, print, print_body, print_header, print_leaf, print_parts, value_text as value_text_of};
ghost use Rattle.canon_writer.specs.Laws.{PrintLaws};

use crate::folding::append_lines;
use crate::sizes::{printed_body_size, printed_header_size, printed_size};
use address_grammar::{law_addresses, law_ids, print as print_addresses, print_ids};
use date_grammar::{law_dates, law_values};
use mail_text::law_lines;
use mime_reader::{law_reading, law_wrapping, parameter_value, type_of};
use mime_tree::{Body, Encoding, Field, Message, Value};
use std::alloc::{AllocError, Global};
use transfer_codec::{append64, law_base64};

/// The canonical text of a message. A multipart has the boundary that its fields name; nothing stands before its first delimiter
/// or behind the last (RFC 2046 §5.1.1).
pub fn write_message(alloc: Global, message: &Message) -> Result<Vec<u8>, AllocError>
    ensures { IfOk result (λ v. v.items ≡ print message.now) }
{
    let mut out = Vec::with_capacity(alloc, printed_size(message))?;
    append_message(alloc, &mut out, message)?;
    Ok(out)
}

/// A header as text, with the empty line.
pub fn write_header(alloc: Global, fields: &[Field]) -> Result<Vec<u8>, AllocError>
    ensures { IfOk result (λ v. v.items ≡ print_header fields.now) }
{
    let mut out = Vec::with_capacity(alloc, printed_header_size(fields))?;
    append_header(alloc, &mut out, fields)?;
    Ok(out)
}

/// A body as text. The boundary is that of its message, and stands between the parts of a multipart.
pub fn write_body(alloc: Global, body: &Body, boundary: &[u8]) -> Result<Vec<u8>, AllocError>
    ensures { IfOk result (λ v. v.items ≡ print_body boundary.now (content_of body.now)) }
{
    let mut out = Vec::with_capacity(alloc, printed_body_size(body, boundary))?;
    append_body(alloc, &mut out, body, boundary)?;
    Ok(out)
}

fn append_header(alloc: Global, out: &mut Vec<u8>, fields: &[Field]) -> Result<(), AllocError>
    ensures { OnOk result (out.new.items ≡ out.old.items ++ print_header fields.now) }
{
    for field in fields {
        append_field(alloc, out, field)?;
    }
    let empty_line = b"\r\n";
    out.extend_from_slice(empty_line)
}

/// Appends a field as it is printed, in lines of at most 78 bytes where its words allow it (RFC 5322 §2.1.1), each with its CRLF.
/// A header is its fields one behind another, and an empty line; so is a list of some of them.
pub fn append_field(alloc: Global, out: &mut Vec<u8>, field: &Field) -> Result<(), AllocError>
    ensures { OnOk result (out.new.items ≡ out.old.items ++ ended (field_lines field.now.name (value_text_of field.now.value))) }
{
    let name = field.name.as_slice();
    match &field.value {
        Value::Text(value) => append_lines(out, name, value.as_slice()),
        value => append_lines(out, name, &value_text(alloc, value)?),
    }
}

/// The canonical text of a value, unfolded: addresses with `, ` between them, a date with all its parts, ids with one space between
/// them, and any other value as it is.
pub fn value_text(alloc: Global, value: &Value) -> Result<Vec<u8>, AllocError>
    ensures { IfOk result (λ v. v.items ≡ value_text_of value.now) }
{
    match value {
        Value::Text(text) => text.as_slice().to_vec(alloc),
        Value::Addresses(items) => print_addresses(alloc, items.as_slice()),
        Value::Date(date) => date.text.to_vec(alloc),
        Value::Ids(ids) => print_ids(alloc, ids.as_slice()),
    }
}

#[cycle(writing)]
fn append_message(alloc: Global, out: &mut Vec<u8>, message: &Message) -> Result<(), AllocError>
    ensures { OnOk result (out.new.items ≡ out.old.items ++ print message.now) }
{
    append_header(alloc, out, &message.fields)?;
    let boundary = boundary_within(alloc, &message.fields, &message.body)?;
    append_body(alloc, out, &message.body, &boundary)
}

#[cycle(writing)]
fn append_body(
    alloc: Global,
    out: &mut Vec<u8>,
    body: &Body,
    boundary: &[u8],
) -> Result<(), AllocError>
    ensures { OnOk result (out.new.items ≡ out.old.items ++ print_body boundary.now (content_of body.now)) }
{
    match body {
        Body::Leaf { encoding, bytes } => append_leaf(out, *encoding, bytes.as_slice()),
        Body::Multi(parts) => append_parts(alloc, out, parts, boundary),
        Body::Nested(inner) => append_message(alloc, out, inner),
    }
}

#[cycle(writing)]
fn append_parts(
    alloc: Global,
    out: &mut Vec<u8>,
    parts: &[Message],
    boundary: &[u8],
) -> Result<(), AllocError>
    ensures { OnOk result (out.new.items ≡ out.old.items ++ print_parts boundary.now (trees_of parts.now)) }
{
    for part in parts {
        append_delimiter(out, boundary, b"\r\n")?;
        append_message(alloc, out, part)?;
        out.extend_from_slice(b"\r\n")?;
    }
    append_delimiter(out, boundary, b"--\r\n")
}

fn append_delimiter(out: &mut Vec<u8>, boundary: &[u8], ending: &[u8]) -> Result<(), AllocError>
    ensures { OnOk result (out.new.items ≡ out.old.items ++ (delimiter boundary.now ++ ending.now)) }
{
    out.extend_from_slice(b"--")?;
    out.extend_from_slice(boundary)?;
    out.extend_from_slice(ending)
}

fn append_leaf(out: &mut Vec<u8>, encoding: Encoding, bytes: &[u8]) -> Result<(), AllocError>
    ensures { OnOk result (out.new.items ≡ out.old.items ++ print_leaf encoding bytes.now) }
{
    match encoding {
        Encoding::Plain => out.extend_from_slice(bytes),
        Encoding::Base64 => append64(out, bytes),
    }
}

/// The boundary that stands between the parts of a body; where it has none, any text.
fn boundary_within(alloc: Global, fields: &[Field], body: &Body) -> Result<Vec<u8>, AllocError>
    ensures { IfOk result (λ v. print_body v.items (content_of body.now) ≡ print_body (boundary_of_fields fields.now) (content_of body.now)) }
{
    match body {
        Body::Multi(_) => boundary_of(alloc, fields),
        Body::Leaf { .. } | Body::Nested(_) => Ok(Vec::new(alloc)),
    }
}

/// The boundary that fields name; empty where they name none.
#[tactic(auto, unfolding(mime_reader::specs::Kinds::boundary_of))]
fn boundary_of(alloc: Global, fields: &[Field]) -> Result<Vec<u8>, AllocError>
    ensures { IfOk result (λ v. v.items ≡ boundary_of_fields fields.now) }
{
    let named = type_of(alloc, false, fields)?;
    match parameter_value(b"boundary", named.parameters.as_slice()) {
        Some(value) => value.to_vec(alloc),
        None => Ok(Vec::new(alloc)),
    }
}

/// The print of a message is read again as that message.
pub fn law_print()
    ensures { PrintLaws }
{
    law_lines();
    law_addresses();
    law_ids();
    law_dates();
    law_values();
    law_base64();
    law_reading();
    law_wrapping();
}

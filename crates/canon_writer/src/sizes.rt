//! How long prints are, told before anything is written.
ghost use Rattle.std.specs.Prelude.{◌≡◌, ℕ, List, length};
ghost use Rattle.mime_tree.specs.Contents.{content_of, trees_of};
ghost use Rattle.mime_reader.specs.Kinds.{boundary_of};
ghost use Rattle.canon_writer.specs.Counting.{capped};
ghost use Rattle.canon_writer.specs.Folding.{field_lines};
ghost use Rattle.canon_writer.specs.Printing.{ended, print, print_body, print_header, print_leaf, print_parts, value_text};

use crate::counting::named;
use crate::value_sizes::with_value;
use mime_reader::boundary_size;
use mime_tree::{Body, Encoding, Field, Message};
use transfer_codec::{law_base64, printed64_len};

/// How long the canonical text of a message is; `usize::MAX` where it is longer. Takes no memory, and time with what is printed.
#[cycle(sizing)]
pub fn printed_size(message: &Message) -> usize
    ensures { result ≡ capped (length (print message.now)) }
{
    printed_header_size(&message.fields).saturating_add(size_within(&message.fields, &message.body))
}

/// How long the body of a message with these fields is in its print: a multipart has the boundary that they name. `usize::MAX`
/// where it is longer. Takes no memory.
#[cycle(sizing)]
pub fn size_within(fields: &[Field], body: &Body) -> usize
    ensures { result ≡ capped (length (print_body (boundary_of fields.now) (content_of body.now))) }
{
    match body {
        Body::Leaf { encoding, bytes } => leaf_size(*encoding, bytes.as_slice()),
        Body::Multi(parts) => parts_size(boundary_size(fields), parts),
        Body::Nested(inner) => printed_size(inner),
    }
}

/// How long parts are in the print, whose boundary is so long.
#[cycle(sizing)]
fn parts_size(boundary_size: usize, parts: &[Message]) -> usize
    ensures { (boundary : List ℕ) → length boundary ≡ boundary_size → result ≡ capped (length (print_parts boundary (trees_of parts.now))) }
{
    // Before each part a delimiter with its line end, and a line end behind it; the closing delimiter has two bytes more and one
    // line end.
    let around = boundary_size.saturating_add(6);
    let mut size: usize = 0;
    for part in parts {
        size = size
            .saturating_add(around)
            .saturating_add(printed_size(part));
    }
    size.saturating_add(around)
}

/// How long a body is in the print, as `write_body` writes it; `usize::MAX` where it is longer. Takes no memory.
pub fn printed_body_size(body: &Body, boundary: &[u8]) -> usize
    ensures { result ≡ capped (length (print_body boundary.now (content_of body.now))) }
{
    match body {
        Body::Leaf { encoding, bytes } => leaf_size(*encoding, bytes.as_slice()),
        Body::Multi(parts) => parts_size(boundary.len(), parts),
        Body::Nested(inner) => printed_size(inner),
    }
}

/// How long a header is in the print, with the empty line; `usize::MAX` where it is longer. Takes no memory.
pub fn printed_header_size(fields: &[Field]) -> usize
    ensures { result ≡ capped (length (print_header fields.now)) }
{
    let mut size: usize = 0;
    for field in fields {
        size = size.saturating_add(field_size(field));
    }
    size.saturating_add(2)
}

/// How long the lines of a field are with their ends; `usize::MAX` where they are longer. Takes no memory.
pub fn field_size(field: &Field) -> usize
    ensures { result ≡ capped (length (ended (field_lines field.now.name (value_text field.now.value)))) }
{
    with_value(named(field.name.as_slice()), &field.value).size
}

fn leaf_size(encoding: Encoding, bytes: &[u8]) -> usize
    ensures { result ≡ capped (length (print_leaf encoding bytes.now)) }
{
    match encoding {
        Encoding::Plain => bytes.len(),
        Encoding::Base64 => base64_size(bytes),
    }
}

/// How long the base64 of bytes is in lines.
fn base64_size(bytes: &[u8]) -> usize
    ensures { result ≡ capped (length (print_leaf Encoding.Base64 bytes.now)) }
{
    law_base64();
    printed64_len(bytes.len()).unwrap_or(usize::MAX)
}

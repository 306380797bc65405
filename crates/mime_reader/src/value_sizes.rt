//! How long the values of parameters are, told from where they stand, without memory (RFC 2045 §5.1).
ghost use Rattle.std.specs.Prelude.{◌≡◌, [], length};
ghost use Rattle.std.specs.Option.{option_and_then, unwrap_or};
ghost use Rattle.mime_reader.specs.ContentTypes.{content_type_of, named_front, parameter_front, parameters_of, quoted_content, value_front, with_subtype as with_subtype_of};
ghost use Rattle.mime_reader.specs.Found.{IsFront};
ghost use Rattle.mime_reader.specs.Kinds.{boundary_in, boundary_of};
ghost use Rattle.mime_reader.specs.ValueSizes.{named_size as named_size_of, parameter_size as parameter_size_of, sized};

use crate::content_types::behind;
use crate::kinds::first_text;
use crate::tokens::{mark_len, token_len};
use mail_text::same;
use mime_tree::Field;

/// How long the content of a quoted string is whose first quote stands in front of the text, and how many bytes it has with its
/// last quote.
fn quoted_size(text: &[u8]) -> Option<(usize, usize)>
    ensures { IsFront text.now result (sized (quoted_content text.now)) }
{
    let mut size = 0;
    let mut escaped = false;
    for at in 0..text.len() {
        let b = text[at];
        if escaped {
            size += 1;
            escaped = false;
            continue;
        }
        if b == b'"' {
            return Some((size, at + 1));
        }
        if b == b'\\' {
            escaped = true;
            continue;
        }
        size += 1;
    }
    None
}

/// How long the value of a parameter at the front of a text is, and how many bytes it has there.
fn value_size(text: &[u8]) -> Option<(usize, usize)>
    ensures { IsFront text.now result (sized (value_front text.now)) }
{
    if !text.is_empty() && text[0] == b'"' {
        return match quoted_size(&text[1..]) {
            Some((content, size)) => Some((content, size + 1)),
            None => None,
        };
    }
    let end = token_len(text);
    if end == 0 {
        return None;
    }
    Some((end, end))
}

/// Whether the parameter whose name is at the front of a text has this name, how long its value is, and how many bytes it has.
fn named_size(name: &[u8], text: &[u8]) -> Option<((bool, usize), usize)>
    ensures { IsFront text.now result (named_size_of name.now (named_front text.now)) }
{
    let end = token_len(text);
    if end == 0 {
        return None;
    }
    let Some(mark) = mark_len(b'=', &text[end..]) else {
        return None;
    };
    let start = end + mark;
    match value_size(&text[start..]) {
        Some((value, size)) => Some(((same(&text[..end], name), value), start + size)),
        None => None,
    }
}

/// The same of the parameter at the front of a text, with its `;`.
fn front_size(name: &[u8], text: &[u8]) -> Option<((bool, usize), usize)>
    ensures { IsFront text.now result (named_size_of name.now (parameter_front text.now)) }
{
    let Some(start) = mark_len(b';', text) else {
        return None;
    };
    match named_size(name, &text[start..]) {
        Some((found, size)) => Some((found, start + size)),
        None => None,
    }
}

/// How long the value of the first parameter with a name is, in any case, of the parameters at the front of a text; 0 where none
/// has the name.
fn parameter_size(name: &[u8], text: &[u8]) -> usize
    ensures { result ≡ parameter_size_of name.now (parameters_of text.now) }
{
    let mut rest = text;
    while let Some(((is_named, size), all)) = front_size(name, rest) {
        if is_named {
            return size;
        }
        rest = behind(rest, all);
    }
    0
}

/// How long the boundary is that the value of a field names, behind its top-level type.
fn size_behind_type(text: &[u8]) -> usize
    ensures { result ≡ length (unwrap_or (option_and_then boundary_in (with_subtype_of [] text.now)) []) }
{
    if text.is_empty() || text[0] != b'/' {
        return 0;
    }
    let text = &text[1..];
    let end = token_len(text);
    if end == 0 {
        return 0;
    }
    parameter_size(b"boundary", &text[end..])
}

/// How long the boundary is that the value of a field names.
fn size_in_type(value: &[u8]) -> usize
    ensures { result ≡ length (unwrap_or (option_and_then boundary_in (content_type_of value.now)) []) }
{
    let end = token_len(value);
    if end == 0 {
        return 0;
    }
    size_behind_type(&value[end..])
}

/// How long the boundary is that the fields of a multipart name; 0 where they name none. Takes no memory.
#[tactic(auto, unfolding(crate::specs::Kinds::boundary_of, crate::specs::Kinds::type_of))]
pub fn boundary_size(fields: &[Field]) -> usize
    ensures { result ≡ length (boundary_of fields.now) }
{
    match first_text(b"Content-Type", fields) {
        Some(value) => size_in_type(value),
        None => 0,
    }
}

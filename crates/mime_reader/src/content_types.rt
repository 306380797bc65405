//! Content types (RFC 2045 §5.1).
ghost use Rattle.std.specs.Prelude.{◌≡◌, ◌≤◌, IfOk, drop, length};
ghost use Rattle.std.specs.Option.{option_map};
ghost use Rattle.mail_text.specs.Texts.{begins, front};
ghost use Rattle.mime_reader.specs.ContentTypes.{content_type_of, is_token, named_front as named_front_of, parameter_front as parameter_front_of, parameter_value as parameter_value_of, parameters_of, with_subtype as with_subtype_of};
ghost use Rattle.mime_reader.specs.Found.{IsFront};

use crate::tokens::{mark_len, token_len, value_front};
use mail_text::same;
use octets::Octets;
use sqlite_items::Items;
use std::alloc::{AllocError, Global};

/// A parameter of a content type.
#[derive(Debug, Drop)]
pub struct Parameter {
    /// As it is written. The case of its letters doesn't matter.
    pub name: Octets,
    /// Without quotes, and without the `\` of quoted bytes.
    pub value: Octets,
}

/// A content type: `text/plain; charset=utf-8`. The case of the letters of both types doesn't matter.
#[derive(Debug, Drop)]
pub struct ContentType {
    /// What stands before the `/`.
    pub top_level: Octets,
    /// What stands behind it.
    pub subtype: Octets,
    /// All parameters, in their order. Of two with one name the first counts.
    pub parameters: Items<Parameter>,
}

/// The content type that the value of a field names; None where it names none. What stands behind its last parameter is not
/// looked at. Time and memory go with the value's length.
pub fn content_type(alloc: Global, value: &[u8]) -> Result<Option<ContentType>, AllocError>
    ensures { IfOk result (λ found. found ≡ content_type_of value.now) }
{
    let end = token_len(value);
    if end == 0 {
        return Ok(None);
    }
    let top_level = Octets::new(value[..end].to_vec(alloc)?);
    with_subtype(alloc, top_level, &value[end..])
}

fn with_subtype(
    alloc: Global,
    top_level: Octets,
    text: &[u8],
) -> Result<Option<ContentType>, AllocError>
    ensures { IfOk result (λ found. found ≡ with_subtype_of top_level text.now) }
{
    if text.is_empty() || text[0] != b'/' {
        return Ok(None);
    }
    let text = &text[1..];
    let end = token_len(text);
    if end == 0 {
        return Ok(None);
    }
    let subtype = Octets::new(text[..end].to_vec(alloc)?);
    let parameters = parameters(alloc, &text[end..])?;
    Ok(Some(ContentType {
        top_level,
        subtype,
        parameters,
    }))
}

/// What stands behind so many bytes.
pub(crate) fn behind(text: &[u8], size: usize) -> &[u8]
    requires { size ≤ length text.now }
    ensures { result.now ≡ drop size text.now }
{
    &text[size..]
}

pub(crate) fn parameters(alloc: Global, text: &[u8]) -> Result<Items<Parameter>, AllocError>
    ensures { IfOk result (λ found. found ≡ parameters_of text.now) }
{
    let mut out = Vec::new(alloc);
    let mut rest = text;
    while let Some((parameter, size)) = parameter_front(alloc, rest)? {
        out.push(parameter)?;
        rest = behind(rest, size);
    }
    Ok(Items::from_vec(out))
}

/// The parameter at the front of a text, and how many bytes it has with its `;` and the blanks around.
fn parameter_front(alloc: Global, text: &[u8]) -> Result<Option<(Parameter, usize)>, AllocError>
    ensures { IfOk result (λ found. IsFront text.now found (parameter_front_of text.now)) }
{
    let Some(start) = mark_len(b';', text) else {
        return Ok(None);
    };
    match named_front(alloc, &text[start..])? {
        Some((parameter, size)) => Ok(Some((parameter, start + size))),
        None => Ok(None),
    }
}

/// The parameter whose name is at the front of a text.
fn named_front(alloc: Global, text: &[u8]) -> Result<Option<(Parameter, usize)>, AllocError>
    ensures { IfOk result (λ found. IsFront text.now found (named_front_of text.now)) }
{
    let end = token_len(text);
    if end == 0 {
        return Ok(None);
    }
    let Some(mark) = mark_len(b'=', &text[end..]) else {
        return Ok(None);
    };
    let start = end + mark;
    match value_front(alloc, &text[start..])? {
        Some((value, size)) => {
            let name = Octets::new(text[..end].to_vec(alloc)?);
            Ok(Some((Parameter { name, value }, start + size)))
        }
        None => Ok(None),
    }
}

/// The value of the first parameter with a name, in any case.
pub fn parameter_value<'a>(name: &[u8], parameters: &'a [Parameter]) -> Option<&'a [u8]>
    ensures { option_map (λ value. value.now) result ≡ parameter_value_of name.now parameters.now }
{
    for parameter in parameters {
        if same(parameter.name.as_slice(), name) {
            return Some(parameter.value.as_slice());
        }
    }
    None
}

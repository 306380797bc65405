//! What the body of a message or a part is, by its fields.
ghost use Rattle.std.specs.Prelude.{◌≡◌, IfOk};
ghost use Rattle.std.specs.Option.{option_map};
ghost use Rattle.mime_reader.specs.Kinds.{body_kind as body_kind_of, boundary_in, default_type as default_type_of, first_text as first_text_of, has_encoding as has_encoding_of, kind_by as kind_by_of, type_of as type_of_fields};

use crate::content_types::{ContentType, content_type, parameter_value};
use mail_text::same;
use mime_tree::{Field, Value};
use octets::Octets;
use sqlite_items::Items;
use std::alloc::{AllocError, Global};

/// What the body of a message or a part is.
#[derive(Debug, Drop)]
pub enum BodyKind {
    /// Parts between delimiters (RFC 2046 §5.1), with the boundary, if one is named. In a digest a part is a message, unless its
    /// own fields say otherwise (RFC 2046 §5.1.5).
    Multipart {
        boundary: Option<Octets>,
        digest: bool,
    },
    /// A message within the message (RFC 2046 §5.2.1).
    Embedded,
    /// Bytes, which may be in base64.
    Single {
        base64: bool,
    },
}

/// The text of the first field with a name, in any case; None where there is none, or where it has a typed value.
pub fn first_text<'a>(name: &[u8], fields: &'a [Field]) -> Option<&'a [u8]>
    ensures { option_map (λ text. text.now) result ≡ first_text_of name.now fields.now }
{
    for field in fields {
        if same(field.name.as_slice(), name) {
            return match &field.value {
                Value::Text(text) => Some(text.as_slice()),
                _ => None,
            };
        }
    }
    None
}

fn default_type(alloc: Global, digest: bool) -> Result<ContentType, AllocError>
    ensures { IfOk result (λ found. found ≡ default_type_of digest) }
{
    let (top_level, subtype) = if digest {
        (b"message".as_slice(), b"rfc822".as_slice())
    } else {
        (b"text".as_slice(), b"plain".as_slice())
    };
    Ok(ContentType {
        top_level: Octets::new(top_level.to_vec(alloc)?),
        subtype: Octets::new(subtype.to_vec(alloc)?),
        parameters: Items::new(alloc),
    })
}

/// The type that the first Content-Type field names; where none does, text/plain, or message/rfc822 for a part of a digest
/// (RFC 2045 §5.2, RFC 2046 §5.1.5).
#[tactic(auto, unfolding(crate::specs::Kinds::type_of))]
pub fn type_of(alloc: Global, digest: bool, fields: &[Field]) -> Result<ContentType, AllocError>
    ensures { IfOk result (λ found. found ≡ type_of_fields digest fields.now) }
{
    let Some(value) = first_text(b"Content-Type", fields) else {
        return default_type(alloc, digest);
    };
    match content_type(alloc, value)? {
        Some(named) => Ok(named),
        None => default_type(alloc, digest),
    }
}

#[tactic(auto, unfolding(crate::specs::Kinds::has_encoding))]
fn has_encoding(name: &[u8], fields: &[Field]) -> bool
    ensures { result ≡ has_encoding_of name.now fields.now }
{
    match first_text(b"Content-Transfer-Encoding", fields) {
        Some(value) => same(value, name),
        None => false,
    }
}

/// What the body of a message or a part is, by its fields as they were read. Time and memory go with their length.
#[tactic(auto, unfolding(crate::specs::Kinds::body_kind))]
pub fn body_kind(alloc: Global, digest: bool, fields: &[Field]) -> Result<BodyKind, AllocError>
    ensures { IfOk result (λ kind. kind ≡ body_kind_of digest fields.now) }
{
    let named = type_of(alloc, digest, fields)?;
    let base64 = has_encoding(b"base64", fields);
    let quoted = has_encoding(b"quoted-printable", fields);
    kind_by(alloc, &named, base64, quoted)
}

fn kind_by(
    alloc: Global,
    named: &ContentType,
    base64: bool,
    quoted: bool,
) -> Result<BodyKind, AllocError>
    ensures { IfOk result (λ kind. kind ≡ kind_by_of named.now base64 quoted) }
{
    let top_level = named.top_level.as_slice();
    let subtype = named.subtype.as_slice();
    if same(top_level, b"multipart") {
        let boundary = boundary(alloc, named)?;
        let digest = same(subtype, b"digest");
        return Ok(BodyKind::Multipart { boundary, digest });
    }
    if same(top_level, b"message") && same(subtype, b"rfc822") && !base64 && !quoted {
        return Ok(BodyKind::Embedded);
    }
    Ok(BodyKind::Single { base64 })
}

fn boundary(alloc: Global, named: &ContentType) -> Result<Option<Octets>, AllocError>
    ensures { IfOk result (λ found. found ≡ boundary_in named.now) }
{
    match parameter_value(b"boundary", named.parameters.as_slice()) {
        Some(value) => Ok(Some(Octets::new(value.to_vec(alloc)?))),
        None => Ok(None),
    }
}

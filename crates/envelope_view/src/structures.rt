//! The structure of a message.
ghost use Rattle.std.specs.Prelude.{◌≡◌, ◌++◌, OnOk, IfOk, Some, decimal, false, flat_map, map};
ghost use Rattle.mime_tree.specs.Contents.{content_of, trees_of};
ghost use Rattle.mime_tree.specs.Trees.Content.{nested};
ghost use Rattle.mime_reader.specs.Parameters.{token_with_parameters_of};
ghost use Rattle.canon_writer.specs.Printing.{print_leaf};
ghost use Rattle.imap_writer.specs.Spaced.{behind_space};
ghost use Rattle.envelope_view.specs.Structure.{body_fields, capitals, content_structure, default_type as default_type_of, disposition_or_nil, disposition_text, encoding_or_7bit, encoding_text, leaf_structure, leaf_types, multipart_end, multipart_extension, nested_head, parameter_text, parameters_text, parts_structure, place_fields, single_extension, size_of, structure, text_lines, type_of as type_of_fields};

use crate::counting::message_lines;
use crate::envelopes::push_envelope;
use crate::lines::leaf_lines;
use crate::values::push_field_behind;
use canon_writer::{printed_size, size_within};
use imap_writer::{push_number, push_text};
use mail_text::same;
use mime_reader::{
    ContentType, Parameter, TokenWithParameters, first_text, named_type, token_with_parameters,
};
use mime_tree::{Body, Encoding, Field, Message};
use octets::Octets;
use sqlite_items::Items;
use std::alloc::{AllocError, Global};

/// A word whose case doesn't matter, as a string.
#[tactic(auto, unfolding(crate::specs::Structure::capitals))]
fn push_capitals(alloc: Global, out: &mut Vec<u8>, word: &[u8]) -> Result<(), AllocError>
    ensures { OnOk result (out.new.items ≡ out.old.items ++ capitals word.now) }
{
    push_text(out, &word.to_ascii_uppercase(alloc)?)
}

fn push_parameter(alloc: Global, out: &mut Vec<u8>, parameter: &Parameter) -> Result<(), AllocError>
    ensures { OnOk result (out.new.items ≡ out.old.items ++ parameter_text parameter.now) }
{
    push_capitals(alloc, out, parameter.name.as_slice())?;
    out.extend_from_slice(b" ")?;
    push_text(out, parameter.value.as_slice())
}

fn push_further(
    alloc: Global,
    out: &mut Vec<u8>,
    parameters: &[Parameter],
) -> Result<(), AllocError>
    ensures { OnOk result (out.new.items ≡ out.old.items ++ flat_map behind_space (map parameter_text parameters.now)) }
{
    for parameter in parameters {
        out.extend_from_slice(b" ")?;
        push_parameter(alloc, out, parameter)?;
    }
    Ok(())
}

/// All parameters in their order, or NIL.
#[tactic(auto, unfolding(crate::specs::Structure::parameters_text))]
fn push_parameters(
    alloc: Global,
    out: &mut Vec<u8>,
    parameters: &[Parameter],
) -> Result<(), AllocError>
    ensures { OnOk result (out.new.items ≡ out.old.items ++ parameters_text parameters.now) }
{
    let Some((first, others)) = parameters.split_first() else {
        return out.extend_from_slice(b"NIL");
    };
    out.extend_from_slice(b"(")?;
    push_parameter(alloc, out, first)?;
    push_further(alloc, out, others)?;
    out.extend_from_slice(b")")
}

/// The type where the fields name none, with the parameters that it stands for (RFC 2045 §5.2, RFC 2046 §5.1.5).
fn default_type(alloc: Global, digest: bool) -> Result<ContentType, AllocError>
    ensures { IfOk result (λ found. found ≡ default_type_of digest) }
{
    if digest {
        return Ok(ContentType {
            top_level: Octets::new(b"message".to_vec(alloc)?),
            subtype: Octets::new(b"rfc822".to_vec(alloc)?),
            parameters: Items::new(alloc),
        });
    }
    let charset = Parameter {
        name: Octets::new(b"charset".to_vec(alloc)?),
        value: Octets::new(b"US-ASCII".to_vec(alloc)?),
    };
    Ok(ContentType {
        top_level: Octets::new(b"text".to_vec(alloc)?),
        subtype: Octets::new(b"plain".to_vec(alloc)?),
        parameters: Items::from_vec(vec![in alloc; charset]?),
    })
}

#[tactic(auto, unfolding(crate::specs::Structure::type_of))]
fn type_of(alloc: Global, digest: bool, fields: &[Field]) -> Result<ContentType, AllocError>
    ensures { IfOk result (λ found. found ≡ type_of_fields digest fields.now) }
{
    match named_type(alloc, fields)? {
        Some(named) => Ok(named),
        None => default_type(alloc, digest),
    }
}

/// The two types of a leaf. One that isn't read as a message isn't shown as one.
#[tactic(auto, unfolding(crate::specs::Structure::leaf_types))]
fn push_leaf_types(alloc: Global, out: &mut Vec<u8>, kind: &ContentType) -> Result<(), AllocError>
    ensures { OnOk result (out.new.items ≡ out.old.items ++ leaf_types kind.now) }
{
    let top_level = kind.top_level.as_slice();
    let subtype = kind.subtype.as_slice();
    if same(top_level, b"message") && same(subtype, b"rfc822") {
        return out.extend_from_slice(b"\"APPLICATION\" \"OCTET-STREAM\"");
    }
    push_capitals(alloc, out, top_level)?;
    out.extend_from_slice(b" ")?;
    push_capitals(alloc, out, subtype)
}

fn push_encoding_named(alloc: Global, out: &mut Vec<u8>, name: &[u8]) -> Result<(), AllocError>
    ensures { OnOk result (out.new.items ≡ out.old.items ++ encoding_or_7bit (Some name.now)) }
{
    if name.is_empty() {
        return out.extend_from_slice(b"\"7BIT\"");
    }
    push_capitals(alloc, out, name)
}

/// The encoding that the fields name (RFC 2045 §6.1).
#[tactic(auto, unfolding(crate::specs::Structure::encoding_text))]
fn push_encoding(alloc: Global, out: &mut Vec<u8>, fields: &[Field]) -> Result<(), AllocError>
    ensures { OnOk result (out.new.items ≡ out.old.items ++ encoding_text fields.now) }
{
    match first_text(b"Content-Transfer-Encoding", fields) {
        Some(name) => push_encoding_named(alloc, out, name),
        None => out.extend_from_slice(b"\"7BIT\""),
    }
}

/// The encoding and the size, each behind a space.
fn push_encoding_and_size(
    alloc: Global,
    out: &mut Vec<u8>,
    fields: &[Field],
    size: usize,
) -> Result<(), AllocError>
    ensures { OnOk result (out.new.items ≡ out.old.items ++ behind_space (encoding_text fields.now) ++ behind_space (decimal size)) }
{
    out.extend_from_slice(b" ")?;
    push_encoding(alloc, out, fields)?;
    out.extend_from_slice(b" ")?;
    push_number(out, size as u64)
}

/// Parameters, id, description, encoding and size.
fn push_body_fields(
    alloc: Global,
    out: &mut Vec<u8>,
    kind: &ContentType,
    fields: &[Field],
    size: usize,
) -> Result<(), AllocError>
    ensures { OnOk result (out.new.items ≡ out.old.items ++ body_fields kind.now fields.now size) }
{
    push_parameters(alloc, out, kind.parameters.as_slice())?;
    push_field_behind(alloc, out, b"Content-ID", fields)?;
    push_field_behind(alloc, out, b"Content-Description", fields)?;
    push_encoding_and_size(alloc, out, fields, size)
}

/// The same behind a space.
fn push_body_fields_behind(
    alloc: Global,
    out: &mut Vec<u8>,
    kind: &ContentType,
    fields: &[Field],
    size: usize,
) -> Result<(), AllocError>
    ensures { OnOk result (out.new.items ≡ out.old.items ++ behind_space (body_fields kind.now fields.now size)) }
{
    out.extend_from_slice(b" ")?;
    push_body_fields(alloc, out, kind, fields, size)
}

/// The lines of a text; of other bytes they aren't told.
#[tactic(auto, unfolding(crate::specs::Structure::text_lines))]
fn push_text_lines(
    out: &mut Vec<u8>,
    kind: &ContentType,
    encoding: Encoding,
    bytes: &[u8],
) -> Result<(), AllocError>
    ensures { OnOk result (out.new.items ≡ out.old.items ++ text_lines kind.now (print_leaf encoding bytes.now)) }
{
    if !same(kind.top_level.as_slice(), b"text") {
        return Ok(());
    }
    out.extend_from_slice(b" ")?;
    push_number(out, leaf_lines(encoding, bytes) as u64)
}

fn push_found(
    alloc: Global,
    out: &mut Vec<u8>,
    found: &TokenWithParameters,
) -> Result<(), AllocError>
    ensures { OnOk result (out.new.items ≡ out.old.items ++ disposition_or_nil (Some found.now)) }
{
    out.extend_from_slice(b"(")?;
    push_capitals(alloc, out, found.token.as_slice())?;
    out.extend_from_slice(b" ")?;
    push_parameters(alloc, out, found.parameters.as_slice())?;
    out.extend_from_slice(b")")
}

fn push_disposition_of(alloc: Global, out: &mut Vec<u8>, value: &[u8]) -> Result<(), AllocError>
    ensures { OnOk result (out.new.items ≡ out.old.items ++ disposition_or_nil (token_with_parameters_of value.now)) }
{
    match token_with_parameters(alloc, value)? {
        Some(found) => push_found(alloc, out, &found),
        None => out.extend_from_slice(b"NIL"),
    }
}

/// How a part is to be shown (RFC 2183 §2).
#[tactic(auto, unfolding(crate::specs::Structure::disposition_text))]
fn push_disposition(alloc: Global, out: &mut Vec<u8>, fields: &[Field]) -> Result<(), AllocError>
    ensures { OnOk result (out.new.items ≡ out.old.items ++ disposition_text fields.now) }
{
    match first_text(b"Content-Disposition", fields) {
        Some(value) => push_disposition_of(alloc, out, value),
        None => out.extend_from_slice(b"NIL"),
    }
}

/// Disposition, language and location.
fn push_place_fields(alloc: Global, out: &mut Vec<u8>, fields: &[Field]) -> Result<(), AllocError>
    ensures { OnOk result (out.new.items ≡ out.old.items ++ place_fields fields.now) }
{
    push_disposition(alloc, out, fields)?;
    push_field_behind(alloc, out, b"Content-Language", fields)?;
    push_field_behind(alloc, out, b"Content-Location", fields)
}

/// The extension data of a part that is no multipart, where it is asked for.
#[tactic(auto, unfolding(crate::specs::Structure::single_extension))]
fn push_single_extension(
    alloc: Global,
    out: &mut Vec<u8>,
    extended: bool,
    fields: &[Field],
) -> Result<(), AllocError>
    ensures { OnOk result (out.new.items ≡ out.old.items ++ single_extension extended fields.now) }
{
    if !extended {
        return Ok(());
    }
    push_field_behind(alloc, out, b"Content-MD5", fields)?;
    out.extend_from_slice(b" ")?;
    push_place_fields(alloc, out, fields)
}

#[tactic(auto, unfolding(crate::specs::Structure::multipart_extension))]
fn push_multipart_extension(
    alloc: Global,
    out: &mut Vec<u8>,
    extended: bool,
    kind: &ContentType,
    fields: &[Field],
) -> Result<(), AllocError>
    ensures { OnOk result (out.new.items ≡ out.old.items ++ multipart_extension extended kind.now fields.now) }
{
    if !extended {
        return Ok(());
    }
    out.extend_from_slice(b" ")?;
    push_parameters(alloc, out, kind.parameters.as_slice())?;
    out.extend_from_slice(b" ")?;
    push_place_fields(alloc, out, fields)
}

/// What stands behind the parts of a multipart.
#[tactic(auto, unfolding(crate::specs::Structure::multipart_end))]
fn push_multipart_end(
    alloc: Global,
    out: &mut Vec<u8>,
    extended: bool,
    kind: &ContentType,
    fields: &[Field],
) -> Result<(), AllocError>
    ensures { OnOk result (out.new.items ≡ out.old.items ++ multipart_end extended kind.now fields.now) }
{
    out.extend_from_slice(b" ")?;
    push_capitals(alloc, out, kind.subtype.as_slice())?;
    push_multipart_extension(alloc, out, extended, kind, fields)
}

/// A part that has no parts, whose body has so many bytes.
#[tactic(auto, unfolding(crate::specs::Structure::leaf_structure))]
fn push_leaf(
    alloc: Global,
    out: &mut Vec<u8>,
    extended: bool,
    kind: &ContentType,
    fields: &[Field],
    encoding: Encoding,
    bytes: &[u8],
    size: usize,
) -> Result<(), AllocError>
    requires { size ≡ size_of (print_leaf encoding bytes.now) }
    ensures { OnOk result (out.new.items ≡ out.old.items ++ leaf_structure extended kind.now fields.now (print_leaf encoding bytes.now)) }
{
    push_leaf_types(alloc, out, kind)?;
    push_body_fields_behind(alloc, out, kind, fields, size)?;
    push_text_lines(out, kind, encoding, bytes)?;
    push_single_extension(alloc, out, extended, fields)
}

/// What stands before the structure of a message within.
fn push_nested_head(
    alloc: Global,
    out: &mut Vec<u8>,
    kind: &ContentType,
    fields: &[Field],
    inner: &Message,
) -> Result<(), AllocError>
    ensures { OnOk result (out.new.items ≡ out.old.items ++ nested_head kind.now fields.now inner.now) }
{
    out.extend_from_slice(b"\"MESSAGE\" \"RFC822\"")?;
    push_body_fields_behind(alloc, out, kind, fields, printed_size(inner))?;
    out.extend_from_slice(b" ")?;
    push_envelope(alloc, out, &inner.fields)
}

/// Writes the structure of a message behind what is there: BODY, or with extension data BODYSTRUCTURE (RFC 3501 §7.4.2). Sizes and
/// lines are told without the print; memory goes with the fields.
pub fn push_structure(
    alloc: Global,
    out: &mut Vec<u8>,
    message: &Message,
    extended: bool,
) -> Result<(), AllocError>
    ensures { OnOk result (out.new.items ≡ out.old.items ++ structure extended false message.now) }
{
    push_part(alloc, out, extended, false, message)
}

/// A message or a part, which may be one of a digest.
#[cycle(structuring)]
fn push_part(
    alloc: Global,
    out: &mut Vec<u8>,
    extended: bool,
    digest: bool,
    part: &Message,
) -> Result<(), AllocError>
    ensures { OnOk result (out.new.items ≡ out.old.items ++ structure extended digest part.now) }
{
    let kind = type_of(alloc, digest, &part.fields)?;
    out.extend_from_slice(b"(")?;
    push_content(alloc, out, extended, &kind, &part.fields, &part.body)?;
    out.extend_from_slice(b")")
}

#[cycle(structuring)]
fn push_content(
    alloc: Global,
    out: &mut Vec<u8>,
    extended: bool,
    kind: &ContentType,
    fields: &[Field],
    body: &Body,
) -> Result<(), AllocError>
    ensures { OnOk result (out.new.items ≡ out.old.items ++ content_structure extended kind.now fields.now (content_of body.now)) }
{
    match body {
        Body::Leaf { encoding, bytes } => {
            let size = size_within(fields, body);
            push_leaf(
                alloc,
                out,
                extended,
                kind,
                fields,
                *encoding,
                bytes.as_slice(),
                size,
            )
        }
        Body::Multi(parts) => {
            let digest = same(kind.subtype.as_slice(), b"digest");
            push_parts(alloc, out, extended, digest, parts)?;
            push_multipart_end(alloc, out, extended, kind, fields)
        }
        Body::Nested(inner) => push_nested(alloc, out, extended, kind, fields, inner),
    }
}

#[cycle(structuring)]
fn push_parts(
    alloc: Global,
    out: &mut Vec<u8>,
    extended: bool,
    digest: bool,
    parts: &[Message],
) -> Result<(), AllocError>
    ensures { OnOk result (out.new.items ≡ out.old.items ++ parts_structure extended digest (trees_of parts.now)) }
{
    for part in parts {
        push_part(alloc, out, extended, digest, part)?;
    }
    Ok(())
}

/// A part that is a message, with the message's envelope, structure and lines.
#[cycle(structuring)]
fn push_nested(
    alloc: Global,
    out: &mut Vec<u8>,
    extended: bool,
    kind: &ContentType,
    fields: &[Field],
    inner: &Message,
) -> Result<(), AllocError>
    ensures { OnOk result (out.new.items ≡ out.old.items ++ content_structure extended kind.now fields.now (nested inner.now)) }
{
    push_nested_head(alloc, out, kind, fields, inner)?;
    out.extend_from_slice(b" ")?;
    push_part(alloc, out, extended, false, inner)?;
    out.extend_from_slice(b" ")?;
    push_number(out, message_lines(alloc, inner)? as u64)?;
    push_single_extension(alloc, out, extended, fields)
}

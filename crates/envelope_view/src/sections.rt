//! The sections of a message.
ghost use Rattle.std.specs.Prelude.{◌≡◌, IfOk};
ghost use Rattle.std.specs.List.{filter};
ghost use Rattle.std.specs.Option.{option_and_then, option_map};
ghost use Rattle.header_reader.specs.Kinds.{is_among as is_among_of};
ghost use Rattle.canon_writer.specs.Printing.{print_header};
ghost use Rattle.envelope_view.specs.Parts.{message_within as message_within_of};
ghost use Rattle.envelope_view.specs.Sections.{body, is_taken as is_taken_of, of_message as of_message_of, of_part as of_part_of, section_of};

use crate::boundaries::boundary_of;
use crate::parts::{message_within, part_at};
use canon_writer::{append_field, write_body, write_header, write_message};
use imap_grammar::{Section, SectionPart};
use mail_text::same;
use mime_tree::{Field, Message};
use octets::Octets;
use std::alloc::{AllocError, Global};

/// The body of a message or a part.
fn body_of(alloc: Global, message: &Message) -> Result<Vec<u8>, AllocError>
    ensures { IfOk result (λ v. v.items ≡ body message.now) }
{
    let boundary = boundary_of(alloc, &message.fields)?;
    write_body(alloc, &message.body, &boundary)
}

/// Whether a name is one of these, in any case.
fn is_among(names: &[Octets], name: &[u8]) -> bool
    ensures { result ≡ is_among_of names.now name.now }
{
    for known in names {
        if same(name, known.as_slice()) {
            return true;
        }
    }
    false
}

/// Whether a field is one of those that were asked for.
fn is_taken(names: &[Octets], except: bool, field: &Field) -> bool
    ensures { result ≡ is_taken_of names.now except field.now }
{
    let named = is_among(names, field.name.as_slice());
    if except { !named } else { named }
}

/// The fields with some names, or all others, and the empty line.
fn some_fields(
    alloc: Global,
    names: &[Octets],
    except: bool,
    fields: &[Field],
) -> Result<Vec<u8>, AllocError>
    ensures { IfOk result (λ v. v.items ≡ print_header (filter (is_taken_of names.now except) fields.now)) }
{
    let mut out = Vec::new(alloc);
    for field in fields {
        if is_taken(names, except, field) {
            append_field(alloc, &mut out, field)?;
        }
    }
    out.extend_from_slice(b"\r\n")?;
    Ok(out)
}

/// What is asked of a message, whole or within another.
fn of_message(
    alloc: Global,
    part: &SectionPart,
    message: &Message,
) -> Result<Option<Vec<u8>>, AllocError>
    ensures { IfOk result (λ found. option_map (λ text. text.items) found ≡ of_message_of part.now message.now) }
{
    match part {
        SectionPart::Whole => Ok(Some(write_message(alloc, message)?)),
        SectionPart::Mime => Ok(None),
        SectionPart::Header => Ok(Some(write_header(alloc, &message.fields)?)),
        SectionPart::Fields { names, except } => Ok(Some(some_fields(
            alloc,
            names.as_slice(),
            *except,
            &message.fields,
        )?)),
        SectionPart::Text => Ok(Some(body_of(alloc, message)?)),
    }
}

fn of_message_within(
    alloc: Global,
    part: &SectionPart,
    found: &Message,
) -> Result<Option<Vec<u8>>, AllocError>
    ensures { IfOk result (λ text. option_map (λ v. v.items) text ≡ option_and_then (of_message_of part.now) (message_within_of found.now)) }
{
    match message_within(found) {
        Some(message) => of_message(alloc, part, message),
        None => Ok(None),
    }
}

/// What is asked of a part.
fn of_part(
    alloc: Global,
    part: &SectionPart,
    found: &Message,
) -> Result<Option<Vec<u8>>, AllocError>
    ensures { IfOk result (λ text. option_map (λ v. v.items) text ≡ of_part_of part.now found.now) }
{
    match part {
        SectionPart::Whole => Ok(Some(body_of(alloc, found)?)),
        SectionPart::Mime => Ok(Some(write_header(alloc, &found.fields)?)),
        _ => of_message_within(alloc, part, found),
    }
}

/// The text of a section (RFC 3501 §6.4.5); None where the message has no such section. It writes this text alone.
#[tactic(auto, unfolding(crate::specs::Sections::section_of))]
pub fn section(
    alloc: Global,
    message: &Message,
    section: &Section,
) -> Result<Option<Vec<u8>>, AllocError>
    ensures { IfOk result (λ found. option_map (λ text. text.items) found ≡ section_of section.now message.now) }
{
    let Some((first, others)) = section.path.as_slice().split_first() else {
        return of_message(alloc, &section.part, message);
    };
    match part_at(*first, others, message) {
        Some(part) => of_part(alloc, &section.part, part),
        None => Ok(None),
    }
}

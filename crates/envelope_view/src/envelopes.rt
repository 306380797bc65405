//! The envelope of a message.
ghost use Rattle.std.specs.Prelude.{◌≡◌, ◌++◌, OnOk, flat_map};
ghost use Rattle.imap_writer.specs.Spaced.{behind_space};
ghost use Rattle.envelope_view.specs.Envelope.{destination_values, envelope, item_text, items_in as items_in_of, items_text, name_or_nil, or_authors as or_authors_of, origin_values};

use crate::values::{first_value, push_field_behind, push_field_text};
use imap_writer::push_text;
use mime_tree::{Field, Item, Value};
use std::alloc::{AllocError, Global};

/// The addresses and groups of the first field with a name; none where it has no such value.
#[tactic(auto, unfolding(crate::specs::Envelope::items_in))]
fn items_in<'a>(name: &[u8], fields: &'a [Field]) -> &'a [Item]
    ensures { result.now ≡ items_in_of name.now fields.now }
{
    match first_value(name, fields) {
        Some(Value::Addresses(items)) => items.as_slice(),
        _ => &[],
    }
}

/// These, or where there are none the authors.
fn or_authors<'a>(items: &'a [Item], fields: &'a [Field]) -> &'a [Item]
    ensures { result.now ≡ or_authors_of items.now fields.now }
{
    if items.is_empty() {
        return items_in(b"From", fields);
    }
    items
}

fn push_name(out: &mut Vec<u8>, name: &[u8]) -> Result<(), AllocError>
    ensures { OnOk result (out.new.items ≡ out.old.items ++ name_or_nil name.now) }
{
    if name.is_empty() {
        return out.extend_from_slice(b"NIL");
    }
    push_text(out, name)
}

fn push_address(
    out: &mut Vec<u8>,
    name: &[u8],
    local: &[u8],
    domain: &[u8],
) -> Result<(), AllocError>
    ensures { OnOk result (out.new.items ≡ out.old.items ++ item_text (Item.Address name.now local.now domain.now)) }
{
    out.extend_from_slice(b"(")?;
    push_name(out, name)?;
    out.extend_from_slice(b" NIL ")?;
    push_text(out, local)?;
    out.extend_from_slice(b" ")?;
    push_text(out, domain)?;
    out.extend_from_slice(b")")
}

fn push_group(out: &mut Vec<u8>, name: &[u8]) -> Result<(), AllocError>
    ensures { OnOk result (out.new.items ≡ out.old.items ++ item_text (Item.Group name.now)) }
{
    out.extend_from_slice(b"(NIL NIL ")?;
    push_text(out, name)?;
    out.extend_from_slice(b" NIL)")
}

fn push_item(out: &mut Vec<u8>, item: &Item) -> Result<(), AllocError>
    ensures { OnOk result (out.new.items ≡ out.old.items ++ item_text item.now) }
{
    match item {
        Item::Address {
            name,
            local,
            domain,
        } => push_address(out, name.as_slice(), local.as_slice(), domain.as_slice()),
        Item::Group(name) => push_group(out, name.as_slice()),
        Item::GroupEnd => out.extend_from_slice(b"(NIL NIL NIL NIL)"),
    }
}

fn push_all(out: &mut Vec<u8>, items: &[Item]) -> Result<(), AllocError>
    ensures { OnOk result (out.new.items ≡ out.old.items ++ flat_map item_text items.now) }
{
    for item in items {
        push_item(out, item)?;
    }
    Ok(())
}

/// Addresses and groups one behind another, or NIL.
#[tactic(auto, unfolding(crate::specs::Envelope::items_text))]
fn push_items(out: &mut Vec<u8>, items: &[Item]) -> Result<(), AllocError>
    ensures { OnOk result (out.new.items ≡ out.old.items ++ items_text items.now) }
{
    if items.is_empty() {
        return out.extend_from_slice(b"NIL");
    }
    out.extend_from_slice(b"(")?;
    push_all(out, items)?;
    out.extend_from_slice(b")")
}

/// The addresses and groups of a field, behind a space.
fn push_items_behind(out: &mut Vec<u8>, name: &[u8], fields: &[Field]) -> Result<(), AllocError>
    ensures { OnOk result (out.new.items ≡ out.old.items ++ behind_space (items_text (items_in_of name.now fields.now))) }
{
    out.extend_from_slice(b" ")?;
    push_items(out, items_in(name, fields))
}

/// The same, or where there are none the authors.
fn push_authors_behind(out: &mut Vec<u8>, name: &[u8], fields: &[Field]) -> Result<(), AllocError>
    ensures { OnOk result (out.new.items ≡ out.old.items ++ behind_space (items_text (or_authors_of (items_in_of name.now fields.now) fields.now))) }
{
    out.extend_from_slice(b" ")?;
    push_items(out, or_authors(items_in(name, fields), fields))
}

/// When and by whom a message was sent, and what about.
fn push_origin_values(alloc: Global, out: &mut Vec<u8>, fields: &[Field]) -> Result<(), AllocError>
    ensures { OnOk result (out.new.items ≡ out.old.items ++ origin_values fields.now) }
{
    push_field_text(alloc, out, b"Date", fields)?;
    push_field_behind(alloc, out, b"Subject", fields)?;
    push_items_behind(out, b"From", fields)?;
    push_authors_behind(out, b"Sender", fields)?;
    push_authors_behind(out, b"Reply-To", fields)
}

/// To whom it was sent, and which message it is.
fn push_destination_values(
    alloc: Global,
    out: &mut Vec<u8>,
    fields: &[Field],
) -> Result<(), AllocError>
    ensures { OnOk result (out.new.items ≡ out.old.items ++ destination_values fields.now) }
{
    push_items(out, items_in(b"To", fields))?;
    push_items_behind(out, b"Cc", fields)?;
    push_items_behind(out, b"Bcc", fields)?;
    push_field_behind(alloc, out, b"In-Reply-To", fields)?;
    push_field_behind(alloc, out, b"Message-ID", fields)
}

/// Writes the envelope of a message, by its header fields, behind what is there: ten values in parentheses (RFC 3501 §7.4.2).
#[tactic(auto, unfolding(crate::specs::Envelope::envelope))]
pub fn push_envelope(alloc: Global, out: &mut Vec<u8>, fields: &[Field]) -> Result<(), AllocError>
    ensures { OnOk result (out.new.items ≡ out.old.items ++ envelope fields.now) }
{
    out.extend_from_slice(b"(")?;
    push_origin_values(alloc, out, fields)?;
    out.extend_from_slice(b" ")?;
    push_destination_values(alloc, out, fields)?;
    out.extend_from_slice(b")")
}

//! Fields with the values that they are read as.
ghost use Rattle.std.specs.Prelude.{◌≡◌, IfOk, option_map};
ghost use Rattle.mime_tree.specs.declared.values.Value.TheVariants.{Addresses, Ids};
ghost use Rattle.address_grammar.specs.Lists.{reading};
ghost use Rattle.address_grammar.specs.Ids.{ids_reading};
ghost use Rattle.header_reader.specs.Values.{read_field as read_field_of, single, typed as typed_of, value_of as value_of_text};

use crate::kinds::{FieldKind, kind_of};
use crate::raw::RawField;
use address_grammar::{read, read_ids};
use date_grammar::read_date;
use mime_tree::{Field, Value};
use octets::Octets;
use sqlite_items::Items;
use std::alloc::{AllocError, Global};

/// A field with its value as its name asks for: addresses (RFC 5322 §3.4), a date (RFC 5322 §3.3), message ids (RFC 5322
/// §3.6.4), or text where the value can't be read so, and in every other field. Time and memory go with its length.
pub fn read_field(alloc: Global, raw: RawField) -> Result<Field, AllocError>
    ensures { IfOk result (λ field. field ≡ read_field_of raw) }
{
    let RawField { name, value } = raw;
    let value = value_of(alloc, name.as_slice(), value)?;
    Ok(Field { name, value })
}

fn value_of(alloc: Global, name: &[u8], text: Octets) -> Result<Value, AllocError>
    ensures { IfOk result (λ value. value ≡ value_of_text name.now text) }
{
    match typed(alloc, kind_of(name), text.as_slice())? {
        Some(value) => Ok(value),
        None => Ok(Value::Text(text)),
    }
}

/// The typed value that a text is read as, or None where it is no such value.
fn typed(alloc: Global, kind: FieldKind, text: &[u8]) -> Result<Option<Value>, AllocError>
    ensures { IfOk result (λ value. value ≡ typed_of kind text.now) }
{
    match kind {
        FieldKind::Unstructured => Ok(None),
        FieldKind::AddressList => addresses(alloc, text),
        FieldKind::DateTime => Ok(read_date(text).map(|date| Value::Date(date))),
        FieldKind::OneId => one_id(alloc, text),
        FieldKind::IdList => id_list(alloc, text),
    }
}

fn addresses(alloc: Global, text: &[u8]) -> Result<Option<Value>, AllocError>
    ensures { IfOk result (λ value. value ≡ option_map Addresses (reading text.now)) }
{
    match read(alloc, text)? {
        Some(items) => Ok(Some(Value::Addresses(Items::from_vec(items)))),
        None => Ok(None),
    }
}

fn one_id(alloc: Global, text: &[u8]) -> Result<Option<Value>, AllocError>
    ensures { IfOk result (λ value. value ≡ option_map Ids (single (ids_reading text.now))) }
{
    match read_ids(alloc, text)? {
        Some(ids) if ids.len() == 1 => Ok(Some(Value::Ids(Items::from_vec(ids)))),
        _ => Ok(None),
    }
}

fn id_list(alloc: Global, text: &[u8]) -> Result<Option<Value>, AllocError>
    ensures { IfOk result (λ value. value ≡ option_map Ids (ids_reading text.now)) }
{
    match read_ids(alloc, text)? {
        Some(ids) => Ok(Some(Value::Ids(Items::from_vec(ids)))),
        None => Ok(None),
    }
}

// Values of fields from their rows.
ghost use Rattle.std.specs.Prelude.{◌≡◌, ℕ, List, length, IfOk};
ghost use Rattle.mime_tree.specs.declared.values.Field.{Field};
ghost use Rattle.mime_tree.specs.declared.values.Item.{Item};
ghost use Rattle.mime_tree.specs.declared.values.SentDate.{SentDate};
ghost use Rattle.row_tables.specs.References.{addresses_at, ids_at};
ghost use Rattle.shredder.specs.MessageRows.{AreItemRows, IsFieldRow, IsItemRow, id_rows};
ghost use Rattle.rebuilder.specs.Parts.{IsDateRow};

use mime_tree::{Item, SentDate, Value};
use octets::Octets;
use row_tables::{AddressField, HeaderField, Tables};
use sqlite_items::Items;
use std::alloc::{AllocError, Global};

// The value of the field at a path whose row this is.
pub(crate) fn value_in(
    alloc: Global,
    tables: &Tables,
    message: u64,
    path: &[u8],
    row: &HeaderField,
) -> Result<Value, AllocError>
    ensures { (field : Field) → IsFieldRow tables.now message path.now row.now.place field row.now → IfOk result (λ value. value ≡ field.value) }
{
    match row.form {
        0 => Ok(Value::Text(copied(alloc, &row.value)?)),
        1 => Ok(Value::Addresses(items_in(alloc, tables, message, path, row.place)?)),
        2 => Ok(Value::Date(date_in(tables, message, path, row.place))),
        _ => Ok(Value::Ids(ids_in(alloc, tables, message, path, row.place)?)),
    }
}

fn items_in(
    alloc: Global,
    tables: &Tables,
    message: u64,
    path: &[u8],
    place: u32,
) -> Result<Items<Item>, AllocError>
    ensures { (items : List Item) → AreItemRows tables.now.shared.addresses 0 items (addresses_at message path.now place tables.now.mails.address_fields)
        → IfOk result (λ read. read ≡ items) }
{
    let mut items = Vec::new(alloc);
    let mut rows = tables.address_fields_at(message, path, place);
    'rows: while let Some(row) = rows.next() {
        items.push(item_in(alloc, tables, row)?)?;
    }
    Ok(Items::from_vec(items))
}

// The item whose row this is.
fn item_in(alloc: Global, tables: &Tables, row: &AddressField) -> Result<Item, AllocError>
    ensures { (item : Item) → IsItemRow tables.now.shared.addresses row.now.item item row.now → IfOk result (λ read. read ≡ item) }
{
    if row.kind >= 2 {
        return Ok(Item::GroupEnd);
    }
    let Some(address) = tables.addresses_row(row.address) else {
        return Ok(Item::GroupEnd);
    };
    let name = copied(alloc, &address.name)?;
    if row.kind == 1 {
        return Ok(Item::Group(name));
    }
    let local = copied(alloc, &address.local)?;
    let domain = copied(alloc, &address.domain)?;
    Ok(Item::Address {
        name,
        local,
        domain,
    })
}

// A date that isn't there has blanks for its text, and the moment 0.
fn date_in(tables: &Tables, message: u64, path: &[u8], place: u32) -> SentDate
    ensures { (date : SentDate) → IsDateRow tables.now message path.now place date → result ≡ date }
{
    match tables.date_fields_row((message, path, place)) {
        Some(row) => SentDate {
            text: printed(row.value.as_slice()),
            seconds: row.seconds,
            day: row.day,
        },
        None => SentDate {
            text: [b' '; 31],
            seconds: 0,
            day: 0,
        },
    }
}

// The text of a date, and blanks where it has another length than that of one.
fn printed(text: &[u8]) -> [u8; 31]
    ensures { length text.now ≡ 31 → result ≡ text.now }
{
    let mut printed = [b' '; 31];
    if text.len() == 31 {
        printed.copy_from_slice(text);
    }
    printed
}

fn ids_in(
    alloc: Global,
    tables: &Tables,
    message: u64,
    path: &[u8],
    place: u32,
) -> Result<Items<Octets>, AllocError>
    ensures { (ids : List (List ℕ)) → ids_at message path.now place tables.now.mails.message_ids ≡ id_rows message path.now place 0 ids
        → IfOk result (λ read. read ≡ ids) }
{
    let mut ids = Vec::new(alloc);
    let mut rows = tables.message_ids_at(message, path, place);
    'rows: while let Some(row) = rows.next() {
        ids.push(copied(alloc, &row.value)?)?;
    }
    Ok(Items::from_vec(ids))
}

pub(crate) fn copied(alloc: Global, text: &Octets) -> Result<Octets, AllocError>
    ensures { IfOk result (λ copy. copy ≡ text.now) }
{
    Ok(Octets::new(text.as_slice().to_vec(alloc)?))
}

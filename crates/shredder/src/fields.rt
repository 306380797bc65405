// The rows of fields and of their values.
ghost use Rattle.std.specs.Prelude.{◌≡◌, ◌≤◌, ◌∷◌, ◌++◌, [], length, map, IfOk, OnOk};
ghost use Rattle.shredder.specs.Fitting.{IsShort, ValueFits};
ghost use Rattle.shredder.specs.MessageRows.{IsPrinted, date_of, date_row, id_rows, items_of, kind_of, text_of, form_of};
ghost use Rattle.shredder.specs.Making.{field_row, item_rows, value_changes};
ghost use Rattle.row_tables.specs.declared.change.RowChange.TheVariants.{InsertHeaderField, InsertAddressField, InsertDateField, InsertMessageId};

use mime_tree::{Field, Item, SentDate, Value};
use octets::Octets;
use row_tables::{AddressField, DateField, HeaderField, MessageId, RowChange};
use std::alloc::{AllocError, Global};

// Where a field stands.
#[derive(Clone, Copy)]
pub(crate) struct Place<'a> {
    pub(crate) message: u64,
    pub(crate) path: &'a [u8],
    pub(crate) place: u32,
}

// Adds the rows of a field and of its value, whose name and addresses have these ids.
pub(crate) fn push_field(
    alloc: Global,
    changes: &mut Vec<RowChange>,
    at: Place<'_>,
    field: &Field,
    name: u64,
    addresses: &[u64],
) -> Result<(), AllocError>
    requires fits { ValueFits field.now.value }
    requires ids { length addresses.now ≡ length (items_of field.now.value) }
    ensures rows { OnOk result (changes.new.items ≡ changes.old.items
        ++ InsertHeaderField (field_row at.entry.message at.entry.path.now at.entry.place field.now name)
        ∷ value_changes at.entry.message at.entry.path.now at.entry.place field.now addresses.now) }
    ensures printed { OnOk result (IsPrinted (date_of field.now.value)) }
{
    let row = new_row(alloc, at, &field.value, name)?;
    changes.push(RowChange::InsertHeaderField(row))?;
    match &field.value {
        Value::Text(_) => Ok(()),
        Value::Addresses(items) => push_items(alloc, changes, at, items.as_slice(), addresses),
        Value::Date(date) => push_date(alloc, changes, at, date),
        Value::Ids(ids) => push_ids(alloc, changes, at, ids.as_slice()),
    }
}

fn new_row(
    alloc: Global,
    at: Place<'_>,
    value: &Value,
    name: u64,
) -> Result<HeaderField, AllocError>
    ensures { IfOk result (λ row. row ≡ record {
      message = at.entry.message;
      path = at.entry.path.now;
      place = at.entry.place;
      name = name;
      form = form_of value.now;
      value = text_of value.now;
    }) }
{
    let path = Octets::new(at.path.to_vec(alloc)?);
    let (form, value) = match value {
        Value::Text(text) => (0, text.as_slice().to_vec(alloc)?),
        Value::Addresses(_) => (1, Vec::new(alloc)),
        Value::Date(_) => (2, Vec::new(alloc)),
        Value::Ids(_) => (3, Vec::new(alloc)),
    };
    Ok(HeaderField {
        message: at.message,
        path,
        place: at.place,
        name,
        form,
        value: Octets::new(value),
    })
}

fn push_items(
    alloc: Global,
    changes: &mut Vec<RowChange>,
    at: Place<'_>,
    items: &[Item],
    addresses: &[u64],
) -> Result<(), AllocError>
    requires count { IsShort items.now }
    requires ids { length addresses.now ≡ length items.now }
    ensures { OnOk result (changes.new.items ≡ changes.old.items
        ++ map InsertAddressField (item_rows at.entry.message at.entry.path.now at.entry.place 0 items.now addresses.now)) }
{
    for item in 0..items.len() {
        let row = AddressField {
            message: at.message,
            path: Octets::new(at.path.to_vec(alloc)?),
            place: at.place,
            item: item as u32,
            kind: kind(&items[item]),
            address: addresses[item],
        };
        changes.push(RowChange::InsertAddressField(row))?;
    }
    Ok(())
}

fn kind(item: &Item) -> u8
    ensures { result ≡ kind_of item.now }
{
    match item {
        Item::Address { .. } => 0,
        Item::Group(_) => 1,
        Item::GroupEnd => 2,
    }
}

fn push_date(
    alloc: Global,
    changes: &mut Vec<RowChange>,
    at: Place<'_>,
    date: &SentDate,
) -> Result<(), AllocError>
    ensures row { OnOk result (changes.new.items ≡ changes.old.items
        ++ InsertDateField (date_row at.entry.message at.entry.path.now at.entry.place date.now) ∷ []) }
    ensures printed { OnOk result (length date.now.text ≡ 31) }
{
    let row = DateField {
        message: at.message,
        path: Octets::new(at.path.to_vec(alloc)?),
        place: at.place,
        value: Octets::new(date.text.to_vec(alloc)?),
        seconds: date.seconds,
        day: date.day,
    };
    changes.push(RowChange::InsertDateField(row))?;
    Ok(())
}

fn push_ids(
    alloc: Global,
    changes: &mut Vec<RowChange>,
    at: Place<'_>,
    ids: &[Octets],
) -> Result<(), AllocError>
    requires { IsShort ids.now }
    ensures { OnOk result (changes.new.items ≡ changes.old.items
        ++ map InsertMessageId (id_rows at.entry.message at.entry.path.now at.entry.place 0 ids.now)) }
{
    for item in 0..ids.len() {
        let row = MessageId {
            message: at.message,
            path: Octets::new(at.path.to_vec(alloc)?),
            place: at.place,
            item: item as u32,
            value: Octets::new(ids[item].as_slice().to_vec(alloc)?),
        };
        changes.push(RowChange::InsertMessageId(row))?;
    }
    Ok(())
}

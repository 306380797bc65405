// The rows of addresses, and the ids of the addresses of a value.
ghost use Rattle.std.specs.Prelude.{◌≡◌, ℕ, None, IfOk, length, List};
ghost use Rattle.std.specs.List.{AllByRecursion};
ghost use Rattle.row_tables.specs.Fits.{IsText};
ghost use Rattle.row_tables.specs.Indexes.{address_id};
ghost use Rattle.row_tables.specs.TableRows.{TableRows};
ghost use Rattle.row_tables.specs.declared.contents.BodyPart.{BodyPart};
ghost use Rattle.shredder.specs.Fitting.{ItemFits, ValueFits};
ghost use Rattle.shredder.specs.MessageRows.{HasAddress, IsAddressId, items_of, texts_of};
ghost use Rattle.shredder.specs.Making.{AreAddressIds, Between, Leads, Nowhere, holding};

use crate::laws::row_laws;
use crate::new_rows::{NewRows, behind, free_address};
use mime_tree::{Item, Value};
use octets::Octets;
use row_tables::{AddressRow, RowChange, Tables};
use std::alloc::{AllocError, Global};

// The texts of an address; those that it lacks are empty.
#[derive(Clone, Copy)]
struct Texts<'a> {
    name: &'a [u8],
    local: &'a [u8],
    domain: &'a [u8],
}

// The ids of the addresses of a value, one for each item.
pub(crate) fn add_addresses(
    alloc: Global,
    changes: &mut Vec<RowChange>,
    shared: &mut NewRows,
    value: &Value,
    tables: &Tables,
) -> Result<Vec<u64>, AllocError>
    requires { ValueFits value.now }
    ensures count { IfOk result (λ ids. length ids.items ≡ length (items_of value.now)) }
    ensures ids { (message : ℕ) (now : TableRows) (bodies : List BodyPart) → Between message tables.now (holding shared.old.added bodies) now → IfOk result (λ ids. Leads message tables.now now
        (holding shared.old.added bodies) changes.old.items Nowhere (λ after. AreAddressIds after.shared.addresses (items_of value.now) ids.items) (holding shared.new.added bodies)
        changes.new.items) }
{
    match value {
        Value::Addresses(items) => add_items(alloc, changes, shared, items.as_slice(), tables),
        Value::Text(_) | Value::Date(_) | Value::Ids(_) => Ok(Vec::new(alloc)),
    }
}

fn add_items(
    alloc: Global,
    changes: &mut Vec<RowChange>,
    shared: &mut NewRows,
    items: &[Item],
    tables: &Tables,
) -> Result<Vec<u64>, AllocError>
    requires { AllByRecursion ItemFits items.now }
    ensures count { IfOk result (λ ids. length ids.items ≡ length items.now) }
    ensures ids { (message : ℕ) (now : TableRows) (bodies : List BodyPart) → Between message tables.now (holding shared.old.added bodies) now → IfOk result (λ ids. Leads message tables.now now
        (holding shared.old.added bodies) changes.old.items Nowhere (λ after. AreAddressIds after.shared.addresses items.now ids.items) (holding shared.new.added bodies)
        changes.new.items) }
{
    row_laws();
    let mut ids = Vec::with_capacity(alloc, items.len())?;
    for item in items {
        let id = add_item(alloc, changes, shared, item, tables)?;
        ids.push(id)?;
    }
    Ok(ids)
}

// The id of an item's address, and 0 for the end of a group.
fn add_item(
    alloc: Global,
    changes: &mut Vec<RowChange>,
    shared: &mut NewRows,
    item: &Item,
    tables: &Tables,
) -> Result<u64, AllocError>
    requires { ItemFits item.now }
    ensures { (message : ℕ) (now : TableRows) (bodies : List BodyPart) → Between message tables.now (holding shared.old.added bodies) now → IfOk result (λ id. Leads message tables.now now
        (holding shared.old.added bodies) changes.old.items Nowhere (λ after. IsAddressId after.shared.addresses (texts_of item.now) id) (holding shared.new.added bodies)
        changes.new.items) }
{
    match item {
        Item::Address {
            name,
            local,
            domain,
        } => {
            let texts = Texts {
                name: name.as_slice(),
                local: local.as_slice(),
                domain: domain.as_slice(),
            };
            add_address(alloc, changes, shared, texts, tables)
        }
        Item::Group(name) => {
            let texts = Texts {
                name: name.as_slice(),
                local: b"",
                domain: b"",
            };
            add_address(alloc, changes, shared, texts, tables)
        }
        Item::GroupEnd => Ok(0),
    }
}

// The id of an address. One that is in no row yet gets one.
fn add_address(
    alloc: Global,
    changes: &mut Vec<RowChange>,
    shared: &mut NewRows,
    texts: Texts<'_>,
    tables: &Tables,
) -> Result<u64, AllocError>
    requires { IsText texts.name.now × IsText texts.local.now × IsText texts.domain.now }
    ensures { (message : ℕ) (now : TableRows) (bodies : List BodyPart) → Between message tables.now (holding shared.old.added bodies) now → IfOk result (λ id. Leads message tables.now now
        (holding shared.old.added bodies) changes.old.items Nowhere (λ after. HasAddress after.shared.addresses id
        (record { name = texts.entry.name.now; local = texts.entry.local.now; domain = texts.entry.domain.now })) (holding shared.new.added bodies) changes.new.items) }
{
    row_laws();
    tables.are_whole();
    shared.added.are_whole();
    match tables.address_id(texts.name, texts.local, texts.domain) {
        Some(id) => Ok(id),
        None => match shared
            .added
            .address_id(texts.name, texts.local, texts.domain)
        {
            Some(id) => Ok(id),
            None => add_row(alloc, changes, shared, texts, tables),
        },
    }
}

// Adds the row of an address that no row has.
fn add_row(
    alloc: Global,
    changes: &mut Vec<RowChange>,
    shared: &mut NewRows,
    texts: Texts<'_>,
    tables: &Tables,
) -> Result<u64, AllocError>
    requires text { IsText texts.name.now × IsText texts.local.now × IsText texts.domain.now }
    requires new { address_id texts.name.now texts.local.now texts.domain.now tables.now.shared.addresses ≡ None }
    requires not_added { address_id texts.name.now texts.local.now texts.domain.now shared.old.added.shared.addresses ≡ None }
    ensures { (message : ℕ) (now : TableRows) (bodies : List BodyPart) → Between message tables.now (holding shared.old.added bodies) now → IfOk result (λ id. Leads message tables.now now
        (holding shared.old.added bodies) changes.old.items Nowhere (λ after. HasAddress after.shared.addresses id
        (record { name = texts.entry.name.now; local = texts.entry.local.now; domain = texts.entry.domain.now })) (holding shared.new.added bodies) changes.new.items) }
{
    row_laws();
    let Some(id) = free_address(tables, &shared.added, shared.address) else {
        return Err(AllocError);
    };
    let row = address_row(alloc, id, texts)?;
    let added = address_row(alloc, id, texts)?;
    shared.added.apply(RowChange::InsertAddressRow(added))?;
    shared.address = behind(id);
    changes.push(RowChange::InsertAddressRow(row))?;
    Ok(id)
}

fn address_row(alloc: Global, id: u64, texts: Texts<'_>) -> Result<AddressRow, AllocError>
    ensures { IfOk result (λ row. row ≡ record { id = id; name = texts.entry.name.now; local = texts.entry.local.now; domain = texts.entry.domain.now }) }
{
    Ok(AddressRow {
        id,
        name: Octets::new(texts.name.to_vec(alloc)?),
        local: Octets::new(texts.local.to_vec(alloc)?),
        domain: Octets::new(texts.domain.to_vec(alloc)?),
    })
}

// The rows that messages share and that a message adds.
ghost use Rattle.std.specs.Prelude.{◌≡◌, None, IfSome};
ghost use Rattle.ordered_rows.specs.RowKey.{number_key};
ghost use Rattle.ordered_rows.specs.Listed.{row_at};
ghost use Rattle.row_tables.specs.Keys.{address_key, field_name_key};
ghost use Rattle.row_tables.specs.TableRows.{no_rows};

use row_tables::Tables;
use std::alloc::Global;

// The names and addresses that a message adds to the tables.
#[derive(Drop)]
pub(crate) struct NewRows {
    // The rows that were added.
    pub(crate) added: Tables,
    // Where the search for the next id of each table begins: no id from here on was given, unless ids began from 1 again.
    pub(crate) name: u64,
    pub(crate) address: u64,
}

impl NewRows {
    // None so far.
    pub(crate) fn new(alloc: Global, tables: &Tables) -> NewRows
        ensures { result.added ≡ no_rows }
    {
        NewRows {
            added: Tables::new(alloc),
            name: tables.new_field_name_id(),
            address: tables.new_address_id(),
        }
    }
}

// The id behind one that is given.
pub(crate) fn behind(id: u64) -> u64 {
    id.checked_add(1).unwrap_or(1)
}

// The least id from a start on that no field name has in either tables.
pub(crate) fn free_name(tables: &Tables, added: &Tables, start: u64) -> Option<u64>
    ensures { IfSome result (λ id. (row_at field_name_key (number_key id) tables.now.shared.field_names ≡ None)
        × (row_at field_name_key (number_key id) added.now.shared.field_names ≡ None)) }
{
    let mut id = start;
    while tables.field_names_row(id).is_some() || added.field_names_row(id).is_some() {
        id = id.checked_add(1)?;
    }
    Some(id)
}

// The least id from a start on that no address has in either tables.
pub(crate) fn free_address(tables: &Tables, added: &Tables, start: u64) -> Option<u64>
    ensures { IfSome result (λ id. (row_at address_key (number_key id) tables.now.shared.addresses ≡ None)
        × (row_at address_key (number_key id) added.now.shared.addresses ≡ None)) }
{
    let mut id = start;
    while tables.addresses_row(id).is_some() || added.addresses_row(id).is_some() {
        id = id.checked_add(1)?;
    }
    Some(id)
}

// Changes of a table whose rows have names and of its index, both or neither, and rows found by names.
ghost use Rattle.std.specs.Prelude.{◌≡◌, IfOk, OnOk, OnErr, None, IsSome, MatchOption, false, map};
ghost use Rattle.std.specs.List.{filter, find};
ghost use Rattle.std.specs.Option.{option_copied};
ghost use Rattle.ordered_rows.specs.RowKey.{number_key, row_key};
ghost use Rattle.ordered_rows.specs.Listed.{is_in_group, row_at, with_row, with_replaced, without};
ghost use Rattle.row_tables.specs.Names.{AreNamed, IsFirst, name_key, name_entry_key};

use crate::contents::copied;
use crate::indexes::{NameEntry, Named};
use crate::keys::owned;
use ordered_rows::laws::{
    insert_undone, insertion, keys, numbers_after_insert, replacement, row_after_remove,
    rows_at_keys,
};
use ordered_rows::{CountedTable, Key, Keyed, Table};
use std::alloc::{AllocError, Global};

// The entry of a row.
fn entry<R: Named>(alloc: Global, row: &R) -> Result<NameEntry, AllocError>
    ensures number { IfOk result (λ e. e.number ≡ R.names.number (R.names.place row.now)) }
    ensures name { IfOk result (λ e. e.name ≡ R.names.name (R.names.place row.now)) }
    ensures id { IfOk result (λ e. e.id ≡ R.names.id row.now) }
{
    Ok(NameEntry {
        number: row.number(),
        name: copied(alloc, row.name())?,
        id: row.id(),
    })
}

// The key of an entry with the name of a row.
fn entry_key<'a, R: Named>(row: &'a R, id: u32) -> Key<'a>
    ensures { row_key result ≡ name_key (R.names.number (R.names.place row.now)) (R.names.name (R.names.place row.now)) id }
{
    Key {
        item: id as u64,
        ..owned(row.number(), row.name().as_slice())
    }
}

// Whether a row has the name of another, among the rows of the same number.
fn has_name_of<R: Named>(row: &R, other: &R) -> bool
    ensures { result ≡ R.names.has (R.names.place other.now) row.now }
{
    row.name().as_slice() == other.name().as_slice() && row.number() == other.number()
}

pub(crate) fn add_named<R: Named>(
    alloc: Global,
    rows: &mut CountedTable<R>,
    entries: &mut Table<NameEntry>,
    row: R,
) -> Result<(), AllocError>
    requires named { AreNamed R.names entries.old rows.old }
    requires new_id { row_at R.key_of (R.key_of row) rows.old ≡ None }
    ensures named { AreNamed R.names entries.new rows.new }
    ensures ok { OnOk result (rows.new ≡ with_row R.key_of row rows.old) }
    ensures err { OnErr result (rows.new ≡ rows.old) }
{
    keys();
    numbers_after_insert::<R>();
    numbers_after_insert::<NameEntry>();
    insert_undone::<R>();
    let id = row.id();
    let entry = entry(alloc, &row)?;
    rows.insert(row)?;
    match entries.insert(entry) {
        Ok(()) => Ok(()),
        Err(e) => {
            rows.remove(Key::of_number(id as u64));
            Err(e)
        }
    }
}

// Puts a row in the place of the one with its id. Takes memory only where the name changes, and fails for want of it alone.
pub(crate) fn replace_named<R: Named>(
    alloc: Global,
    rows: &mut CountedTable<R>,
    entries: &mut Table<NameEntry>,
    row: R,
) -> Result<(), AllocError>
    requires named { AreNamed R.names entries.old rows.old }
    requires there { IsSome (row_at R.key_of (R.key_of row) rows.old) }
    ensures named { AreNamed R.names entries.new rows.new }
    ensures ok { OnOk result (rows.new ≡ with_replaced R.key_of row rows.old) }
    ensures err { OnErr result (rows.new ≡ rows.old) }
    ensures memory { OnErr result (MatchOption (row_at R.key_of (R.key_of row) rows.old) ⊥ (λ old. R.names.has (R.names.place row) old ≡ false)) }
{
    keys();
    rows_at_keys::<R>();
    replacement::<R>();
    row_after_remove::<R>();
    row_after_remove::<NameEntry>();
    numbers_after_insert::<R>();
    numbers_after_insert::<NameEntry>();
    insertion::<NameEntry>();
    insert_undone::<NameEntry>();
    let _ = rows.rows();
    let Some(old) = rows.get(row.key()) else {
        return Ok(());
    };
    if has_name_of(old, &row) {
        rows.replace(row);
        return Ok(());
    }
    let gone = entry(alloc, old)?;
    let entry = entry(alloc, &row)?;
    entries.insert(entry)?;
    match rows.transfer(row) {
        Ok(()) => {
            entries.remove(gone.key());
            Ok(())
        }
        Err(row) => {
            entries.remove(entry_key(&row, row.id()));
            Err(AllocError)
        }
    }
}

// Takes out the row with an id, if it is there.
pub(crate) fn remove_named<R: Named>(
    rows: &mut CountedTable<R>,
    entries: &mut Table<NameEntry>,
    id: u32,
)
    requires { AreNamed R.names entries.old rows.old }
    ensures named { AreNamed R.names entries.new rows.new }
    ensures rows { rows.new ≡ without R.key_of (number_key id) rows.old }
{
    keys();
    rows_at_keys::<R>();
    let _ = rows.rows();
    if let Some(row) = rows.remove(Key::of_number(id as u64)) {
        entries.remove(entry_key(&row, id));
    }
}

// The least id of those that a number has under a name.
fn first_id(entries: &Table<NameEntry>, number: u32, name: &[u8]) -> Option<u32>
    ensures { IsFirst result (map (λ e. e.id) (filter (is_in_group name_entry_key (name_key number name.now 0)) entries.now)) }
{
    match entries.group(owned(number, name)).next() {
        Some(entry) => Some(entry.id),
        None => None,
    }
}

// The row that has a name, of several the one with the least id.
pub(crate) fn row_named<'a, R: Named>(
    rows: &'a CountedTable<R>,
    entries: &Table<NameEntry>,
    number: u32,
    name: &[u8],
) -> Option<&'a R>
    requires { AreNamed R.names entries.now rows.now }
    ensures { (p : R.names.Place) → R.names.number p ≡ number → R.names.name p ≡ name.now → option_copied result ≡ find (R.names.has p) rows.now }
{
    insertion::<R>();
    let _ = rows.rows();
    match first_id(entries, number, name) {
        Some(id) => rows.get(Key::of_number(id as u64)),
        None => None,
    }
}

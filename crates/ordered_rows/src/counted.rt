// Tables whose rows are counted by their owners.
ghost use Rattle.std.specs.Prelude.{◌≡◌, ℕ, ◌+◌, [], length, OnOk, OnErr, IfErr, None, IsSome, MatchOption, ⊤, ◌==◌, false, if◌then◌else◌};
ghost use Rattle.std.specs.Option.{option_copied};
ghost use Rattle.std.specs.List.{count_by, filter, find};
ghost use Rattle.ordered_rows.specs.RowKey.{row_key};
ghost use Rattle.ordered_rows.specs.Counts.{is_of};
ghost use Rattle.ordered_rows.specs.Listed.{IsInOrder, has_number, is_from, row_at, rows_from, with_row, with_replaced, without, without_number};

use crate::counts::{Count, begin, lower, raise};
use crate::key::{Key, Keyed};
use crate::numbered::Numbered;
use crate::rows::Rows;
use crate::table::Table;
use std::alloc::{AllocError, Global};
use std::marker::Model;

/// A row of an owner.
pub trait Owned: Keyed {
    /// The number of the owner.
    ghost owner_of: { Self → ℕ };

    fn owner(&self) -> u64
        ensures { result ≡ owner_of self.now };
}

/// A table that knows how many rows each owner has. Contracts see the list of the rows. A change costs a second search, in the
/// table of the counts.
#[derive(Drop)]
pub struct CountedTable<R: Owned> {
    rows: Table<R>,
    counts: Table<Count>,
}

impl<R: Owned> Model for CountedTable<R> {
    ghost use Rattle.std.specs.Prelude.{List};
    ghost use Rattle.std.specs.Coded.{coded_list};
    ghost use Rattle.ordered_rows.specs.Counts.{AreCounts};

    ghost Value = { List R };

    ghost coded = { coded_list R.code };

    ghost view = { λ table. table.rows };

    ghost invariant = { λ table. AreCounts R.owner_of table.counts table.rows };
}

impl<R: Owned> CountedTable<R> {
    /// A table with no row. Takes no memory yet.
    pub fn new(alloc: Global) -> CountedTable<R>
        ensures { result ≡ [] }
    {
        CountedTable {
            rows: Table::new(alloc),
            counts: Table::new(alloc),
        }
    }

    /// How many rows an owner has.
    pub fn count(&self, owner: u64) -> u64
        ensures { result ≡ count_by (is_of R.owner_of owner) self.now }
    {
        match self.counts.get(Key::of_number(owner)) {
            Some(row) => row.count,
            None => 0,
        }
    }

    /// How many rows there are.
    pub fn len(&self) -> u64
        ensures { result ≡ length self.now }
    {
        self.rows.len()
    }

    /// The row with a key.
    pub fn get(&self, key: Key<'_>) -> Option<&R>
        ensures { option_copied result ≡ row_at R.key_of (row_key key.entry) self.now }
    {
        self.rows.get(key)
    }

    /// All rows.
    pub fn rows(&self) -> Rows<'_, R>
        ensures rows { result ≡ self.now }
        ensures order { IsInOrder R.key_of self.now }
    {
        self.rows.rows()
    }

    /// The rows from a key on, whether a row has that key or not.
    pub fn rows_from(&self, key: Key<'_>) -> Rows<'_, R>
        ensures rows { result ≡ rows_from R.key_of (row_key key.entry) self.now }
        ensures order { IsInOrder R.key_of self.now }
    {
        self.rows.rows_from(key)
    }

    /// The rows whose keys have a number, whatever their other parts are.
    pub fn numbered(&self, number: u64) -> Numbered<'_, R>
        ensures { result ≡ filter (has_number R.key_of number) self.now }
    {
        self.rows.numbered(number)
    }

    /// The first row from a key on that has the key's number.
    pub fn numbered_from(&self, key: Key<'_>) -> Option<&R>
        ensures { option_copied result ≡ find (is_from R.key_of (row_key key.entry)) self.now }
    {
        self.rows.numbered_from(key)
    }

    /// Puts a row at its place. Fails for want of memory alone.
    pub fn insert(&mut self, row: R) -> Result<(), AllocError>
        requires { row_at R.key_of (R.key_of row) self.old ≡ None }
        ensures ok { OnOk result (self.new ≡ with_row R.key_of row self.old) }
        ensures err { OnErr result (self.new ≡ self.old) }
        ensures order { IsInOrder R.key_of self.old }
    {
        let owner = row.owner();
        let _ = self.rows.rows();
        let _ = self.rows.len();
        begin(&mut self.counts, owner)?;
        self.rows.insert(row)?;
        raise(&mut self.counts, owner);
        Ok(())
    }

    /// Puts a row in the place of the one that has its key and its owner. Where none has the key, the row is dropped.
    pub fn replace(&mut self, row: R)
        requires { MatchOption (row_at R.key_of (R.key_of row) self.old) ⊤ (λ old. R.owner_of old ≡ R.owner_of row) }
        ensures { self.new ≡ with_replaced R.key_of row self.old }
    {
        let _ = self.rows.rows();
        self.rows.replace(row);
    }

    /// Puts a row in the place of the one that has its key, whoever owns that. Fails for want of memory alone, where the owner
    /// changes, and gives the row back.
    pub fn transfer(&mut self, row: R) -> Result<(), R>
        requires { IsSome (row_at R.key_of (R.key_of row) self.old) }
        ensures ok { OnOk result (self.new ≡ with_replaced R.key_of row self.old) }
        ensures err { OnErr result (self.new ≡ self.old) }
        ensures back { IfErr result (λ back. back ≡ row) }
        ensures memory { OnErr result (MatchOption (row_at R.key_of (R.key_of row) self.old) ⊥ (λ old. (R.owner_of old == R.owner_of row) ≡ false)) }
    {
        let _ = self.rows.rows();
        let _ = self.rows.len();
        let Some(old) = self.rows.get(row.key()) else {
            return Ok(());
        };
        let from = old.owner();
        let to = row.owner();
        if from == to {
            self.rows.replace(row);
            return Ok(());
        }
        if begin(&mut self.counts, to).is_err() {
            return Err(row);
        }
        self.rows.replace(row);
        raise(&mut self.counts, to);
        lower(&mut self.counts, from);
        Ok(())
    }

    /// Takes out the row with a key, if it is there.
    pub fn remove(&mut self, key: Key<'_>) -> Option<R>
        ensures row { result ≡ row_at R.key_of (row_key key.entry) self.old }
        ensures rows { self.new ≡ without R.key_of (row_key key.entry) self.old }
    {
        let _ = self.rows.rows();
        let row = self.rows.remove(key)?;
        lower(&mut self.counts, row.owner());
        Some(row)
    }

    /// Takes out the rows whose keys have a number. Costs a search for each of them.
    pub fn remove_numbered(&mut self, number: u64)
        ensures { self.new ≡ without_number R.key_of number self.old }
    {
        'removing: while self.remove_first(number) {}
    }

    // Takes out the first row of a number, and says whether there was one.
    fn remove_first(&mut self, number: u64) -> bool
        ensures others { without_number R.key_of number self.new ≡ without_number R.key_of number self.old }
        ensures none { result ≡ false → without_number R.key_of number self.new ≡ self.new }
        ensures count { length self.new + (if result then 1 else 0) ≡ length self.old }
    {
        let _ = self.rows.rows();
        match self.rows.take_first(number) {
            Some(row) => {
                lower(&mut self.counts, row.owner());
                true
            }
            None => false,
        }
    }
}

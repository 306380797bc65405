// The rows of one table.
ghost use Rattle.std.specs.Prelude.{◌≡◌, ◌<◌, ◌≤◌, ◌+◌, ◌^◌, [], length, OnOk, OnErr, None, if◌then◌else◌, is_some};
ghost use Rattle.std.specs.Option.{option_copied};
ghost use Rattle.std.specs.List.{filter, find};
ghost use Rattle.ordered_rows.specs.RowKey.{row_key};
ghost use Rattle.ordered_rows.specs.Listed.{IsInOrder, IsLeastFree, IsNewNumber, IsTaken, has_number, has_text, is_from, is_in_group, row_at, rows_from, last_row, with_row, with_replaced, without, without_number};

use crate::blocks::{exchange, last_in, put, rest_in, row_in, take_first, take_out};
use crate::group::Group;
use crate::key::{Key, Keyed};
use crate::numbered::Numbered;
use crate::rows::Rows;
use crate::under::Under;
use std::alloc::{AllocError, Global};
use std::marker::Model;

// So many rows are one too many, so that a number of 64 bits always has room for one more.
const LIMIT: u64 = 1 << 63;

/// Rows in the order of their keys, none twice. Contracts see the list of the rows. A search costs O(log n) comparisons; the rows
/// lie in blocks of up to 64, so that a change moves few of them.
#[derive(Drop)]
pub struct Table<R: Keyed> {
    alloc: Global,
    blocks: Vec<Vec<R>>,
    len: u64,
}

impl<R: Keyed> Model for Table<R> {
    ghost use Rattle.std.specs.Prelude.{List};
    ghost use Rattle.std.specs.Coded.{coded_list};
    ghost use Rattle.ordered_rows.specs.Blocks.{flat, IsCounted};

    ghost Value = { List R };

    ghost coded = { coded_list R.code };

    ghost view = { λ table. flat table.blocks.items };

    ghost invariant = { λ table. IsCounted R.key_of table.blocks.items table.len };
}

impl<R: Keyed> Table<R> {
    /// A table with no row. Takes no memory yet.
    pub fn new(alloc: Global) -> Table<R>
        ensures { result ≡ [] }
    {
        Table {
            alloc,
            blocks: Vec::new(alloc),
            len: 0,
        }
    }

    /// How many rows there are: fewer than 2^63.
    pub fn len(&self) -> u64
        ensures count { result ≡ length self.now }
        ensures bound { result < 2 ^ 63 }
    {
        self.len
    }

    /// The row with a key.
    pub fn get(&self, key: Key<'_>) -> Option<&R>
        ensures { option_copied result ≡ row_at R.key_of (row_key key.entry) self.now }
    {
        row_in(&self.blocks, key)
    }

    /// The row with the greatest key.
    pub fn last(&self) -> Option<&R>
        ensures row { option_copied result ≡ last_row self.now }
        ensures order { IsInOrder R.key_of self.now }
    {
        last_in(&self.blocks)
    }

    /// All rows.
    pub fn rows(&self) -> Rows<'_, R>
        ensures rows { result ≡ self.now }
        ensures order { IsInOrder R.key_of self.now }
    {
        Rows::of(&[], &self.blocks)
    }

    /// The rows from a key on, whether a row has that key or not.
    pub fn rows_from(&self, key: Key<'_>) -> Rows<'_, R>
        ensures rows { result ≡ rows_from R.key_of (row_key key.entry) self.now }
        ensures order { IsInOrder R.key_of self.now }
        ensures count { length self.now < 2 ^ 63 }
    {
        let (block, later) = rest_in(&self.blocks, key);
        Rows::of(block, later)
    }

    /// The rows whose keys are the given one but for the item, whichever item that has.
    pub fn group<'a>(&'a self, key: Key<'a>) -> Group<'a, R>
        ensures { result ≡ filter (is_in_group R.key_of (row_key key.entry)) self.now }
    {
        Group::of(self.rows_from(Key { item: 0, ..key }), key)
    }

    /// The rows whose keys have a number, whatever their other parts are.
    pub fn numbered(&self, number: u64) -> Numbered<'_, R>
        ensures { result ≡ filter (has_number R.key_of number) self.now }
    {
        Numbered::of(self.rows_from(Key::of_number(number)), number)
    }

    /// The rows whose keys have a number and a first text, whatever their other parts are.
    pub fn under<'a>(&'a self, number: u64, text: &'a [u8]) -> Under<'a, R>
        ensures { result ≡ filter (has_text R.key_of text.now) (filter (has_number R.key_of number) self.now) }
    {
        let first = Key {
            number,
            text,
            second: &[],
            third: &[],
            place: 0,
            item: 0,
        };
        Under::of(self.rows_from(first), number, text)
    }

    /// The first row from a key on that has the key's number.
    pub fn numbered_from(&self, key: Key<'_>) -> Option<&R>
        ensures { option_copied result ≡ find (is_from R.key_of (row_key key.entry)) self.now }
    {
        let row = self.rows_from(key).next()?;
        if row.key().number == key.number {
            Some(row)
        } else {
            None
        }
    }

    /// The number for a new row of a table whose keys have a number alone. Costs a look-up where the greatest number isn't the last
    /// of 64 bits, and else a walk over the rows that are numbered from 1 without a gap.
    pub fn new_number(&self) -> u64
        ensures { IsNewNumber R.key_of self.now result }
    {
        match self.last() {
            Some(row) => {
                let number = row.key().number;
                if number < u64::MAX {
                    number + 1
                } else {
                    self.free_number(1)
                }
            }
            None => 1,
        }
    }

    /// The least number from a start on that no row's key has.
    pub fn free_number(&self, start: u64) -> u64
        requires { start ≤ 2 ^ 63 }
        ensures { IsLeastFree R.key_of start self.now result }
    {
        let mut free = start;
        let mut rows = self.rows_from(Key::of_number(start));
        'walk: while let Some(row) = rows.next() {
            let number = row.key().number;
            if number > free {
                return free;
            }
            if number == free {
                free += 1;
            }
        }
        free
    }

    /// Puts a row at its place. Fails for want of memory alone.
    pub fn insert(&mut self, row: R) -> Result<(), AllocError>
        requires { row_at R.key_of (R.key_of row) self.old ≡ None }
        ensures ok { OnOk result (self.new ≡ with_row R.key_of row self.old) }
        ensures err { OnErr result (self.new ≡ self.old) }
        ensures order { IsInOrder R.key_of self.old }
    {
        if self.len + 1 >= LIMIT {
            return Err(AllocError);
        }
        put(self.alloc, &mut self.blocks, row)?;
        self.len += 1;
        Ok(())
    }

    /// Puts a row in the place of the one that has its key. Where none has it, the row is dropped.
    pub fn replace(&mut self, row: R)
        ensures { self.new ≡ with_replaced R.key_of row self.old }
    {
        exchange(&mut self.blocks, row);
    }

    /// Takes out the row with a key, if it is there.
    pub fn remove(&mut self, key: Key<'_>) -> Option<R>
        ensures row { result ≡ row_at R.key_of (row_key key.entry) self.old }
        ensures rows { self.new ≡ without R.key_of (row_key key.entry) self.old }
    {
        let row = take_out(&mut self.blocks, key)?;
        self.len -= 1;
        Some(row)
    }

    /// Takes out the rows whose keys have a number. Costs a search for each of them.
    pub fn remove_numbered(&mut self, number: u64)
        ensures { self.new ≡ without_number R.key_of number self.old }
    {
        'removing: while self.take_first(number).is_some() {}
    }

    // Takes out the first row of a number.
    pub(crate) fn take_first(&mut self, number: u64) -> Option<R>
        ensures others { without_number R.key_of number self.new ≡ without_number R.key_of number self.old }
        ensures none { result ≡ None → without_number R.key_of number self.new ≡ self.new }
        ensures row { IsTaken R.key_of self.old self.new result }
        ensures count { length self.new + (if is_some result then 1 else 0) ≡ length self.old }
    {
        let row = take_first(&mut self.blocks, number)?;
        self.len -= 1;
        Some(row)
    }
}

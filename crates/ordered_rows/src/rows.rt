// Rows one after another.
ghost use Rattle.std.specs.Prelude.{◌≡◌, ◌++◌, []};
ghost use Rattle.std.specs.Iterator.{YieldsFirstRef, item_count};
ghost use Rattle.ordered_rows.specs.Blocks.{flat};

use crate::key::Keyed;
use std::marker::Model;

/// Rows in the order of their keys. Contracts see the list of those that are left.
#[derive(Drop)]
pub struct Rows<'a, R: Keyed> {
    block: &'a [R],
    later: &'a [Vec<R>],
}

impl<'a, R: Keyed> Model for Rows<'a, R> {
    ghost use Rattle.std.specs.Prelude.{List, ◌++◌};
    ghost use Rattle.std.specs.Coded.{coded_list};
    ghost use Rattle.ordered_rows.specs.Blocks.{flat};

    ghost Value = { List R };

    ghost coded = { coded_list R.code };

    ghost view = { λ rows. rows.block.now ++ flat rows.later.now };
}

impl<'a, R: Keyed> Rows<'a, R> {
    pub(crate) fn of(block: &'a [R], later: &'a [Vec<R>]) -> Rows<'a, R>
        ensures { result ≡ block.now ++ flat later.now }
    {
        Rows { block, later }
    }

    /// The rows of a table that is kept as a slice, in its order.
    pub fn of_slice(rows: &'a [R]) -> Rows<'a, R>
        ensures { result ≡ rows.now }
    {
        Rows::of(rows, &[])
    }

    /// Leaves no row.
    pub fn end(&mut self)
        ensures { self.new ≡ [] }
    {
        self.block = &[];
        self.later = &[];
    }
}

impl<'a, R: Keyed> Iterator for Rows<'a, R> {
    type Item = &'a R;

    ghost next_gives = { YieldsFirstRef (λ s. s) };

    ghost remaining = { item_count (λ s. s) };

    fn next(&mut self) -> Option<&'a R> {
        while self.block.is_empty() {
            let (block, later) = self.later.split_first()?;
            self.block = block;
            self.later = later;
        }
        let (row, rest) = self.block.split_first()?;
        self.block = rest;
        Some(row)
    }
}

// Rows whose keys differ in the item alone.
ghost use Rattle.std.specs.Prelude.{◌≡◌};
ghost use Rattle.std.specs.Iterator.{YieldsFirstRef, item_count};
ghost use Rattle.ordered_rows.specs.RowKey.{row_key};
ghost use Rattle.ordered_rows.specs.Listed.{is_in_group, leading};

use crate::key::{Key, Keyed, is_beside};
use crate::rows::Rows;
use std::marker::Model;

/// The rows of a group, whose keys differ in the item alone, in the order of their items. Contracts see the list of those that are
/// left.
#[derive(Drop)]
pub struct Group<'a, R: Keyed> {
    rows: Rows<'a, R>,
    key: Key<'a>,
}

impl<'a, R: Keyed> Model for Group<'a, R> {
    ghost use Rattle.std.specs.Prelude.{List};
    ghost use Rattle.std.specs.Coded.{coded_list};
    ghost use Rattle.ordered_rows.specs.RowKey.{row_key};
    ghost use Rattle.ordered_rows.specs.Listed.{is_in_group, leading};

    ghost Value = { List R };

    ghost coded = { coded_list R.code };

    ghost view = { λ group. leading (is_in_group R.key_of (row_key group.key)) group.rows };
}

impl<'a, R: Keyed> Group<'a, R> {
    pub(crate) fn of(rows: Rows<'a, R>, key: Key<'a>) -> Group<'a, R>
        ensures { result ≡ leading (is_in_group R.key_of (row_key key.entry)) rows.entry }
    {
        Group { rows, key }
    }
}

impl<'a, R: Keyed> Iterator for Group<'a, R> {
    type Item = &'a R;

    ghost next_gives = { YieldsFirstRef (λ s. s) };

    ghost remaining = { item_count (λ s. s) };

    fn next(&mut self) -> Option<&'a R> {
        let row = self.rows.next()?;
        if is_beside(row.key(), self.key) {
            return Some(row);
        }
        self.rows.end();
        None
    }
}

// Rows whose keys have one number.
ghost use Rattle.std.specs.Prelude.{◌≡◌};
ghost use Rattle.std.specs.Iterator.{YieldsFirstRef, item_count};
ghost use Rattle.ordered_rows.specs.Listed.{has_number, leading};

use crate::key::Keyed;
use crate::rows::Rows;
use std::marker::Model;

/// The rows whose keys have one number, in the order of their keys. Contracts see the list of those that are left.
#[derive(Drop)]
pub struct Numbered<'a, R: Keyed> {
    rows: Rows<'a, R>,
    number: u64,
}

impl<'a, R: Keyed> Model for Numbered<'a, R> {
    ghost use Rattle.std.specs.Prelude.{List};
    ghost use Rattle.std.specs.Coded.{coded_list};
    ghost use Rattle.ordered_rows.specs.Listed.{has_number, leading};

    ghost Value = { List R };

    ghost coded = { coded_list R.code };

    ghost view = { λ numbered. leading (has_number R.key_of numbered.number) numbered.rows };
}

impl<'a, R: Keyed> Numbered<'a, R> {
    pub(crate) fn of(rows: Rows<'a, R>, number: u64) -> Numbered<'a, R>
        ensures { result ≡ leading (has_number R.key_of number) rows.entry }
    {
        Numbered { rows, number }
    }
}

impl<'a, R: Keyed> Iterator for Numbered<'a, R> {
    type Item = &'a R;

    ghost next_gives = { YieldsFirstRef (λ s. s) };

    ghost remaining = { item_count (λ s. s) };

    fn next(&mut self) -> Option<&'a R> {
        let row = self.rows.next()?;
        if row.key().number == self.number {
            return Some(row);
        }
        self.rows.end();
        None
    }
}

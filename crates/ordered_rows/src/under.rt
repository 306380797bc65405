// Rows whose keys have one number and one text.
ghost use Rattle.std.specs.Prelude.{◌≡◌};
ghost use Rattle.std.specs.Iterator.{YieldsFirstRef, item_count};
ghost use Rattle.ordered_rows.specs.Listed.{is_under, leading};

use crate::key::Keyed;
use crate::rows::Rows;
use std::marker::Model;

/// The rows whose keys have one number and one text, in the order of their keys. Contracts see the list of those that are left.
#[derive(Drop)]
pub struct Under<'a, R: Keyed> {
    rows: Rows<'a, R>,
    number: u64,
    text: &'a [u8],
}

impl<'a, R: Keyed> Model for Under<'a, R> {
    ghost use Rattle.std.specs.Prelude.{List};
    ghost use Rattle.std.specs.Coded.{coded_list};
    ghost use Rattle.ordered_rows.specs.Listed.{is_under, leading};

    ghost Value = { List R };

    ghost coded = { coded_list R.code };

    ghost view = { λ under. leading (is_under R.key_of under.number under.text.now) under.rows };
}

impl<'a, R: Keyed> Under<'a, R> {
    pub(crate) fn of(rows: Rows<'a, R>, number: u64, text: &'a [u8]) -> Under<'a, R>
        ensures { result ≡ leading (is_under R.key_of number text.now) rows.entry }
    {
        Under { rows, number, text }
    }
}

impl<'a, R: Keyed> Iterator for Under<'a, R> {
    type Item = &'a R;

    ghost next_gives = { YieldsFirstRef (λ s. s) };

    ghost remaining = { item_count (λ s. s) };

    fn next(&mut self) -> Option<&'a R> {
        let row = self.rows.next()?;
        let key = row.key();
        if key.text == self.text && key.number == self.number {
            return Some(row);
        }
        self.rows.end();
        None
    }
}

// The UIDs of a mailbox.
ghost use Rattle.std.specs.Prelude.{◌≡◌, map};
ghost use Rattle.std.specs.Iterator.{YieldsFirst, item_count};

use crate::marks::MailboxMessage;
use ordered_rows::Numbered;
use std::marker::Model;

/// The UIDs of the messages of a mailbox, ascending. Contracts see the list of those that are left.
#[derive(Drop)]
pub struct Uids<'a> {
    rows: Numbered<'a, MailboxMessage>,
}

impl<'a> Model for Uids<'a> {
    ghost use Rattle.std.specs.Prelude.{List, ℕ, map};

    ghost Value = { List ℕ };

    ghost view = { λ uids. map (λ r. r.uid) uids.rows };
}

impl<'a> Uids<'a> {
    pub(crate) fn of(rows: Numbered<'a, MailboxMessage>) -> Uids<'a>
        ensures { result ≡ map (λ r. r.uid) rows.entry }
    {
        Uids { rows }
    }
}

impl<'a> Iterator for Uids<'a> {
    type Item = u32;

    ghost next_gives = { YieldsFirst (λ s. s) };

    ghost remaining = { item_count (λ s. s) };

    fn next(&mut self) -> Option<u32> {
        let row = self.rows.next()?;
        Some(row.uid)
    }
}

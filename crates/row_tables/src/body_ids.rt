// The bodies of a digest.
ghost use Rattle.std.specs.Prelude.{◌≡◌, map};
ghost use Rattle.std.specs.Iterator.{YieldsFirst, item_count};

use crate::indexes::DigestEntry;
use ordered_rows::Group;
use std::marker::Model;

/// The ids of the `bodyparts` rows that have one digest, ascending. Contracts see the list of those that are left.
#[derive(Drop)]
pub struct BodyIds<'a> {
    entries: Group<'a, DigestEntry>,
}

impl<'a> Model for BodyIds<'a> {
    ghost use Rattle.std.specs.Prelude.{List, ℕ, map};

    ghost Value = { List ℕ };

    ghost view = { λ ids. map (λ e. e.id) ids.entries };
}

impl<'a> BodyIds<'a> {
    pub(crate) fn of(entries: Group<'a, DigestEntry>) -> BodyIds<'a>
        ensures { result ≡ map (λ e. e.id) entries.entry }
    {
        BodyIds { entries }
    }
}

impl<'a> Iterator for BodyIds<'a> {
    type Item = u64;

    ghost next_gives = { YieldsFirst (λ s. s) };

    ghost remaining = { item_count (λ s. s) };

    fn next(&mut self) -> Option<u64> {
        let entry = self.entries.next()?;
        Some(entry.id)
    }
}

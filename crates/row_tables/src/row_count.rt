// How many rows of mailboxes were read.
ghost use Rattle.std.specs.Prelude.{◌≡◌, ◌+◌, ◌-◌, ◌^◌, min};

use std::marker::Model;

/// How often rows of `mailbox_messages` were asked for. The count stays at its last value. Contracts see the number.
#[derive(Drop, Debug)]
pub struct RowCount {
    count: u64,
}

impl Model for RowCount {
    ghost use Rattle.std.specs.Prelude.{ℕ};

    ghost Value = { ℕ };

    ghost view = { λ c. c.count };
}

impl RowCount {
    /// Nothing was read.
    pub fn new() -> RowCount
        ensures { result ≡ 0 }
    {
        RowCount { count: 0 }
    }

    /// The count.
    pub fn get(&self) -> u64
        ensures { result ≡ self.now }
    {
        self.count
    }

    pub(crate) fn raise(&mut self)
        ensures { self.new ≡ min (self.old + 1) (2 ^ 64 - 1) }
    {
        self.count = self.count.saturating_add(1);
    }
}

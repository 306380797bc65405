// The rows of users, mailboxes, subscriptions and counters as columns.
use crate::column::Column;
use crate::row::{Row, Spread};
use octets::Octets;
use row_tables::{Counters, Mailbox, RowChange, Subscription, User};
use std::alloc::AllocError;

impl Spread for User {
    type Columns = (u32, (Octets, [u8; 32]));

    ghost parts = { λ r. (r.id, (r.name, r.verifier)) };

    ghost whole = { λ c. record { id = c.0; name = c.1.0; verifier = c.1.1 } };

    fn write_columns(&self, out: &mut Vec<u8>) -> Result<(), AllocError> {
        self.id.write_to(out)?;
        self.name.write_to(out)?;
        self.verifier.write_to(out)
    }

    fn of((id, rest): (u32, (Octets, [u8; 32]))) -> User {
        let (name, verifier) = rest;
        User { id, name, verifier }
    }
}

impl Row for User {
    type Key = u32;

    ghost use Rattle.row_tables.specs.declared.change.RowChange.TheVariants.{InsertUser, UpdateUser, RemoveUser};

    ghost insertion = { λ r. InsertUser r };

    ghost update = { λ r. UpdateUser r };

    ghost removal = { λ k. RemoveUser k };

    fn insertion(self) -> RowChange {
        RowChange::InsertUser(self)
    }

    fn update(self) -> RowChange {
        RowChange::UpdateUser(self)
    }

    fn removal(key: u32) -> RowChange {
        RowChange::RemoveUser(key)
    }
}

impl Spread for Mailbox {
    type Columns = (u32, (u32, (Octets, (u32, (u32, u64)))));

    ghost parts = { λ r. (r.id, (r.owner, (r.name, (r.uidnext, (r.first_recent, r.highest))))) };

    ghost whole = { λ c. record { id = c.0; owner = c.1.0; name = c.1.1.0; uidnext = c.1.1.1.0; first_recent = c.1.1.1.1.0; highest = c.1.1.1.1.1 } };

    fn write_columns(&self, out: &mut Vec<u8>) -> Result<(), AllocError> {
        self.id.write_to(out)?;
        self.owner.write_to(out)?;
        self.name.write_to(out)?;
        self.uidnext.write_to(out)?;
        self.first_recent.write_to(out)?;
        self.highest.write_to(out)
    }

    fn of(
        (id, (owner, (name, (uidnext, (first_recent, highest))))): (
            u32,
            (u32, (Octets, (u32, (u32, u64)))),
        ),
    ) -> Mailbox {
        Mailbox {
            id,
            owner,
            name,
            uidnext,
            first_recent,
            highest,
        }
    }
}

impl Row for Mailbox {
    type Key = u32;

    ghost use Rattle.row_tables.specs.declared.change.RowChange.TheVariants.{InsertMailbox, UpdateMailbox, RemoveMailbox};

    ghost insertion = { λ r. InsertMailbox r };

    ghost update = { λ r. UpdateMailbox r };

    ghost removal = { λ k. RemoveMailbox k };

    fn insertion(self) -> RowChange {
        RowChange::InsertMailbox(self)
    }

    fn update(self) -> RowChange {
        RowChange::UpdateMailbox(self)
    }

    fn removal(key: u32) -> RowChange {
        RowChange::RemoveMailbox(key)
    }
}

impl Spread for Subscription {
    type Columns = (u32, Octets);

    ghost parts = { λ r. (r.owner, r.name) };

    ghost whole = { λ c. record { owner = c.0; name = c.1 } };

    fn write_columns(&self, out: &mut Vec<u8>) -> Result<(), AllocError> {
        self.owner.write_to(out)?;
        self.name.write_to(out)
    }

    fn of((owner, name): (u32, Octets)) -> Subscription {
        Subscription { owner, name }
    }
}

impl Row for Subscription {
    type Key = (u32, Octets);

    ghost use Rattle.row_tables.specs.declared.change.RowChange.TheVariants.{InsertSubscription, UpdateSubscription, RemoveSubscription};

    ghost insertion = { λ r. InsertSubscription r };

    ghost update = { λ r. UpdateSubscription r };

    ghost removal = { λ k. RemoveSubscription k };

    fn insertion(self) -> RowChange {
        RowChange::InsertSubscription(self)
    }

    fn update(self) -> RowChange {
        RowChange::UpdateSubscription(self)
    }

    fn removal(key: (u32, Octets)) -> RowChange {
        RowChange::RemoveSubscription(key)
    }
}

impl Spread for Counters {
    type Columns = u32;

    ghost parts = { λ r. r.next };

    ghost whole = { λ c. record { next = c } };

    fn write_columns(&self, out: &mut Vec<u8>) -> Result<(), AllocError> {
        self.next.write_to(out)
    }

    fn of(next: u32) -> Counters {
        Counters { next }
    }
}

impl Row for Counters {
    type Key = ();

    ghost use Rattle.row_tables.specs.declared.change.RowChange.TheVariants.{InsertCounters, UpdateCounters, RemoveCounters};

    ghost insertion = { λ r. InsertCounters r };

    ghost update = { λ r. UpdateCounters r };

    ghost removal = { λ k. RemoveCounters k };

    fn insertion(self) -> RowChange {
        RowChange::InsertCounters(self)
    }

    fn update(self) -> RowChange {
        RowChange::UpdateCounters(self)
    }

    fn removal(key: ()) -> RowChange {
        RowChange::RemoveCounters(key)
    }
}

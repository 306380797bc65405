// The rows of users, of their mailboxes and subscriptions, and the counter of mailbox ids.
use crate::indexes::Named;
use octets::Octets;
use ordered_rows::{Key, Keyed, Owned};

/// A row of `users`. `verifier` is what a password is tested against.
#[derive(Drop, Debug)]
pub struct User {
    pub id: u32,
    pub name: Octets,
    pub verifier: [u8; 32],
}

/// A row of `mailboxes`. `owner` is a user; `uidnext` the UID for the next message, and 4,294,967,295 once the last is given;
/// `first_recent` the first UID that no session has seen as recent; `highest` the mailbox's highest mod-sequence (RFC 7162
/// §3.1.2.1). The id is the mailbox's UIDVALIDITY (RFC 3501 §2.3.1.1).
#[derive(Drop, Debug)]
pub struct Mailbox {
    pub id: u32,
    pub owner: u32,
    pub name: Octets,
    pub uidnext: u32,
    pub first_recent: u32,
    pub highest: u64,
}

/// A row of `subscriptions`: a name to which a user is subscribed (RFC 3501 §6.3.6), whether a mailbox has it or not.
#[derive(Drop, Debug)]
pub struct Subscription {
    pub owner: u32,
    pub name: Octets,
}

/// The one row of `counters`: the id for the next mailbox, 1 at first, and 0 once the last id is given.
#[derive(Drop, Debug)]
pub struct Counters {
    pub next: u32,
}

impl Keyed for User {
    ghost use Rattle.row_tables.specs.Keys.{user_key};

    ghost key_of = { user_key };

    fn key(&self) -> Key<'_> {
        Key::of_number(self.id as u64)
    }
}

impl Keyed for Mailbox {
    ghost use Rattle.row_tables.specs.Keys.{mailbox_key};

    ghost key_of = { mailbox_key };

    fn key(&self) -> Key<'_> {
        Key::of_number(self.id as u64)
    }
}

impl Keyed for Subscription {
    ghost use Rattle.row_tables.specs.Keys.{subscription_key};

    ghost key_of = { subscription_key };

    fn key(&self) -> Key<'_> {
        Key {
            text: self.name.as_slice(),
            ..Key::of_number(self.owner as u64)
        }
    }
}

impl Keyed for Counters {
    ghost use Rattle.row_tables.specs.Keys.{counters_key};

    ghost key_of = { counters_key };

    fn key(&self) -> Key<'_> {
        Key::of_number(0)
    }
}

// Users are of no one: all are counted together.
impl Owned for User {
    ghost owner_of = { λ row. 0 };

    fn owner(&self) -> u64 {
        0
    }
}

impl Owned for Mailbox {
    ghost owner_of = { λ row. row.owner };

    fn owner(&self) -> u64 {
        self.owner as u64
    }
}

impl Owned for Subscription {
    ghost owner_of = { λ row. row.owner };

    fn owner(&self) -> u64 {
        self.owner as u64
    }
}

impl Named for User {
    ghost use Rattle.std.specs.Prelude.{refl};
    ghost use Rattle.row_tables.specs.Names.{user_naming};

    ghost names = { user_naming };

    ghost keyed = { λ row. refl };

    ghost owned = { λ row. refl };

    fn id(&self) -> u32 {
        self.id
    }

    fn number(&self) -> u32 {
        0
    }

    fn name(&self) -> &Octets {
        &self.name
    }
}

impl Named for Mailbox {
    ghost use Rattle.std.specs.Prelude.{refl};
    ghost use Rattle.row_tables.specs.Names.{mailbox_naming};

    ghost names = { mailbox_naming };

    ghost keyed = { λ row. refl };

    ghost owned = { λ row. refl };

    fn id(&self) -> u32 {
        self.id
    }

    fn number(&self) -> u32 {
        self.owner
    }

    fn name(&self) -> &Octets {
        &self.name
    }
}

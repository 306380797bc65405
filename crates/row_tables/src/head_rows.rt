// The calls that give rows of users, mailboxes, subscriptions and counters.
ghost use Rattle.std.specs.Prelude.{◌≡◌, ◌∷◌, [], Some, length};
ghost use Rattle.std.specs.List.{find};
ghost use Rattle.std.specs.Option.{option_copied};
ghost use Rattle.ordered_rows.specs.RowKey.{number_key};
ghost use Rattle.ordered_rows.specs.Listed.{IsInOrder, row_at, rows_from};
ghost use Rattle.row_tables.specs.Keys.{owned_key, user_key, mailbox_key, subscription_key};
ghost use Rattle.row_tables.specs.Names.{IsNextMailbox, mailbox_named, subscription_is_after, user_named};
ghost use Rattle.row_tables.specs.References.{subscriptions_of};
ghost use Rattle.row_tables.specs.RowCounts.{mailbox_count, subscription_count};

use crate::heads::{Counters, Mailbox, Subscription, User};
use crate::keys::{after, owned};
use crate::named::row_named;
use crate::tables::Tables;
use ordered_rows::{Key, Numbered, Rows};
use std::slice;

impl Tables {
    pub fn users_row(&self, key: u32) -> Option<&User>
        ensures { option_copied result ≡ row_at user_key (number_key key) self.now.heads.users }
    {
        let heads = &self.heads;
        heads.users.get(Key::of_number(key as u64))
    }

    pub fn users_rows(&self) -> Rows<'_, User>
        ensures rows { result ≡ self.now.heads.users }
        ensures order { IsInOrder user_key self.now.heads.users }
    {
        let heads = &self.heads;
        heads.users.rows()
    }

    pub fn users_rows_from(&self, key: u32) -> Rows<'_, User>
        ensures rows { result ≡ rows_from user_key (number_key key) self.now.heads.users }
        ensures order { IsInOrder user_key self.now.heads.users }
    {
        let heads = &self.heads;
        heads.users.rows_from(Key::of_number(key as u64))
    }

    /// The user with a name. Of several, which no server makes, the one with the least id.
    pub fn user_named(&self, name: &[u8]) -> Option<&User>
        ensures { option_copied result ≡ user_named name.now self.now.heads.users }
    {
        let heads = &self.heads;
        row_named(&heads.users, &heads.user_names, 0, name)
    }

    /// How many users there are.
    pub fn user_count(&self) -> u64
        ensures { result ≡ length self.now.heads.users }
    {
        let heads = &self.heads;
        heads.users.len()
    }

    pub fn mailboxes_row(&self, key: u32) -> Option<&Mailbox>
        ensures { option_copied result ≡ row_at mailbox_key (number_key key) self.now.heads.mailboxes }
    {
        let heads = &self.heads;
        heads.mailboxes.get(Key::of_number(key as u64))
    }

    /// The mailbox of an owner with a name. Of several, which no server makes, the one with the least id.
    pub fn mailbox_named(&self, owner: u32, name: &[u8]) -> Option<&Mailbox>
        ensures { option_copied result ≡ mailbox_named owner name.now self.now.heads.mailboxes }
    {
        let heads = &self.heads;
        row_named(&heads.mailboxes, &heads.mailbox_names, owner, name)
    }

    /// The mailbox of an owner whose name comes next after a name, by the bytes of names. Of several with that name, which no server
    /// makes, the one with the least id; the call after it passes over the others. The mailbox with an empty name comes after none:
    /// `mailbox_named` finds it.
    pub fn mailbox_after(&self, owner: u32, name: &[u8]) -> Option<&Mailbox>
        ensures { IsNextMailbox owner name.now self.now.heads.mailboxes (option_copied result) }
    {
        let heads = &self.heads;
        let _ = heads.mailbox_names.rows();
        match heads.mailbox_names.numbered_from(after(owner, name)) {
            Some(entry) => self.mailbox_named(owner, entry.name.as_slice()),
            None => None,
        }
    }

    /// How many mailboxes a user has. Costs a look-up.
    pub fn mailbox_count(&self, owner: u32) -> u64
        ensures { result ≡ mailbox_count owner self.now.heads.mailboxes }
    {
        let heads = &self.heads;
        heads.mailboxes.count(owner as u64)
    }

    pub fn mailboxes_rows(&self) -> Rows<'_, Mailbox>
        ensures rows { result ≡ self.now.heads.mailboxes }
        ensures order { IsInOrder mailbox_key self.now.heads.mailboxes }
    {
        let heads = &self.heads;
        heads.mailboxes.rows()
    }

    pub fn mailboxes_rows_from(&self, key: u32) -> Rows<'_, Mailbox>
        ensures rows { result ≡ rows_from mailbox_key (number_key key) self.now.heads.mailboxes }
        ensures order { IsInOrder mailbox_key self.now.heads.mailboxes }
    {
        let heads = &self.heads;
        heads.mailboxes.rows_from(Key::of_number(key as u64))
    }

    /// The key is the owner and the name.
    pub fn subscriptions_row(&self, key: (u32, &[u8])) -> Option<&Subscription>
        ensures { option_copied result ≡ row_at subscription_key (owned_key key.entry.0 key.entry.1.now) self.now.heads.subscriptions }
    {
        let heads = &self.heads;
        heads.subscriptions.get(owned(key.0, key.1))
    }

    pub fn subscriptions_rows(&self) -> Rows<'_, Subscription>
        ensures rows { result ≡ self.now.heads.subscriptions }
        ensures order { IsInOrder subscription_key self.now.heads.subscriptions }
    {
        let heads = &self.heads;
        heads.subscriptions.rows()
    }

    /// The key is the owner and the name.
    pub fn subscriptions_rows_from(&self, key: (u32, &[u8])) -> Rows<'_, Subscription>
        ensures rows { result ≡ rows_from subscription_key (owned_key key.entry.0 key.entry.1.now) self.now.heads.subscriptions }
        ensures order { IsInOrder subscription_key self.now.heads.subscriptions }
    {
        let heads = &self.heads;
        heads.subscriptions.rows_from(owned(key.0, key.1))
    }

    /// The names to which a user is subscribed, by their bytes.
    pub fn subscriptions_of(&self, owner: u32) -> Numbered<'_, Subscription>
        ensures { result ≡ subscriptions_of owner self.now.heads.subscriptions }
    {
        let heads = &self.heads;
        heads.subscriptions.numbered(owner as u64)
    }

    /// The subscription of a user whose name comes next after a name, by the bytes of names.
    pub fn subscription_after(&self, owner: u32, name: &[u8]) -> Option<&Subscription>
        ensures row { option_copied result ≡ find (subscription_is_after owner name.now) self.now.heads.subscriptions }
        ensures order { IsInOrder subscription_key self.now.heads.subscriptions }
    {
        let heads = &self.heads;
        let _ = heads.subscriptions.rows();
        heads.subscriptions.numbered_from(after(owner, name))
    }

    /// To how many names a user is subscribed. Costs a look-up.
    pub fn subscription_count(&self, owner: u32) -> u64
        ensures { result ≡ subscription_count owner self.now.heads.subscriptions }
    {
        let heads = &self.heads;
        heads.subscriptions.count(owner as u64)
    }

    /// There is always one row.
    pub fn counters_row(&self, _key: ()) -> Option<&Counters>
        ensures { option_copied result ≡ Some self.now.heads.counters }
    {
        let heads = &self.heads;
        Some(&heads.counters)
    }

    pub fn counters_rows(&self) -> Rows<'_, Counters>
        ensures { result ≡ self.now.heads.counters ∷ [] }
    {
        let heads = &self.heads;
        Rows::of_slice(slice::from_ref(&heads.counters))
    }

    pub fn counters_rows_from(&self, _key: ()) -> Rows<'_, Counters>
        ensures { result ≡ self.now.heads.counters ∷ [] }
    {
        self.counters_rows()
    }
}

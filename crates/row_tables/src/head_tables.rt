// The tables of users, of their mailboxes and subscriptions, and the counter of mailbox ids.
ghost use Rattle.std.specs.Prelude.{◌≡◌, OnOk, OnErr, None, IsSome};
ghost use Rattle.ordered_rows.specs.RowKey.{number_key};
ghost use Rattle.ordered_rows.specs.Listed.{row_at, with_row, with_replaced, without};
ghost use Rattle.row_tables.specs.Keys.{owned_key, user_key, mailbox_key, subscription_key};
ghost use Rattle.row_tables.specs.Names.{IsRename};
ghost use Rattle.row_tables.specs.TableRows.{no_rows};

use crate::heads::{Counters, Mailbox, Subscription, User};
use crate::indexes::NameEntry;
use crate::keys::owned;
use crate::named::{add_named, remove_named, replace_named};
use ordered_rows::{CountedTable, Table};
use std::alloc::{AllocError, Global};
use std::marker::Model;

// Contracts see the record of the rows. `user_names` and `mailbox_names` find users and mailboxes by their names; mailboxes and
// subscriptions are counted by their owners.
#[derive(Drop)]
pub(crate) struct HeadTables {
    alloc: Global,
    pub(crate) users: CountedTable<User>,
    pub(crate) mailboxes: CountedTable<Mailbox>,
    pub(crate) subscriptions: CountedTable<Subscription>,
    pub(crate) counters: Counters,
    pub(crate) user_names: Table<NameEntry>,
    pub(crate) mailbox_names: Table<NameEntry>,
}

impl Model for HeadTables {
    ghost use Rattle.row_tables.specs.TableRows.{HeadRows};
    ghost use Rattle.row_tables.specs.Names.{AreNamed, user_naming, mailbox_naming};

    ghost Value = { HeadRows };

    ghost view = { λ t. record { users = t.users; mailboxes = t.mailboxes; subscriptions = t.subscriptions; counters = t.counters } };

    ghost invariant = { λ t. AreNamed user_naming t.user_names t.users × AreNamed mailbox_naming t.mailbox_names t.mailboxes };
}

impl HeadTables {
    pub(crate) fn new(alloc: Global) -> HeadTables
        ensures { result ≡ no_rows.heads }
    {
        HeadTables {
            alloc,
            users: CountedTable::new(alloc),
            mailboxes: CountedTable::new(alloc),
            subscriptions: CountedTable::new(alloc),
            counters: Counters { next: 1 },
            user_names: Table::new(alloc),
            mailbox_names: Table::new(alloc),
        }
    }

    pub(crate) fn insert_user(&mut self, row: User) -> Result<(), AllocError>
        requires { row_at user_key (user_key row) self.old.users ≡ None }
        ensures ok { OnOk result (self.new ≡ record self.old { users = with_row user_key row self.old.users }) }
        ensures err { OnErr result (self.new ≡ self.old) }
    {
        add_named(self.alloc, &mut self.users, &mut self.user_names, row)
    }

    pub(crate) fn insert_mailbox(&mut self, row: Mailbox) -> Result<(), AllocError>
        requires { row_at mailbox_key (mailbox_key row) self.old.mailboxes ≡ None }
        ensures ok { OnOk result (self.new ≡ record self.old { mailboxes = with_row mailbox_key row self.old.mailboxes }) }
        ensures err { OnErr result (self.new ≡ self.old) }
    {
        add_named(
            self.alloc,
            &mut self.mailboxes,
            &mut self.mailbox_names,
            row,
        )
    }

    pub(crate) fn replace_mailbox(&mut self, row: Mailbox) -> Result<(), AllocError>
        requires { IsSome (row_at mailbox_key (mailbox_key row) self.old.mailboxes) }
        ensures ok { OnOk result (self.new ≡ record self.old { mailboxes = with_replaced mailbox_key row self.old.mailboxes }) }
        ensures err { OnErr result (self.new ≡ self.old) }
        ensures memory { OnErr result (IsRename row self.old.mailboxes) }
    {
        replace_named(
            self.alloc,
            &mut self.mailboxes,
            &mut self.mailbox_names,
            row,
        )
    }

    pub(crate) fn remove_mailbox(&mut self, id: u32)
        ensures { self.new ≡ record self.old { mailboxes = without mailbox_key (number_key id) self.old.mailboxes } }
    {
        remove_named(&mut self.mailboxes, &mut self.mailbox_names, id);
    }

    pub(crate) fn insert_subscription(&mut self, row: Subscription) -> Result<(), AllocError>
        requires { row_at subscription_key (subscription_key row) self.old.subscriptions ≡ None }
        ensures ok { OnOk result (self.new ≡ record self.old { subscriptions = with_row subscription_key row self.old.subscriptions }) }
        ensures err { OnErr result (self.new ≡ self.old) }
    {
        self.subscriptions.insert(row)
    }

    pub(crate) fn remove_subscription(&mut self, owner: u32, name: &[u8])
        ensures { self.new ≡ record self.old { subscriptions = without subscription_key (owned_key owner name.now) self.old.subscriptions } }
    {
        self.subscriptions.remove(owned(owner, name));
    }

    pub(crate) fn set_counters(&mut self, row: Counters)
        ensures { self.new ≡ record self.old { counters = row } }
    {
        self.counters = row;
    }
}

// The tables of the messages of mailboxes, of those that are gone, and of flags.
ghost use Rattle.std.specs.Prelude.{◌≡◌, OnOk, OnErr, None};
ghost use Rattle.std.specs.List.{find};
ghost use Rattle.ordered_rows.specs.Listed.{row_at, with_row, with_replaced, without, without_number};
ghost use Rattle.row_tables.specs.Indexes.{has_flag_name};
ghost use Rattle.row_tables.specs.Keys.{uid_key, uid_flag_key, mailbox_message_key, deleted_message_key, flag_name_key, flag_key};
ghost use Rattle.row_tables.specs.TableRows.{no_rows};

use crate::indexes::ContentEntry;
use crate::keys::{of_flag, of_uid};
use crate::marks::{DeletedMessage, FlagName, FlagRow, MailboxMessage};
use crate::shared::add_unique;
use ordered_rows::laws::keys;
use ordered_rows::{CountedTable, Table};
use std::alloc::{AllocError, Global};
use std::marker::Model;

// Contracts see the record of the rows. `words` finds a flag name by its text; the messages are
// counted by their mailboxes.
#[derive(Drop)]
pub(crate) struct MarkTables {
    alloc: Global,
    pub(crate) mailbox_messages: CountedTable<MailboxMessage>,
    pub(crate) deleted_messages: Table<DeletedMessage>,
    pub(crate) flag_names: Table<FlagName>,
    pub(crate) flags: Table<FlagRow>,
    pub(crate) words: Table<ContentEntry>,
}

impl Model for MarkTables {
    ghost use Rattle.row_tables.specs.TableRows.{MarkRows};
    ghost use Rattle.row_tables.specs.Indexes.{AreIndexed, flag_name_contents};

    ghost Value = { MarkRows };

    ghost view = { λ t. record { mailbox_messages = t.mailbox_messages; deleted_messages = t.deleted_messages; flag_names = t.flag_names; flags = t.flags } };

    ghost invariant = { λ t. AreIndexed flag_name_contents t.words t.flag_names };
}

impl MarkTables {
    pub(crate) fn new(alloc: Global) -> MarkTables
        ensures { result ≡ no_rows.marks }
    {
        MarkTables {
            alloc,
            mailbox_messages: CountedTable::new(alloc),
            deleted_messages: Table::new(alloc),
            flag_names: Table::new(alloc),
            flags: Table::new(alloc),
            words: Table::new(alloc),
        }
    }

    pub(crate) fn insert_flag_name(&mut self, row: FlagName) -> Result<(), AllocError>
        requires new_id { row_at flag_name_key (flag_name_key row) self.old.flag_names ≡ None }
        requires new_name { find (has_flag_name row.name) self.old.flag_names ≡ None }
        ensures ok { OnOk result (self.new ≡ record self.old { flag_names = with_row flag_name_key row self.old.flag_names }) }
        ensures err { OnErr result (self.new ≡ self.old) }
    {
        add_unique(self.alloc, &mut self.flag_names, &mut self.words, row)
    }

    pub(crate) fn insert_mailbox_message(&mut self, row: MailboxMessage) -> Result<(), AllocError>
        requires { row_at mailbox_message_key (mailbox_message_key row) self.old.mailbox_messages ≡ None }
        ensures ok { OnOk result (self.new ≡ record self.old { mailbox_messages = with_row mailbox_message_key row self.old.mailbox_messages }) }
        ensures err { OnErr result (self.new ≡ self.old) }
    {
        self.mailbox_messages.insert(row)
    }

    pub(crate) fn replace_mailbox_message(&mut self, row: MailboxMessage)
        ensures { self.new ≡ record self.old { mailbox_messages = with_replaced mailbox_message_key row self.old.mailbox_messages } }
    {
        keys();
        self.mailbox_messages.replace(row);
    }

    pub(crate) fn remove_mailbox_message(&mut self, mailbox: u32, uid: u32)
        ensures { self.new ≡ record self.old { mailbox_messages = without mailbox_message_key (uid_key mailbox uid) self.old.mailbox_messages } }
    {
        self.mailbox_messages.remove(of_uid(mailbox, uid));
    }

    pub(crate) fn insert_deleted_message(&mut self, row: DeletedMessage) -> Result<(), AllocError>
        requires { row_at deleted_message_key (deleted_message_key row) self.old.deleted_messages ≡ None }
        ensures ok { OnOk result (self.new ≡ record self.old { deleted_messages = with_row deleted_message_key row self.old.deleted_messages }) }
        ensures err { OnErr result (self.new ≡ self.old) }
    {
        self.deleted_messages.insert(row)
    }

    pub(crate) fn insert_flag(&mut self, row: FlagRow) -> Result<(), AllocError>
        requires { row_at flag_key (flag_key row) self.old.flags ≡ None }
        ensures ok { OnOk result (self.new ≡ record self.old { flags = with_row flag_key row self.old.flags }) }
        ensures err { OnErr result (self.new ≡ self.old) }
    {
        self.flags.insert(row)
    }

    pub(crate) fn remove_flag(&mut self, mailbox: u32, uid: u32, flag: u64)
        ensures { self.new ≡ record self.old { flags = without flag_key (uid_flag_key mailbox uid flag) self.old.flags } }
    {
        self.flags.remove(of_flag(mailbox, uid, flag));
    }

    // Takes out all rows of a mailbox.
    pub(crate) fn drop_mailbox(&mut self, mailbox: u32)
        ensures { self.new ≡ record self.old {
          mailbox_messages = without_number mailbox_message_key mailbox self.old.mailbox_messages;
          deleted_messages = without_number deleted_message_key mailbox self.old.deleted_messages;
          flags = without_number flag_key mailbox self.old.flags;
        } }
    {
        self.mailbox_messages.remove_numbered(mailbox as u64);
        self.deleted_messages.remove_numbered(mailbox as u64);
        self.flags.remove_numbered(mailbox as u64);
    }
}

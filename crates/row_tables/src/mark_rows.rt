// The calls that give rows of the messages of mailboxes, of those that are gone, and of flags.
ghost use Rattle.std.specs.Prelude.{◌≡◌, ◌+◌, ◌-◌, ◌^◌, min};
ghost use Rattle.std.specs.Ordering.{nat_cmp};
ghost use Rattle.std.specs.List.Sorted.{IsStrictlySortedBy};
ghost use Rattle.std.specs.Option.{option_copied};
ghost use Rattle.ordered_rows.specs.RowKey.{number_key};
ghost use Rattle.ordered_rows.specs.Listed.{IsInOrder, IsNewNumber, row_at, rows_from};
ghost use Rattle.row_tables.specs.Keys.{uid_key, uid_flag_key, mailbox_message_key, deleted_message_key, flag_name_key, flag_key};
ghost use Rattle.row_tables.specs.Indexes.{flag_name_id};
ghost use Rattle.row_tables.specs.References.{deleted_of, flags_at, flags_of, uids_of};
ghost use Rattle.row_tables.specs.RowCounts.{entry_count};

use crate::keys::{of_flag, of_uid};
use crate::marks::{DeletedMessage, FlagName, FlagRow, MailboxMessage};
use crate::row_count::RowCount;
use crate::shared::id_of_content;
use crate::tables::Tables;
use crate::uids::Uids;
use ordered_rows::{Group, Key, Numbered, Rows};

impl Tables {
    /// The message of a mailbox with a UID. No other call gives rows of `mailbox_messages`; the count tells how often it was called.
    pub fn mailbox_row(
        &self,
        mailbox: u32,
        uid: u32,
        count: &mut RowCount,
    ) -> Option<&MailboxMessage>
        ensures row { option_copied result ≡ row_at mailbox_message_key (uid_key mailbox uid) self.now.marks.mailbox_messages }
        ensures count { count.new ≡ min (count.old + 1) (2 ^ 64 - 1) }
    {
        let marks = &self.marks;
        count.raise();
        marks.mailbox_messages.get(of_uid(mailbox, uid))
    }

    /// The UIDs of a mailbox's messages, ascending. Costs a step for each one that is taken.
    pub fn uids(&self, mailbox: u32) -> Uids<'_>
        ensures uids { result ≡ uids_of mailbox self.now.marks.mailbox_messages }
        ensures ascending { IsStrictlySortedBy nat_cmp result }
    {
        let marks = &self.marks;
        let _ = marks.mailbox_messages.rows();
        Uids::of(marks.mailbox_messages.numbered(mailbox as u64))
    }

    /// How many messages a mailbox has. Costs a look-up.
    pub fn entry_count(&self, mailbox: u32) -> u64
        ensures { result ≡ entry_count mailbox self.now.marks.mailbox_messages }
    {
        let marks = &self.marks;
        marks.mailbox_messages.count(mailbox as u64)
    }

    /// The key is the mailbox and the UID.
    pub fn deleted_messages_row(&self, key: (u32, u32)) -> Option<&DeletedMessage>
        ensures { option_copied result ≡ row_at deleted_message_key (uid_key key.0 key.1) self.now.marks.deleted_messages }
    {
        let marks = &self.marks;
        marks.deleted_messages.get(of_uid(key.0, key.1))
    }

    pub fn deleted_messages_rows(&self) -> Rows<'_, DeletedMessage>
        ensures rows { result ≡ self.now.marks.deleted_messages }
        ensures order { IsInOrder deleted_message_key self.now.marks.deleted_messages }
    {
        let marks = &self.marks;
        marks.deleted_messages.rows()
    }

    /// The key is the mailbox and the UID.
    pub fn deleted_messages_rows_from(&self, key: (u32, u32)) -> Rows<'_, DeletedMessage>
        ensures rows { result ≡ rows_from deleted_message_key (uid_key key.0 key.1) self.now.marks.deleted_messages }
        ensures order { IsInOrder deleted_message_key self.now.marks.deleted_messages }
    {
        let marks = &self.marks;
        marks.deleted_messages.rows_from(of_uid(key.0, key.1))
    }

    /// The UIDs that are gone from a mailbox, ascending.
    pub fn deleted_messages_of(&self, mailbox: u32) -> Numbered<'_, DeletedMessage>
        ensures { result ≡ deleted_of mailbox self.now.marks.deleted_messages }
    {
        let marks = &self.marks;
        marks.deleted_messages.numbered(mailbox as u64)
    }

    pub fn flag_names_row(&self, key: u64) -> Option<&FlagName>
        ensures { option_copied result ≡ row_at flag_name_key (number_key key) self.now.marks.flag_names }
    {
        let marks = &self.marks;
        marks.flag_names.get(Key::of_number(key))
    }

    pub fn flag_names_rows(&self) -> Rows<'_, FlagName>
        ensures rows { result ≡ self.now.marks.flag_names }
        ensures order { IsInOrder flag_name_key self.now.marks.flag_names }
    {
        let marks = &self.marks;
        marks.flag_names.rows()
    }

    pub fn flag_names_rows_from(&self, key: u64) -> Rows<'_, FlagName>
        ensures rows { result ≡ rows_from flag_name_key (number_key key) self.now.marks.flag_names }
        ensures order { IsInOrder flag_name_key self.now.marks.flag_names }
    {
        let marks = &self.marks;
        marks.flag_names.rows_from(Key::of_number(key))
    }

    /// The id of the flag name that is this text.
    pub fn flag_name_id(&self, name: &[u8]) -> Option<u64>
        ensures { result ≡ flag_name_id name.now self.now.marks.flag_names }
    {
        let marks = &self.marks;
        id_of_content(&marks.words, name, &[], &[])
    }

    /// The id for a new flag name.
    pub fn new_flag_name_id(&self) -> u64
        ensures { IsNewNumber flag_name_key self.now.marks.flag_names result }
    {
        let marks = &self.marks;
        marks.flag_names.new_number()
    }

    /// The key is the mailbox, the UID and the flag.
    pub fn flags_row(&self, key: (u32, u32, u64)) -> Option<&FlagRow>
        ensures { option_copied result ≡ row_at flag_key (uid_flag_key key.0 key.1 key.2) self.now.marks.flags }
    {
        let marks = &self.marks;
        marks.flags.get(of_flag(key.0, key.1, key.2))
    }

    pub fn flags_rows(&self) -> Rows<'_, FlagRow>
        ensures rows { result ≡ self.now.marks.flags }
        ensures order { IsInOrder flag_key self.now.marks.flags }
    {
        let marks = &self.marks;
        marks.flags.rows()
    }

    /// The key is the mailbox, the UID and the flag.
    pub fn flags_rows_from(&self, key: (u32, u32, u64)) -> Rows<'_, FlagRow>
        ensures rows { result ≡ rows_from flag_key (uid_flag_key key.0 key.1 key.2) self.now.marks.flags }
        ensures order { IsInOrder flag_key self.now.marks.flags }
    {
        let marks = &self.marks;
        marks.flags.rows_from(of_flag(key.0, key.1, key.2))
    }

    /// The flags of the messages of a mailbox, by UID and flag.
    pub fn flags_of(&self, mailbox: u32) -> Numbered<'_, FlagRow>
        ensures { result ≡ flags_of mailbox self.now.marks.flags }
    {
        let marks = &self.marks;
        marks.flags.numbered(mailbox as u64)
    }

    /// The flags of one message of a mailbox, by their ids.
    pub fn flags_at(&self, mailbox: u32, uid: u32) -> Group<'_, FlagRow>
        ensures { result ≡ flags_at mailbox uid self.now.marks.flags }
    {
        let marks = &self.marks;
        marks.flags.group(of_uid(mailbox, uid))
    }
}

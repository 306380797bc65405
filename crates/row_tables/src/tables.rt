// All tables, and their changes.
ghost use Rattle.std.specs.Prelude.{◌≡◌, OnOk, OnErr};
ghost use Rattle.row_tables.specs.TableRows.{no_rows};
ghost use Rattle.row_tables.specs.Fits.{CanRun, Fits, IsInsertion, Runs, RunsPart, TakesMemory, applied};
ghost use Rattle.row_tables.specs.References.{AreClosed, AreDistinct, AreOrdered};
ghost use Rattle.row_tables.specs.declared.heads.Mailbox.{Mailbox};
ghost use Rattle.row_tables.specs.declared.change.RowChange.TheVariants.{UpdateMailbox};

use crate::change::RowChange;
use crate::head_tables::HeadTables;
use crate::laws::changes_keep_references;
use crate::mail_tables::MailTables;
use crate::mark_tables::MarkTables;
use crate::shared_tables::SharedTables;
use std::alloc::{AllocError, Global};
use std::marker::Model;

/// The tables, in four groups. Contracts see the record of their rows; each table's rows stand in the order of their keys. Look-ups,
/// tests and changes cost O(log n) comparisons each, and the drop of a mailbox that for each of its rows.
#[derive(Drop)]
pub struct Tables {
    pub(crate) heads: HeadTables,
    pub(crate) marks: MarkTables,
    pub(crate) mails: MailTables,
    pub(crate) shared: SharedTables,
}

impl Model for Tables {
    ghost use Rattle.row_tables.specs.TableRows.{TableRows};
    ghost use Rattle.row_tables.specs.References.{AreClosed};

    ghost Value = { TableRows };

    ghost view = { λ t. record { heads = t.heads; marks = t.marks; mails = t.mails; shared = t.shared } };

    ghost invariant = { λ t. AreClosed (record { heads = t.heads; marks = t.marks; mails = t.mails; shared = t.shared }) };
}

impl Tables {
    /// Tables with no row but that of counters. Takes no memory yet.
    pub fn new(alloc: Global) -> Tables
        ensures { result ≡ no_rows }
    {
        Tables {
            heads: HeadTables::new(alloc),
            marks: MarkTables::new(alloc),
            mails: MailTables::new(alloc),
            shared: SharedTables::new(alloc),
        }
    }

    /// Each table is in order, each row that a row refers to is there, and no two names of flags or of fields and no two addresses
    /// are the same. For the proofs of callers; does nothing.
    pub fn are_whole(&self)
        ensures ordered { AreOrdered self.now }
        ensures closed { AreClosed self.now }
        ensures distinct { AreDistinct self.now }
    {
        let heads = &self.heads;
        let marks = &self.marks;
        let mails = &self.mails;
        let shared = &self.shared;
        let _ = heads.users.rows();
        let _ = heads.mailboxes.rows();
        let _ = heads.subscriptions.rows();
        let _ = marks.mailbox_messages.rows();
        let _ = marks.deleted_messages.rows();
        let _ = marks.flag_names.rows();
        let _ = marks.flags.rows();
        let _ = mails.messages.rows();
        let _ = mails.part_numbers.rows();
        let _ = mails.header_fields.rows();
        let _ = mails.address_fields.rows();
        let _ = mails.date_fields.rows();
        let _ = mails.message_ids.rows();
        let _ = mails.unparsed_messages.rows();
        let _ = shared.bodyparts.rows();
        let _ = shared.field_names.rows();
        let _ = shared.addresses.rows();
    }

    /// Makes a change. Fails for want of memory alone, at an insertion or where a mailbox gets another owner or name, and then leaves
    /// the tables as they were.
    pub fn apply(&mut self, change: RowChange) -> Result<(), AllocError>
        requires { Fits self.old change }
        ensures ok { OnOk result (self.new ≡ applied self.old change) }
        ensures err { OnErr result (self.new ≡ self.old) }
        ensures memory { OnErr result (TakesMemory self.old change) }
    {
        self.are_whole();
        changes_keep_references();
        match change {
            RowChange::InsertUser(row) => self.heads.insert_user(row),
            RowChange::InsertMailbox(row) => self.heads.insert_mailbox(row),
            RowChange::UpdateMailbox(row) => self.heads.replace_mailbox(row),
            RowChange::InsertMessageRow(row) => self.mails.insert_message(row),
            RowChange::InsertMailboxMessage(row) => self.marks.insert_mailbox_message(row),
            RowChange::InsertDeletedMessage(row) => self.marks.insert_deleted_message(row),
            RowChange::InsertFlagName(row) => self.marks.insert_flag_name(row),
            RowChange::InsertFlagRow(row) => self.marks.insert_flag(row),
            RowChange::InsertBodyPart(row) => self.shared.insert_body_part(row),
            RowChange::InsertPartNumber(row) => self.mails.insert_part_number(row),
            RowChange::InsertFieldName(row) => self.shared.insert_field_name(row),
            RowChange::InsertHeaderField(row) => self.mails.insert_header_field(row),
            RowChange::InsertAddressRow(row) => self.shared.insert_address(row),
            RowChange::InsertAddressField(row) => self.mails.insert_address_field(row),
            RowChange::InsertDateField(row) => self.mails.insert_date_field(row),
            RowChange::InsertMessageId(row) => self.mails.insert_message_id(row),
            RowChange::InsertUnparsedMessage(row) => self.mails.insert_unparsed_message(row),
            RowChange::InsertSubscription(row) => self.heads.insert_subscription(row),
            other => {
                self.alter(other);
                Ok(())
            }
        }
    }

    // Makes a change that takes no memory.
    fn alter(&mut self, change: RowChange)
        requires fits { Fits self.old change }
        requires kind { IsInsertion change → ⊥ }
        requires elsewhere { (row : Mailbox) → change ≡ UpdateMailbox row → ⊥ }
        ensures { self.new ≡ applied self.old change }
    {
        self.are_whole();
        changes_keep_references();
        match change {
            RowChange::UpdateMailboxMessage(row) => self.marks.replace_mailbox_message(row),
            RowChange::UpdateCounters(row) => self.heads.set_counters(row),
            RowChange::RemoveMailboxMessage(key) => self.marks.remove_mailbox_message(key.0, key.1),
            RowChange::RemoveFlagRow(key) => self.marks.remove_flag(key.0, key.1, key.2),
            RowChange::RemoveSubscription(key) => {
                self.heads.remove_subscription(key.0, key.1.as_slice());
            }
            RowChange::DropMailbox(mailbox) => {
                self.heads.remove_mailbox(mailbox);
                self.marks.drop_mailbox(mailbox);
            }
            other => drop(other),
        }
    }

    /// Makes changes, one after another. Fails for want of memory alone, and has then made some of them, from the first on.
    pub fn apply_all(&mut self, changes: Vec<RowChange>) -> Result<(), AllocError>
        requires { CanRun self.old changes.items }
        ensures ok { OnOk result (Runs self.old changes.items self.new) }
        ensures err { OnErr result (RunsPart self.old changes.items self.new) }
    {
        for change in changes {
            self.apply(change)?;
        }
        Ok(())
    }
}

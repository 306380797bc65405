// The rows of the messages of a mailbox.
ghost use Rattle.std.specs.Prelude.{◌≡◌, ◌++◌, IfOk, OnOk, is_some};
ghost use Rattle.std.specs.List.{list_any};
ghost use Rattle.ordered_rows.specs.Listed.{row_at};
ghost use Rattle.row_tables.specs.Keys.{deleted_message_key, mailbox_message_key, uid_key};
ghost use Rattle.row_tables.specs.References.{uids_of};
ghost use Rattle.mail_stands.specs.MovingInbox.{messages_of};
ghost use Rattle.inbox_moves.specs.Rows.{row_in, rows_after};

use ordered_rows::laws::rows_at_keys;
use row_tables::{MailboxMessage, RowCount, Tables};
use std::alloc::{AllocError, Global};

/// The rows of a mailbox's messages, by their UIDs. Costs O(log n) over n rows for each.
pub fn messages(
    alloc: Global,
    tables: &Tables,
    mailbox: u32,
) -> Result<Vec<MailboxMessage>, AllocError>
    ensures { IfOk result (λ rows. rows.items ≡ messages_of mailbox tables.now.marks.mailbox_messages) }
{
    tables.are_whole();
    rows_at_keys::<MailboxMessage>();
    let rows = rows_found(alloc, tables, mailbox)?;
    Ok(rows)
}

// The rows that are found at the UIDs of the mailbox.
fn rows_found(
    alloc: Global,
    tables: &Tables,
    mailbox: u32,
) -> Result<Vec<MailboxMessage>, AllocError>
    ensures { IfOk result (λ rows. rows.items ≡ rows_after mailbox tables.now.marks.mailbox_messages (uids_of mailbox tables.now.marks.mailbox_messages)) }
{
    let mut rows = Vec::with_capacity(alloc, tables.entry_count(mailbox) as usize)?;
    let mut left = tables.uids(mailbox);
    'left: while let Some(uid) = left.next() {
        push_row(tables, mailbox, uid, &mut rows)?;
    }
    Ok(rows)
}

// Adds the row of a message.
fn push_row(
    tables: &Tables,
    mailbox: u32,
    uid: u32,
    rows: &mut Vec<MailboxMessage>,
) -> Result<(), AllocError>
    ensures { OnOk result (rows.new.items ≡ rows.old.items ++ row_in (row_at mailbox_message_key (uid_key mailbox uid) tables.now.marks.mailbox_messages)) }
{
    let mut count = RowCount::new();
    match tables.mailbox_row(mailbox, uid, &mut count) {
        Some(row) => {
            rows.push(copy_of(row))?;
            Ok(())
        }
        None => Ok(()),
    }
}

fn copy_of(row: &MailboxMessage) -> MailboxMessage
    ensures { result ≡ row.now }
{
    MailboxMessage {
        mailbox: row.mailbox,
        uid: row.uid,
        message: row.message,
        modseq: row.modseq,
        seconds: row.seconds,
        zone: row.zone,
    }
}

/// Whether one of the messages is a gone one too, as is so of no tables that stand for a store.
pub fn any_gone(tables: &Tables, rows: &[MailboxMessage]) -> bool
    ensures { result ≡ list_any (λ row. is_some (row_at deleted_message_key (uid_key row.mailbox row.uid) tables.now.marks.deleted_messages)) rows.now }
{
    rows.iter().any(|row| is_gone(tables, row))
}

fn is_gone(tables: &Tables, row: &MailboxMessage) -> bool
    ensures { result ≡ is_some (row_at deleted_message_key (uid_key row.now.mailbox row.now.uid) tables.now.marks.deleted_messages) }
{
    tables
        .deleted_messages_row((row.mailbox, row.uid))
        .is_some()
}

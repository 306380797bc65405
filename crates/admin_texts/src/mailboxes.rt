// The messages of all mailboxes as lines.
ghost use Rattle.std.specs.Prelude.{◌≡◌, ◌++◌, OnOk, flat_map};
ghost use Rattle.admin_texts.specs.Listing.{mailbox_message_line};
ghost use Rattle.admin_texts.specs.Mailboxes.{lines_at, lines_of};

use crate::lines::Lined;
use ordered_rows::laws::rows_at_keys;
use row_tables::{MailboxMessage, RowCount, Tables};
use std::alloc::AllocError;

// Prints the messages of all mailboxes, mailbox by mailbox.
pub(crate) fn print_mailboxes(out: &mut Vec<u8>, tables: &Tables) -> Result<(), AllocError>
    ensures { OnOk result (out.new.items ≡ out.old.items ++ flat_map mailbox_message_line tables.now.marks.mailbox_messages) }
{
    rows_at_keys::<MailboxMessage>();
    tables.are_whole();
    print_each(out, tables)
}

fn print_each(out: &mut Vec<u8>, tables: &Tables) -> Result<(), AllocError>
    ensures { OnOk result (out.new.items ≡ out.old.items ++ flat_map (λ b. lines_of tables.now.marks.mailbox_messages b.id) tables.now.heads.mailboxes) }
{
    let mut mailboxes = tables.mailboxes_rows();
    'mailboxes: while let Some(mailbox) = mailboxes.next() {
        print_mailbox(out, tables, mailbox.id)?;
    }
    Ok(())
}

fn print_mailbox(out: &mut Vec<u8>, tables: &Tables, mailbox: u32) -> Result<(), AllocError>
    ensures { OnOk result (out.new.items ≡ out.old.items ++ lines_of tables.now.marks.mailbox_messages mailbox) }
{
    let mut count = RowCount::new();
    let mut uids = tables.uids(mailbox);
    'uids: while let Some(uid) = uids.next() {
        print_message(out, tables, mailbox, uid, &mut count)?;
    }
    Ok(())
}

fn print_message(
    out: &mut Vec<u8>,
    tables: &Tables,
    mailbox: u32,
    uid: u32,
    count: &mut RowCount,
) -> Result<(), AllocError>
    ensures { OnOk result (out.new.items ≡ out.old.items ++ lines_at tables.now.marks.mailbox_messages mailbox uid) }
{
    match tables.mailbox_row(mailbox, uid, count) {
        Some(row) => row.print(out),
        None => Ok(()),
    }
}

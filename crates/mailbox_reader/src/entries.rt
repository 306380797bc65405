//! Messages of mailboxes.

ghost use Rattle.std.specs.Prelude.{◌≡◌, ◌+◌, ◌-◌, ◌^◌, ℕ, List, length, min, is_some};
ghost use Rattle.std.specs.Option.{option_copied, option_map};
ghost use Rattle.canon_writer.specs.Printing.{print};
ghost use Rattle.ordered_rows.specs.Listed.{row_at};
ghost use Rattle.row_tables.specs.Keys.{mailbox_message_key, uid_key};
ghost use Rattle.row_tables.specs.declared.contents.BodyPart.{BodyPart};
ghost use Rattle.row_store.specs.Holding.{stored_by};
ghost use Rattle.mail_world.specs.Worlds.{World};
ghost use Rattle.mail_stands.specs.Facts.{IsEntryRow, Tied, entry_in};
ghost use Rattle.mail_stands.specs.Stands.{Stands};

use mail_stands::entry_rows;
use row_tables::{MailboxMessage, RowCount, Tables};

/// The row of a message of a mailbox: the id of the mail, its mod-sequence and its internal date. None where the mailbox has no
/// message with the UID. A look-up, which is counted.
pub fn message_at<'a>(
    tables: &'a Tables,
    mailbox: u32,
    uid: u32,
    count: &mut RowCount,
) -> Option<&'a MailboxMessage>
    ensures row { option_copied result ≡ row_at mailbox_message_key (uid_key mailbox uid) tables.now.marks.mailbox_messages }
    ensures entry { (content : BodyPart → List ℕ) (w : World) → Stands content tables.now w
        → Tied (IsEntryRow (stored_by content tables.now)) (option_copied result) (entry_in mailbox uid w.mailboxes) }
    ensures count { count.new ≡ min (count.old + 1) (2 ^ 64 - 1) }
{
    entry_rows();
    tables.mailbox_row(mailbox, uid, count)
}

/// Whether a mailbox has a message with a UID. A look-up.
pub fn is_there(tables: &Tables, mailbox: u32, uid: u32) -> bool
    ensures row { result ≡ is_some (row_at mailbox_message_key (uid_key mailbox uid) tables.now.marks.mailbox_messages) }
    ensures entry { (content : BodyPart → List ℕ) (w : World) → Stands content tables.now w
        → result ≡ is_some (entry_in mailbox uid w.mailboxes) }
{
    let mut count = RowCount::new();
    message_at(tables, mailbox, uid, &mut count).is_some()
}

/// How many bytes the text of a message has, which is RFC822.SIZE (RFC 3501 §6.4.5). None where the mailbox has no message with the
/// UID. Two look-ups: the size is kept.
pub fn size_at(tables: &Tables, mailbox: u32, uid: u32) -> Option<u64>
    ensures { (content : BodyPart → List ℕ) (w : World) → Stands content tables.now w
        → result ≡ option_map (λ entry. length (print entry.message.mail.message)) (entry_in mailbox uid w.mailboxes) }
{
    let mut count = RowCount::new();
    let row = message_at(tables, mailbox, uid, &mut count)?;
    let message = tables.messages_row(row.message)?;
    Some(message.size)
}

//! The changes of rows by which messages are expunged.

ghost use Rattle.std.specs.Prelude.{◌≡◌, ◌<◌, map, IfOk};
ghost use Rattle.std.specs.List.{flat_map, list_any};
ghost use Rattle.row_tables.specs.References.{flags_at};
ghost use Rattle.row_tables.specs.InTurn.{entry_removals, gone_insertions};
ghost use Rattle.row_tables.specs.declared.change.RowChange.TheVariants.{InsertDeletedMessage};
ghost use Rattle.mail_stands.specs.MovingInbox.{flag_row_removals};
ghost use Rattle.mail_stands.specs.Storing.{is_there};
ghost use Rattle.mail_stands.specs.Expunging.{expunge_changes, flags_among, gone_of, there_of};
ghost use Rattle.mailbox_core.specs.Expunging.{is_gone};

use crate::arrivals::has_message;
use crate::flag_rows::with_next_modseq;
use row_tables::{DeletedMessage, Mailbox, RowChange, Tables};
use std::alloc::{AllocError, Global};

// Whether a mailbox has a message of some UID.
pub(crate) fn any_there(tables: &Tables, mailbox: u32, uids: &[u32]) -> bool
    ensures { result ≡ list_any (is_there tables.now mailbox) uids.now }
{
    uids.iter().any(|uid| has_message(tables, mailbox, *uid))
}

// Whether a message of some UID is a gone one too, as it is in no tables of a world.
pub(crate) fn any_gone(tables: &Tables, mailbox: u32, uids: &[u32]) -> bool
    ensures { result ≡ list_any (is_gone tables.now mailbox) uids.now }
{
    uids.iter().any(|uid| is_gone(tables, mailbox, *uid))
}

fn is_gone(tables: &Tables, mailbox: u32, uid: u32) -> bool
    ensures { result ≡ is_gone tables.now mailbox uid }
{
    has_message(tables, mailbox, uid) && tables.deleted_messages_row((mailbox, uid)).is_some()
}

// Of UIDs those that messages of a mailbox have.
pub(crate) fn there_of(
    alloc: Global,
    tables: &Tables,
    mailbox: u32,
    uids: &[u32],
) -> Result<Vec<u32>, AllocError>
    ensures { IfOk result (λ there. there.items ≡ there_of tables.now mailbox uids.now) }
{
    let mut there = Vec::new(alloc);
    for uid in uids {
        if has_message(tables, mailbox, *uid) {
            there.push(*uid)?;
        }
    }
    Ok(there)
}

// The changes by which messages of a mailbox go that are there.
pub(crate) fn expunged_rows(
    alloc: Global,
    tables: &Tables,
    row: Mailbox,
    uids: &[u32],
) -> Result<Vec<RowChange>, AllocError>
    requires { row.highest < 18446744073709551615 }
    ensures { IfOk result (λ changes. changes.items ≡ expunge_changes tables.now row uids.now) }
{
    let mut changes = flags_off(alloc, tables, row.id, uids)?;
    let mut entries = entries_off(alloc, row.id, uids)?;
    let mut gone = gone_ones(alloc, row.id, row.highest + 1, uids)?;
    changes.append(&mut entries)?;
    changes.append(&mut gone)?;
    changes.push(RowChange::UpdateMailbox(with_next_modseq(row)))?;
    Ok(changes)
}

// The changes that take all flags from messages.
fn flags_off(
    alloc: Global,
    tables: &Tables,
    mailbox: u32,
    uids: &[u32],
) -> Result<Vec<RowChange>, AllocError>
    ensures { IfOk result (λ changes. changes.items ≡ flag_row_removals (flags_among tables.now mailbox uids.now)) }
{
    let changes = each_off(alloc, tables, mailbox, uids)?;
    Ok(changes)
}

// The same, message by message.
fn each_off(
    alloc: Global,
    tables: &Tables,
    mailbox: u32,
    uids: &[u32],
) -> Result<Vec<RowChange>, AllocError>
    ensures { IfOk result (λ changes. changes.items ≡ flat_map (λ uid. flag_row_removals (flags_at mailbox uid tables.now.marks.flags)) uids.now) }
{
    let mut changes = Vec::new(alloc);
    for uid in uids {
        let mut more = flags_off_one(alloc, tables, mailbox, *uid)?;
        changes.append(&mut more)?;
    }
    Ok(changes)
}

// The changes that take all flags from one message.
fn flags_off_one(
    alloc: Global,
    tables: &Tables,
    mailbox: u32,
    uid: u32,
) -> Result<Vec<RowChange>, AllocError>
    ensures { IfOk result (λ changes. changes.items ≡ flag_row_removals (flags_at mailbox uid tables.now.marks.flags)) }
{
    let mut changes = Vec::new(alloc);
    let mut rows = tables.flags_at(mailbox, uid);
    'rows: while let Some(row) = rows.next() {
        changes.push(RowChange::RemoveFlagRow((row.mailbox, row.uid, row.flag)))?;
    }
    Ok(changes)
}

// The changes that take messages from a mailbox.
fn entries_off(alloc: Global, mailbox: u32, uids: &[u32]) -> Result<Vec<RowChange>, AllocError>
    ensures { IfOk result (λ changes. changes.items ≡ entry_removals mailbox uids.now) }
{
    uids.iter()
        .map(|uid| RowChange::RemoveMailboxMessage((mailbox, *uid)))
        .collect(alloc)
}

// The changes that keep UIDs of a mailbox as gone ones.
fn gone_ones(
    alloc: Global,
    mailbox: u32,
    modseq: u64,
    uids: &[u32],
) -> Result<Vec<RowChange>, AllocError>
    ensures { IfOk result (λ changes. changes.items ≡ gone_insertions (gone_of mailbox modseq uids.now)) }
{
    let changes = each_gone(alloc, mailbox, modseq, uids)?;
    Ok(changes)
}

// The same, UID by UID.
fn each_gone(
    alloc: Global,
    mailbox: u32,
    modseq: u64,
    uids: &[u32],
) -> Result<Vec<RowChange>, AllocError>
    ensures { IfOk result (λ changes. changes.items ≡ map (λ uid. InsertDeletedMessage (record { mailbox = mailbox; uid = uid; modseq = modseq })) uids.now) }
{
    uids.iter()
        .map(|uid| {
            RowChange::InsertDeletedMessage(DeletedMessage {
                mailbox,
                uid: *uid,
                modseq,
            })
        })
        .collect(alloc)
}

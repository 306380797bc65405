//! The changes of rows by which flags are stored.

ghost use Rattle.std.specs.Prelude.{◌≡◌, ◌+◌, ◌++◌, ◌∷◌, ◌<◌, [], IfOk};
ghost use Rattle.std.specs.List.{flat_map};
ghost use Rattle.row_tables.specs.InTurn.{flag_removals};
ghost use Rattle.row_tables.specs.declared.change.RowChange.TheVariants.{UpdateMailbox};
ghost use Rattle.mail_stands.specs.Storing.{added, dropped, message_changes, with_modseq, with_next_modseq};

use crate::arrivals::flag_rows;
use crate::flag_tests::{differs, loses};
use imap_grammar::{Flag, FlagChange};
use row_tables::{Mailbox, MailboxMessage, RowChange, RowCount, Tables};
use std::alloc::{AllocError, Global};

// The changes that take from a message the flags that it loses.
fn removals(
    alloc: Global,
    tables: &Tables,
    mailbox: u32,
    uid: u32,
    how: FlagChange,
    flags: &[Flag],
) -> Result<Vec<RowChange>, AllocError>
    ensures { IfOk result (λ changes. changes.items ≡ flag_removals mailbox uid (dropped tables.now mailbox how flags.now uid)) }
{
    let mut changes = Vec::new(alloc);
    let mut rows = tables.flags_at(mailbox, uid);
    'rows: while let Some(row) = rows.next() {
        if loses(tables, how, flags, row.flag) {
            changes.push(RowChange::RemoveFlagRow((mailbox, uid, row.flag)))?;
        }
    }
    Ok(changes)
}

// Those of the flags of ids that a message lacks.
fn added(
    alloc: Global,
    tables: &Tables,
    mailbox: u32,
    uid: u32,
    ids: &[u64],
) -> Result<Vec<u64>, AllocError>
    ensures { IfOk result (λ lacked. lacked.items ≡ added tables.now mailbox ids.now uid) }
{
    let mut lacked = Vec::new(alloc);
    for id in ids {
        if tables.flags_row((mailbox, uid, *id)).is_none() {
            lacked.push(*id)?;
        }
    }
    Ok(lacked)
}

// The row of a message whose flags changed at a mod-sequence.
fn with_modseq(row: &MailboxMessage, modseq: u64) -> MailboxMessage
    ensures { result ≡ with_modseq modseq row.now }
{
    MailboxMessage {
        mailbox: row.mailbox,
        uid: row.uid,
        message: row.message,
        modseq,
        seconds: row.seconds,
        zone: row.zone,
    }
}

// The changes that store flags for one message, where those that it may get have these ids.
fn message_changes(
    alloc: Global,
    tables: &Tables,
    mailbox: u32,
    uid: u32,
    how: FlagChange,
    flags: &[Flag],
    ids: &[u64],
    modseq: u64,
) -> Result<Vec<RowChange>, AllocError>
    ensures { IfOk result (λ changes. changes.items ≡ message_changes tables.now mailbox how flags.now ids.now modseq uid) }
{
    if !differs(tables, mailbox, uid, how, flags) {
        return Ok(Vec::new(alloc));
    }
    let mut count = RowCount::new();
    let Some(row) = tables.mailbox_row(mailbox, uid, &mut count) else {
        return Ok(Vec::new(alloc));
    };
    let row = with_modseq(row, modseq);
    let lacked = added(alloc, tables, mailbox, uid, ids)?;
    let mut insertions = flag_rows(alloc, mailbox, uid, lacked.as_slice())?;
    let mut changes = removals(alloc, tables, mailbox, uid, how, flags)?;
    changes.append(&mut insertions)?;
    changes.push(RowChange::UpdateMailboxMessage(row))?;
    Ok(changes)
}

// Behind other changes, those that store flags for messages one after another.
fn all_changes(
    alloc: Global,
    tables: &Tables,
    mailbox: u32,
    uids: &[u32],
    how: FlagChange,
    flags: &[Flag],
    ids: &[u64],
    modseq: u64,
    names: Vec<RowChange>,
) -> Result<Vec<RowChange>, AllocError>
    ensures { IfOk result (λ changes. changes.items ≡ names.items ++ flat_map (message_changes tables.now mailbox how flags.now ids.now modseq) uids.now) }
{
    let mut changes = names;
    for uid in uids {
        let mut more = message_changes(alloc, tables, mailbox, *uid, how, flags, ids, modseq)?;
        changes.append(&mut more)?;
    }
    Ok(changes)
}

// The mailbox with the next mod-sequence.
pub(crate) fn with_next_modseq(row: Mailbox) -> Mailbox
    requires { row.highest < 18446744073709551615 }
    ensures { result ≡ with_next_modseq row }
{
    Mailbox {
        id: row.id,
        owner: row.owner,
        name: row.name,
        uidnext: row.uidnext,
        first_recent: row.first_recent,
        highest: row.highest + 1,
    }
}

// Behind the changes that name flags, those that store flags for messages of a mailbox.
pub(crate) fn stored_rows(
    alloc: Global,
    tables: &Tables,
    row: Mailbox,
    uids: &[u32],
    how: FlagChange,
    flags: &[Flag],
    ids: &[u64],
    names: Vec<RowChange>,
) -> Result<Vec<RowChange>, AllocError>
    requires { row.highest < 18446744073709551615 }
    ensures { IfOk result (λ changes. changes.items
        ≡ names.items ++ (flat_map (message_changes tables.now row.id how flags.now ids.now (row.highest + 1)) uids.now ++ UpdateMailbox (with_next_modseq row) ∷ [])) }
{
    let modseq = row.highest + 1;
    let mut changes = all_changes(alloc, tables, row.id, uids, how, flags, ids, modseq, names)?;
    changes.push(RowChange::UpdateMailbox(with_next_modseq(row)))?;
    Ok(changes)
}

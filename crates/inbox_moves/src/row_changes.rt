// The changes, one kind after another.
ghost use Rattle.std.specs.Prelude.{◌≡◌, ◌+◌, ◌++◌, ◌<◌, ◌≤◌, nat_lt, length, count_by, IfOk, OnOk};
ghost use Rattle.row_tables.specs.References.{flags_of};
ghost use Rattle.row_tables.specs.InTurn.{entry_insertions, entry_removals, gone_insertions};
ghost use Rattle.mail_world.specs.Users.{next_id};
ghost use Rattle.mail_stands.specs.MovingInbox.{emptied, flag_ids_of, flag_row_insertions, flag_row_removals, gone_rows, highest_of, messages_of, moved_flags, moved_rows, rename_inbox_changes, taking_mailbox};
ghost use Rattle.inbox_moves.specs.Rows.{flags_for, made_changes, uids_in};

use octets::Octets;
use row_tables::{Counters, DeletedMessage, FlagRow, Mailbox, MailboxMessage, RowChange, Tables};
use std::alloc::{AllocError, Global};

/// The changes by which the messages of INBOX, whose rows these are, go to a new mailbox with the next id and this name. There are
/// at most 100,000 messages, and where there is one a mod-sequence is left. Costs O(log n) over n rows for each message and a step for each of its flags.
pub fn moving_changes(
    alloc: Global,
    tables: &Tables,
    next: u32,
    to: &[u8],
    inbox: &Mailbox,
    rows: &[MailboxMessage],
) -> Result<Vec<RowChange>, AllocError>
    requires next { next ≡ tables.now.heads.counters.next }
    requires rows { rows.now ≡ messages_of inbox.now.id tables.now.marks.mailbox_messages }
    requires few { length rows.now ≤ 100000 }
    requires modseq { 1 ≤ length rows.now → inbox.now.highest < 18446744073709551615 }
    ensures { IfOk result (λ changes. changes.items ≡ rename_inbox_changes tables.now to.now inbox.now) }
{
    let mut changes = made(alloc, next, to, inbox, rows)?;
    insert_entries(&mut changes, next, rows)?;
    insert_all_flags(&mut changes, tables, next, rows)?;
    remove_flags(&mut changes, tables, inbox.id)?;
    remove_entries(&mut changes, inbox.id, rows)?;
    empty(alloc, &mut changes, inbox, rows)?;
    Ok(changes)
}

// The new mailbox, and the id after its.
fn made(
    alloc: Global,
    next: u32,
    to: &[u8],
    inbox: &Mailbox,
    rows: &[MailboxMessage],
) -> Result<Vec<RowChange>, AllocError>
    requires few { length rows.now ≤ 100000 }
    ensures { IfOk result (λ changes. changes.items ≡ made_changes (taking_mailbox next to.now inbox.now rows.now) (next_id next)) }
{
    let mut changes = Vec::new(alloc);
    let mailbox = taking(alloc, next, to, inbox, rows)?;
    changes.push(RowChange::InsertMailbox(mailbox))?;
    changes.push(RowChange::UpdateCounters(Counters {
        next: id_after(next),
    }))?;
    Ok(changes)
}

// The mailbox that takes the messages.
fn taking(
    alloc: Global,
    id: u32,
    to: &[u8],
    inbox: &Mailbox,
    rows: &[MailboxMessage],
) -> Result<Mailbox, AllocError>
    requires few { length rows.now ≤ 100000 }
    ensures { IfOk result (λ mailbox. mailbox ≡ taking_mailbox id to.now inbox.now rows.now) }
{
    let name = Octets::new(to.to_vec(alloc)?);
    Ok(Mailbox {
        id,
        owner: inbox.owner,
        name,
        uidnext: 1 + rows.len() as u32,
        first_recent: 1 + below(rows, inbox.first_recent),
        highest: highest_of(rows),
    })
}

// How many of the messages have a UID below one.
fn below(rows: &[MailboxMessage], uid: u32) -> u32
    requires few { length rows.now ≤ 100000 }
    ensures count { result ≡ count_by (λ r. nat_lt r.uid uid) rows.now }
    ensures few { result ≤ 100000 }
{
    rows.iter().filter(|row| row.uid < uid).count() as u32
}

fn highest_of(rows: &[MailboxMessage]) -> u64
    ensures { result ≡ highest_of rows.now }
{
    match rows {
        [] => 1,
        _ => 2,
    }
}

// The id of the mailbox after one.
fn id_after(id: u32) -> u32
    ensures { result ≡ next_id id }
{
    if id == u32::MAX { 0 } else { id + 1 }
}

// Adds the messages to a mailbox, as UIDs from 1 on.
fn insert_entries(
    changes: &mut Vec<RowChange>,
    id: u32,
    rows: &[MailboxMessage],
) -> Result<(), AllocError>
    requires { length rows.now ≤ 100000 }
    ensures { OnOk result (changes.new.items ≡ changes.old.items ++ entry_insertions (moved_rows id 1 2 rows.now)) }
{
    let mut uid: u32 = 1;
    'rows: for row in rows {
        changes.push(RowChange::InsertMailboxMessage(moved(row, id, uid)))?;
        uid += 1;
    }
    Ok(())
}

// A message in another mailbox.
fn moved(row: &MailboxMessage, id: u32, uid: u32) -> MailboxMessage
    ensures { result ≡ record row.now { mailbox = id; uid = uid; modseq = 2 } }
{
    MailboxMessage {
        mailbox: id,
        uid,
        message: row.message,
        modseq: 2,
        seconds: row.seconds,
        zone: row.zone,
    }
}

// Adds their flags.
fn insert_all_flags(
    changes: &mut Vec<RowChange>,
    tables: &Tables,
    id: u32,
    rows: &[MailboxMessage],
) -> Result<(), AllocError>
    requires { length rows.now ≤ 100000 }
    ensures { OnOk result (changes.new.items ≡ changes.old.items ++ flag_row_insertions (moved_flags id 1 tables.now.marks.flags rows.now)) }
{
    let mut uid: u32 = 1;
    'rows: for row in rows {
        insert_flags(changes, tables, id, uid, row)?;
        uid += 1;
    }
    Ok(())
}

// Adds the flags of a message to another one.
fn insert_flags(
    changes: &mut Vec<RowChange>,
    tables: &Tables,
    id: u32,
    uid: u32,
    row: &MailboxMessage,
) -> Result<(), AllocError>
    ensures { OnOk result (changes.new.items ≡ changes.old.items ++ flag_row_insertions (flags_for id uid (flag_ids_of row.now tables.now.marks.flags))) }
{
    let mut flags = tables.flags_at(row.mailbox, row.uid);
    'flags: while let Some(flag) = flags.next() {
        changes.push(RowChange::InsertFlagRow(FlagRow {
            mailbox: id,
            uid,
            flag: flag.flag,
        }))?;
    }
    Ok(())
}

// Takes all flags of the messages of a mailbox.
fn remove_flags(
    changes: &mut Vec<RowChange>,
    tables: &Tables,
    mailbox: u32,
) -> Result<(), AllocError>
    ensures { OnOk result (changes.new.items ≡ changes.old.items ++ flag_row_removals (flags_of mailbox tables.now.marks.flags)) }
{
    let mut flags = tables.flags_of(mailbox);
    'flags: while let Some(flag) = flags.next() {
        changes.push(RowChange::RemoveFlagRow((flag.mailbox, flag.uid, flag.flag)))?;
    }
    Ok(())
}

// Takes the messages from their mailbox.
fn remove_entries(
    changes: &mut Vec<RowChange>,
    mailbox: u32,
    rows: &[MailboxMessage],
) -> Result<(), AllocError>
    ensures { OnOk result (changes.new.items ≡ changes.old.items ++ entry_removals mailbox (uids_in rows.now)) }
{
    'rows: for row in rows {
        changes.push(RowChange::RemoveMailboxMessage((mailbox, row.uid)))?;
    }
    Ok(())
}

// Adds the messages as gone ones.
fn insert_gone(
    changes: &mut Vec<RowChange>,
    modseq: u64,
    rows: &[MailboxMessage],
) -> Result<(), AllocError>
    ensures { OnOk result (changes.new.items ≡ changes.old.items ++ gone_insertions (gone_rows modseq rows.now)) }
{
    'rows: for row in rows {
        changes.push(RowChange::InsertDeletedMessage(DeletedMessage {
            mailbox: row.mailbox,
            uid: row.uid,
            modseq,
        }))?;
    }
    Ok(())
}

// Adds the messages as gone ones with the next mod-sequence, which INBOX takes. Nothing is added where there is none.
fn empty(
    alloc: Global,
    changes: &mut Vec<RowChange>,
    inbox: &Mailbox,
    rows: &[MailboxMessage],
) -> Result<(), AllocError>
    requires { 1 ≤ length rows.now → inbox.now.highest < 18446744073709551615 }
    ensures { OnOk result (changes.new.items ≡ changes.old.items ++ (gone_insertions (gone_rows (inbox.now.highest + 1) rows.now) ++ emptied inbox.now rows.now)) }
{
    match rows {
        [] => Ok(()),
        _ => {
            let row = with_next_modseq(alloc, inbox)?;
            insert_gone(changes, row.highest, rows)?;
            changes.push(RowChange::UpdateMailbox(row))?;
            Ok(())
        }
    }
}

fn with_next_modseq(alloc: Global, row: &Mailbox) -> Result<Mailbox, AllocError>
    requires { row.now.highest < 18446744073709551615 }
    ensures { IfOk result (λ new. new ≡ record row.now { highest = row.now.highest + 1 }) }
{
    let name = Octets::new(row.name.as_slice().to_vec(alloc)?);
    Ok(Mailbox {
        id: row.id,
        owner: row.owner,
        name,
        uidnext: row.uidnext,
        first_recent: row.first_recent,
        highest: row.highest + 1,
    })
}

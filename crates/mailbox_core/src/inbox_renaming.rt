//! INBOX, which hands its messages to a new mailbox.

ghost use Rattle.std.specs.Prelude.{◌≡◌, ◌∷◌, ◌||◌, ◌==◌, ◌≤◌, ◌↔◌, ℕ, [], List, Some, None, IsTrue, false, true, length, nat_le, IfOk, IfErr};
ghost use Rattle.ordered_rows.specs.RowKey.{number_key};
ghost use Rattle.ordered_rows.specs.Listed.{row_at};
ghost use Rattle.row_tables.specs.Keys.{mailbox_key};
ghost use Rattle.row_tables.specs.Fits.{IsText};
ghost use Rattle.row_store.specs.Kept.{IfContents};
ghost use Rattle.mail_world.specs.Worlds.{World};
ghost use Rattle.mail_world.specs.Names.{is_inbox};
ghost use Rattle.mail_world.specs.Limits.{most_mailboxes, most_messages};
ghost use Rattle.mail_world.specs.Changes.{Absent, BadName, Exists, Full, Rename};
ghost use Rattle.mail_stands.specs.Stands.{Stands};
ghost use Rattle.mail_stands.specs.MovingInbox.{keeps_messages, messages_of, rename_inbox_refused};
ghost use Rattle.mail_stands.specs.Refusals.{mailboxes_of};
ghost use Rattle.mailbox_core.specs.Calls.{Behaves, Makes};
ghost use Rattle.mailbox_core.specs.Faults.{IsRefusal, RefusesFor};
ghost use Rattle.mailbox_core.specs.MovingInbox.{IsMovable, MayMove, PlansMoving};
ghost use Rattle.mailbox_core.specs.Rooms.{PlansNone, RefusesPlan};

use crate::MailFault;
use crate::arrivals::LAST_MODSEQ;
use crate::finishing::finish;
use crate::names::{canonical_name, is_mailbox_name};
use crate::new_rows::next_mailbox;
use crate::rooms::has_most_mailboxes;
use disk_model::Disk;
use inbox_moves::{any_gone, messages, moving_changes};
use ordered_rows::laws::insertion;
use row_store::RowStore;
use row_tables::{Mailbox, RowChange, Tables};
use std::alloc::Global;

// How many messages a mailbox may have.
const MOST_MESSAGES: u64 = 100_000;

// Renames INBOX of a user: a new mailbox takes its messages, as UIDs from 1 on in their order, and those that were recent still are;
// INBOX stays without them, and they are gone ones there from now on (RFC 3501 §6.3.5, RFC 7162 §3.2.5.1). Mailboxes inferior to INBOX
// stay as they are. A new name that is INBOX in any case is `INBOX`, which is there.
//
// Refused with `BadName` where no mailbox can have the new name, with `Absent` where the user has no INBOX, with `Exists` where the user
// has a mailbox of the new name, and with `Full` where no mailbox more can be made, or where there are messages and no mod-sequence is
// left. Costs O(log n) over n rows for each message and for each of its flags, and one commit.
pub(crate) fn rename_inbox<D: Disk>(
    alloc: Global,
    store: &mut RowStore<D>,
    user: u32,
    to: &[u8],
) -> Result<(), MailFault>
    requires usable { store.old.spent ≡ false }
    ensures makes { IfContents D.told store.old (λ content. (w : World) (from : List ℕ) → Stands content store.old.tables w → is_inbox from ≡ true
        → Makes D.told result store.old store.new w (Rename user from to.now) tt) }
    ensures behaves { Behaves D.told result store.old store.new }
    ensures refuses { RefusesFor (BadName ∷ Absent ∷ Exists ∷ Full ∷ []) result }
{
    mail_stands::rename_inbox();
    store.is_settled();
    store.tables().are_whole();
    match plan_moving(alloc, store.tables(), user, canonical_name(to)) {
        Ok(changes) => finish(store, changes, ()),
        Err(fault) => Err(fault),
    }
}

// The changes by which the messages of a user's INBOX go to a new mailbox.
fn plan_moving(
    alloc: Global,
    tables: &Tables,
    owner: u32,
    to: &[u8],
) -> Result<Vec<RowChange>, MailFault>
    ensures plan { IfOk result (λ changes. PlansMoving tables.now owner to.now changes.items) }
    ensures none { IfErr result (λ fault. PlansNone (IsMovable tables.now owner to.now) fault (rename_inbox_refused tables.now owner to.now)) }
    ensures refuses { IfErr result (RefusesPlan (BadName ∷ Absent ∷ Exists ∷ Full ∷ [])) }
{
    let inbox = inbox_to_move(tables, owner, to)?;
    let rows = messages(alloc, tables, inbox.id)?;
    if any_gone(tables, rows.as_slice()) {
        return Err(MailFault::Full);
    }
    let next = next_mailbox(tables);
    let changes = moving_changes(alloc, tables, next, to, inbox, rows.as_slice())?;
    Ok(changes)
}

// The row of a user's INBOX, if its messages may go to a new mailbox of a name.
fn inbox_to_move<'a>(tables: &'a Tables, owner: u32, to: &[u8]) -> Result<&'a Mailbox, MailFault>
    ensures found { IfOk result (λ row. MayMove tables.now owner to.now row.now) }
    ensures none { IfErr result (λ fault. PlansNone (IsMovable tables.now owner to.now) fault (rename_inbox_refused tables.now owner to.now)) }
    ensures refuses { IfErr result (IsRefusal (BadName ∷ Absent ∷ Exists ∷ Full ∷ [])) }
{
    insertion::<Mailbox>();
    tables.are_whole();
    if !is_mailbox_name(to) {
        return Err(MailFault::BadName);
    }
    let Some(row) = tables.mailbox_named(owner, b"INBOX") else {
        return Err(MailFault::Absent);
    };
    if tables.mailbox_named(owner, to).is_some() {
        return Err(MailFault::Exists);
    }
    if has_no_room(tables, owner) {
        return Err(MailFault::Full);
    }
    if keeps_messages(tables, row) {
        return Err(MailFault::Full);
    }
    if !fits(tables, row) {
        return Err(MailFault::Full);
    }
    Ok(row)
}

// Whether no mailbox more can be made for a user.
fn has_no_room(tables: &Tables, owner: u32) -> bool
    ensures { result ≡ (nat_le most_mailboxes (length (mailboxes_of owner tables.now.heads.mailboxes)) || tables.now.heads.counters.next == 0) }
{
    has_most_mailboxes(tables, owner) || next_mailbox(tables) == 0
}

// Whether a mailbox has messages, and no mod-sequence left with which they could go.
#[tactic(auto, using(crate::proofs::MovedInbox::messages_counted))]
fn keeps_messages(tables: &Tables, row: &Mailbox) -> bool
    ensures { result ≡ keeps_messages tables.now (Some row.now) }
{
    tables.entry_count(row.id) >= 1 && row.highest >= LAST_MODSEQ
}

// Whether the next id is free, and INBOX has a name that rows may have and no more messages than a mailbox may have, as is so of all
// tables that stand for a store.
#[tactic(auto, using(crate::proofs::MovedInbox::rows_counted))]
fn fits(tables: &Tables, row: &Mailbox) -> bool
    ensures { IsTrue result ↔ ((row_at mailbox_key (number_key tables.now.heads.counters.next) tables.now.heads.mailboxes ≡ None) × IsText row.now.name
        × (length (messages_of row.now.id tables.now.marks.mailbox_messages) ≤ most_messages)) }
{
    let is_free = tables.mailboxes_row(next_mailbox(tables)).is_none();
    let is_text = row.name.len() <= u32::MAX as usize;
    let are_few = tables.entry_count(row.id) <= MOST_MESSAGES;
    is_free && is_text && are_few
}

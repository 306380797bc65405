//! Messages that are expunged.

ghost use Rattle.std.specs.Prelude.{◌≡◌, ◌∷◌, [], true, false, IfOk, IfErr, MatchOption};
ghost use Rattle.std.specs.List.Sorted.{IsStrictlySortedBy};
ghost use Rattle.std.specs.Ordering.{nat_cmp};
ghost use Rattle.row_tables.specs.References.{HasMailbox};
ghost use Rattle.row_store.specs.Kept.{IfContents};
ghost use Rattle.mail_world.specs.Worlds.{World};
ghost use Rattle.mail_world.specs.Changes.{Expunge, Full};
ghost use Rattle.mail_stands.specs.Stands.{Stands};
ghost use Rattle.mail_stands.specs.Expunging.{expunge_refused};
ghost use Rattle.mailbox_core.specs.Calls.{Behaves, Makes};
ghost use Rattle.mailbox_core.specs.Faults.{IsRefusal, RefusesFor};
ghost use Rattle.mailbox_core.specs.Messages.{has_one_of};
ghost use Rattle.mailbox_core.specs.Rooms.{PlansNone, RefusesPlan};
ghost use Rattle.mailbox_core.specs.Expunging.{CanGo, HasNoneOf, MayExpunge, PlansExpunging};

use crate::MailFault;
use crate::arrivals::LAST_MODSEQ;
use crate::finishing::finish;
use crate::gone_rows::{any_gone, any_there, expunged_rows, there_of};
use crate::new_rows::copy_of;
use disk_model::Disk;
use row_store::RowStore;
use row_tables::{Mailbox, RowChange, Tables};
use std::alloc::Global;

/// Expunges messages of a mailbox, which is there, by their UIDs and whatever their flags (RFC 3501 §6.4.3, RFC 4315 §2.1), in one
/// change: they go with their flags, and their UIDs are kept as gone ones, with the mod-sequence behind the highest of the mailbox, for
/// as long as it lives (RFC 5162 §3.2). UIDs that no message has are passed over; where none has one, nothing is written. Answers
/// whether any message went. Who calls it hands in the UIDs of those messages that are to go, as those with \Deleted.
///
/// The UIDs ascend.
///
/// Refused with `Full` where a message would go and no mod-sequence is left. Costs O(log n) over n rows for each UID and each flag of
/// those messages, and one commit.
pub fn expunge<D: Disk>(
    alloc: Global,
    store: &mut RowStore<D>,
    mailbox: u32,
    uids: &[u32],
) -> Result<bool, MailFault>
    requires usable { store.old.spent ≡ false }
    requires fresh { store.old.placed ≡ [] }
    requires there { HasMailbox store.old.tables mailbox }
    requires uids { IsStrictlySortedBy nat_cmp uids.now }
    ensures makes { IfContents D.told store.old (λ content. (w : World) → Stands content store.old.tables w
        → Makes D.told result store.old store.new w (Expunge mailbox uids.now) (has_one_of w mailbox uids.now)) }
    ensures behaves { Behaves D.told result store.old store.new }
    ensures refuses { RefusesFor (Full ∷ []) result }
{
    mail_stands::expunge();
    mail_stands::entry_rows();
    store.is_settled();
    store.tables().are_whole();
    match plan_expunging(alloc, store.tables(), mailbox, uids) {
        Ok(Some(changes)) => finish(store, changes, true),
        Ok(None) => Ok(false),
        Err(fault) => Err(fault),
    }
}

// The changes that expunge messages of a mailbox, which is there; none where none of the messages is there.
fn plan_expunging(
    alloc: Global,
    tables: &Tables,
    mailbox: u32,
    uids: &[u32],
) -> Result<Option<Vec<RowChange>>, MailFault>
    requires there { HasMailbox tables.now mailbox }
    ensures plan { IfOk result (λ plan. MatchOption plan (HasNoneOf tables.now mailbox uids.now) (λ changes. PlansExpunging tables.now mailbox uids.now changes.items)) }
    ensures none { IfErr result (λ fault. PlansNone (CanGo tables.now mailbox uids.now) fault (expunge_refused tables.now mailbox uids.now)) }
    ensures refuses { IfErr result (RefusesPlan (Full ∷ [])) }
{
    let found = row_to_lessen(tables, mailbox, uids)?;
    let Some(row) = found else {
        return Ok(None);
    };
    let row = copy_of(alloc, row)?;
    let taken = there_of(alloc, tables, mailbox, uids)?;
    let changes = expunged_rows(alloc, tables, row, taken.as_slice())?;
    Ok(Some(changes))
}

// The row of a mailbox, which is there, if some of the messages are there.
fn row_to_lessen<'a>(
    tables: &'a Tables,
    mailbox: u32,
    uids: &[u32],
) -> Result<Option<&'a Mailbox>, MailFault>
    requires there { HasMailbox tables.now mailbox }
    ensures found { IfOk result (λ found. MatchOption found (HasNoneOf tables.now mailbox uids.now) (λ row. MayExpunge tables.now mailbox uids.now row.now)) }
    ensures none { IfErr result (λ fault. PlansNone (CanGo tables.now mailbox uids.now) fault (expunge_refused tables.now mailbox uids.now)) }
    ensures refuses { IfErr result (IsRefusal (Full ∷ [])) }
{
    let Some(row) = tables.mailboxes_row(mailbox) else {
        unreachable!()
    };
    if !any_there(tables, mailbox, uids) {
        return Ok(None);
    }
    if row.highest >= LAST_MODSEQ {
        return Err(MailFault::Full);
    }
    if row.name.len() > u32::MAX as usize {
        return Err(MailFault::Full);
    }
    if any_gone(tables, mailbox, uids) {
        return Err(MailFault::Full);
    }
    Ok(Some(row))
}

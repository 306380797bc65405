//! Flags of messages that are stored.

ghost use Rattle.std.specs.Prelude.{◌≡◌, ◌∷◌, [], true, false, None, IfOk, IfErr, MatchOption};
ghost use Rattle.std.specs.Ordering.{nat_cmp};
ghost use Rattle.std.specs.List.Sorted.{IsStrictlySortedBy};
ghost use Rattle.row_tables.specs.References.{HasMailbox};
ghost use Rattle.row_store.specs.Kept.{IfContents};
ghost use Rattle.mail_world.specs.Flags.{are_distinct};
ghost use Rattle.mail_world.specs.Worlds.{World};
ghost use Rattle.mail_world.specs.Changes.{Full, StoreFlags};
ghost use Rattle.mail_stands.specs.Stands.{Stands};
ghost use Rattle.mail_stands.specs.Storing.{store_refused};
ghost use Rattle.mailbox_core.specs.Calls.{Behaves, Makes};
ghost use Rattle.mailbox_core.specs.Faults.{IsRefusal, RefusesFor};
ghost use Rattle.mailbox_core.specs.Messages.{AreProper};
ghost use Rattle.mailbox_core.specs.Rooms.{PlansNone, RefusesPlan};
ghost use Rattle.mailbox_core.specs.Storing.{HasTextName, KeepsFlags, MayStore, NamesGiven, PlansStoring};

use crate::MailFault;
use crate::arrivals::{FlagPlan, LAST_MODSEQ, distinct_flags, plan_flags};
use crate::finishing::finish;
use crate::flag_rows::stored_rows;
use crate::flag_tests::{any_changed, any_has_too_many, given};
use crate::new_rows::copy_of;
use disk_model::Disk;
use imap_grammar::{Flag, FlagChange};
use row_store::RowStore;
use row_tables::{Mailbox, RowChange, Tables};
use std::alloc::{AllocError, Global};

/// Stores flags for messages of a mailbox, which is there, by their UIDs (RFC 3501 §6.4.6): they are the message's flags from now on,
/// are added to these, or are taken off. UIDs that no message has are passed over. The messages whose flags change take the
/// mod-sequence behind the highest of the mailbox, in one change; where none change, nothing is written.
///
/// The UIDs ascend. Each flag is one that a message may have, and is named once.
///
/// Refused with `Full` where a message would have more than 30 flags, or where flags change and no mod-sequence is left; no flag of
/// any message is stored then. Costs O(log n) over n rows for each pair of a message and a flag that it has or that is named, and
/// one commit.
pub fn store_flags<D: Disk>(
    alloc: Global,
    store: &mut RowStore<D>,
    mailbox: u32,
    uids: &[u32],
    how: FlagChange,
    flags: &[Flag],
) -> Result<(), MailFault>
    requires usable { store.old.spent ≡ false }
    requires fresh { store.old.placed ≡ [] }
    requires there { HasMailbox store.old.tables mailbox }
    requires uids { IsStrictlySortedBy nat_cmp uids.now }
    requires flags { AreProper flags.now }
    requires once { are_distinct flags.now ≡ true }
    ensures makes { IfContents D.told store.old (λ content. (w : World) → Stands content store.old.tables w
        → Makes D.told result store.old store.new w (StoreFlags mailbox uids.now how flags.now) tt) }
    ensures behaves { Behaves D.told result store.old store.new }
    ensures refuses { RefusesFor (Full ∷ []) result }
{
    mail_stands::store_flags();
    store.is_settled();
    store.tables().are_whole();
    match plan_storing(alloc, store.tables(), mailbox, uids, how, flags) {
        Ok(Some(changes)) => finish(store, changes, ()),
        Ok(None) => Ok(()),
        Err(fault) => Err(fault),
    }
}

// The changes that store flags for messages of a mailbox, which is there; none where no message's flags change.
fn plan_storing(
    alloc: Global,
    tables: &Tables,
    mailbox: u32,
    uids: &[u32],
    how: FlagChange,
    flags: &[Flag],
) -> Result<Option<Vec<RowChange>>, MailFault>
    requires there { HasMailbox tables.now mailbox }
    requires flags { AreProper flags.now }
    requires once { are_distinct flags.now ≡ true }
    ensures plan { IfOk result (λ plan. MatchOption plan (KeepsFlags tables.now mailbox uids.now how flags.now)
        (λ changes. PlansStoring tables.now mailbox uids.now how flags.now changes.items)) }
    ensures none { IfErr result (λ fault. PlansNone (HasTextName tables.now mailbox) fault (store_refused tables.now mailbox uids.now how flags.now)) }
    ensures refuses { IfErr result (RefusesPlan (Full ∷ [])) }
{
    let found = row_to_change(tables, mailbox, uids, how, flags)?;
    let Some(row) = found else {
        return Ok(None);
    };
    let row = copy_of(alloc, row)?;
    let FlagPlan { ids, names } = plan_given(alloc, tables, given(how, flags))?;
    let changes = stored_rows(alloc, tables, row, uids, how, flags, ids.as_slice(), names)?;
    Ok(Some(changes))
}

// The row of a mailbox, which is there, if flags of some message change.
fn row_to_change<'a>(
    tables: &'a Tables,
    mailbox: u32,
    uids: &[u32],
    how: FlagChange,
    flags: &[Flag],
) -> Result<Option<&'a Mailbox>, MailFault>
    requires there { HasMailbox tables.now mailbox }
    ensures found { IfOk result (λ found. MatchOption found (KeepsFlags tables.now mailbox uids.now how flags.now)
        (λ row. MayStore tables.now mailbox uids.now how flags.now row.now)) }
    ensures none { IfErr result (λ fault. PlansNone (HasTextName tables.now mailbox) fault (store_refused tables.now mailbox uids.now how flags.now)) }
    ensures refuses { IfErr result (IsRefusal (Full ∷ [])) }
{
    let Some(row) = tables.mailboxes_row(mailbox) else {
        unreachable!()
    };
    if any_has_too_many(tables, mailbox, uids, how, flags) {
        return Err(MailFault::Full);
    }
    if !any_changed(tables, mailbox, uids, how, flags) {
        return Ok(None);
    }
    if row.highest >= LAST_MODSEQ {
        return Err(MailFault::Full);
    }
    if row.name.len() > u32::MAX as usize {
        return Err(MailFault::Full);
    }
    Ok(Some(row))
}

// The ids of flags, each of which is named once, and the changes that name those of them that are new.
fn plan_given(alloc: Global, tables: &Tables, flags: &[Flag]) -> Result<FlagPlan, AllocError>
    requires flags { AreProper flags.now }
    requires once { are_distinct flags.now ≡ true }
    ensures { IfOk result (λ plan. NamesGiven tables.now flags.now plan.ids.items plan.names.items) }
{
    mail_stands::names_grow();
    tables.are_whole();
    let flags = distinct_flags(alloc, flags)?;
    let plan = plan_flags(alloc, tables, flags.as_slice())?;
    Ok(plan)
}

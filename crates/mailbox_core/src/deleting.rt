//! Mailboxes that are deleted.

ghost use Rattle.std.specs.Prelude.{◌≡◌, ◌∷◌, [], false, None, IfOk, IfErr};
ghost use Rattle.row_store.specs.Kept.{IfContents};
ghost use Rattle.row_tables.specs.Names.{mailbox_named};
ghost use Rattle.row_tables.specs.declared.change.RowChange.TheVariants.{DropMailbox};
ghost use Rattle.mail_world.specs.Names.{mailbox_name};
ghost use Rattle.mail_world.specs.Worlds.{World, is_among};
ghost use Rattle.mail_world.specs.Changes.{Absent, BadName, Delete, InUse};
ghost use Rattle.mail_stands.specs.Refusals.{delete_refused};
ghost use Rattle.mail_stands.specs.Stands.{Stands};
ghost use Rattle.mailbox_core.specs.Calls.{BehavesBy, Makes};
ghost use Rattle.mailbox_core.specs.Deleting.{KeepsHeld, id_in};
ghost use Rattle.mailbox_core.specs.Faults.{IsRefusal, RefusesFor};
ghost use Rattle.mailbox_core.specs.Rooms.{AnswersWhere, PlansNone, RefusesPlan};

use crate::MailFault;
use crate::finishing::finish;
use crate::names::{canonical_name, is_inbox, is_mailbox_name};
use crate::new_rows::one_change;
use disk_model::Disk;
use ordered_rows::laws::insertion;
use row_store::RowStore;
use row_tables::{Mailbox, RowChange, Tables};
use std::alloc::Global;

/// Deletes a mailbox of a user with all its messages (RFC 3501 §6.3.4). `held` has the ids of the mailboxes that sessions have selected.
/// Mailboxes below it stay, and so does a subscription of its name.
///
/// Refused with `BadName` where no mailbox can have the name or it is INBOX, in any case; with `Absent` where the user has no mailbox
/// of that name, and with `InUse` where `held` has it. Costs two look-ups, a look at each id of `held`, and one commit.
pub fn delete<D: Disk>(
    alloc: Global,
    store: &mut RowStore<D>,
    user: u32,
    name: &[u8],
    held: &[u32],
) -> Result<(), MailFault>
    requires usable { store.old.spent ≡ false }
    ensures makes { IfContents D.told store.old (λ content. (w : World) → Stands content store.old.tables w
        → Makes D.told result store.old store.new w (Delete user name.now held.now) tt) }
    ensures behaves { BehavesBy (KeepsHeld user held.now) D.told result store.old store.new }
    ensures refuses { RefusesFor (BadName ∷ Absent ∷ InUse ∷ []) result }
{
    mail_stands::delete();
    insertion::<Mailbox>();
    store.is_settled();
    store.tables().are_whole();
    match plan_deletion(alloc, store.tables(), user, name, held) {
        Ok(changes) => finish(store, changes, ()),
        Err(fault) => Err(fault),
    }
}

// The changes that delete a mailbox of a user, if that can be.
#[tactic(auto, using(crate::proofs::Planning::none_of, crate::proofs::Planning::starved_of, crate::proofs::Planning::not_refused))]
fn plan_deletion(
    alloc: Global,
    tables: &Tables,
    owner: u32,
    text: &[u8],
    held: &[u32],
) -> Result<Vec<RowChange>, MailFault>
    ensures plan { IfOk result (λ changes. changes.items ≡ DropMailbox (id_in (mailbox_named owner (mailbox_name text.now) tables.now.heads.mailboxes)) ∷ []) }
    ensures asked { IfOk result (λ changes. delete_refused tables.now owner (mailbox_name text.now) held.now ≡ None) }
    ensures none { IfErr result (λ fault. PlansNone (Unit {0}) fault (delete_refused tables.now owner (mailbox_name text.now) held.now)) }
    ensures refuses { IfErr result (RefusesPlan (BadName ∷ Absent ∷ InUse ∷ [])) }
{
    let name = canonical_name(text);
    let mailbox = deletable(tables, owner, name, held)?;
    let changes = one_change(alloc, RowChange::DropMailbox(mailbox))?;
    Ok(changes)
}

// The id of a mailbox of a user, if it can be deleted.
fn deletable(tables: &Tables, owner: u32, name: &[u8], held: &[u32]) -> Result<u32, MailFault>
    ensures answers { AnswersWhere (Unit {0}) result (id_in (mailbox_named owner name.now tables.now.heads.mailboxes))
        (delete_refused tables.now owner name.now held.now) }
    ensures refuses { IfErr result (IsRefusal (BadName ∷ Absent ∷ InUse ∷ [])) }
{
    if !is_mailbox_name(name) || is_inbox(name) {
        return Err(MailFault::BadName);
    }
    let Some(row) = tables.mailbox_named(owner, name) else {
        return Err(MailFault::Absent);
    };
    if is_among(held, row.id) {
        return Err(MailFault::InUse);
    }
    Ok(row.id)
}

pub(crate) fn is_among(ids: &[u32], id: u32) -> bool
    ensures { result ≡ is_among id ids.now }
{
    ids.iter().any(|other| *other == id)
}

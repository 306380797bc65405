//! Names of mailboxes that users subscribe.

ghost use Rattle.std.specs.Prelude.{◌≡◌, ◌∷◌, [], false, nat_le, length, if◌then◌else◌, None, IfOk, IfErr};
ghost use Rattle.row_tables.specs.References.{HasUser, subscriptions_of};
ghost use Rattle.row_tables.specs.declared.change.RowChange.TheVariants.{InsertSubscription};
ghost use Rattle.row_store.specs.Kept.{IfContents};
ghost use Rattle.mail_world.specs.Limits.{most_subscriptions};
ghost use Rattle.mail_world.specs.Names.{mailbox_name};
ghost use Rattle.mail_world.specs.Worlds.{World};
ghost use Rattle.mail_world.specs.Changes.{Absent, BadName, Full, Subscribe, Unsubscribe};
ghost use Rattle.mail_stands.specs.Refusals.{is_subscribed, subscribe_refused, unsubscribe_refused};
ghost use Rattle.mail_stands.specs.RowChanges.{subscribe_changes, unsubscribe_changes};
ghost use Rattle.mail_stands.specs.Stands.{Stands};
ghost use Rattle.mailbox_core.specs.Calls.{Behaves, Makes};
ghost use Rattle.mailbox_core.specs.Faults.{IsRefusal, RefusesFor};
ghost use Rattle.mailbox_core.specs.Rooms.{AnswersWhere, PlansNone, RefusesPlan};

use crate::MailFault;
use crate::finishing::{finish, finish_any};
use crate::names::{canonical_name, is_mailbox_name};
use crate::new_rows::one_change;
use disk_model::Disk;
use octets::Octets;
use row_store::RowStore;
use row_tables::{RowChange, Subscription, Tables};
use std::alloc::{AllocError, Global};

// How many names a user may subscribe.
const MOST_SUBSCRIPTIONS: u64 = 2000;

/// Adds a name to those that a user, who is there, subscribes (RFC 3501 §6.3.6). A name that is INBOX in any case is `INBOX`. Where the
/// user subscribes it already, nothing changes, and no disk is called.
///
/// Refused with `BadName` where no mailbox can have the name, with `Absent` where the user has no mailbox of that name, and with `Full`
/// where the user subscribes 2,000 names and not this one. Costs O(log n) over n rows, and one commit.
pub fn subscribe<D: Disk>(
    alloc: Global,
    store: &mut RowStore<D>,
    user: u32,
    name: &[u8],
) -> Result<(), MailFault>
    requires usable { store.old.spent ≡ false }
    requires fresh { store.old.placed ≡ [] }
    requires user { HasUser store.old.tables user }
    ensures makes { IfContents D.told store.old (λ content. (w : World) → Stands content store.old.tables w
        → Makes D.told result store.old store.new w (Subscribe user name.now) tt) }
    ensures behaves { Behaves D.told result store.old store.new }
    ensures refuses { RefusesFor (BadName ∷ Absent ∷ Full ∷ []) result }
{
    mail_stands::subscribe();
    store.is_settled();
    store.tables().are_whole();
    match plan_subscription(alloc, store.tables(), user, name) {
        Ok(changes) => finish_any(store, changes, ()),
        Err(fault) => Err(fault),
    }
}

/// Takes a name from those that a user subscribes (RFC 3501 §6.3.7). No mailbox need have it.
///
/// Refused with `BadName` where no mailbox can have the name, and with `Absent` where the user doesn't subscribe it. Costs O(log n) over
/// n rows, and one commit.
pub fn unsubscribe<D: Disk>(
    alloc: Global,
    store: &mut RowStore<D>,
    user: u32,
    name: &[u8],
) -> Result<(), MailFault>
    requires usable { store.old.spent ≡ false }
    ensures makes { IfContents D.told store.old (λ content. (w : World) → Stands content store.old.tables w
        → Makes D.told result store.old store.new w (Unsubscribe user name.now) tt) }
    ensures behaves { Behaves D.told result store.old store.new }
    ensures refuses { RefusesFor (BadName ∷ Absent ∷ []) result }
{
    mail_stands::unsubscribe();
    store.is_settled();
    match plan_removal(alloc, store.tables(), user, name) {
        Ok(changes) => finish(store, changes, ()),
        Err(fault) => Err(fault),
    }
}

// The changes by which a user subscribes a name, if that can be: none where the user does already.
#[tactic(auto, using(crate::proofs::Planning::none_of, crate::proofs::Planning::starved_of, crate::proofs::Planning::not_refused))]
fn plan_subscription(
    alloc: Global,
    tables: &Tables,
    owner: u32,
    text: &[u8],
) -> Result<Vec<RowChange>, MailFault>
    ensures plan { IfOk result (λ changes. changes.items ≡ subscribe_changes tables.now owner (mailbox_name text.now)) }
    ensures asked { IfOk result (λ changes. subscribe_refused tables.now owner (mailbox_name text.now) ≡ None) }
    ensures none { IfErr result (λ fault. PlansNone (Unit {0}) fault (subscribe_refused tables.now owner (mailbox_name text.now))) }
    ensures refuses { IfErr result (RefusesPlan (BadName ∷ Absent ∷ Full ∷ [])) }
{
    let name = canonical_name(text);
    let is_there = room_for_subscription(tables, owner, name)?;
    let changes = insertions(alloc, is_there, owner, name)?;
    Ok(changes)
}

// Whether a user subscribes a name already, if the user may.
fn room_for_subscription(tables: &Tables, owner: u32, name: &[u8]) -> Result<bool, MailFault>
    ensures answers { AnswersWhere (Unit {0}) result (is_subscribed tables.now owner name.now) (subscribe_refused tables.now owner name.now) }
    ensures refuses { IfErr result (IsRefusal (BadName ∷ Absent ∷ Full ∷ [])) }
{
    if !is_mailbox_name(name) {
        return Err(MailFault::BadName);
    }
    if tables.mailbox_named(owner, name).is_none() {
        return Err(MailFault::Absent);
    }
    let is_there = is_subscribed(tables, owner, name);
    if !is_there && has_most_subscriptions(tables, owner) {
        return Err(MailFault::Full);
    }
    Ok(is_there)
}

// The changes that add a subscription, unless it is there.
fn insertions(
    alloc: Global,
    is_there: bool,
    owner: u32,
    name: &[u8],
) -> Result<Vec<RowChange>, AllocError>
    ensures { IfOk result (λ changes. changes.items ≡ (if is_there then [] else InsertSubscription (record { owner = owner; name = name.now }) ∷ [])) }
{
    if is_there {
        return Ok(Vec::new(alloc));
    }
    let name = Octets::new(name.to_vec(alloc)?);
    one_change(
        alloc,
        RowChange::InsertSubscription(Subscription { owner, name }),
    )
}

// The changes by which a user no more subscribes a name, if that can be.
#[tactic(auto, using(crate::proofs::Planning::none_of, crate::proofs::Planning::starved_of, crate::proofs::Planning::not_refused))]
fn plan_removal(
    alloc: Global,
    tables: &Tables,
    owner: u32,
    text: &[u8],
) -> Result<Vec<RowChange>, MailFault>
    ensures plan { IfOk result (λ changes. changes.items ≡ unsubscribe_changes owner (mailbox_name text.now)) }
    ensures asked { IfOk result (λ changes. unsubscribe_refused tables.now owner (mailbox_name text.now) ≡ None) }
    ensures none { IfErr result (λ fault. PlansNone (Unit {0}) fault (unsubscribe_refused tables.now owner (mailbox_name text.now))) }
    ensures refuses { IfErr result (RefusesPlan (BadName ∷ Absent ∷ [])) }
{
    let name = canonical_name(text);
    removable(tables, owner, name)?;
    let changes = removal(alloc, owner, name)?;
    Ok(changes)
}

// Whether a user may unsubscribe a name.
fn removable(tables: &Tables, owner: u32, name: &[u8]) -> Result<(), MailFault>
    ensures answers { AnswersWhere (Unit {0}) result tt (unsubscribe_refused tables.now owner name.now) }
    ensures refuses { IfErr result (IsRefusal (BadName ∷ Absent ∷ [])) }
{
    if !is_mailbox_name(name) {
        return Err(MailFault::BadName);
    }
    if !is_subscribed(tables, owner, name) {
        return Err(MailFault::Absent);
    }
    Ok(())
}

// The changes that take a subscription away.
fn removal(alloc: Global, owner: u32, name: &[u8]) -> Result<Vec<RowChange>, AllocError>
    ensures { IfOk result (λ changes. changes.items ≡ unsubscribe_changes owner name.now) }
{
    let name = Octets::new(name.to_vec(alloc)?);
    one_change(alloc, RowChange::RemoveSubscription((owner, name)))
}

fn is_subscribed(tables: &Tables, owner: u32, name: &[u8]) -> bool
    ensures { result ≡ is_subscribed tables.now owner name.now }
{
    tables.subscriptions_row((owner, name)).is_some()
}

// Whether a user subscribes as many names as a user may.
#[tactic(auto, using(crate::proofs::Counts::subscriptions_counted))]
fn has_most_subscriptions(tables: &Tables, owner: u32) -> bool
    ensures { result ≡ nat_le most_subscriptions (length (subscriptions_of owner tables.now.heads.subscriptions)) }
{
    tables.subscription_count(owner) >= MOST_SUBSCRIPTIONS
}

//! Mails that are delivered to users.

ghost use Rattle.std.specs.Prelude.{◌≡◌, [], ℕ, false, List, map, IfOk};
ghost use Rattle.date_grammar.specs.Stamps.{HasPrint};
ghost use Rattle.row_store.specs.Kept.{IfContents};
ghost use Rattle.mail_world.specs.Worlds.{World};
ghost use Rattle.mail_world.specs.Changes.{Deliver};
ghost use Rattle.mail_world.specs.Applying.{apply};
ghost use Rattle.mail_stands.specs.Stands.{Stands};
ghost use Rattle.mail_stands.specs.Delivering.{AreAll, AreReceivers, uid_for};
ghost use Rattle.mailbox_core.specs.Calls.{Behaves, IsMade, Makes};
ghost use Rattle.mailbox_core.specs.Faults.{answer_of};
ghost use Rattle.mailbox_core.specs.Messages.{IsMail};
ghost use Rattle.mailbox_core.specs.Delivering.{AreNone, PlansDelivery, listed_answer};

use crate::finishing::finish_unrefused;
use crate::receivers::{Delivery, delivery_changes, plan_delivery};
use date_grammar::Stamp;
use disk_model::Disk;
use mime_tree::Mail;
use ordered_rows::laws::new_number;
use row_store::laws::placed_bodies_stay_placed;
use row_store::{RowStore, StoreFault};
use row_tables::{Mailbox, MessageRow};
use std::alloc::{AllocError, Global};

/// Delivers a mail to users, in one change (RFC 2033): it comes, with no flags and this date, into the INBOX of each of them that
/// takes it, and its rows and bodies are shared by them all. A user who is named twice gets it once.
///
/// Answers, for each user in the order that is asked, the UID that it has in the user's INBOX; none where that doesn't take it: where
/// it has 100,000 messages, or no mod-sequence or no UID is left. Where no INBOX takes it, nothing is written. Where the INBOX is among
/// `taken`, a session is told of the message as recent, and no other is (RFC 3501 §2.3.2).
///
/// The date has a print, and the mail was read or stands for a text that can't be. Costs O(log n) over n rows for each user, a step
/// for each pair of users, what the rows of the mail cost, and one commit.
pub fn deliver<D: Disk>(
    alloc: Global,
    store: &mut RowStore<D>,
    users: &[u32],
    mail: &Mail,
    stamp: Stamp,
    taken: &[u32],
) -> Result<Vec<Option<u32>>, StoreFault>
    requires usable { store.old.spent ≡ false }
    requires fresh { store.old.placed ≡ [] }
    requires date { HasPrint stamp }
    requires mail { IsMail mail.now }
    ensures makes { IfContents D.told store.old (λ content. (w : World) → Stands content store.old.tables w
        → Makes D.told (listed_answer result) store.old store.new w (Deliver users.now mail.now stamp taken.now) (map (uid_for w) users.now)) }
    ensures behaves { Behaves D.told (listed_answer result) store.old store.new }
    ensures untaken { IfOk result (λ uids. AreNone uids.items → store.new ≡ store.old) }
{
    mail_stands::deliver();
    store.is_settled();
    store.tables().are_whole();
    match plan_delivery(alloc, store.tables(), users) {
        Ok(plan) => deliver_planned(alloc, store, plan, mail, stamp, taken),
        Err(AllocError) => Err(StoreFault::NoMemory),
    }
}

// Delivers a mail as it is planned, and answers the UIDs.
fn deliver_planned<D: Disk>(
    alloc: Global,
    store: &mut RowStore<D>,
    plan: Delivery,
    mail: &Mail,
    stamp: Stamp,
    taken: &[u32],
) -> Result<Vec<Option<u32>>, StoreFault>
    requires usable { store.old.spent ≡ false }
    requires fresh { store.old.placed ≡ [] }
    requires planned { (users : List ℕ) × PlansDelivery store.old.tables users plan.rows.items plan.uids.items }
    requires date { HasPrint stamp }
    requires mail { IsMail mail.now }
    ensures made { IfContents D.told store.old (λ content. (w : World) (users : List ℕ) → Stands content store.old.tables w
        → PlansDelivery store.old.tables users plan.rows.items plan.uids.items
        → IsMade D.told (listed_answer result) store.old store.new w (apply w (Deliver users mail.now stamp taken.now)) plan.uids.items) }
    ensures behaves { Behaves D.told (listed_answer result) store.old store.new }
    ensures untaken { IfOk result (λ uids. AreNone uids.items → store.new ≡ store.old) }
{
    mail_stands::deliver();
    store.is_settled();
    store.tables().are_whole();
    let Delivery { rows, uids } = plan;
    if rows.is_empty() {
        return Ok(uids);
    }
    match commit_delivery(alloc, store, rows.as_slice(), mail, stamp, taken) {
        Ok(()) => Ok(uids),
        Err(fault) => Err(fault),
    }
}

// Commits a mail for these INBOXes.
fn commit_delivery<D: Disk>(
    alloc: Global,
    store: &mut RowStore<D>,
    rows: &[Mailbox],
    mail: &Mail,
    stamp: Stamp,
    taken: &[u32],
) -> Result<(), StoreFault>
    requires usable { store.old.spent ≡ false }
    requires fresh { store.old.placed ≡ [] }
    requires planned { (users : List ℕ) × AreReceivers store.old.tables users rows.now }
    requires date { HasPrint stamp }
    requires mail { IsMail mail.now }
    ensures made { IfContents D.told store.old (λ content. (w : World) (users : List ℕ) → Stands content store.old.tables w
        → AreReceivers store.old.tables users rows.now → AreAll store.old.tables users rows.now
        → IsMade D.told (answer_of result) store.old store.new w (apply w (Deliver users mail.now stamp taken.now)) tt) }
    ensures behaves { Behaves D.told (answer_of result) store.old store.new }
{
    mail_stands::deliver();
    placed_bodies_stay_placed();
    new_number::<MessageRow>();
    store.is_settled();
    store.tables().are_whole();
    match shredder::rows_of(alloc, mail, store) {
        Ok((message, added)) => match delivery_changes(alloc, added, rows, message, stamp, taken) {
            Ok(changes) => finish_unrefused(store, changes, ()),
            Err(AllocError) => Err(StoreFault::NoMemory),
        },
        Err(fault) => Err(fault),
    }
}

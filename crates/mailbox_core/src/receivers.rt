//! Who gets a mail that is delivered, and the rows of that.

ghost use Rattle.std.specs.Prelude.{◌≡◌, ◌==◌, ◌||◌, ◌++◌, ◌∷◌, [], ℕ, List, IfOk, OnOk};
ghost use Rattle.std.specs.Option.{option_copied};
ghost use Rattle.std.specs.List.{AllByRecursion, list_any};
ghost use Rattle.mail_world.specs.Worlds.{is_among};
ghost use Rattle.mail_stands.specs.Arriving.{has_no_uid, is_full};
ghost use Rattle.mail_stands.specs.Delivering.{arrival_of, deliver_changes};
ghost use Rattle.mailbox_core.specs.Delivering.{HasLeft, PlansDelivery, is_free, receiver, with_receiver};

use crate::arrivals::{
    Arrival, LAST_MODSEQ, LAST_UID, arrival_changes, has_message, has_most_messages,
};
use crate::deleting::is_among;
use crate::new_rows::copy_of;
use date_grammar::Stamp;
use row_tables::{Mailbox, RowChange, Tables};
use std::alloc::{AllocError, Global};

// The INBOXes that get a mail, and for each user that is asked the UID of it there.
#[derive(Drop)]
pub(crate) struct Delivery {
    pub(crate) rows: Vec<Mailbox>,
    pub(crate) uids: Vec<Option<u32>>,
}

// Plans a mail for users: each INBOX that takes it gets it once.
pub(crate) fn plan_delivery(
    alloc: Global,
    tables: &Tables,
    users: &[u32],
) -> Result<Delivery, AllocError>
    ensures { IfOk result (λ plan. PlansDelivery tables.now users.now plan.rows.items plan.uids.items) }
{
    let mut plan = Delivery {
        rows: Vec::new(alloc),
        uids: Vec::with_capacity(alloc, users.len())?,
    };
    for user in users {
        plan_user(alloc, tables, &mut plan, *user)?;
    }
    Ok(plan)
}

// Plans the mail for one user more.
fn plan_user(
    alloc: Global,
    tables: &Tables,
    plan: &mut Delivery,
    user: u32,
) -> Result<(), AllocError>
    ensures { OnOk result ((users : List ℕ) → PlansDelivery tables.now users plan.old.rows.items plan.old.uids.items
        → PlansDelivery tables.now (users ++ user ∷ []) plan.new.rows.items plan.new.uids.items) }
{
    match receiver(tables, user) {
        Some(row) => {
            plan.uids.push(Some(row.uidnext))?;
            add_once(alloc, &mut plan.rows, row)?;
        }
        None => plan.uids.push(None)?,
    }
    Ok(())
}

// The INBOX of a user, if it gets a mail. One that no message can come into gets none, as tables of no world may have it.
fn receiver(tables: &Tables, user: u32) -> Option<&Mailbox>
    ensures { option_copied result ≡ receiver tables.now user }
{
    let row = tables.mailbox_named(user, b"INBOX")?;
    if is_shut(tables, row) || !is_free(tables, row) {
        return None;
    }
    Some(row)
}

// Whether a mailbox takes no message more.
fn is_shut(tables: &Tables, row: &Mailbox) -> bool
    ensures { result ≡ (is_full tables.now 0 row.now || has_no_uid row.now) }
{
    has_most_messages(tables, row.id) || row.highest >= LAST_MODSEQ || row.uidnext > LAST_UID
}

fn is_free(tables: &Tables, row: &Mailbox) -> bool
    ensures { result ≡ is_free tables.now row.now }
{
    row.name.len() <= u32::MAX as usize && !has_message(tables, row.id, row.uidnext)
}

// Adds a mailbox to those that get a mail, if it isn't among them.
fn add_once(alloc: Global, rows: &mut Vec<Mailbox>, row: &Mailbox) -> Result<(), AllocError>
    ensures { OnOk result (rows.new.items ≡ with_receiver rows.old.items row.now) }
{
    if !has_row(rows.as_slice(), row.id) {
        rows.push(copy_of(alloc, row)?)?;
    }
    Ok(())
}

fn has_row(rows: &[Mailbox], id: u32) -> bool
    ensures { result ≡ list_any (λ other. id == other.id) rows.now }
{
    rows.iter().any(|other| id == other.id)
}

// Behind the changes that add the rows of a mail, those by which it comes into mailboxes.
pub(crate) fn delivery_changes(
    alloc: Global,
    mail: Vec<RowChange>,
    rows: &[Mailbox],
    message: u64,
    stamp: Stamp,
    taken: &[u32],
) -> Result<Vec<RowChange>, AllocError>
    requires { AllByRecursion HasLeft rows.now }
    ensures { IfOk result (λ changes. changes.items ≡ deliver_changes mail.items rows.now message stamp taken.now) }
{
    let mut changes = mail;
    for row in rows {
        let mut more = arrival_of(alloc, row, message, stamp, taken)?;
        changes.append(&mut more)?;
    }
    Ok(changes)
}

// The changes by which a message comes into one mailbox.
fn arrival_of(
    alloc: Global,
    row: &Mailbox,
    message: u64,
    stamp: Stamp,
    taken: &[u32],
) -> Result<Vec<RowChange>, AllocError>
    requires { HasLeft row.now }
    ensures { IfOk result (λ changes. changes.items ≡ arrival_of message stamp taken.now row.now) }
{
    let arrival = Arrival {
        row: copy_of(alloc, row)?,
        ids: Vec::new(alloc),
        names: Vec::new(alloc),
    };
    arrival_changes(
        alloc,
        Vec::new(alloc),
        arrival,
        message,
        stamp,
        is_among(taken, row.id),
    )
}

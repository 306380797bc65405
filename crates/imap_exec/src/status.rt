//! STATUS (RFC 3501 §6.3.10).

ghost use Rattle.std.specs.Prelude.{◌≡◌, ◌++◌, [], List, codes, map, false, IfOk, OnOk};
ghost use Rattle.std.specs.List.{list_any};
ghost use Rattle.imap_writer.specs.Statuses.{status_line};
ghost use Rattle.imap_writer.specs.Tagged.{ok_line};
ghost use Rattle.session_view.specs.Parts.{state_of};
ghost use Rattle.session_view.specs.declared.sessions.SessionPart.{SessionPart};
ghost use Rattle.mail_world.specs.Names.{mailbox_name};
ghost use Rattle.imap_steps.specs.Stepping.{Shared, answered};
ghost use Rattle.imap_steps.specs.Status.{is_highest, status};
ghost use Rattle.imap_steps.specs.Executing.{of_user, status_plainly};
ghost use Rattle.imap_exec.specs.Ready.{IsReady};
ghost use Rattle.imap_exec.specs.Does.{Executes};
ghost use Rattle.imap_exec.specs.Answers.{Says};
ghost use Rattle.imap_exec.specs.Numbers.{counts_unseen, data_in};

use crate::lines::{complete, refuse};
use crate::simple::unserved;
use crate::users::user_of;
use disk_model::Disk;
use imap_grammar::StatusItem;
use imap_steps::Outcome;
use imap_writer::{Refusal, StatusData, push_status};
use mailbox_core::{Status, canonical_name};
use octets::Octets;
use row_store::{RowStore, StoreFault};
use session_view::Sessions;
use sqlite_items::Items;
use std::alloc::{AllocError, Global};

// STATUS.
pub(crate) fn status<D: Disk>(
    alloc: Global,
    store: &RowStore<D>,
    sessions: &Sessions,
    number: u32,
    answer: &mut Vec<u8>,
    tag: &[u8],
    name: &Octets,
    items: &Items<StatusItem>,
) -> Result<Outcome, StoreFault>
    requires ready { IsReady store.now sessions.now }
    ensures { Executes D.told result store.now store.now sessions.now sessions.now answer.old.items answer.new.items
        (λ shared. status_plainly shared tag.now (state_of number shared.parts) name.now items.now) }
{
    let items = items.as_slice();
    if asks_highest(items) {
        unserved(alloc, answer, tag)
    } else {
        status_by_user(alloc, store, sessions, number, answer, tag, name, items)
    }
}

// Whether an item is asked for that comes with CONDSTORE.
fn asks_highest(items: &[StatusItem]) -> bool
    ensures { result ≡ list_any is_highest items.now }
{
    items.iter().any(|item| is_highest(*item))
}

fn is_highest(item: StatusItem) -> bool
    ensures { result ≡ is_highest item }
{
    match item {
        StatusItem::Highest => true,
        _ => false,
    }
}

// STATUS of a session that is authenticated.
fn status_by_user<D: Disk>(
    alloc: Global,
    store: &RowStore<D>,
    sessions: &Sessions,
    number: u32,
    answer: &mut Vec<u8>,
    tag: &[u8],
    name: &Octets,
    items: &[StatusItem],
) -> Result<Outcome, StoreFault>
    requires ready { IsReady store.now sessions.now }
    ensures { Executes D.told result store.now store.now sessions.now sessions.now answer.old.items answer.new.items
        (λ shared. of_user shared tag.now (state_of number shared.parts) (λ user. status shared user tag.now name.now items.now)) }
{
    match user_of(sessions, number) {
        Some(user) => status_for(alloc, store, answer, tag, user, name.as_slice(), items),
        None => refuse(alloc, answer, tag, Refusal::State),
    }
}

// STATUS of a user's mailbox of a name.
fn status_for<D: Disk>(
    alloc: Global,
    store: &RowStore<D>,
    answer: &mut Vec<u8>,
    tag: &[u8],
    user: u32,
    name: &[u8],
    items: &[StatusItem],
) -> Result<Outcome, StoreFault>
    requires usable { store.now.spent ≡ false }
    ensures { (parts : List SessionPart) → IsReady store.now parts → Executes D.told result store.now store.now parts parts answer.old.items answer.new.items
        (λ shared. status shared user tag.now name.now items.now) }
{
    match mailbox_core::find(store, user, name) {
        Some(mailbox) => {
            let its = mailbox_core::status(store, mailbox, asks_unseen(items));
            tell_status(alloc, answer, tag, name, &its, items)
        }
        None => refuse(alloc, answer, tag, Refusal::Absent),
    }
}

// Whether the unseen messages are to be counted.
fn asks_unseen(items: &[StatusItem]) -> bool
    ensures { result ≡ list_any counts_unseen items.now }
{
    items.iter().any(|item| counts_unseen(*item))
}

fn counts_unseen(item: StatusItem) -> bool
    ensures { result ≡ counts_unseen item }
{
    match item {
        StatusItem::Unseen => true,
        _ => false,
    }
}

// Tells the numbers of a mailbox.
fn tell_status(
    alloc: Global,
    answer: &mut Vec<u8>,
    tag: &[u8],
    name: &[u8],
    its: &Status,
    items: &[StatusItem],
) -> Result<Outcome, StoreFault>
    ensures { (shared : Shared) → Says result shared.parts answer.old.items answer.new.items
        (answered shared (status_line (mailbox_name name.now) (map (data_in its.now) items.now) ++ ok_line tag.now [] (codes "STATUS"))) }
{
    tell_numbers(alloc, answer, name, its, items)?;
    complete(alloc, answer, tag, b"STATUS")
}

fn tell_numbers(
    alloc: Global,
    answer: &mut Vec<u8>,
    name: &[u8],
    its: &Status,
    items: &[StatusItem],
) -> Result<(), AllocError>
    ensures { OnOk result (answer.new.items ≡ answer.old.items ++ status_line (mailbox_name name.now) (map (data_in its.now) items.now)) }
{
    let all = numbers(alloc, its, items)?;
    push_status(answer, canonical_name(name), all.as_slice())
}

// The number that each item asks for.
fn numbers(alloc: Global, its: &Status, items: &[StatusItem]) -> Result<Vec<StatusData>, AllocError>
    ensures { IfOk result (λ all. all.items ≡ map (data_in its.now) items.now) }
{
    let mut all = Vec::with_capacity(alloc, items.len())?;
    'items: for item in items {
        all.push(data_in(its, *item))?;
    }
    Ok(all)
}

fn data_in(its: &Status, item: StatusItem) -> StatusData
    ensures { result ≡ data_in its.now item }
{
    let number = match item {
        StatusItem::Messages => u64::from(its.messages),
        StatusItem::Recent => u64::from(its.recent),
        StatusItem::Uidnext => u64::from(its.uidnext),
        StatusItem::Uidvalidity => u64::from(its.uidvalidity),
        StatusItem::Unseen => u64::from(its.unseen),
        StatusItem::Highest => its.highest,
    };
    StatusData { item, number }
}

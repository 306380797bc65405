//! What is planned before anything changes: whether there is room for what is asked, and the rows that make it.

ghost use Rattle.std.specs.Prelude.{◌≡◌, ◌+◌, ◌∷◌, [], true, nat_le, length, None, IfOk, IfErr};
ghost use Rattle.mail_world.specs.Names.{created_name, is_user_name};
ghost use Rattle.mail_world.specs.Limits.{most_mailboxes};
ghost use Rattle.mail_world.specs.Changes.{BadName, Exists, Full};
ghost use Rattle.mail_world.specs.Looking.{verifier_of};
ghost use Rattle.mail_stands.specs.Refusals.{add_user_refused, create_refused, mailboxes_of};
ghost use Rattle.mail_stands.specs.RowChanges.{add_user_changes, create_changes};
ghost use Rattle.mailbox_core.specs.Faults.{IsRefusal};
ghost use Rattle.mailbox_core.specs.Rooms.{AnswersWhere, IsFreeMailbox, IsFreeUser, PlansNone, RefusesPlan};

use crate::MailFault;
use crate::names::{created_name, is_mailbox_name};
use crate::new_rows::{mailbox_changes, next_mailbox, user_changes};
use row_tables::{RowChange, Tables};
use std::alloc::Global;

// How many users a store takes.
const MOST_USERS: u64 = 1000;

// How many mailboxes a user may have.
const MOST_MAILBOXES: u64 = 1000;

// What a call commits, and then answers.
#[derive(Drop)]
pub(crate) struct Plan {
    pub(crate) changes: Vec<RowChange>,
    pub(crate) answer: u32,
}

// Adds the next user, if there is room for one of a name.
#[tactic(auto, using(crate::proofs::Planning::none_of, crate::proofs::Planning::starved_of, crate::proofs::Planning::not_refused))]
pub(crate) fn plan_user(
    alloc: Global,
    tables: &Tables,
    name: &[u8],
    password: &[u8],
) -> Result<Plan, MailFault>
    requires { is_user_name name.now ≡ true }
    ensures plan { IfOk result (λ plan. (plan.answer ≡ length tables.now.heads.users + 1)
        × (plan.changes.items ≡ add_user_changes tables.now name.now (verifier_of name.now password.now))) }
    ensures free { IfOk result (λ plan. IsFreeUser tables.now × IsFreeMailbox tables.now) }
    ensures asked { IfOk result (λ plan. add_user_refused tables.now name.now ≡ None) }
    ensures none { IfErr result (λ fault. PlansNone (IsFreeUser tables.now × IsFreeMailbox tables.now) fault (add_user_refused tables.now name.now)) }
    ensures refuses { IfErr result (RefusesPlan (Exists ∷ Full ∷ [])) }
{
    let answer = room_for_user(tables, name)?;
    let changes = user_changes(alloc, tables, answer, name, password)?;
    Ok(Plan { changes, answer })
}

// The id of the next user, if there is room for one of a name.
fn room_for_user(tables: &Tables, name: &[u8]) -> Result<u32, MailFault>
    requires { is_user_name name.now ≡ true }
    ensures answers { AnswersWhere (IsFreeUser tables.now × IsFreeMailbox tables.now) result (length tables.now.heads.users + 1) (add_user_refused tables.now name.now) }
    ensures free { IfOk result (λ id. (id ≡ length tables.now.heads.users + 1) × IsFreeUser tables.now × IsFreeMailbox tables.now) }
    ensures refuses { IfErr result (IsRefusal (Exists ∷ Full ∷ [])) }
{
    if tables.user_named(name).is_some() {
        return Err(MailFault::Exists);
    }
    let users = tables.user_count();
    if users >= MOST_USERS || next_mailbox(tables) == 0 {
        return Err(MailFault::Full);
    }
    let id = users as u32 + 1;
    if tables.users_row(id).is_some() || tables.mailboxes_row(next_mailbox(tables)).is_some() {
        return Err(MailFault::Full);
    }
    Ok(id)
}

// Makes a mailbox of a user, if there is room for one of a name.
#[tactic(auto, using(crate::proofs::Planning::none_of, crate::proofs::Planning::starved_of, crate::proofs::Planning::not_refused))]
pub(crate) fn plan_mailbox(
    alloc: Global,
    tables: &Tables,
    owner: u32,
    text: &[u8],
) -> Result<Plan, MailFault>
    ensures plan { IfOk result (λ plan. (plan.answer ≡ tables.now.heads.counters.next)
        × (plan.changes.items ≡ create_changes tables.now owner (created_name text.now))) }
    ensures free { IfOk result (λ plan. IsFreeMailbox tables.now) }
    ensures asked { IfOk result (λ plan. create_refused tables.now owner (created_name text.now) ≡ None) }
    ensures none { IfErr result (λ fault. PlansNone (IsFreeMailbox tables.now) fault (create_refused tables.now owner (created_name text.now))) }
    ensures refuses { IfErr result (RefusesPlan (BadName ∷ Exists ∷ Full ∷ [])) }
{
    let name = created_name(text);
    let answer = room_for_mailbox(tables, owner, name)?;
    let changes = mailbox_changes(alloc, tables, owner, name)?;
    Ok(Plan { changes, answer })
}

// The id of the next mailbox, if a user has room for one of a name.
fn room_for_mailbox(tables: &Tables, owner: u32, name: &[u8]) -> Result<u32, MailFault>
    ensures answers { AnswersWhere (IsFreeMailbox tables.now) result tables.now.heads.counters.next (create_refused tables.now owner name.now) }
    ensures free { IfOk result (λ id. (id ≡ tables.now.heads.counters.next) × IsFreeMailbox tables.now) }
    ensures refuses { IfErr result (IsRefusal (BadName ∷ Exists ∷ Full ∷ [])) }
{
    if !is_mailbox_name(name) {
        return Err(MailFault::BadName);
    }
    if tables.mailbox_named(owner, name).is_some() {
        return Err(MailFault::Exists);
    }
    let next = next_mailbox(tables);
    if has_most_mailboxes(tables, owner) || next == 0 {
        return Err(MailFault::Full);
    }
    if tables.mailboxes_row(next).is_some() {
        return Err(MailFault::Full);
    }
    Ok(next)
}

// Whether a user has as many mailboxes as a user may have.
#[tactic(auto, using(crate::proofs::Counts::mailboxes_counted))]
pub(crate) fn has_most_mailboxes(tables: &Tables, owner: u32) -> bool
    ensures { result ≡ nat_le most_mailboxes (length (mailboxes_of owner tables.now.heads.mailboxes)) }
{
    tables.mailbox_count(owner) >= MOST_MAILBOXES
}

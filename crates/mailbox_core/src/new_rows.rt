//! Rows of new users and mailboxes.

ghost use Rattle.std.specs.Prelude.{◌≡◌, ◌+◌, ◌++◌, ◌∷◌, [], length, IfOk, OnOk};
ghost use Rattle.mail_world.specs.Users.{next_id};
ghost use Rattle.mail_world.specs.Looking.{verifier_of};
ghost use Rattle.mail_stands.specs.RowChanges.{add_user_changes, create_changes};

use crate::verifiers::verifier;
use octets::Octets;
use row_tables::{Counters, Mailbox, RowChange, Tables, User};
use std::alloc::{AllocError, Global};

// The id of the next mailbox, 0 once the last is given.
pub(crate) fn next_mailbox(tables: &Tables) -> u32
    ensures { result ≡ tables.now.heads.counters.next }
{
    match tables.counters_row(()) {
        Some(counters) => counters.next,
        None => unreachable!(),
    }
}

// The changes that add the next user.
pub(crate) fn user_changes(
    alloc: Global,
    tables: &Tables,
    id: u32,
    name: &[u8],
    password: &[u8],
) -> Result<Vec<RowChange>, AllocError>
    requires { id ≡ length tables.now.heads.users + 1 }
    ensures { IfOk result (λ changes. changes.items ≡ add_user_changes tables.now name.now (verifier_of name.now password.now)) }
{
    let user = User {
        id,
        name: Octets::new(name.to_vec(alloc)?),
        verifier: verifier(name, password),
    };
    let mut changes = Vec::new(alloc);
    changes.push(RowChange::InsertUser(user))?;
    push_mailbox(alloc, &mut changes, tables, id, b"INBOX")?;
    Ok(changes)
}

// The changes that make a mailbox of a user.
pub(crate) fn mailbox_changes(
    alloc: Global,
    tables: &Tables,
    owner: u32,
    name: &[u8],
) -> Result<Vec<RowChange>, AllocError>
    ensures { IfOk result (λ changes. changes.items ≡ create_changes tables.now owner name.now) }
{
    let mut changes = Vec::new(alloc);
    push_mailbox(alloc, &mut changes, tables, owner, name)?;
    Ok(changes)
}

// Adds the changes that make a mailbox.
fn push_mailbox(
    alloc: Global,
    changes: &mut Vec<RowChange>,
    tables: &Tables,
    owner: u32,
    name: &[u8],
) -> Result<(), AllocError>
    ensures { OnOk result (changes.new.items ≡ changes.old.items ++ create_changes tables.now owner name.now) }
{
    let next = next_mailbox(tables);
    let mailbox = empty_mailbox(alloc, next, owner, name)?;
    changes.push(RowChange::InsertMailbox(mailbox))?;
    changes.push(RowChange::UpdateCounters(Counters {
        next: id_after(next),
    }))?;
    Ok(())
}

// A mailbox as it is made.
fn empty_mailbox(alloc: Global, id: u32, owner: u32, name: &[u8]) -> Result<Mailbox, AllocError>
    ensures { IfOk result (λ mailbox. mailbox
        ≡ record { id = id; owner = owner; name = name.now; uidnext = 1; first_recent = 1; highest = 1 }) }
{
    Ok(Mailbox {
        id,
        owner,
        name: Octets::new(name.to_vec(alloc)?),
        uidnext: 1,
        first_recent: 1,
        highest: 1,
    })
}

// A row of a mailbox, as a row of its own.
pub(crate) fn copy_of(alloc: Global, row: &Mailbox) -> Result<Mailbox, AllocError>
    ensures { IfOk result (λ copy. copy ≡ row.now) }
{
    Ok(Mailbox {
        id: row.id,
        owner: row.owner,
        name: Octets::new(row.name.as_slice().to_vec(alloc)?),
        uidnext: row.uidnext,
        first_recent: row.first_recent,
        highest: row.highest,
    })
}

// The id of the mailbox after one.
fn id_after(id: u32) -> u32
    ensures { result ≡ next_id id }
{
    if id == u32::MAX { 0 } else { id + 1 }
}

pub(crate) fn one_change(alloc: Global, change: RowChange) -> Result<Vec<RowChange>, AllocError>
    ensures { IfOk result (λ changes. changes.items ≡ change ∷ []) }
{
    let mut changes = Vec::new(alloc);
    changes.push(change)?;
    Ok(changes)
}

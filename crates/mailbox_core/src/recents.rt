//! Recent messages, of which one session alone is told.

ghost use Rattle.std.specs.Prelude.{◌≡◌, false, IfOk};
ghost use Rattle.row_tables.specs.References.{HasMailbox};
ghost use Rattle.row_tables.specs.declared.change.RowChange.{RowChange};
ghost use Rattle.row_store.specs.Kept.{IfContents};
ghost use Rattle.mail_world.specs.Worlds.{World};
ghost use Rattle.mail_world.specs.Changes.{TakeRecents};
ghost use Rattle.mail_stands.specs.Stands.{Stands};
ghost use Rattle.mailbox_core.specs.Calls.{Behaves, Makes};
ghost use Rattle.mailbox_core.specs.Faults.{answer_of};
ghost use Rattle.mailbox_core.specs.Rooms.{TakesRecents};

use crate::finishing::finish_unrefused;
use crate::new_rows::one_change;
use disk_model::Disk;
use octets::Octets;
use row_store::{RowStore, StoreFault};
use row_tables::{Mailbox, RowChange, Tables};
use std::alloc::{AllocError, Global};

/// Takes the recent messages of a mailbox, which is there, for the session that selects it: no later session is told of them as recent
/// (RFC 3501 §2.3.2). Costs one commit.
pub fn take_recent<D: Disk>(
    alloc: Global,
    store: &mut RowStore<D>,
    mailbox: u32,
) -> Result<(), StoreFault>
    requires usable { store.old.spent ≡ false }
    requires there { HasMailbox store.old.tables mailbox }
    ensures makes { IfContents D.told store.old (λ content. (w : World) → Stands content store.old.tables w
        → Makes D.told (answer_of result) store.old store.new w (TakeRecents mailbox) tt) }
    ensures behaves { Behaves D.told (answer_of result) store.old store.new }
{
    mail_stands::take_recents();
    store.is_settled();
    store.tables().are_whole();
    match taking_recents(alloc, store.tables(), mailbox) {
        Ok(changes) => finish_unrefused(store, changes, ()),
        Err(AllocError) => Err(StoreFault::NoMemory),
    }
}

// The changes by which the recent messages of a mailbox are taken. A name that no row may have isn't written again.
#[tactic(auto, using(crate::proofs::Taking::takes_of_none, crate::proofs::Taking::takes_of_long, crate::proofs::Taking::takes_some))]
fn taking_recents(
    alloc: Global,
    tables: &Tables,
    mailbox: u32,
) -> Result<Vec<RowChange>, AllocError>
    ensures { IfOk result (λ changes. TakesRecents tables.now mailbox changes.items) }
{
    let Some(row) = tables.mailboxes_row(mailbox) else {
        return Ok(Vec::new(alloc));
    };
    if row.name.len() > u32::MAX as usize {
        return Ok(Vec::new(alloc));
    }
    let row = without_recents(alloc, row)?;
    one_change(alloc, RowChange::UpdateMailbox(row))
}

// A mailbox none of whose messages is recent.
fn without_recents(alloc: Global, row: &Mailbox) -> Result<Mailbox, AllocError>
    ensures { IfOk result (λ new. new ≡ record row.now { first_recent = row.now.uidnext }) }
{
    Ok(Mailbox {
        id: row.id,
        owner: row.owner,
        name: Octets::new(row.name.as_slice().to_vec(alloc)?),
        uidnext: row.uidnext,
        first_recent: row.uidnext,
        highest: row.highest,
    })
}

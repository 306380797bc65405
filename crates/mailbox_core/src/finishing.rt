//! Changes of rows that are committed as one change of the world.

ghost use Rattle.std.specs.Prelude.{◌≡◌, [], false, IfErr};
ghost use Rattle.row_tables.specs.TableRows.{TableRows};
ghost use Rattle.row_tables.specs.Fits.{CanRun, Runs};
ghost use Rattle.row_store.specs.Bodies.{ArePlaced};
ghost use Rattle.row_store.specs.Kept.{IfContents};
ghost use Rattle.mail_world.specs.Worlds.{World};
ghost use Rattle.mail_stands.specs.Stands.{Stands};
ghost use Rattle.mail_stands.specs.Leading.{KeepsOwners, Leads};
ghost use Rattle.mailbox_core.specs.Calls.{Behaves, BehavesBy, IsMade};
ghost use Rattle.mailbox_core.specs.Faults.{IsOutage, answer_of, fault_in};
ghost use Rattle.mailbox_core.specs.Rooms.{AreTables};

use crate::MailFault;
use disk_model::Disk;
use row_store::{RowStore, StoreFault};
use row_tables::RowChange;
use row_tables::laws::changes_have_one_end;

// Commits changes that lead from tables that stand for one world to tables that stand for another, and answers this.
pub(crate) fn finish<D: Disk, T: Drop>(
    store: &mut RowStore<D>,
    changes: Vec<RowChange>,
    answer: T,
) -> Result<T, MailFault>
    requires usable { store.old.spent ≡ false }
    requires fit { CanRun store.old.tables changes.items }
    requires placed { ArePlaced store.old.placed changes.items }
    ensures behaves { (after : TableRows) → Runs store.old.tables changes.items after → KeepsOwners store.old.tables after → Behaves D.told result store.old store.new }
    ensures commits { (after : TableRows) → Runs store.old.tables changes.items after → BehavesBy (AreTables after) D.told result store.old store.new }
    ensures made { IfContents D.told store.old (λ content. (world after : World) → Stands content store.old.tables world
        → Leads content store.old.tables changes.items after → IsMade D.told result store.old store.new world after answer) }
    ensures outage { IfErr result IsOutage }
{
    match finish_unrefused(store, changes, answer) {
        Ok(answer) => Ok(answer),
        Err(fault) => Err(told_as(fault)),
    }
}

// The same, but where there are no changes no disk is called.
pub(crate) fn finish_any<D: Disk, T: Drop>(
    store: &mut RowStore<D>,
    changes: Vec<RowChange>,
    answer: T,
) -> Result<T, MailFault>
    requires usable { store.old.spent ≡ false }
    requires fresh { store.old.placed ≡ [] }
    requires fit { CanRun store.old.tables changes.items }
    requires placed { ArePlaced store.old.placed changes.items }
    ensures behaves { (after : TableRows) → Runs store.old.tables changes.items after → KeepsOwners store.old.tables after → Behaves D.told result store.old store.new }
    ensures made { IfContents D.told store.old (λ content. (world after : World) → Stands content store.old.tables world
        → Leads content store.old.tables changes.items after → IsMade D.told result store.old store.new world after answer) }
    ensures outage { IfErr result IsOutage }
{
    store.is_settled();
    if changes.is_empty() {
        Ok(answer)
    } else {
        finish(store, changes, answer)
    }
}

// The same for a call that refuses nothing.
pub(crate) fn finish_unrefused<D: Disk, T: Drop>(
    store: &mut RowStore<D>,
    changes: Vec<RowChange>,
    answer: T,
) -> Result<T, StoreFault>
    requires usable { store.old.spent ≡ false }
    requires fit { CanRun store.old.tables changes.items }
    requires placed { ArePlaced store.old.placed changes.items }
    ensures behaves { (after : TableRows) → Runs store.old.tables changes.items after → KeepsOwners store.old.tables after
        → Behaves D.told (answer_of result) store.old store.new }
    ensures commits { (after : TableRows) → Runs store.old.tables changes.items after
        → BehavesBy (AreTables after) D.told (answer_of result) store.old store.new }
    ensures made { IfContents D.told store.old (λ content. (world after : World) → Stands content store.old.tables world
        → Leads content store.old.tables changes.items after → IsMade D.told (answer_of result) store.old store.new world after answer) }
{
    changes_have_one_end();
    match store.commit(changes) {
        Ok(()) => Ok(answer),
        Err(fault) => Err(fault),
    }
}

// A fault of the store, as a call answers it.
pub(crate) fn told_as(fault: StoreFault) -> MailFault
    ensures { result ≡ fault_in fault }
{
    match fault {
        StoreFault::Failed => MailFault::Failed,
        StoreFault::NoMemory => MailFault::NoMemory,
    }
}

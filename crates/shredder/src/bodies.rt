// The rows of bodies.
ghost use Rattle.std.specs.Prelude.{◌≡◌, ◌++◌, ◌∷◌, [], ℕ, IfOk, OnOk, IsErrOf};
ghost use Rattle.row_tables.specs.Fits.{IsText};
ghost use Rattle.row_tables.specs.TableRows.{TableRows};
ghost use Rattle.row_store.specs.ThreeFiles.{FaultRose};
ghost use Rattle.row_store.specs.declared.faults.StoreFault.{StoreFault};
ghost use Rattle.shredder.specs.Making.{Between, IsReady, IsSameStore, Leads, Nowhere, RowHasBytes, holding};

use crate::laws::row_laws;
use disk_model::Disk;
use row_store::{BodyRef, RowStore, StoreFault};
use row_tables::RowChange;
use std::alloc::AllocError;

// The id of the body that has these bytes, which is placed where no body has them.
pub(crate) fn add_body<D: Disk>(
    changes: &mut Vec<RowChange>,
    bytes: &[u8],
    store: &mut RowStore<D>,
) -> Result<u64, StoreFault>
    requires text { IsText bytes.now }
    requires ready { IsReady store.old }
    ensures same { IsSameStore store.old store.new }
    ensures ready { OnOk result (IsReady store.new) }
    ensures failed { IsErrOf result StoreFault.Failed → FaultRose D.told store.old.files store.new.files }
    ensures rows { (message : ℕ) (t now added : TableRows) → t ≡ store.old.tables → Between message t (holding added store.old.placed) now
        → IfOk result (λ id. Leads message t now (holding added store.old.placed) changes.old.items Nowhere
        (λ after. RowHasBytes after.shared.bodyparts id bytes.now) (holding added store.new.placed) changes.new.items) }
{
    row_laws();
    let BodyRef { id, change } = store.place_body(bytes)?;
    match change {
        Some(change) => push(changes, change)?,
        None => {}
    }
    Ok(id)
}

fn push(changes: &mut Vec<RowChange>, change: RowChange) -> Result<(), AllocError>
    ensures { OnOk result (changes.new.items ≡ changes.old.items ++ change ∷ []) }
{
    changes.push(change)?;
    Ok(())
}

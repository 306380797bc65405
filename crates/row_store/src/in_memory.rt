//! Stores over disks in memory, for tests and benchmarks.

ghost use Rattle.std.specs.Prelude.{◌≡◌, [], false, IfOk};
ghost use Rattle.row_tables.specs.TableRows.{no_rows};

use crate::laws::files_hold_one_thing;
use crate::{LoadFault, RowStore, StoreFault};
use disk_model::{Files, MemoryDisk};
use std::alloc::Global;

/// An empty store over disks in memory that never fail.
pub fn empty_store(alloc: Global) -> Result<RowStore<MemoryDisk>, StoreFault>
    ensures empty { IfOk result (λ store. store.tables ≡ no_rows) }
    ensures fresh { IfOk result (λ store. (store.placed ≡ []) × (store.spent ≡ false)) }
{
    files_hold_one_thing();
    let mut files = Files::empty(alloc)?;
    RowStore::format(alloc, &mut files)?;
    match RowStore::load(alloc, files) {
        Ok(store) => Ok(store),
        Err(unloaded) => match unloaded.fault {
            LoadFault::Failed => Err(StoreFault::Failed),
            LoadFault::NoMemory => Err(StoreFault::NoMemory),
            LoadFault::NotAStore => unreachable!(),
        },
    }
}

//! The words about the files of a store.

ghost use Rattle.std.specs.Prelude.{◌≡◌, ◌≢◌, ◌⊎◌, [], ◌∷◌};
ghost use Rattle.admin_texts.specs.Listing.{listing_of};
ghost use Rattle.row_store.specs.ThreeFiles.{FaultRose, CountsNoFault, ReadsNothing};
ghost use Rattle.row_store.specs.OpenLog.{LeavesOthers};
ghost use Rattle.row_store.specs.Holding.{nothing_stored};
ghost use Rattle.row_store.specs.Crashes.{JointlyHolds};
ghost use Rattle.mail_server.specs.declared.status.Status.TheVariants.{Done, NoMemory, NotAStore};
ghost use Rattle.mail_server.specs.Outside.{EndsWriting};
ghost use Rattle.mail_server.specs.Stores.{MakesStore, ListsTables, TearsHead};

use crate::answer::end_with;
use crate::status::Status;
use admin_texts::listing;
use disk_model::{Disk, Files};
use port_model::Sink;
use row_store::{LoadFault, RowStore, StoreFault, Unloaded};
use row_tables::Tables;
use std::alloc::{AllocError, Global};

/// Makes an empty store in files that hold none. Files that hold one are left as they are, and a line says so.
pub(crate) fn make_store<K: Sink, D: Disk>(
    alloc: Global,
    sink: &mut K,
    files: Files<D>,
) -> (Status, Files<D>)
    ensures { MakesStore K.written K.faults D.told result.0 sink.old sink.new files result.1 }
{
    match RowStore::load(alloc, files) {
        Ok(store) => {
            let status = end_with(sink, Status::Refused, b"refused: store exists\n");
            (status, store.into_files())
        }
        Err(unloaded) => format_unless(alloc, unloaded),
    }
}

/// Makes an empty store in files that could not be loaded, where that is because they hold none.
fn format_unless<D: Disk>(alloc: Global, unloaded: Unloaded<D>) -> (Status, Files<D>)
    ensures done { result.0 ≡ Done → (unloaded.fault ≡ LoadFault.NotAStore) × JointlyHolds D.told result.1 (nothing_stored ∷ []) × CountsNoFault D.told unloaded.files result.1 }
    ensures status { (result.0 ≡ Done) ⊎ ((result.0 ≡ NoMemory) ⊎ (result.0 ≡ Status.StoreFault)) }
    ensures no_memory { result.0 ≡ NoMemory → (unloaded.fault ≢ LoadFault.Failed) × (result.1 ≡ unloaded.files) }
    ensures store_fault { result.0 ≡ Status.StoreFault → ((unloaded.fault ≡ LoadFault.Failed) × (result.1 ≡ unloaded.files)) ⊎ FaultRose D.told unloaded.files result.1 }
    ensures left { ((unloaded.fault ≡ LoadFault.NotAStore) × TearsHead D.told unloaded.files.log0 result.1.log0) ⊎ (result.1 ≡ unloaded.files) }
    ensures others { LeavesOthers unloaded.files result.1 }
    ensures reads { ReadsNothing D.told unloaded.files result.1 }
{
    let Unloaded { fault, files } = unloaded;
    match fault {
        LoadFault::NotAStore => format(alloc, files),
        LoadFault::Failed => (Status::StoreFault, files),
        LoadFault::NoMemory => (Status::NoMemory, files),
    }
}

/// Makes an empty store, whatever the files hold.
fn format<D: Disk>(alloc: Global, files: Files<D>) -> (Status, Files<D>)
    ensures done { result.0 ≡ Done → JointlyHolds D.told result.1 (nothing_stored ∷ []) × CountsNoFault D.told files result.1 }
    ensures status { (result.0 ≡ Done) ⊎ ((result.0 ≡ NoMemory) ⊎ (result.0 ≡ Status.StoreFault)) }
    ensures no_memory { result.0 ≡ NoMemory → result.1 ≡ files }
    ensures store_fault { result.0 ≡ Status.StoreFault → FaultRose D.told files result.1 }
    ensures left { TearsHead D.told files.log0 result.1.log0 }
    ensures others { LeavesOthers files result.1 }
    ensures reads { ReadsNothing D.told files result.1 }
{
    let mut files = files;
    match RowStore::format(alloc, &mut files) {
        Ok(()) => (Status::Done, files),
        Err(StoreFault::Failed) => (Status::StoreFault, files),
        Err(StoreFault::NoMemory) => (Status::NoMemory, files),
    }
}

/// Writes a line for each row of the tables that the files hold.
pub(crate) fn list_tables<K: Sink, D: Disk>(
    alloc: Global,
    sink: &mut K,
    files: Files<D>,
) -> (Status, Files<D>)
    ensures { ListsTables K.written K.faults D.told result.0 sink.old sink.new files result.1 }
{
    match RowStore::load(alloc, files) {
        Ok(store) => {
            let status = write_listing(alloc, sink, store.tables());
            (status, store.into_files())
        }
        Err(unloaded) => {
            let Unloaded { fault, files } = unloaded;
            (refusal(fault), files)
        }
    }
}

/// Why files were not loaded, as a run ends with it.
pub(crate) fn refusal(fault: LoadFault) -> Status
    ensures not_a_store { fault ≡ LoadFault.NotAStore → result ≡ NotAStore }
    ensures failed { fault ≡ LoadFault.Failed → result ≡ Status.StoreFault }
    ensures no_memory { fault ≡ LoadFault.NoMemory → result ≡ NoMemory }
{
    match fault {
        LoadFault::NotAStore => Status::NotAStore,
        LoadFault::Failed => Status::StoreFault,
        LoadFault::NoMemory => Status::NoMemory,
    }
}

/// Writes the lines of the tables' rows, unless memory for them is refused.
fn write_listing<K: Sink>(alloc: Global, sink: &mut K, tables: &Tables) -> Status
    ensures { ((result ≡ NoMemory) × (sink.new ≡ sink.old)) ⊎ EndsWriting K.written K.faults Done (listing_of tables.now) result sink.old sink.new }
{
    match listing(alloc, tables) {
        Ok(text) => end_with(sink, Status::Done, &text),
        Err(AllocError) => Status::NoMemory,
    }
}

//! The sessions of a script are served from a store.

ghost use Rattle.std.specs.Prelude.{◌≡◌, false, [], IsErr, IsOkAnd};
ghost use Rattle.port_model.specs.Script.{AreEvents};
ghost use Rattle.row_store.specs.Holding.{in_row, stored_by};
ghost use Rattle.row_store.specs.Crashes.{IsSettled};
ghost use Rattle.mail_server.specs.declared.status.Status.TheVariants.{NotAStore};
ghost use Rattle.mail_server.specs.Run.{end_of};
ghost use Rattle.mail_server.specs.Serving.{ServesFiles, ServesStore};

use crate::answer::{Answer, no_lines};
use crate::printing::print_played;
use crate::script::{PlayFault, play};
use crate::status::Status;
use crate::store_core::StoreCore;
use disk_model::{Disk, Files};
use mailbox_core::laws::loaded_tables_stand;
use port_model::Event;
use row_store::laws::sure_files_leave_the_same;
use row_store::{LoadFault, RowStore, Unloaded};
use std::alloc::{AllocError, Global};

/// Serves the sessions of a script from the store that the files hold, and answers what is to be written.
pub(crate) fn serve_files<D: Disk>(
    alloc: Global,
    events: Vec<Event>,
    files: Files<D>,
) -> (Result<Answer, AllocError>, Files<D>)
    requires kept { AreEvents events.items }
    ensures { ServesFiles D.told events.items result.0 files result.1 }
{
    loaded_tables_stand();
    sure_files_leave_the_same::<D>();
    match RowStore::load(alloc, files) {
        Ok(store) => serve_store(alloc, events, store),
        Err(unloaded) => {
            let Unloaded { fault, files } = unloaded;
            (end_unloaded(alloc, fault), files)
        }
    }
}

/// Serves the sessions of a script from a store that was loaded, which is given up then.
fn serve_store<D: Disk>(
    alloc: Global,
    events: Vec<Event>,
    store: RowStore<D>,
) -> (Result<Answer, AllocError>, Files<D>)
    requires kept { AreEvents events.items }
    requires usable { store.spent ≡ false }
    requires none_placed { store.placed ≡ [] }
    requires settled { IsSettled D.told store.files (stored_by in_row store.tables) }
    ensures { ServesStore D.told events.items result.0 store result.1 }
{
    match StoreCore::new(alloc, store) {
        Ok(core) => serve_core(alloc, events, core),
        Err(store) => (Err(AllocError), store.into_files()),
    }
}

/// Serves the sessions of a script by a core that has none yet.
fn serve_core<D: Disk>(
    alloc: Global,
    events: Vec<Event>,
    core: StoreCore<D>,
) -> (Result<Answer, AllocError>, Files<D>)
    requires kept { AreEvents events.items }
    requires none { core.sessions ≡ [] }
    requires usable { core.store.spent ≡ false }
    requires none_placed { core.store.placed ≡ [] }
    requires settled { IsSettled D.told core.store.files (stored_by in_row core.store.tables) }
    ensures { ServesStore D.told events.items result.0 core.store result.1 }
{
    let (played, core) = play(alloc, core, events);
    let files = core.into_files();
    match played {
        Ok(played) => (print_played(alloc, &played), files),
        Err(fault) => (end_unplayed(alloc, fault), files),
    }
}

/// What is to be written where a script was not played to its end.
fn end_unplayed(alloc: Global, fault: PlayFault) -> Result<Answer, AllocError>
    ensures failed { fault ≡ PlayFault.StoreFault → IsOkAnd result (λ answer. end_of answer ≡ record { status = Status.StoreFault; lines = [] }) }
    ensures no_memory { fault ≡ PlayFault.NoMemory → IsErr result }
{
    match fault {
        PlayFault::StoreFault => Ok(no_lines(alloc, Status::StoreFault)),
        PlayFault::NoMemory => Err(AllocError),
    }
}

/// What is to be written where files were not loaded.
fn end_unloaded(alloc: Global, fault: LoadFault) -> Result<Answer, AllocError>
    ensures not_a_store { fault ≡ LoadFault.NotAStore → IsOkAnd result (λ answer. end_of answer ≡ record { status = NotAStore; lines = [] }) }
    ensures failed { fault ≡ LoadFault.Failed → IsOkAnd result (λ answer. end_of answer ≡ record { status = Status.StoreFault; lines = [] }) }
    ensures no_memory { fault ≡ LoadFault.NoMemory → IsErr result }
{
    match fault {
        LoadFault::NotAStore => Ok(no_lines(alloc, Status::NotAStore)),
        LoadFault::Failed => Ok(no_lines(alloc, Status::StoreFault)),
        LoadFault::NoMemory => Err(AllocError),
    }
}

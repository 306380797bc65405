//! The sessions of links are served from a store.

ghost use Rattle.std.specs.Prelude.{◌≡◌, ◌<◌, false, []};
ghost use Rattle.row_store.specs.Holding.{in_row, stored_by};
ghost use Rattle.row_store.specs.Crashes.{IsSettled};
ghost use Rattle.mail_server.specs.FromLinks.{ServesLinksFrom, end_of_rounds};
ghost use Rattle.mail_server.specs.Links.{ServesLinks};

use crate::linked::serve_links;
use crate::status::Status;
use crate::store_core::StoreCore;
use crate::stores::refusal;
use disk_model::{Disk, Files};
use mail_rounds::RoundFault;
use mailbox_core::laws::loaded_tables_stand;
use port_model::Ports;
use row_store::laws::sure_files_leave_the_same;
use row_store::{RowStore, Unloaded};
use std::alloc::Global;

/// Serves the sessions of the links that come, in so many rounds, from the store that the files hold.
pub(crate) fn serve_links_from_files<D: Disk, P: Ports>(
    alloc: Global,
    rounds: u64,
    ports: &mut P,
    files: Files<D>,
) -> (Status, Files<D>)
    requires some { 0 < rounds }
    ensures { ServesLinks P.history P.listen_faults D.told rounds result.0 ports.old ports.new files result.1 }
{
    loaded_tables_stand();
    sure_files_leave_the_same::<D>();
    match RowStore::load(alloc, files) {
        Ok(store) => serve_links_from(alloc, rounds, ports, store),
        Err(unloaded) => {
            let Unloaded { fault, files } = unloaded;
            (refusal(fault), files)
        }
    }
}

/// Serves them from a store that was loaded, which is given up then.
fn serve_links_from<D: Disk, P: Ports>(
    alloc: Global,
    rounds: u64,
    ports: &mut P,
    store: RowStore<D>,
) -> (Status, Files<D>)
    requires some { 0 < rounds }
    requires usable { store.spent ≡ false }
    requires none_placed { store.placed ≡ [] }
    requires settled { IsSettled D.told store.files (stored_by in_row store.tables) }
    ensures { ServesLinksFrom P.history P.listen_faults D.told rounds result.0 ports.old ports.new store result.1 }
{
    match StoreCore::new(alloc, store) {
        Ok(core) => serve_links_by(alloc, rounds, ports, core),
        Err(store) => (Status::NoMemory, store.into_files()),
    }
}

/// Serves them by a core that has no session yet.
fn serve_links_by<D: Disk, P: Ports>(
    alloc: Global,
    rounds: u64,
    ports: &mut P,
    core: StoreCore<D>,
) -> (Status, Files<D>)
    requires some { 0 < rounds }
    requires none { core.sessions ≡ [] }
    requires usable { core.store.spent ≡ false }
    requires none_placed { core.store.placed ≡ [] }
    requires settled { IsSettled D.told core.store.files (stored_by in_row core.store.tables) }
    ensures { ServesLinksFrom P.history P.listen_faults D.told rounds result.0 ports.old ports.new core.store result.1 }
{
    let (served, core) = serve_links(alloc, core, rounds, ports);
    (end_of_rounds(served), core.into_files())
}

/// How a run ends whose rounds ended so.
fn end_of_rounds(served: Result<(), RoundFault>) -> Status
    ensures { result ≡ end_of_rounds served }
{
    match served {
        Ok(()) => Status::Done,
        Err(RoundFault::StoreFault) => Status::StoreFault,
        Err(RoundFault::ListenFault) => Status::ListenFault,
        Err(RoundFault::NoMemory) => Status::NoMemory,
    }
}

//! Loading the files of a store.

ghost use Rattle.std.specs.Prelude.{◌≡◌, ◌≤◌, ◌+◌, IfOk, OnOk, IsErrOf, false};
ghost use Rattle.fault_counts.specs.Rose.{Rose};
ghost use Rattle.disk_model.specs.Told.{IfTold};
ghost use Rattle.disk_model.specs.Images.{Only};
ghost use Rattle.disk_model.specs.Calls.{IsAtRest, HasCause};
ghost use Rattle.row_store.specs.ThreeFiles.{TellsFaults, MakesSure, MakesAllSure};
ghost use Rattle.row_store.specs.Kept.{IsKept};
ghost use Rattle.row_store.specs.Loading.{IsNoStore, ReadsLogOnce};
ghost use Rattle.row_store.specs.Refusals.{refusal_of, IsKeptLog, MakesNone};

use crate::LoadFault;
use crate::replaying::replayed;
use crate::store::FORMAT;
use disk_model::{Disk, DiskFault, Files};
use redo_log::{Log, a_text_says_one_thing};
use row_tables::Tables;
use std::alloc::Global;

/// Files that could not be loaded, handed back.
#[derive(Drop)]
pub struct Unloaded<D> {
    /// Why.
    pub fault: LoadFault,
    /// The files as they are.
    pub files: Files<D>,
}

// The log and the tables that the files hold, which are made sure of first.
pub(crate) fn read_files<D: Disk>(
    alloc: Global,
    files: &mut Files<D>,
) -> Result<(Log, Tables), LoadFault>
    ensures kept { IfOk result (λ r. IsKept D.told r.0 files.new r.1) }
    ensures not_a_store { IsErrOf result LoadFault.NotAStore → IsNoStore D.told files.new }
    ensures faults { TellsFaults D.told (IsErrOf result LoadFault.Failed) files.old files.new }
    ensures sure { MakesAllSure D.told files.old files.new }
    ensures reads { ReadsLogOnce D.told files.old files.new }
{
    make_sure(&mut files.log1)?;
    make_sure(&mut files.bodies)?;
    read_log(alloc, &mut files.log0)
}

// Makes sure of what a file has.
fn make_sure<D: Disk>(disk: &mut D) -> Result<(), DiskFault>
    ensures rest { OnOk result (IsAtRest D.told disk.new) }
    ensures sure { MakesSure D.told disk.old disk.new }
    ensures reads { D.told.reads disk.new ≡ D.told.reads disk.old }
    ensures cause { HasCause D.told disk.old disk.new result }
{
    disk.sync()
}

// The log of a file, which is made sure of first, and the tables that it makes.
fn read_log<D: Disk>(alloc: Global, disk: &mut D) -> Result<(Log, Tables), LoadFault>
    ensures kept { IfOk result (λ r. IsKeptLog D.told r.0 disk.new r.1) }
    ensures not_a_store { IsErrOf result LoadFault.NotAStore → IfTold (D.told.reading disk.new) (λ file. Only file (D.told.images disk.new) × MakesNone file) }
    ensures failed { IsErrOf result LoadFault.Failed → Rose (D.told.faults disk.old) (D.told.faults disk.new) }
    ensures sure { MakesSure D.told disk.old disk.new }
    ensures once { IfTold (D.told.reading disk.old) (λ _. D.told.reads disk.new ≤ D.told.reads disk.old + 1) }
    ensures quiet { (IsErrOf result LoadFault.Failed → ⊥) → D.told.faults disk.new ≡ D.told.faults disk.old }
    ensures never_falls { D.told.faults disk.old ≤ D.told.faults disk.new }
{
    a_text_says_one_thing();
    let (log, payloads) = match Log::load(alloc, disk) {
        Ok(loaded) => loaded,
        Err(fault) => return Err(refusal(fault)),
    };
    if log.format_byte() != FORMAT {
        return Err(LoadFault::NotAStore);
    }
    match replayed(alloc, payloads)? {
        Some(tables) => Ok((log, tables)),
        None => Err(LoadFault::NotAStore),
    }
}

// Why a log was not loaded, as a store answers it.
fn refusal(fault: redo_log::LoadFault) -> LoadFault
    ensures { result ≡ refusal_of fault }
{
    match fault {
        redo_log::LoadFault::Failed => LoadFault::Failed,
        redo_log::LoadFault::NotALog => LoadFault::NotAStore,
        redo_log::LoadFault::NoMemory => LoadFault::NoMemory,
    }
}

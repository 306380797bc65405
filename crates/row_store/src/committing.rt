//! Making changes in the log and in the tables.

ghost use Rattle.std.specs.Prelude.{◌≡◌, List, OnOk, OnErr, IsOk, IsErrOf};
ghost use Rattle.row_tables.specs.TableRows.{TableRows};
ghost use Rattle.row_tables.specs.declared.change.RowChange.{RowChange};
ghost use Rattle.row_tables.specs.Fits.{CanRun, Runs, RunsPart};
ghost use Rattle.row_codec.specs.Encoding.{HaveWidths, encoding};
ghost use Rattle.row_store.specs.ThreeFiles.{TellsFaults, ReadsNothing};
ghost use Rattle.row_store.specs.Holding.{stored_by, in_row};
ghost use Rattle.row_store.specs.OpenLog.{LeavesOthers};
ghost use Rattle.row_store.specs.Crashes.{Appends, Commits};
ghost use Rattle.row_store.specs.Kept.{IsKept};

use crate::StoreFault;
use disk_model::{Disk, Files};
use redo_log::{CommitFault, Log, a_text_says_one_thing};
use row_codec::{encode, fitting_texts_have_lengths};
use row_tables::{RowChange, Tables};
use std::alloc::Global;

// Makes changes in the tables, and then adds them to the log as one payload.
pub(crate) fn make<D: Disk>(
    alloc: Global,
    log: &mut Log,
    files: &mut Files<D>,
    tables: &mut Tables,
    changes: Vec<RowChange>,
) -> Result<(), StoreFault>
    requires kept { IsKept D.told log.old files.old tables.old }
    requires fit { CanRun tables.old changes.items }
    ensures kept { OnOk result (IsKept D.told log.new files.new tables.new) }
    ensures made { OnOk result (Runs tables.old changes.items tables.new) }
    ensures appended { OnOk result (Appends D.told files.old files.new (encoding changes.items)) }
    ensures part { OnErr result (RunsPart tables.old changes.items tables.new) }
    ensures crash { (after : TableRows) → Runs tables.old changes.items after
        → Commits D.told (IsOk result) files.old files.new (stored_by in_row tables.old) (stored_by in_row after) }
    ensures others { LeavesOthers files.old files.new }
    ensures faults { TellsFaults D.told (IsErrOf result StoreFault.Failed) files.old files.new }
    ensures untouched { IsErrOf result StoreFault.NoMemory → files.new ≡ files.old }
    ensures reads { ReadsNothing D.told files.old files.new }
{
    fitting_texts_have_lengths();
    let payload = encode(alloc, &changes)?;
    tables.apply_all(changes)?;
    add(log, files, &payload)
}

// Adds a payload to the log.
fn add<D: Disk>(log: &mut Log, files: &mut Files<D>, payload: &[u8]) -> Result<(), StoreFault>
    requires { (before : TableRows) × IsKept D.told log.old files.old before }
    ensures kept { (before after : TableRows) (changes : List RowChange) → IsKept D.told log.old files.old before → HaveWidths changes
        → payload.now ≡ encoding changes → Runs before changes after → OnOk result (IsKept D.told log.new files.new after) }
    ensures appended { OnOk result (Appends D.told files.old files.new payload.now) }
    ensures crash { (before after : TableRows) (changes : List RowChange) → IsKept D.told log.old files.old before → HaveWidths changes
        → payload.now ≡ encoding changes → Runs before changes after
        → Commits D.told (IsOk result) files.old files.new (stored_by in_row before) (stored_by in_row after) }
    ensures others { LeavesOthers files.old files.new }
    ensures faults { TellsFaults D.told (IsErrOf result StoreFault.Failed) files.old files.new }
    ensures untouched { IsErrOf result StoreFault.NoMemory → files.new ≡ files.old }
    ensures reads { ReadsNothing D.told files.old files.new }
{
    a_text_says_one_thing();
    match log.commit(&mut files.log0, payload) {
        Ok(()) => Ok(()),
        Err(CommitFault::Failed) => Err(StoreFault::Failed),
        Err(CommitFault::NoMemory) => Err(StoreFault::NoMemory),
        Err(CommitFault::Spent) => unreachable!(),
    }
}

//! The store in use.

ghost use Rattle.std.specs.Prelude.{◌≡◌, ◌∷◌, [], ℕ, List, Some, IsSome, option_map, OnOk, OnErr, IfOk, IfErr, IsOk, IsErrOf, IsErrAnd, true, false};
ghost use Rattle.ordered_rows.specs.RowKey.{number_key};
ghost use Rattle.ordered_rows.specs.Listed.{row_at};
ghost use Rattle.disk_model.specs.Calls.{overwritten, IsAtRest, LeavesOnly};
ghost use Rattle.disk_model.specs.Images.{Torn};
ghost use Rattle.row_codec.specs.Encoding.{encoding};
ghost use Rattle.row_tables.specs.Keys.{body_part_key};
ghost use Rattle.row_tables.specs.TableRows.{TableRows};
ghost use Rattle.row_tables.specs.Fits.{CanRun, Runs, RunsPart};

use crate::bodies::{body_bytes, place};
use crate::committing::make;
use crate::loading::read_files;
use crate::{BodyRef, StoreFault, Unloaded};
use disk_model::{Disk, Files};
use redo_log::{FormatFault, Log};
use row_tables::{BodyPart, RowChange, Tables};
use std::alloc::Global;
use std::marker::Model;

// The format of the logs: bodies have their content in their rows.
pub(crate) const FORMAT: u8 = 0;

/// A store of rows, in use with its files, which nobody else writes. Any call on it that answers want of memory or a fault, also one
/// of a crate above, gives it up: its files can still be taken back, and are to be loaded again.
///
/// Where a disk doesn't tell what a read gives, as one over a real file, nothing is promised of what the files hold.
#[derive(Drop)]
pub struct RowStore<D: Disk> {
    alloc: Global,
    files: Files<D>,
    log: Log,
    tables: Tables,
    placed: Vec<BodyPart>,
    spent: bool,
}

impl<D: Disk> Model for RowStore<D> {
    ghost use Rattle.std.specs.Prelude.{◌≡◌, false};
    ghost use Rattle.row_store.specs.Kept.{Store, IsKept};

    ghost Value = { Store D };

    ghost view = { λ store. record { files = store.files; tables = store.tables; placed = store.placed.items; spent = store.spent } };

    ghost invariant = { λ store. store.spent ≡ false → IsKept D.told store.log store.files store.tables };
}

impl<D: Disk> RowStore<D> {
    ghost use Rattle.row_store.specs.ThreeFiles.{IfRead, TellsFaults, ReadsNothing, MakesAllSure, LeavesAllAlone};
    ghost use Rattle.row_store.specs.OpenLog.{open_log, empty_log, LeavesOthers};
    ghost use Rattle.row_store.specs.Holding.{stored_by, nothing_stored, Holds};
    ghost use Rattle.row_store.specs.Crashes.{IsSettled, JointlyHolds, Appends, Commits, Stays};
    ghost use Rattle.row_store.specs.Kept.{IfContents, KeepsState};
    ghost use Rattle.row_store.specs.Bodies.{ArePlaced, PlacesBytes};
    ghost use Rattle.row_store.specs.Loading.{files_after, IsNoStore, ReadsLogOnce};
    ghost use Rattle.row_store.specs.declared.faults.StoreFault.{StoreFault};
    ghost use Rattle.row_store.specs.declared.faults.LoadFault.{LoadFault};

    /// Makes an empty store, whatever the files had. It writes the first log alone. A crash or a fault within this call may leave
    /// anything of the log's first 18 bytes.
    pub fn format(alloc: Global, files: &mut Files<D>) -> Result<(), StoreFault>
        ensures written { OnOk result (D.told.reading (open_log files.new) ≡ option_map (overwritten 0 empty_log) (D.told.reading (open_log files.old))) }
        ensures holds { OnOk result (IfRead D.told files.new (λ bytes. Holds bytes nothing_stored.tables nothing_stored.contents)) }
        ensures joint { OnOk result (JointlyHolds D.told files.new (nothing_stored ∷ [])) }
        ensures rest { OnOk result (IsAtRest D.told (open_log files.new)) }
        ensures leaves { LeavesOnly D.told (open_log files.old) (open_log files.new)
            (λ image. (before : List ℕ) × D.told.images (open_log files.old) before × Torn 0 18 before image) }
        ensures others { LeavesOthers files.old files.new }
        ensures faults { TellsFaults D.told (IsErrOf result StoreFault.Failed) files.old files.new }
        ensures untouched { IsErrOf result StoreFault.NoMemory → files.new ≡ files.old }
        ensures reads { ReadsNothing D.told files.old files.new }
    {
        match Log::format(alloc, &mut files.log0, FORMAT, 1) {
            Ok(()) => Ok(()),
            Err(FormatFault::Failed) => Err(StoreFault::Failed),
            Err(FormatFault::NoMemory) => Err(StoreFault::NoMemory),
        }
    }

    /// Makes sure of what the files have, and loads their tables. Costs one reading of the log; each refusal hands the files back.
    pub fn load(alloc: Global, files: Files<D>) -> Result<RowStore<D>, Unloaded<D>>
        ensures loaded { IfOk result (λ store. IfContents D.told store (λ content. IsSettled D.told store.files (stored_by content store.tables))) }
        ensures fresh { IfOk result (λ store. (store.placed ≡ []) × (store.spent ≡ false)) }
        ensures not_a_store { IfErr result (λ unloaded. unloaded.fault ≡ LoadFault.NotAStore → IsNoStore D.told unloaded.files) }
        ensures faults { TellsFaults D.told (IsErrAnd result (λ unloaded. unloaded.fault ≡ LoadFault.Failed)) files (files_after result) }
        ensures sure { MakesAllSure D.told files (files_after result) }
        ensures reads { ReadsLogOnce D.told files (files_after result) }
    {
        let mut files = files;
        match read_files(alloc, &mut files) {
            Ok((log, tables)) => Ok(RowStore {
                alloc,
                files,
                log,
                tables,
                placed: Vec::new(alloc),
                spent: false,
            }),
            Err(fault) => Err(Unloaded { fault, files }),
        }
    }

    /// Makes changes, all of them or none: from Ok on, each crash leaves files that have them. The bodies that were placed are
    /// forgotten. Costs four calls on one disk, and O(log n) for each change; without memory the files are left as they are.
    pub fn commit(&mut self, changes: Vec<RowChange>) -> Result<(), StoreFault>
        requires usable { self.old.spent ≡ false }
        requires fit { CanRun self.old.tables changes.items }
        requires placed { ArePlaced self.old.placed changes.items }
        ensures made { OnOk result (Runs self.old.tables changes.items self.new.tables) }
        ensures appended { OnOk result (Appends D.told self.old.files self.new.files (encoding changes.items)) }
        ensures forgotten { OnOk result (self.new.placed ≡ []) }
        ensures crash { IfContents D.told self.old (λ content. (after : TableRows) → Runs self.old.tables changes.items after
            → Commits D.told (IsOk result) self.old.files self.new.files (stored_by content self.old.tables) (stored_by content after)) }
        ensures part { OnErr result (RunsPart self.old.tables changes.items self.new.tables) }
        ensures goes_on { OnOk result (self.new.spent ≡ false) }
        ensures gives_up { OnErr result (self.new.spent ≡ true) }
        ensures others { LeavesOthers self.old.files self.new.files }
        ensures faults { TellsFaults D.told (IsErrOf result StoreFault.Failed) self.old.files self.new.files }
        ensures untouched { IsErrOf result StoreFault.NoMemory → self.new.files ≡ self.old.files }
        ensures reads { ReadsNothing D.told self.old.files self.new.files }
    {
        self.spent = true;
        make(
            self.alloc,
            &mut self.log,
            &mut self.files,
            &mut self.tables,
            changes,
        )?;
        self.placed.clear();
        self.spent = false;
        Ok(())
    }

    /// Finds the body that has these bytes, by its digest and then by the bytes, or places a new one: its row is then to be inserted
    /// by the change in the answer, in the next commit. Costs a digest and a look-up, and a look at each placed body.
    pub fn place_body(&mut self, bytes: &[u8]) -> Result<BodyRef, StoreFault>
        requires usable { self.old.spent ≡ false }
        ensures places { IfContents D.told self.new (λ content. IfOk result (λ body.
            PlacesBytes content self.old.tables.shared.bodyparts self.old.placed self.new.placed bytes.now body.id body.change)) }
        ensures err { OnErr result (self.new.placed ≡ self.old.placed) }
        ensures keeps { KeepsState D.told (IsOk result) (IsErrOf result StoreFault.Failed) self.old self.new }
        ensures untouched { self.new.files ≡ self.old.files }
        ensures gives_up { OnErr result (self.new.spent ≡ true) }
    {
        self.spent = true;
        let body = place(self.alloc, &self.tables, &mut self.placed, bytes)?;
        self.spent = false;
        Ok(body)
    }

    /// The content of a body whose row is there. A placed body has no row yet.
    pub fn body(&mut self, id: u64) -> Result<Vec<u8>, StoreFault>
        requires usable { self.old.spent ≡ false }
        requires there { IsSome (row_at body_part_key (number_key id) self.old.tables.shared.bodyparts) }
        ensures content { IfContents D.told self.old (λ content. IfOk result (λ bytes. (stored_by content self.old.tables).contents id ≡ Some bytes.items)) }
        ensures placed { self.new.placed ≡ self.old.placed }
        ensures keeps { KeepsState D.told (IsOk result) (IsErrOf result StoreFault.Failed) self.old self.new }
        ensures alone { LeavesAllAlone D.told self.old.files self.new.files }
        ensures untouched { self.new.files ≡ self.old.files }
        ensures gives_up { OnErr result (self.new.spent ≡ true) }
    {
        self.spent = true;
        let bytes = body_bytes(self.alloc, &self.tables, id)?;
        self.spent = false;
        Ok(bytes)
    }

    /// The tables.
    pub fn tables(&self) -> &Tables
        requires usable { self.now.spent ≡ false }
        ensures { result.now ≡ self.now.tables }
    {
        &self.tables
    }

    /// The files are at rest and hold the tables, and stay so while they are left alone. For the proofs of callers; does nothing.
    pub fn is_settled(&self)
        ensures settled { self.now.spent ≡ false → IfContents D.told self.now (λ content. IsSettled D.told self.now.files (stored_by content self.now.tables)) }
        ensures joint { self.now.spent ≡ false → IfContents D.told self.now (λ content. JointlyHolds D.told self.now.files (stored_by content self.now.tables ∷ [])) }
        ensures stays { self.now.spent ≡ false → IfContents D.told self.now (λ content. Stays D.told (Unit {0}) self.now.files self.now.files (stored_by content self.now.tables)) }
    {
        let _ = &self.files;
    }

    /// The files as they are, also from a store that was given up.
    pub fn into_files(self) -> Files<D>
        ensures { result ≡ self.files }
    {
        let RowStore {
            alloc: _,
            files,
            log: _,
            tables: _,
            placed: _,
            spent: _,
        } = self;
        files
    }
}

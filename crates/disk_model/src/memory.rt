//! A disk in memory. It keeps what was done to it, and so can show what a crash at any moment might have left.

ghost use Rattle.std.specs.Prelude.{◌≡◌, ◌≤◌, ◌<◌, ◌+◌, ◌-◌, ◌^◌, ◌↔◌, ◌⊎◌, [], ◌∷◌, ◌++◌, List, ℕ, length, min, true, false, option_map, IfOk, OnOk, OnErr, IsErr, IsNone, IfSome, nat_le};
ghost use Rattle.disk_model.specs.Told.{IfTold, SameTold};
ghost use Rattle.disk_model.specs.Images.{Only, Torn, Tears, TearsAll, IsImage, TornThrough};
ghost use Rattle.disk_model.specs.Calls.{overwritten, GivesBytes, HasCause, LeavesAlone, Elapses};

use crate::replaying::{filled, overwrite, replay};
use crate::{Disk, DiskFault, Files};
use fault_counts::raised;
use octets::Octets;
use std::alloc::{AllocError, Global};
use std::marker::Model;

/// A range of bytes that was written.
#[derive(Clone, Copy)]
pub struct Written {
    pub at: u64,
    pub count: u64,
}

/// What changes what may be lost.
#[derive(Drop)]
pub enum Change {
    /// These bytes were written at this place.
    Write(u64, Octets),
    /// What was written was made sure of.
    Sync,
}

/// Following one torn write after another from a sync gives exactly the images that a disk may leave.
pub fn torn_writes_leave_the_images()
    ensures { (synced : List ℕ) (ranges : List Written) (image : List ℕ) → TornThrough synced ranges image ↔ IsImage synced ranges image }
{}

/// A disk in memory, with faults by the number of the call.
///
/// A write that fails by its number is done in full and recorded all the same, so that a crash may tear it like any other.
#[derive(Drop)]
pub struct MemoryDisk {
    alloc: Global,
    bytes: Vec<u8>,
    first: Vec<u8>,
    changes: Vec<Change>,
    fails: Vec<u64>,
    calls: u64,
    faults: u64,
    reads: u64,
    starved: bool,
}

impl Model for MemoryDisk {
    ghost use Rattle.disk_model.specs.Memory.{Memory, IsRecorded};

    ghost Value = { Memory };

    ghost view = { λ disk. record {
      first = disk.first.items;
      changes = disk.changes.items;
      calls = disk.calls;
      fails = disk.fails.items;
      faults = disk.faults;
      reads = disk.reads;
      starved = disk.starved;
    } };

    ghost invariant = { λ disk. IsRecorded disk.first.items disk.changes.items disk.bytes.items };
}

impl MemoryDisk {
    ghost use Rattle.disk_model.specs.Memory.{state_at, state_of, called, failed, read_counted, is_to_fail, Attempt, IsImageBy};

    /// A disk at rest with these bytes, on which the calls with these numbers fail, counted from 1.
    pub fn new(alloc: Global, bytes: Vec<u8>, fails: Vec<u64>) -> Result<MemoryDisk, AllocError>
        ensures { IfOk result (λ disk. disk ≡ record { first = bytes.items; changes = []; calls = 0; fails = fails.items; faults = 0; reads = 0; starved = false }) }
    {
        let first = bytes.to_vec(alloc)?;
        Ok(MemoryDisk {
            alloc,
            bytes,
            first,
            changes: Vec::new(alloc),
            fails,
            calls: 0,
            faults: 0,
            reads: 0,
            starved: false,
        })
    }

    /// Whether some call failed since it found no memory to record a change.
    pub fn starved(&self) -> bool
        ensures { result ≡ self.now.starved }
    {
        self.starved
    }

    /// What a crash at this moment may have left, of the greatest length; the bytes that are free come from `choice`
    /// in turn, and then are 0. A moment is the number of changes before it: of writes that were done, and of syncs.
    pub fn image(&self, moment: u64, choice: &[u8]) -> Result<Option<Vec<u8>>, AllocError>
        ensures none { IfOk result (λ image. IsNone image ↔ (length self.now.changes < moment)) }
        ensures left { let s = state_at self.now.first self.now.changes moment in
            IfOk result (λ image. IfSome image (λ image. IsImage s.synced s.ranges image.items)) }
        ensures by_choice { let s = state_at self.now.first self.now.changes moment in
            IfOk result (λ image. IfSome image (λ image. IsImageBy s.synced s.ranges choice.now image.items)) }
    {
        if moment > self.changes.len() as u64 {
            return Ok(None);
        }
        let changes = &self.changes[..moment as usize];
        let past = replay(self.alloc, &self.first, changes)?;
        let image = filled(
            self.alloc,
            &past.synced,
            &past.ranges,
            past.reading.len(),
            choice,
        )?;
        Ok(Some(image))
    }

    // Counts a call, and says whether it is one that fails.
    fn count_call(&mut self) -> bool
        ensures counted { self.new ≡ called self.old }
        ensures fails { result ≡ is_to_fail self.old }
    {
        self.calls = raised(self.calls);
        let number = self.calls;
        self.fails.as_slice().contains(&number)
    }

    // Counts a fault.
    fn fault(&mut self) -> DiskFault
        ensures counted { self.new ≡ failed self.old }
        ensures never_falls { self.old.faults ≤ self.new.faults }
    {
        self.faults = raised(self.faults);
        DiskFault
    }

    // Does a write, or finds no memory for it.
    fn put(&mut self, at: usize, bytes: &[u8]) -> bool
        requires { at ≤ length (state_of self.old).reading }
        ensures done { result ≡ true → self.new ≡ record self.old { changes = self.old.changes ++ Change.Write at bytes.now ∷ [] } }
        ensures starved { result ≡ false → self.new ≡ record self.old { starved = true } }
    {
        match write_into(self.alloc, &mut self.bytes, &mut self.changes, at, bytes) {
            Ok(()) => true,
            Err(_) => {
                self.starved = true;
                false
            }
        }
    }

    // Records a sync, or finds no memory for it.
    fn make_sure(&mut self) -> bool
        ensures done { result ≡ true → self.new ≡ record self.old { changes = self.old.changes ++ Change.Sync ∷ [] } }
        ensures starved { result ≡ false → self.new ≡ record self.old { starved = true } }
    {
        match self.changes.push(Change::Sync) {
            Ok(()) => true,
            Err(_) => {
                self.starved = true;
                false
            }
        }
    }

    // What a read gives.
    fn reading(&self) -> &[u8]
        ensures { result.now ≡ (state_of self.now).reading }
    {
        &self.bytes
    }

    // Counts a call of `read`.
    fn count_read(&mut self)
        ensures { self.new ≡ read_counted self.old }
    {
        self.reads = raised(self.reads);
    }

    fn attempt_write(&mut self, at: u64, bytes: &[u8]) -> Result<(), DiskFault>
        requires { at ≤ length (state_of self.old).reading }
        ensures attempt { Attempt self.old self.new (Change.Write at bytes.now) (nat_le (2 ^ 63) (at + length bytes.now)) result }
        ensures in_full { at + length bytes.now < 2 ^ 63
            → (self.new.changes ≡ self.old.changes ++ Change.Write at bytes.now ∷ []) ⊎ (self.new.starved ≡ true) }
    {
        let fails = self.count_call();
        let fits = at < MOST && (bytes.len() as u64) < MOST - at;
        if !fits || !self.put(at as usize, bytes) || fails {
            return Err(self.fault());
        }
        Ok(())
    }

    fn attempt_sync(&mut self) -> Result<(), DiskFault>
        ensures attempt { Attempt self.old self.new Change.Sync false result }
        ensures alone { OnErr result (self.new.changes ≡ self.old.changes) }
    {
        if self.count_call() || !self.make_sure() {
            return Err(self.fault());
        }
        Ok(())
    }
}

impl Files<MemoryDisk> {
    ghost use Rattle.disk_model.specs.Memory.{empty_disk};

    /// Files in memory that are empty and never fail.
    pub fn empty(alloc: Global) -> Result<Files<MemoryDisk>, AllocError>
        ensures { IfOk result (λ files. (files.log0 ≡ empty_disk) × (files.log1 ≡ empty_disk) × (files.bodies ≡ empty_disk)) }
    {
        Ok(Files {
            log0: MemoryDisk::new(alloc, Vec::new(alloc), Vec::new(alloc))?,
            log1: MemoryDisk::new(alloc, Vec::new(alloc), Vec::new(alloc))?,
            bodies: MemoryDisk::new(alloc, Vec::new(alloc), Vec::new(alloc))?,
        })
    }
}

impl Disk for MemoryDisk {
    ghost use Rattle.disk_model.specs.Memory.{called, failed, read_counted, is_to_fail, Attempt};
    ghost use Rattle.disk_model.specs.Lawful.{memory_told};

    ghost told = { memory_told };

    fn len(&mut self) -> Result<u64, DiskFault>
        ensures length { IfOk result (λ n. IfTold (memory_told.reading self.old) (λ file. n ≡ length file)) }
        ensures alone { LeavesAlone memory_told self.old self.new }
        ensures reads { memory_told.reads self.new ≡ memory_told.reads self.old }
        ensures cause { HasCause memory_told self.old self.new result }
        ensures ok { OnOk result (self.new ≡ called self.old) }
        ensures err { OnErr result (self.new ≡ failed (called self.old)) }
        ensures listed { IsErr result ↔ (is_to_fail self.old ≡ true) }
    {
        if self.count_call() {
            return Err(self.fault());
        }
        Ok(self.reading().len() as u64)
    }

    fn read(&mut self, at: u64, buf: &mut [u8]) -> Result<usize, DiskFault>
        ensures within { IfOk result (λ n. n ≤ length buf.old) }
        ensures bytes { IfOk result (λ n. IfTold (memory_told.reading self.old) (λ file. GivesBytes file at n buf.old buf.new)) }
        ensures alone { LeavesAlone memory_told self.old self.new }
        ensures reads { memory_told.reads self.new ≡ min (memory_told.reads self.old + 1) (2 ^ 64 - 1) }
        ensures cause { HasCause memory_told self.old self.new result }
        ensures ok { OnOk result (self.new ≡ read_counted (called self.old)) }
        ensures err { OnErr result (self.new ≡ failed (read_counted (called self.old))) }
        ensures listed { IsErr result ↔ (is_to_fail self.old ≡ true) }
    {
        let fails = self.count_call();
        self.count_read();
        if fails {
            return Err(self.fault());
        }
        Ok(copy_from(self.reading(), at, buf))
    }

    fn write_at(&mut self, at: u64, bytes: &[u8]) -> Result<(), DiskFault>
        requires { IfTold (memory_told.reading self.old) (λ file. at ≤ length file) }
        ensures fits { OnOk result (at + length bytes.now < 2 ^ 63) }
        ensures written { OnOk result (memory_told.reading self.new ≡ option_map (overwritten at bytes.now) (memory_told.reading self.old)) }
        ensures same { SameTold (memory_told.reading self.old) (memory_told.reading self.new) }
        ensures torn { IfTold (memory_told.reading self.old) (λ old. IfTold (memory_told.reading self.new) (Torn at (length bytes.now) old)) }
        ensures images { Tears at (length bytes.now) (memory_told.images self.old) (memory_told.images self.new) }
        ensures all_images { OnOk result (TearsAll at (length bytes.now) (memory_told.images self.old) (memory_told.images self.new)) }
        ensures makes_nothing_sure { (image : List ℕ) → memory_told.images self.old image → memory_told.images self.new image }
        ensures time { Elapses memory_told self.old self.new }
        ensures reads { memory_told.reads self.new ≡ memory_told.reads self.old }
        ensures cause { HasCause memory_told self.old self.new result }
        ensures attempt { Attempt self.old self.new (Change.Write at bytes.now) (nat_le (2 ^ 63) (at + length bytes.now)) result }

        // Also a write that fails by its number is done in full and recorded, unless there was no memory for that.
        ensures in_full { at + length bytes.now < 2 ^ 63
            → (self.new.changes ≡ self.old.changes ++ Change.Write at bytes.now ∷ []) ⊎ (self.new.starved ≡ true) }
    {
        self.attempt_write(at, bytes)
    }

    fn sync(&mut self) -> Result<(), DiskFault>
        ensures sure { OnOk result (IfTold (memory_told.reading self.old) (λ file. Only file (memory_told.images self.new))) }
        ensures alone { OnErr result (LeavesAlone memory_told self.old self.new) }
        ensures reading { memory_told.reading self.new ≡ memory_told.reading self.old }
        ensures images { (image : List ℕ) → memory_told.images self.new image → memory_told.images self.old image }
        ensures time { Elapses memory_told self.old self.new }
        ensures reads { memory_told.reads self.new ≡ memory_told.reads self.old }
        ensures cause { HasCause memory_told self.old self.new result }
        ensures attempt { Attempt self.old self.new Change.Sync false result }
    {
        self.attempt_sync()
    }
}

// The first place that no file reaches.
const MOST: u64 = 1 << 63;

// Does a write and records it, or without memory neither.
fn write_into(
    alloc: Global,
    file: &mut Vec<u8>,
    changes: &mut Vec<Change>,
    at: usize,
    bytes: &[u8],
) -> Result<(), AllocError>
    requires { at ≤ length file.old.items }
    ensures ok { OnOk result (file.new.items ≡ overwritten at bytes.now file.old.items) }
    ensures recorded { OnOk result (changes.new.items ≡ changes.old.items ++ Change.Write at bytes.now ∷ []) }
    ensures err { OnErr result (file.new.items ≡ file.old.items) }
    ensures unrecorded { OnErr result (changes.new.items ≡ changes.old.items) }
{
    let piece = Octets::new(bytes.to_vec(alloc)?);
    changes.push(Change::Write(at as u64, piece))?;
    match overwrite(file, at, bytes) {
        Ok(()) => Ok(()),
        Err(error) => {
            changes.pop();
            Err(error)
        }
    }
}

// Copies what is there from this place on to the front of `buf`, and says how many bytes.
fn copy_from(file: &[u8], at: u64, buf: &mut [u8]) -> usize
    ensures { GivesBytes file.now at result buf.old buf.new }
{
    if at >= file.len() as u64 {
        return 0;
    }
    let from = at as usize;
    let count = buf.len().min(file.len() - from);
    buf[..count].copy_from_slice(&file[from..from + count]);
    count
}

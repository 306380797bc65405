//! The log in use.

ghost use Rattle.std.specs.Prelude.{◌≡◌, ◌⊎◌, ◌↔◌, ◌+◌, ◌<◌, ◌≤◌, ◌^◌, [], ◌∷◌, ◌++◌, List, ℕ, length, false, true, option_map, IfOk, OnOk, OnErr, IsErrOf};
ghost use Rattle.fault_counts.specs.Rose.{Rose};
ghost use Rattle.disk_model.specs.Told.{IfTold, SameTold};
ghost use Rattle.disk_model.specs.Images.{Only, Torn};
ghost use Rattle.disk_model.specs.Calls.{overwritten, IsAtRest, LeavesOnly};
ghost use Rattle.redo_log.specs.Text.{number_text, empty_text, IsLog, IsBeforeOrAfter};

use crate::reading::{parse, read_whole};
use crate::stages::add;
use crate::{CommitFault, FormatFault, LoadFault};
use disk_model::Disk;
use octets::Octets;
use std::alloc::{AllocError, Global};
use std::marker::Model;

/// A log that was loaded, to be used with the disk that it was loaded from.
#[derive(Drop)]
pub struct Log {
    alloc: Global,
    format: u8,
    generation: u64,
    end: u64,
    spent: bool,
}

impl Model for Log {
    ghost use Rattle.std.specs.Prelude.{◌<◌, ◌^◌};
    ghost use Rattle.redo_log.specs.Kept.{Kept};

    ghost Value = { Kept };

    ghost view = { λ log. record { format = log.format; generation = log.generation; end = log.end; spent = log.spent } };

    ghost invariant = { λ log. log.end < 2 ^ 63 };
}

impl Log {
    ghost use Rattle.redo_log.specs.Kept.{HasLog};

    /// Writes an open log without payloads over the front of the disk. A crash within this call may leave anything
    /// of its first 18 bytes.
    pub fn format<D: Disk>(
        alloc: Global,
        disk: &mut D,
        format: u8,
        generation: u64,
    ) -> Result<(), FormatFault>
        ensures written { OnOk result (D.told.reading disk.new ≡ option_map (overwritten 0 (empty_text format generation)) (D.told.reading disk.old)) }
        ensures formatted { OnOk result (IfTold (D.told.reading disk.new) (IsLog format generation [])) }
        ensures at_rest { OnOk result (IsAtRest D.told disk.new) }
        ensures leaves { LeavesOnly D.told disk.old disk.new (λ image. (before : List ℕ) × D.told.images disk.old before × Torn 0 18 before image) }
        ensures failed { IsErrOf result FormatFault.Failed → Rose (D.told.faults disk.old) (D.told.faults disk.new) }
        ensures quiet { (IsErrOf result FormatFault.Failed → ⊥) → D.told.faults disk.new ≡ D.told.faults disk.old }
        ensures never_falls { D.told.faults disk.old ≤ D.told.faults disk.new }
        ensures untouched { IsErrOf result FormatFault.NoMemory → disk.new ≡ disk.old }
        ensures same { SameTold (D.told.reading disk.old) (D.told.reading disk.new) }
        ensures reads { D.told.reads disk.new ≡ D.told.reads disk.old }
    {
        let text = empty(alloc, format, generation)?;
        disk.write_at(0, &text)?;
        disk.sync()?;
        Ok(())
    }

    /// Makes sure of what the disk has, and reads its payloads, the oldest first.
    pub fn load<D: Disk>(alloc: Global, disk: &mut D) -> Result<(Log, Vec<Octets>), LoadFault>
        ensures loaded { IfOk result (λ r. HasLog D.told r.0 r.1.items disk.new) }
        ensures fresh { IfOk result (λ r. r.0.spent ≡ false) }
        ensures not_a_log { IsErrOf result LoadFault.NotALog → IfTold (D.told.reading disk.new) (λ file. Only file (D.told.images disk.new)
            × ((format generation : ℕ) (payloads : List (List ℕ)) → IsLog format generation payloads file → ⊥)) }
        ensures failed { IsErrOf result LoadFault.Failed → Rose (D.told.faults disk.old) (D.told.faults disk.new) }
        ensures quiet { (IsErrOf result LoadFault.Failed → ⊥) → D.told.faults disk.new ≡ D.told.faults disk.old }
        ensures never_falls { D.told.faults disk.old ≤ D.told.faults disk.new }
        ensures once { IfTold (D.told.reading disk.old) (λ _. D.told.reads disk.new ≤ D.told.reads disk.old + 1) }
        ensures reading { D.told.reading disk.new ≡ D.told.reading disk.old }
        ensures leaves { LeavesOnly D.told disk.old disk.new (D.told.images disk.old) }
        ensures images { (image : List ℕ) → D.told.images disk.new image → D.told.images disk.old image }
    {
        disk.sync()?;
        let bytes = read_whole(alloc, disk)?;
        match parse(alloc, &bytes)? {
            Some(parsed) => {
                let log = Log {
                    alloc,
                    format: parsed.format,
                    generation: parsed.generation,
                    end: parsed.end as u64,
                    spent: false,
                };
                Ok((log, parsed.payloads))
            }
            None => Err(LoadFault::NotALog),
        }
    }

    /// Adds a payload. From Ok on, each crash leaves a log that has it.
    pub fn commit<D: Disk>(&mut self, disk: &mut D, payload: &[u8]) -> Result<(), CommitFault>
        requires { self.old.spent ≡ false → (payloads : List (List ℕ)) × HasLog D.told self.old payloads disk.old }

        ensures added { (payloads : List (List ℕ)) → HasLog D.told self.old payloads disk.old → OnOk result (HasLog D.told self.new (payloads ++ payload.now ∷ []) disk.new) }

        // A crash at any moment of the call leaves the payloads from before it, with the new one after them or without.
        ensures any_moment { self.old.spent ≡ false → (payloads : List (List ℕ)) → HasLog D.told self.old payloads disk.old
            → IfTold (D.told.reading disk.old) (λ _. LeavesOnly D.told disk.old disk.new (IsBeforeOrAfter self.old.format self.old.generation payloads payload.now)) }

        ensures spent { IsErrOf result CommitFault.Spent ↔ (self.old.spent ≡ true) }
        ensures gives_up { OnErr result (self.new.spent ≡ true) }
        ensures goes_on { OnOk result (self.new.spent ≡ false) }
        ensures header { (self.new.format ≡ self.old.format) × (self.new.generation ≡ self.old.generation) }
        ensures failed { IsErrOf result CommitFault.Failed → Rose (D.told.faults disk.old) (D.told.faults disk.new) }
        ensures quiet { (IsErrOf result CommitFault.Failed → ⊥) → D.told.faults disk.new ≡ D.told.faults disk.old }
        ensures never_falls { D.told.faults disk.old ≤ D.told.faults disk.new }
        ensures untouched { IsErrOf result CommitFault.Spent ⊎ IsErrOf result CommitFault.NoMemory → disk.new ≡ disk.old }
        ensures same { SameTold (D.told.reading disk.old) (D.told.reading disk.new) }
        ensures reads { D.told.reads disk.new ≡ D.told.reads disk.old }
    {
        if self.spent {
            return Err(CommitFault::Spent);
        }
        self.spent = true;
        let block = closed_block(self.alloc, payload)?;
        add(disk, self.end, &block)?;
        self.end += block.len() as u64;
        self.spent = false;
        Ok(())
    }

    /// The header's format byte.
    pub fn format_byte(&self) -> u8
        ensures { result ≡ self.now.format }
    {
        self.format
    }

    /// The header's generation.
    pub fn generation(&self) -> u64
        ensures { result ≡ self.now.generation }
    {
        self.generation
    }
}

// The payload's length, the payload, and a closed gate.
#[tactic(auto, unfolding(crate::specs::Text::number_text))]
fn closed_block(alloc: Global, payload: &[u8]) -> Result<Vec<u8>, AllocError>
    ensures { IfOk result (λ block. block.items ≡ number_text (length payload.now) ++ payload.now ++ 0 ∷ []) }
{
    let mut block = Vec::with_capacity(alloc, payload.len().saturating_add(9))?;
    block.extend_from_slice(&(payload.len() as u64).to_be_bytes())?;
    block.extend_from_slice(payload)?;
    block.push(0)?;
    Ok(block)
}

// The text of an open log without payloads.
#[tactic(auto, unfolding(crate::specs::Text::header, crate::specs::Text::number_text))]
fn empty(alloc: Global, format: u8, generation: u64) -> Result<Vec<u8>, AllocError>
    ensures { IfOk result (λ text. text.items ≡ empty_text format generation) }
{
    let mut text = Vec::with_capacity(alloc, 18)?;
    text.extend_from_slice(b"\x01MAILROW")?;
    text.push(format)?;
    text.extend_from_slice(&generation.to_be_bytes())?;
    text.push(0)?;
    Ok(text)
}

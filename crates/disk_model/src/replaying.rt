//! What a disk in memory was at a moment of the past, by doing its changes again.

ghost use Rattle.std.specs.Prelude.{◌≡◌, ◌<◌, ◌≤◌, ℕ, length, IfOk, OnOk, OnErr, slice_index};
ghost use Rattle.disk_model.specs.Images.{is_within, is_written};
ghost use Rattle.disk_model.specs.Calls.{overwritten};
ghost use Rattle.disk_model.specs.Memory.{at_rest, next, after, chosen};
ghost use Rattle.disk_model.specs.Past.{state_in};

use crate::memory::{Change, Written};
use std::alloc::{AllocError, Global};

// Puts the bytes over what is there and past the end.
pub(crate) fn overwrite(file: &mut Vec<u8>, at: usize, bytes: &[u8]) -> Result<(), AllocError>
    requires { at ≤ length file.old.items }
    ensures ok { OnOk result (file.new.items ≡ overwritten at bytes.now file.old.items) }
    ensures err { OnErr result (file.new.items ≡ file.old.items) }
{
    let inside = bytes.len().min(file.len() - at);
    file.extend_from_slice(&bytes[inside..])?;
    file[at..at + inside].copy_from_slice(&bytes[..inside]);
    Ok(())
}

// A state of the past: what a read gave, the bytes of the last sync, and the ranges written since.
#[derive(Drop)]
pub(crate) struct Past {
    pub(crate) reading: Vec<u8>,
    pub(crate) synced: Vec<u8>,
    pub(crate) ranges: Vec<Written>,
}

// The state after these changes.
pub(crate) fn replay(alloc: Global, first: &[u8], changes: &[Change]) -> Result<Past, AllocError>
    ensures { IfOk result (λ past. state_in past ≡ after (at_rest first.now) changes.now) }
{
    let mut past = Past {
        reading: first.to_vec(alloc)?,
        synced: first.to_vec(alloc)?,
        ranges: Vec::new(alloc),
    };
    for change in changes {
        follow(&mut past, change)?;
    }
    Ok(past)
}

// The state after one change more.
fn follow(past: &mut Past, change: &Change) -> Result<(), AllocError>
    ensures { OnOk result (state_in past.new ≡ next (state_in past.old) change.now) }
{
    match change {
        Change::Write(at, bytes) => {
            let place = (*at as usize).min(past.reading.len());
            overwrite(&mut past.reading, place, bytes.as_slice())?;
            let range = Written {
                at: *at,
                count: bytes.len() as u64,
            };
            past.ranges.insert(0, range)?;
        }
        Change::Sync => {
            past.synced.clear();
            past.synced.extend_from_slice(past.reading.as_slice())?;
            past.ranges.clear();
        }
    }
    Ok(())
}

fn is_in(range: &Written, place: u64) -> bool
    ensures { result ≡ is_within range.now place }
{
    range.at <= place && place - range.at < range.count
}

fn is_in_one(ranges: &[Written], place: u64) -> bool
    ensures { result ≡ is_written ranges.now place }
{
    ranges.iter().any(|range| is_in(range, place))
}

// The image of this length whose free places take the bytes of `choice` in turn.
pub(crate) fn filled(
    alloc: Global,
    synced: &[u8],
    ranges: &[Written],
    len: usize,
    choice: &[u8],
) -> Result<Vec<u8>, AllocError>
    ensures size { IfOk result (λ image. length image.items ≡ len) }
    ensures bytes { IfOk result (λ image. (place : ℕ) → place < len → slice_index image.items place ≡ chosen synced.now ranges.now choice.now place) }
{
    let mut image = Vec::with_capacity(alloc, len)?;
    let mut used = 0;
    for place in 0..len {
        let kept = place < synced.len() && !is_in_one(ranges, place as u64);
        let byte = if kept {
            synced[place]
        } else {
            choice.get(used).copied().unwrap_or(0)
        };
        if !kept {
            used += 1;
        }
        image.push(byte)?;
    }
    Ok(image)
}

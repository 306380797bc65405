//! Reading the text of a log.

ghost use Rattle.std.specs.Prelude.{◌≡◌, ◌+◌, ◌<◌, ◌≤◌, ◌^◌, ◌++◌, List, ℕ, length, take, drop, IfOk, IfSome, IfNone, IsErrOf};
ghost use Rattle.std.specs.List.{flat_map, AllByRecursion};
ghost use Rattle.disk_model.specs.Told.{IfTold};
ghost use Rattle.disk_model.specs.Calls.{HasCause, LeavesAlone};
ghost use Rattle.fault_counts.specs.Rose.{Rose};
ghost use Rattle.redo_log.specs.Text.{number_text, header, record_text, BeginsNoRecord, IsLog, EndsAt};

use crate::LoadFault;
use disk_model::{Disk, DiskFault};
use octets::Octets;
use std::alloc::{AllocError, Global};

/// The text of a log says one thing: its format byte, its generation and its payloads are determined.
pub fn a_text_says_one_thing()
    ensures { (f g f2 g2 : ℕ) (payloads others : List (List ℕ)) (bytes : List ℕ) → IsLog f g payloads bytes → IsLog f2 g2 others bytes
        → (f ≡ f2) × (g ≡ g2) × (payloads ≡ others) }
{}

// What the text of a log says, and where its closed gate stands.
#[derive(Drop)]
pub(crate) struct Parsed {
    pub(crate) format: u8,
    pub(crate) generation: u64,
    pub(crate) payloads: Vec<Octets>,
    pub(crate) end: usize,
}

// All bytes of a file, read in one piece where the disk gives as many as asked for.
pub(crate) fn read_whole<D: Disk>(alloc: Global, disk: &mut D) -> Result<Vec<u8>, LoadFault>
    ensures bytes { IfOk result (λ bytes. IfTold (D.told.reading disk.old) (λ file. bytes.items ≡ file)) }
    ensures alone { LeavesAlone D.told disk.old disk.new }
    ensures failed { IsErrOf result LoadFault.Failed → Rose (D.told.faults disk.old) (D.told.faults disk.new) }
    ensures not_told { ¬ IsErrOf result LoadFault.NotALog }
    ensures once { IfTold (D.told.reading disk.old) (λ _. D.told.reads disk.new ≤ D.told.reads disk.old + 1) }
    ensures quiet { (IsErrOf result LoadFault.Failed → ⊥) → D.told.faults disk.new ≡ D.told.faults disk.old }
    ensures never_falls { D.told.faults disk.old ≤ D.told.faults disk.new }
{
    let len = disk.len()?;
    let mut bytes = vec![in alloc; 0u8; len as usize]?;
    let count = read_all(disk, &mut bytes)?;
    bytes.truncate(count);
    Ok(bytes)
}

// Reads from the start, until the buffer is full or the disk gives no more.
fn read_all<D: Disk>(disk: &mut D, buf: &mut [u8]) -> Result<usize, DiskFault>
    ensures bytes { IfOk result (λ n. IfTold (D.told.reading disk.old) (λ file. length buf.old ≡ length file → take n buf.new ≡ file)) }
    ensures within { IfOk result (λ n. n ≤ length buf.old) }
    ensures once { IfTold (D.told.reading disk.old) (λ file. length buf.old ≡ length file → D.told.reads disk.new ≤ D.told.reads disk.old + 1) }
    ensures alone { LeavesAlone D.told disk.old disk.new }
    ensures cause { HasCause D.told disk.old disk.new result }
{
    let mut count = 0;
    while count < buf.len() {
        let more = disk.read(count as u64, &mut buf[count..])?;
        if more == 0 {
            break;
        }
        count += more;
    }
    Ok(count)
}

// The number at the front, and what follows it.
fn number(bytes: &[u8]) -> Option<(u64, &[u8])>
    ensures some { IfSome result (λ r. bytes.now ≡ number_text r.0 ++ r.1.now) }
    ensures fits { IfSome result (λ r. r.0 < 2 ^ 64) }
    ensures none { IfNone result (length bytes.now < 8) }
{
    let [a, b, c, d, e, f, g, h, rest @ ..] = bytes else {
        return None;
    };
    Some((u64::from_be_bytes([*a, *b, *c, *d, *e, *f, *g, *h]), rest))
}

// The format byte and the generation of an open header, and what follows it.
fn open_header(bytes: &[u8]) -> Option<(u8, u64, &[u8])>
    ensures some { IfSome result (λ r. bytes.now ≡ header r.0 r.1 ++ r.2.now) }
    ensures fits { IfSome result (λ r. r.1 < 2 ^ 64) }
    ensures none { IfNone result ((format generation : ℕ) (rest : List ℕ) → generation < 2 ^ 64 → bytes.now ≡ header format generation ++ rest → ⊥) }
{
    let [format, rest @ ..] = bytes.strip_prefix(b"\x01MAILROW".as_slice())? else {
        return None;
    };
    let (generation, rest) = number(rest)?;
    Some((*format, generation, rest))
}

// The payload of a record with an open gate, and what follows it.
fn open_record(bytes: &[u8]) -> Option<(&[u8], &[u8])>
    ensures some { IfSome result (λ r. bytes.now ≡ record_text r.0.now ++ r.1.now) }
    ensures fits { IfSome result (λ r. length r.0.now < 2 ^ 64) }
    ensures none { IfNone result (BeginsNoRecord bytes.now) }
{
    let [1, rest @ ..] = bytes else {
        return None;
    };
    let (len, rest) = number(rest)?;
    if len > rest.len() as u64 {
        return None;
    }
    Some(rest.split_at(len as usize))
}

// The payloads of the records with open gates at the front, and how many bytes these records have.
fn open_records(alloc: Global, bytes: &[u8]) -> Result<(Vec<Octets>, usize), AllocError>
    ensures split { IfOk result (λ r. bytes.now ≡ flat_map record_text r.0.items ++ drop r.1 bytes.now) }
    ensures within { IfOk result (λ r. r.1 ≤ length bytes.now) }
    ensures fit { IfOk result (λ r. AllByRecursion (λ payload. length payload < 2 ^ 64) r.0.items) }
    ensures all { IfOk result (λ r. BeginsNoRecord (drop r.1 bytes.now)) }
{
    let mut payloads = Vec::new(alloc);
    let mut rest = bytes;
    while let Some((payload, after)) = open_record(rest) {
        payloads.push(Octets::new(payload.to_vec(alloc)?))?;
        rest = after;
    }
    Ok((payloads, bytes.len() - rest.len()))
}

// What the bytes say, if they are the text of an open log.
pub(crate) fn parse(alloc: Global, bytes: &[u8]) -> Result<Option<Parsed>, AllocError>
    ensures some { IfOk result (λ o. IfSome o (λ p. EndsAt p.format p.generation p.payloads.items p.end bytes.now)) }
    ensures none { IfOk result (λ o. IfNone o ((format generation : ℕ) (payloads : List (List ℕ)) → IsLog format generation payloads bytes.now → ⊥)) }
{
    let Some((format, generation, records)) = open_header(bytes) else {
        return Ok(None);
    };
    let (payloads, used) = open_records(alloc, records)?;
    let gate = &records[used..];
    if gate.is_empty() || gate[0] == 1 {
        return Ok(None);
    }
    Ok(Some(Parsed {
        format,
        generation,
        payloads,
        end: bytes.len() - gate.len(),
    }))
}

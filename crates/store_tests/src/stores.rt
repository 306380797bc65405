//! Stores in memory.

ghost use Rattle.std.specs.Prelude.{◌≡◌, ◌≤◌, ◌^◌, false, [], length, IfOk, OnOk};

use disk_model::{Files, MemoryDisk};
use mime_reader::read_or_wrap;
use row_store::RowStore;
use shredder::{law_mails_fit, rows_of};
use std::alloc::Global;
use std::test::Fail;

fn disk_with(alloc: Global, bytes: Vec<u8>) -> Result<MemoryDisk, Fail> {
    Ok(MemoryDisk::new(alloc, bytes, Vec::new(alloc))?)
}

// A log of this record.
fn log_of(alloc: Global, record: &[u8]) -> Result<Vec<u8>, Fail> {
    let mut log = b"\x01MAILROW\0\0\0\0\0\0\0\0\x01\x01".to_vec(alloc)?;
    log.extend_from_slice(&(record.len() as u64).to_be_bytes())?;
    log.extend_from_slice(record)?;
    log.push(0)?;
    Ok(log)
}

// The store that a log made by hand is, whose one record has these bytes, if they are changes that fit in turn.
pub(crate) fn store_of(alloc: Global, record: &[u8]) -> Result<RowStore<MemoryDisk>, Fail>
    ensures { IfOk result (λ store. (store.spent ≡ false) × (store.placed ≡ [])) }
{
    let files = Files {
        log0: disk_with(alloc, log_of(alloc, record)?)?,
        log1: disk_with(alloc, Vec::new(alloc))?,
        bodies: disk_with(alloc, Vec::new(alloc))?,
    };
    match RowStore::load(alloc, files) {
        Ok(store) => Ok(store),
        Err(unloaded) => Err(Fail::from(unloaded.fault)),
    }
}

// Puts what is kept of a text into a store. Gives its id, and how many changes that took.
pub(crate) fn put(
    alloc: Global,
    store: &mut RowStore<MemoryDisk>,
    text: &[u8],
) -> Result<(u64, usize), Fail>
    requires short { length text.now ≤ 2 ^ 27 }
    requires usable { store.old.spent ≡ false }
    requires fresh { store.old.placed ≡ [] }
    ensures { OnOk result ((store.new.spent ≡ false) × (store.new.placed ≡ [])) }
{
    law_mails_fit();
    let mail = read_or_wrap(alloc, text, 0)?;
    let (id, changes) = rows_of(alloc, &mail, store)?;
    let count = changes.len();
    store.commit(changes)?;
    Ok((id, count))
}

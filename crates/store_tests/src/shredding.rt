//! Messages that go into a store, and what they share.

ghost use Rattle.std.specs.Prelude.{◌≡◌, ◌≤◌, ◌^◌, false, [], length, OnOk};

use crate::stores::put;
use disk_model::MemoryDisk;
use row_store::RowStore;
use row_tables::Tables;
use std::alloc::Global;
use std::process::Abort;
use std::test::Fail;

// A message with a value of each kind, a message within, and a base64 leaf with the same body as that.
fn typed() -> &'static [u8]
    ensures { length result.now ≤ 2 ^ 27 }
{
    b"To: A <a@x>, T: b@x;\nDate: 1 Jul 03 10:52 Z\nReferences: <a> <b>\n\
    Content-Type: multipart/mixed; boundary=b\n\n\
    --b\nContent-Type: message/rfc822\n\nTo: b@x\n\nhi\n\
    --b\nContent-Transfer-Encoding: base64\n\naGk=\n"
}

// A message of 3 bytes.
fn short() -> &'static [u8]
    ensures { length result.now ≤ 2 ^ 27 }
{
    b"\nabc"
}

// The kind of a part of the first message.
fn kind_at(tables: &Tables, path: &[u8]) -> Option<u8> {
    match tables.part_numbers_row((1, path)) {
        Some(row) => Some(row.kind),
        None => None,
    }
}

// The first and the last byte of the digest of a body.
fn digest(tables: &Tables, id: u64) -> Option<(u8, u8)> {
    match tables.bodyparts_row(id) {
        Some(row) => Some((row.digest[0], row.digest[31])),
        None => None,
    }
}

// What the first message and the second body have in the tables.
fn try_tables(rt: &impl Abort, tables: &Tables) {
    assert_eq!(rt; kind_at(tables, b""), Some(2));
    assert_eq!(rt; kind_at(tables, b"1"), Some(3));
    assert_eq!(rt; kind_at(tables, b"1.0"), Some(0));
    assert_eq!(rt; kind_at(tables, b"2"), Some(1));
    // FIPS 180-4 gives the SHA-256 of `abc`: ba7816bf .. f20015ad. It is the second body, behind `hi`.
    assert_eq!(rt; digest(tables, 2), Some((0xba, 0xad)));
}

// Puts a message twice, and another, into an empty store.
pub(crate) fn try_rows(
    rt: &impl Abort,
    alloc: Global,
    store: &mut RowStore<MemoryDisk>,
) -> Result<(), Fail>
    requires usable { store.old.spent ≡ false }
    requires fresh { store.old.placed ≡ [] }
    ensures { OnOk result ((store.new.spent ≡ false) × (store.new.placed ≡ [])) }
{
    // The message, 4 parts with 1 body, 7 fields of 5 names, 5 items of 3 addresses, a date and 2 ids.
    assert_eq!(rt; put(alloc, store, typed())?, (1, 29));
    // None of the names, addresses and bodies is new.
    assert_eq!(rt; put(alloc, store, typed())?, (2, 20));
    assert_eq!(rt; put(alloc, store, short())?, (3, 3));
    try_tables(rt, store.tables());
    Ok(())
}

//! Mails that go into a store and come back, and rows that are no mail's.

ghost use Rattle.std.specs.Prelude.{◌≡◌, ◌≤◌, ◌^◌, false, [], length, OnOk};

use crate::shredding::try_rows;
use crate::stores::{put, store_of};
use disk_model::MemoryDisk;
use mime_tree::Reason;
use rebuilder::{header, message, reason_in, tree};
use row_store::RowStore;
use shredder::path_of_child;
use std::alloc::Global;
use std::process::Abort;
use std::test::Fail;

// A message with a value of each kind, a base64 leaf, and a message within.
fn typed() -> &'static [u8]
    ensures { length result.now ≤ 2 ^ 27 }
{
    b"To: T: A <a@x>, b@x;\r\nReferences: <b@x> <a@x>\r\n\
    Content-Type: multipart/mixed; boundary=b\r\n\r\n\
    --b\r\nContent-Transfer-Encoding: base64\r\n\r\nAP8=\r\n\r\n\
    --b\r\nContent-Type: message/rfc822\r\n\r\nFrom: d@z\r\n\r\nhi\r\n--b--\r\n"
}

// What is rebuilt of a message: its print, its reason, and how many fields its header has.
#[derive(Drop)]
struct Rebuilt {
    print: Vec<u8>,
    reason: Option<Reason>,
    fields: usize,
}

fn read_back(alloc: Global, store: &mut RowStore<MemoryDisk>, id: u64) -> Result<Rebuilt, Fail>
    requires { store.old.spent ≡ false }
    ensures { OnOk result ((store.new.spent ≡ false) × (store.new.placed ≡ store.old.placed)) }
{
    let fields = header(alloc, store, id)?.len();
    let reason = reason_in(store.tables(), id);
    let print = message(alloc, store, id)?;
    Ok(Rebuilt {
        print,
        reason,
        fields,
    })
}

fn put_and_read(
    alloc: Global,
    store: &mut RowStore<MemoryDisk>,
    text: &[u8],
) -> Result<Rebuilt, Fail>
    requires short { length text.now ≤ 2 ^ 27 }
    requires usable { store.old.spent ≡ false }
    requires fresh { store.old.placed ≡ [] }
    ensures { OnOk result ((store.new.spent ≡ false) × (store.new.placed ≡ [])) }
{
    let (id, _) = put(alloc, store, text)?;
    read_back(alloc, store, id)
}

fn try_mails(rt: &impl Abort, alloc: Global, store: &mut RowStore<MemoryDisk>) -> Result<(), Fail>
    requires usable { store.old.spent ≡ false }
    requires fresh { store.old.placed ≡ [] }
{
    try_rows(rt, alloc, store)?;
    let read = put_and_read(alloc, store, typed())?;
    assert_eq!(rt; read.print.as_slice(), typed());
    assert_eq!(rt; read.fields, 3);
    assert!(rt; read.reason.is_none());
    let read = put_and_read(alloc, store, b"\0")?;
    assert_eq!(rt; read.fields, 4);
    assert!(rt; read.reason == Some(Reason::ZeroByte));
    Ok(())
}

#[test]
fn mails_go_through_rows(rt: HostRuntime) -> Result<(), Fail> {
    let mut store = store_of(rt.alloc(), b"")?;
    try_mails(&rt, rt.alloc(), &mut store)
}

// ---- rows that are no mail's

// Records of a log, row by row: the table, the insertion, and the columns. A message without parts.
const ALONE: &[u8] = b"\x03\0\0\0\0\0\0\0\0\x01\0\0\0\0\0\0\0\x09";

// A leaf without fields.
const BARE: &[u8] = b"\x03\0\0\0\0\0\0\0\0\x01\0\0\0\0\0\0\0\x09\
    \x08\0\0\0\0\0\0\0\0\x07eeeeeeeeeeeeeeeeeeeeeeeeeeeeeeee\0\0\0\x02hi\
    \x09\0\0\0\0\0\0\0\0\x01\0\0\0\0\0\0\0\0\0\0\0\0\x07";

// A multipart without parts, with a date field whose value has no row.
const DATELESS: &[u8] = b"\x03\0\0\0\0\0\0\0\0\x01\0\0\0\0\0\0\0\x09\
    \x09\0\0\0\0\0\0\0\0\x01\0\0\0\0\x02\0\0\0\0\0\0\0\0\
    \x0a\0\0\0\0\0\0\0\0\x03\0\0\0\x04Date\
    \x0b\0\0\0\0\0\0\0\0\x01\0\0\0\0\0\0\0\0\0\0\0\0\0\0\0\x03\x02\0\0\0\0";

// The same, where the value has a row of 3 bytes.
const SHORT_DATE: &[u8] = b"\x03\0\0\0\0\0\0\0\0\x01\0\0\0\0\0\0\0\x09\
    \x09\0\0\0\0\0\0\0\0\x01\0\0\0\0\x02\0\0\0\0\0\0\0\0\
    \x0a\0\0\0\0\0\0\0\0\x03\0\0\0\x04Date\
    \x0b\0\0\0\0\0\0\0\0\x01\0\0\0\0\0\0\0\0\0\0\0\0\0\0\0\x03\x02\0\0\0\0\
    \x0e\0\0\0\0\0\0\0\0\x01\0\0\0\0\0\0\0\0\0\0\0\x03Tue\0\0\0\0\0\0\0\0\0\0\0\0\0\0\0\0";

// Messages within messages, so many, and no leaf.
fn chain(alloc: Global, depth: usize) -> Result<Vec<u8>, Fail> {
    let mut record = ALONE.to_vec(alloc)?;
    let mut path = Vec::new(alloc);
    for _ in 0..depth {
        record.extend_from_slice(b"\x09\0\0\0\0\0\0\0\0\x01")?;
        record.extend_from_slice(&u32::try_from(path.len()).unwrap_or(0).to_be_bytes())?;
        record.extend_from_slice(&path)?;
        record.extend_from_slice(b"\x03\0\0\0\0\0\0\0\0")?;
        path = path_of_child(alloc, &path, 0)?;
    }
    Ok(record)
}

// How many fields and how many bytes message 1 of a store has whose log was made by hand, once its tree was built.
fn sizes(alloc: Global, record: &[u8]) -> Result<(usize, usize), Fail> {
    let mut store = store_of(alloc, record)?;
    sizes_in(alloc, &mut store)
}

fn sizes_in(alloc: Global, store: &mut RowStore<MemoryDisk>) -> Result<(usize, usize), Fail>
    requires { store.old.spent ≡ false }
{
    let built = tree(alloc, store, 1)?;
    let read = read_back(alloc, store, 1)?;
    if read.fields == built.fields.len() {
        Ok((read.fields, read.print.len()))
    } else {
        Err(Fail::from("two headers"))
    }
}

// Which message stands for such rows isn't promised: they come to an end, and each level has two bytes at least.
#[test]
fn rows_of_no_mail_are_read(rt: HostRuntime) -> Result<(), Fail> {
    let alloc = rt.alloc();
    assert_eq!(rt; sizes(alloc, ALONE)?.0, 0);
    assert_eq!(rt; sizes(alloc, BARE)?.0, 0);
    assert_eq!(rt; sizes(alloc, DATELESS)?.0, 1);
    assert_eq!(rt; sizes(alloc, SHORT_DATE)?.0, 1);
    let (fields, bytes) = sizes(alloc, &chain(alloc, 1_000)?)?;
    assert_eq!(rt; fields, 0);
    assert!(rt; bytes < 300);
    Ok(())
}

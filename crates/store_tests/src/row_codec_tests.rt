use octets::Octets;
use row_codec::{decode, encode};
use row_tables::{FlagName, MailboxMessage, RowChange};
use std::alloc::{AllocError, Global};
use std::test::Fail;

// Whether the bytes are those of one change, which has these bytes.
fn goes_round(alloc: Global, bytes: &[u8]) -> Result<bool, AllocError> {
    match decode(alloc, bytes)? {
        Some(changes) => Ok(changes.len() == 1 && encode(alloc, &changes)?.as_slice() == bytes),
        None => Ok(false),
    }
}

// Of each table an insert, an update and a removal, and the drop of a mailbox. The numbers of the columns are 1, 18, 35 and so on,
// the signed ones -1, -2 and so on.
const CHANGES: [&[u8]; 55] = [
    b"\x01\0\0\0\0\x01\0\0\0\0ffffffffffffffffffffffffffffffff",
    b"\x01\x01\0\0\0\x01\0\0\0\0ffffffffffffffffffffffffffffffff",
    b"\x01\x02\0\0\0\x01",
    b"\x02\0\0\0\0\x01\0\0\0\x12\0\0\0\x01c\0\0\04\0\0\0E\0\0\0\0\0\0\0V",
    b"\x02\x01\0\0\0\x01\0\0\0\x12\0\0\0\x01c\0\0\04\0\0\0E\0\0\0\0\0\0\0V",
    b"\x02\x02\0\0\0\x01",
    b"\x03\0\0\0\0\0\0\0\0\x01\0\0\0\0\0\0\0\x12",
    b"\x03\x01\0\0\0\0\0\0\0\x01\0\0\0\0\0\0\0\x12",
    b"\x03\x02\0\0\0\0\0\0\0\x01",
    b"\x04\0\0\0\0\x01\0\0\0\x12\0\0\0\0\0\0\0#\0\0\0\0\0\0\04\xff\xff\xff\xff\xff\xff\xff\xfb\xff\xfa",
    b"\x04\x01\0\0\0\x01\0\0\0\x12\0\0\0\0\0\0\0#\0\0\0\0\0\0\04\xff\xff\xff\xff\xff\xff\xff\xfb\xff\xfa",
    b"\x04\x02\0\0\0\x01\0\0\0\x12",
    b"\x05\0\0\0\0\x01\0\0\0\x12\0\0\0\0\0\0\0#",
    b"\x05\x01\0\0\0\x01\0\0\0\x12\0\0\0\0\0\0\0#",
    b"\x05\x02\0\0\0\x01\0\0\0\x12",
    b"\x06\0\0\0\0\0\0\0\0\x01\0\0\0\0",
    b"\x06\x01\0\0\0\0\0\0\0\x01\0\0\0\0",
    b"\x06\x02\0\0\0\0\0\0\0\x01",
    b"\x07\0\0\0\0\x01\0\0\0\x12\0\0\0\0\0\0\0#",
    b"\x07\x01\0\0\0\x01\0\0\0\x12\0\0\0\0\0\0\0#",
    b"\x07\x02\0\0\0\x01\0\0\0\x12\0\0\0\0\0\0\0#",
    b"\x08\0\0\0\0\0\0\0\0\x01eeeeeeeeeeeeeeeeeeeeeeeeeeeeeeee\0\0\0\x01c",
    b"\x08\x01\0\0\0\0\0\0\0\x01eeeeeeeeeeeeeeeeeeeeeeeeeeeeeeee\0\0\0\x01c",
    b"\x08\x02\0\0\0\0\0\0\0\x01",
    b"\x09\0\0\0\0\0\0\0\0\x01\0\0\0\0#\0\0\0\0\0\0\04",
    b"\x09\x01\0\0\0\0\0\0\0\x01\0\0\0\0#\0\0\0\0\0\0\04",
    b"\x09\x02\0\0\0\0\0\0\0\x01\0\0\0\0",
    b"\x0a\0\0\0\0\0\0\0\0\x01\0\0\0\0",
    b"\x0a\x01\0\0\0\0\0\0\0\x01\0\0\0\0",
    b"\x0a\x02\0\0\0\0\0\0\0\x01",
    b"\x0b\0\0\0\0\0\0\0\0\x01\0\0\0\0\0\0\0#\0\0\0\0\0\0\04E\0\0\0\x01c",
    b"\x0b\x01\0\0\0\0\0\0\0\x01\0\0\0\0\0\0\0#\0\0\0\0\0\0\04E\0\0\0\x01c",
    b"\x0b\x02\0\0\0\0\0\0\0\x01\0\0\0\0\0\0\0#",
    b"\x0c\0\0\0\0\0\0\0\0\x01\0\0\0\0\0\0\0\x01c\0\0\0\x02ab",
    b"\x0c\x01\0\0\0\0\0\0\0\x01\0\0\0\0\0\0\0\x01c\0\0\0\x02ab",
    b"\x0c\x02\0\0\0\0\0\0\0\x01",
    b"\x0d\0\0\0\0\0\0\0\0\x01\0\0\0\0\0\0\0#\0\0\04E\0\0\0\0\0\0\0V",
    b"\x0d\x01\0\0\0\0\0\0\0\x01\0\0\0\0\0\0\0#\0\0\04E\0\0\0\0\0\0\0V",
    b"\x0d\x02\0\0\0\0\0\0\0\x01\0\0\0\0\0\0\0#\0\0\04",
    b"\x0e\0\0\0\0\0\0\0\0\x01\0\0\0\0\0\0\0#\0\0\0\x02ab\xff\xff\xff\xff\xff\xff\xff\xfb\xff\xff\xff\xff\xff\xff\xff\xfa",
    b"\x0e\x01\0\0\0\0\0\0\0\x01\0\0\0\0\0\0\0#\0\0\0\x02ab\xff\xff\xff\xff\xff\xff\xff\xfb\xff\xff\xff\xff\xff\xff\xff\xfa",
    b"\x0e\x02\0\0\0\0\0\0\0\x01\0\0\0\0\0\0\0#",
    b"\x0f\0\0\0\0\0\0\0\0\x01\0\0\0\0\0\0\0#\0\0\04\0\0\0\0",
    b"\x0f\x01\0\0\0\0\0\0\0\x01\0\0\0\0\0\0\0#\0\0\04\0\0\0\0",
    b"\x0f\x02\0\0\0\0\0\0\0\x01\0\0\0\0\0\0\0#\0\0\04",
    b"\x10\0\0\0\0\0\0\0\0\x01\x12",
    b"\x10\x01\0\0\0\0\0\0\0\x01\x12",
    b"\x10\x02\0\0\0\0\0\0\0\x01",
    b"\x11\0\0\0\0\x01\0\0\0\0",
    b"\x11\x01\0\0\0\x01\0\0\0\0",
    b"\x11\x02\0\0\0\x01\0\0\0\0",
    b"\x12\0\0\0\0\x01",
    b"\x12\x01\0\0\0\x01",
    b"\x12\x02",
    b"\x02\x03\x01\x02\x03\x04",
];

#[test]
fn reads_and_writes_each_change_of_each_table(rt: HostRuntime) -> Result<(), Fail> {
    for bytes in CHANGES {
        assert!(rt; goes_round(rt.alloc(), bytes)?);
    }
    Ok(())
}

#[test]
fn writes_the_insert_of_a_flag_name(rt: HostRuntime) -> Result<(), Fail> {
    let alloc = rt.alloc();
    let row = FlagName {
        id: 1,
        name: Octets::new(b"x".to_vec(alloc)?),
    };
    let bytes = encode(alloc, &[RowChange::InsertFlagName(row)])?;
    assert_eq!(rt;
        bytes.as_slice(),
        b"\x06\0\0\0\0\0\0\0\0\x01\0\0\0\x01x".as_slice()
    );
    Ok(())
}

#[test]
fn writes_signed_columns_in_twos_complement(rt: HostRuntime) -> Result<(), Fail> {
    let row = MailboxMessage {
        mailbox: 1,
        uid: 2,
        message: 3,
        modseq: 4,
        seconds: i64::MIN,
        zone: -90,
    };
    let bytes = encode(rt.alloc(), &[RowChange::UpdateMailboxMessage(row)])?;
    assert_eq!(rt;
        bytes.as_slice(),
        b"\x04\x01\0\0\0\x01\0\0\0\x02\0\0\0\0\0\0\0\x03\0\0\0\0\0\0\0\x04\x80\0\0\0\0\0\0\0\xff\xa6".as_slice()
    );
    Ok(())
}

#[test]
fn refuses_other_bytes(rt: HostRuntime) -> Result<(), Fail> {
    let alloc = rt.alloc();
    let others = [
        // no operation, no columns, a number that is cut
        b"\x0a".as_slice(),
        b"\x0a\0".as_slice(),
        b"\x03\0\0\0\0\0\0\0\0\x01\0\0\0\0\0\0\x01".as_slice(),
        // no such table, no such operation, and the drop of what is no mailbox
        b"\x13\0\0\0\0\0\0\0\0\x01\0\0\0\x01x".as_slice(),
        b"\x0a\x04\0\0\0\0\0\0\0\x01\0\0\0\x01x".as_slice(),
        b"\x01\x03\0\0\0\x01".as_slice(),
        // lengths past the end
        b"\x0a\0\0\0\0\0\0\0\0\x01\0\0\0\x02x".as_slice(),
        b"\x0a\0\0\0\0\0\0\0\0\x01\xff\xff\xff\xffx".as_slice(),
        // a byte behind the change
        b"\x0a\0\0\0\0\0\0\0\0\x01\0\0\0\x01x\0".as_slice(),
        // a digest that is cut
        b"\x08\0\0\0\0\0\0\0\0\x02dd".as_slice(),
    ];
    for bytes in others {
        assert!(rt; decode(alloc, bytes)?.is_none());
    }
    Ok(())
}

#[test]
fn no_changes_are_no_bytes(rt: HostRuntime) -> Result<(), Fail> {
    let changes = decode(rt.alloc(), b"")?;
    assert!(rt; changes.is_some_and(|changes| changes.is_empty()));
    Ok(())
}

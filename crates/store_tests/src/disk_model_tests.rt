//! What a disk in memory shows of each moment, and of calls that fail.

use disk_model::{Disk, DiskFault, MemoryDisk};
use std::test::Fail;

fn image(disk: &MemoryDisk, moment: u64, choice: &[u8]) -> Result<Vec<u8>, Fail> {
    Ok(disk.image(moment, choice)?.ok_or("no such moment")?)
}

// Of the file `abcd`: `XY` is written at 1, `Z` at its end, then it is synced, and `0` is written at 0.
#[test]
fn shows_what_each_moment_might_have_left(rt: HostRuntime) -> Result<(), Fail> {
    let alloc = rt.alloc();
    let mut disk = MemoryDisk::new(alloc, b"abcd".to_vec(alloc)?, vec![in alloc; 5_u64]?)?;
    disk.write_at(1, b"XY").ok().ok_or("write")?;
    disk.write_at(4, b"Z").ok().ok_or("write")?;
    disk.sync().ok().ok_or("sync")?;
    disk.write_at(0, b"0").ok().ok_or("write")?;
    for (moment, choice, want) in [
        (0, b"123456", b"abcd".as_slice()),
        (1, b"123456", b"a12d"),
        (2, b"123456", b"a12d3"),
        (3, b"123456", b"aXYdZ"),
        (4, b"123456", b"1XYdZ"),
    ] {
        assert_eq!(rt;
            image(&disk, moment, choice)?.as_slice(),
            want,
            "at {moment}"
        );
    }
    assert_eq!(rt; image(&disk, 2, b"1")?.as_slice(), b"a1\0d\0".as_slice());
    assert!(rt; disk.image(5, b"")?.is_none());
    let mut buf = [7; 8];
    assert_eq!(rt; disk.read(3, &mut buf), Err(DiskFault));
    assert_eq!(rt; disk.read(3, &mut buf), Ok(2));
    assert_eq!(rt; buf.as_slice(), b"dZ\x07\x07\x07\x07\x07\x07".as_slice());
    assert_eq!(rt; disk.read(9, &mut buf), Ok(0));
    assert_eq!(rt; disk.len(), Ok(5));
    assert!(rt; !disk.starved());
    Ok(())
}

// A write that fails may have been done in any part, and a sync that fails makes sure of nothing.
#[test]
fn shows_what_a_fault_leaves(rt: HostRuntime) -> Result<(), Fail> {
    let alloc = rt.alloc();
    let mut disk = MemoryDisk::new(alloc, b"ab".to_vec(alloc)?, vec![in alloc; 1_u64, 2]?)?;
    assert_eq!(rt; disk.write_at(2, b"cd"), Err(DiskFault));
    assert_eq!(rt; disk.sync(), Err(DiskFault));
    assert_eq!(rt; image(&disk, 1, b"\0\0")?.as_slice(), b"ab\0\0".as_slice());
    assert_eq!(rt; image(&disk, 1, b"cd")?.as_slice(), b"abcd".as_slice());
    assert!(rt; disk.image(2, b"")?.is_none());
    Ok(())
}

//! What a log's text is, byte by byte, and what a crash in a commit leaves.

use disk_model::{Disk, MemoryDisk};
use octets::Octets;
use redo_log::{CommitFault, LoadFault, Log};
use std::alloc::Global;
use std::process::Abort;
use std::test::Fail;

const PAYLOAD: [u8; 15] = [6, 0, 0, 0, 0, 0, 0, 0, 0, 1, 0, 0, 0, 1, b'x'];

const FORMATTED: [u8; 18] = *b"\x01MAILROW\0\0\0\0\0\0\0\0\x01\0";

// A disk in memory with these bytes, of which these calls fail.
fn disk_with(alloc: Global, bytes: &[u8], fails: &[u64]) -> Result<MemoryDisk, Fail> {
    Ok(MemoryDisk::new(alloc, bytes.to_vec(alloc)?, fails.to_vec(alloc)?)?)
}

// The payloads that a file of these bytes has as a log, if it is one.
fn payloads_of(alloc: Global, bytes: &[u8]) -> Result<Option<Vec<Octets>>, Fail> {
    let mut disk = disk_with(alloc, bytes, &[])?;
    match Log::load(alloc, &mut disk) {
        Ok((_, payloads)) => Ok(Some(payloads)),
        Err(LoadFault::NotALog) => Ok(None),
        Err(fault) => Err(Fail::from(fault)),
    }
}

#[test]
fn writes_the_text_of_the_format(rt: HostRuntime) -> Result<(), Fail> {
    let alloc = rt.alloc();
    let mut disk = disk_with(alloc, b"", &[])?;
    Log::format(alloc, &mut disk, 0, 1)?;
    let (mut log, payloads) = Log::load(alloc, &mut disk)?;
    assert!(rt; payloads.is_empty());
    assert_eq!(rt; (log.format_byte(), log.generation()), (0, 1));
    log.commit(&mut disk, &PAYLOAD)?;
    let file = disk.image(7, b"")?.ok_or("no such moment")?;
    let text =
        b"\x01MAILROW\0\0\0\0\0\0\0\0\x01\x01\0\0\0\0\0\0\0\x0f\x06\0\0\0\0\0\0\0\0\x01\0\0\0\x01x\0";
    assert_eq!(rt; file.as_slice(), text.as_slice());
    Ok(())
}

// Whether a log of these bytes has the new payload behind the old one.
fn has_the_new_one(rt: &impl Abort, alloc: Global, bytes: &[u8]) -> Result<bool, Fail> {
    let payloads = payloads_of(alloc, bytes)?.ok_or("an image is no log")?;
    let (first, rest) = payloads
        .as_slice()
        .split_first()
        .ok_or("the old payload is gone")?;
    assert_eq!(rt; first.as_slice(), b"old".as_slice());
    let Some((second, more)) = rest.split_first() else {
        return Ok(false);
    };
    assert_eq!(rt; second.as_slice(), PAYLOAD.as_slice());
    assert!(rt; more.is_empty());
    Ok(true)
}

// Whether some image of this moment has the new payload, and whether some has not: the free bytes are all 0, all 1,
// or those of the write.
fn images_at(
    rt: &impl Abort,
    alloc: Global,
    disk: &MemoryDisk,
    moment: u64,
) -> Result<(bool, bool), Fail> {
    let block = b"\0\0\0\0\0\0\0\x0f\x06\0\0\0\0\0\0\0\0\x01\0\0\0\x01x\0";
    let choices: [&[u8]; 3] = [b"", &[1; 64], block];
    let mut with = false;
    let mut without = false;
    for choice in choices {
        if let Some(image) = disk.image(moment, choice)? {
            let has = has_the_new_one(rt, alloc, &image)?;
            with = with || has;
            without = without || !has;
        }
    }
    Ok((with, without))
}

// A log with the old payload, on a disk of which these calls fail. Loading it makes three calls,
// and one moment.
fn commits(
    rt: &impl Abort,
    alloc: Global,
    fails: &[u64],
) -> Result<(MemoryDisk, Result<(), CommitFault>), Fail> {
    let old = b"\x01MAILROW\0\0\0\0\0\0\0\0\x01\x01\0\0\0\0\0\0\0\x03old\0";
    let mut disk = disk_with(alloc, old, fails)?;
    let (mut log, _) = Log::load(alloc, &mut disk)?;
    let answer = log.commit(&mut disk, &PAYLOAD);
    if answer.is_err() {
        assert_eq!(rt; log.commit(&mut disk, &PAYLOAD), Err(CommitFault::Spent));
    }
    Ok((disk, answer))
}

#[test]
fn keeps_what_was_acknowledged(rt: HostRuntime) -> Result<(), Fail> {
    let alloc = rt.alloc();
    let (disk, answer) = commits(&rt, alloc, &[])?;
    assert_eq!(rt; answer, Ok(()));
    for (moment, want) in [
        (0, (false, true)),
        (1, (false, true)),
        (2, (false, true)),
        (3, (false, true)),
        (4, (true, true)),
        (5, (true, false)),
    ] {
        assert_eq!(rt; images_at(&rt, alloc, &disk, moment)?, want, "at {moment}");
    }
    Ok(())
}

// Each of the four calls of a commit fails, alone and with all later ones.
#[test]
fn loses_nothing_by_a_fault(rt: HostRuntime) -> Result<(), Fail> {
    let alloc = rt.alloc();
    let all: [u64; 4] = [4, 5, 6, 7];
    for (first, opened) in [(0, false), (1, false), (2, true), (3, true)] {
        for fails in [&all[first..first + 1], &all[first..]] {
            let (disk, answer) = commits(&rt, alloc, fails)?;
            assert_eq!(rt; answer, Err(CommitFault::Failed));
            let mut with = false;
            for moment in 0..6 {
                with = images_at(&rt, alloc, &disk, moment)?.0 || with;
            }
            assert_eq!(rt; with, opened, "call {first}");
        }
    }
    Ok(())
}

#[test]
fn tells_a_log_from_other_files(rt: HostRuntime) -> Result<(), Fail> {
    let alloc = rt.alloc();
    let tails: [(&[u8], Option<usize>); 12] = [
        (b"", None),
        (b"\0", Some(0)),
        (b"\x02\x01\0\0\0\0\0\0\0\0\0", Some(0)),
        (b"\x01", None),
        (b"\x01\0\0\0\0\0\0\0", None),
        (b"\x01\0\0\0\0\0\0\0\0\0", Some(1)),
        (b"\x01\0\0\0\0\0\0\0\x01a", None),
        (b"\x01\0\0\0\0\0\0\0\x01a\0", Some(1)),
        (b"\x01\0\0\0\0\0\0\0\x02a\0", None),
        (b"\x01\x7f\xff\xff\xff\xff\xff\xff\xffa\0", None),
        (b"\x01\x80\0\0\0\0\0\0\0a\0", None),
        (b"\x01\xff\xff\xff\xff\xff\xff\xff\xffa\0", None),
    ];
    for (tail, want) in tails {
        let mut bytes = FORMATTED[..17].to_vec(alloc)?;
        bytes.extend_from_slice(tail)?;
        let payloads = payloads_of(alloc, &bytes)?;
        assert_eq!(rt;
            payloads.as_ref().map(|payloads| payloads.len()),
            want,
            "{tail:?}"
        );
    }
    for (at, byte) in [(0, 0), (0, 2), (1, b'm'), (7, 0)] {
        let mut bytes = FORMATTED.to_vec(alloc)?;
        assert!(rt; at < bytes.len());
        bytes[at] = byte;
        assert!(rt; payloads_of(alloc, &bytes)?.is_none(), "{byte} at {at}");
    }
    for len in 0..18 {
        assert!(rt;
            payloads_of(alloc, &FORMATTED[..len])?.is_none(),
            "{len} bytes"
        );
    }
    Ok(())
}

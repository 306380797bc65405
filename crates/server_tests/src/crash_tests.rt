//! A script over a store in memory that is stopped at each of its disk calls, and what a crash leaves of it.

use disk_model::{Files, MemoryDisk};
use mail_server::run;
use port_model::{FixedClock, MemorySink, MemorySource, ScriptPorts};
use std::alloc::{AllocError, Global};
use std::test::Fail;

// Two sessions, and what they do in turn, a change of the store each.
const OPENING: &[u8] = b"open imap\nopen imap\n\
    send 1 0 a LOGIN alice pw\\r\\n\nsend 2 0 a LOGIN alice pw\\r\\n\n";

const CHANGES: [&[u8]; 5] = [
    b"send 1 0 b APPEND INBOX {8}\\r\\nA: b\\r\\n\\r\\n\\r\\n\n",
    b"send 2 0 b APPEND INBOX (\\\\Seen) {8}\\r\\nA: c\\r\\n\\r\\n\\r\\n\n",
    b"send 1 0 c SELECT INBOX\\r\\n\n",
    b"send 2 0 c CREATE work\\r\\n\n",
    b"send 1 0 d APPEND work {8}\\r\\nA: b\\r\\n\\r\\n\\r\\n\n",
];

// How many calls on the log load a store, and how many commit a change.
const LOADING: u64 = 3;

const COMMIT: u64 = 4;

fn disk(alloc: Global, bytes: &[u8], fails: &[u64]) -> Result<MemoryDisk, AllocError> {
    MemoryDisk::new(alloc, bytes.to_vec(alloc)?, fails.to_vec(alloc)?)
}

// Runs words, with a space between each two, over a source, on files whose log has these bytes and fails these calls. Answers the status,
// what was written, and the log.
fn ran(
    alloc: Global,
    line: &str,
    source: &[u8],
    log: &[u8],
    fails: &[u64],
) -> Result<(u8, Vec<u8>, MemoryDisk), AllocError> {
    let mut words = Vec::new(alloc);
    for word in line.split(' ') {
        words.push(word.to_string(alloc)?)?;
    }
    let mut source = MemorySource::new(alloc, source.to_vec(alloc)?, Vec::new(alloc))?;
    let mut sink = MemorySink::new(alloc, Vec::new(alloc))?;
    let files = Files {
        log0: disk(alloc, log, fails)?,
        log1: disk(alloc, b"", &[])?,
        bodies: disk(alloc, b"", &[])?,
    };
    let mut ports = ScriptPorts::new(alloc, Vec::new(alloc), Vec::new(alloc))?;
    let mut clock = FixedClock::new(0);
    let (status, files) = run(
        alloc,
        &words,
        &mut source,
        &mut sink,
        files,
        &mut ports,
        &mut clock,
    );
    Ok((status, sink.written().to_vec(alloc)?, files.log0))
}

// What a disk has after its last change, with these bytes where a crash leaves some open.
fn last_image(alloc: Global, disk: &MemoryDisk, choice: &[u8]) -> Result<Vec<u8>, AllocError> {
    let mut last = Vec::new(alloc);
    for moment in 0..64 {
        let Some(image) = disk.image(moment, choice)? else {
            break;
        };
        last = image;
    }
    Ok(last)
}

// The log after these words.
fn log_after(alloc: Global, line: &str, source: &[u8], log: &[u8]) -> Result<Vec<u8>, AllocError> {
    let (_status, _written, disk) = ran(alloc, line, source, log, &[])?;
    last_image(alloc, &disk, b"")
}

// The log of a store whose one user is alice.
fn new_store(alloc: Global) -> Result<Vec<u8>, AllocError> {
    let made = log_after(alloc, "init", b"", b"")?;
    log_after(alloc, "adduser alice pw", b"", &made)
}

// The script up to so many changes.
fn script(alloc: Global, count: usize) -> Result<Vec<u8>, AllocError> {
    let mut script = OPENING.to_vec(alloc)?;
    for change in CHANGES.iter().take(count) {
        script.extend_from_slice(change)?;
    }
    Ok(script)
}

// The rows of the store whose log has these bytes; none where it is no store.
fn listed(alloc: Global, log: &[u8]) -> Result<Vec<u8>, AllocError> {
    let (_status, written, _disk) = ran(alloc, "tables", b"", log, &[])?;
    Ok(written)
}

// The rows after each number of changes, from none on.
fn listings(alloc: Global, log: &[u8]) -> Result<Vec<Vec<u8>>, AllocError> {
    let mut all = Vec::new(alloc);
    for count in 0..=CHANGES.len() {
        let after = log_after(alloc, "script", &script(alloc, count)?, log)?;
        all.push(listed(alloc, &after)?)?;
    }
    Ok(all)
}

// After how many changes the store whose log has these bytes is.
fn changes_in(alloc: Global, all: &[Vec<u8>], log: &[u8]) -> Result<Option<usize>, AllocError> {
    let rows = listed(alloc, log)?;
    Ok(
        all.iter()
            .position(|listing| listing.as_slice() == rows.as_slice()),
    )
}

// The numbers of the fewest changes that an image of a moment may have, of the last moment and of any; none where one is no such store.
fn fewest_changes(
    alloc: Global,
    all: &[Vec<u8>],
    disk: &MemoryDisk,
) -> Result<Option<usize>, AllocError> {
    let choices: [&[u8]; 2] = [b"", &[1; 512]];
    for moment in 0..64 {
        for choice in choices {
            if let Some(image) = disk.image(moment, choice)? {
                if changes_in(alloc, all, &image)?.is_none() {
                    return Ok(None);
                }
            }
        }
    }
    let mut fewest = CHANGES.len();
    for choice in choices {
        match changes_in(alloc, all, &last_image(alloc, disk, choice)?)? {
            Some(count) => fewest = fewest.min(count),
            None => return Ok(None),
        }
    }
    Ok(Some(fewest))
}

// What a script leaves that is stopped: the status, whether nothing was written, and the fewest changes that a crash keeps at the end.
#[derive(Clone, Copy, Debug, PartialEq, Eq)]
struct Left {
    status: u8,
    silent: bool,
    fewest: Option<usize>,
}

// Plays the whole script, whose calls from one to another fail.
fn stopped(
    alloc: Global,
    log: &[u8],
    all: &[Vec<u8>],
    first: u64,
    last: u64,
) -> Result<Left, AllocError> {
    let mut fails = Vec::new(alloc);
    for call in first..=last {
        fails.push(call)?;
    }
    let whole = script(alloc, CHANGES.len())?;
    let (status, written, disk) = ran(alloc, "script", &whole, log, &fails)?;
    Ok(Left {
        status,
        silent: written.is_empty(),
        fewest: fewest_changes(alloc, all, &disk)?,
    })
}

// Each image of each moment is the store after a front of the changes; at the end it has all those whose calls came before the one that
// failed, so that an OK may have been told of them, and may have no more.
#[test]
fn a_script_stops_at_any_call(rt: HostRuntime) -> Result<(), Fail> {
    let alloc = rt.alloc();
    let log = new_store(alloc)?;
    let all = listings(alloc, &log)?;
    let calls = LOADING + COMMIT * CHANGES.len() as u64;
    for call in LOADING + 1..=calls + 1 {
        let is_stopped = call <= calls;
        let left = Left {
            status: if is_stopped { 6 } else { 0 },
            silent: is_stopped,
            fewest: Some(((call - LOADING - 1) / COMMIT) as usize),
        };
        assert_eq!(rt;
            stopped(alloc, &log, &all, call, call)?,
            left,
            "call {call}"
        );
        assert_eq!(rt;
            stopped(alloc, &log, &all, call, calls + 1)?,
            left,
            "calls from {call}"
        );
    }
    Ok(())
}

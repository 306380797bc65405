//! What the files of a store are, byte by byte, and what loads from what a crash leaves of them.

ghost use Rattle.std.specs.Prelude.{◌≡◌, false, OnOk};

use disk_model::{Files, MemoryDisk};
use octets::Octets;
use row_store::{BodyRef, LoadFault, RowStore, StoreFault, Unloaded};
use row_tables::{FlagName, RowChange};
use std::alloc::Global;
use std::process::Abort;
use std::test::Fail;

// An empty store.
const FORMATTED: [u8; 18] = *b"\x01MAILROW\0\0\0\0\0\0\0\0\x01\0";

// A store in which flag name 1 is `x`.
const NAMED: [u8; 42] =
    *b"\x01MAILROW\0\0\0\0\0\0\0\0\x01\x01\0\0\0\0\0\0\0\x0f\x06\0\0\0\0\0\0\0\0\x01\0\0\0\x01x\0";

fn disk_with(alloc: Global, bytes: &[u8], fails: &[u64]) -> Result<MemoryDisk, Fail> {
    Ok(MemoryDisk::new(alloc, bytes.to_vec(alloc)?, fails.to_vec(alloc)?)?)
}

// Files in memory, of which the first has these bytes and fails these calls.
fn files_with(alloc: Global, log0: &[u8], fails: &[u64]) -> Result<Files<MemoryDisk>, Fail> {
    Ok(Files {
        log0: disk_with(alloc, log0, fails)?,
        log1: disk_with(alloc, b"", &[])?,
        bodies: disk_with(alloc, b"", &[])?,
    })
}

// What is done with a store once it is loaded.
#[derive(Clone, Copy)]
enum Step {
    Nothing,
    CommitName,
    KeepBodies,
}

// What became of a store: why it was not loaded, whether it had the name when it was, what the step answered, and its log.
#[derive(Drop)]
struct Outcome {
    loaded: Result<(), LoadFault>,
    named: bool,
    answer: Result<(), StoreFault>,
    log0: MemoryDisk,
}

// Loads files whose log has these bytes and fails these calls, and does the step with their store. Loading makes three calls on
// the log, and one moment.
fn outcome_of(
    rt: &impl Abort,
    alloc: Global,
    log0: &[u8],
    fails: &[u64],
    step: Step,
) -> Result<Outcome, Fail> {
    match RowStore::load(alloc, files_with(alloc, log0, fails)?) {
        Ok(mut store) => {
            let named = store.tables().flag_name_id(b"x").is_some();
            let answer = act(rt, alloc, &mut store, step);
            let files = store.into_files();
            Ok(Outcome {
                loaded: Ok(()),
                named,
                answer: answer?,
                log0: files.log0,
            })
        }
        Err(Unloaded { fault, files }) => Ok(Outcome {
            loaded: Err(fault),
            named: false,
            answer: Ok(()),
            log0: files.log0,
        }),
    }
}

// Does the step.
fn act(
    rt: &impl Abort,
    alloc: Global,
    store: &mut RowStore<MemoryDisk>,
    step: Step,
) -> Result<Result<(), StoreFault>, Fail>
    requires { store.old.spent ≡ false }
{
    match step {
        Step::Nothing => Ok(Ok(())),
        Step::CommitName => commit_name(alloc, store),
        Step::KeepBodies => Ok(Ok(keep_bodies(rt, alloc, store)?)),
    }
}

// Whether files with this log have the name, if they are a store.
fn has_name(rt: &impl Abort, alloc: Global, log0: &[u8]) -> Result<Option<bool>, Fail> {
    let outcome = outcome_of(rt, alloc, log0, &[], Step::Nothing)?;
    match outcome.loaded {
        Ok(()) => Ok(Some(outcome.named)),
        Err(LoadFault::NotAStore) => Ok(None),
        Err(fault) => Err(Fail::from(fault)),
    }
}

// What a crash at a moment may leave.
fn image(disk: &MemoryDisk, moment: u64, choice: &[u8]) -> Result<Vec<u8>, Fail> {
    Ok(disk.image(moment, choice)?.ok_or("no such moment")?)
}

#[test]
fn begins_with_no_rows(rt: HostRuntime) -> Result<(), Fail> {
    let alloc = rt.alloc();
    let mut files = files_with(alloc, b"", &[])?;
    let answer = RowStore::format(alloc, &mut files);
    let bytes = image(&files.log0, 2, b"")?;
    assert_eq!(rt; answer, Ok(()));
    assert_eq!(rt; bytes.as_slice(), FORMATTED.as_slice());
    assert_eq!(rt; has_name(&rt, alloc, &FORMATTED)?, Some(false));
    Ok(())
}

// Commits the name.
fn commit_name(
    alloc: Global,
    store: &mut RowStore<MemoryDisk>,
) -> Result<Result<(), StoreFault>, Fail>
    requires { store.old.spent ≡ false }
{
    let name = Octets::new(b"x".to_vec(alloc)?);
    let change = RowChange::InsertFlagName(FlagName { id: 1, name });
    if !store.tables().fits(&change) {
        return Err(Fail::from("it doesn't fit"));
    }
    let mut changes = Vec::new(alloc);
    changes.push(change)?;
    Ok(store.commit(changes))
}

#[test]
fn commits_the_record_of_the_format(rt: HostRuntime) -> Result<(), Fail> {
    let alloc = rt.alloc();
    let done = outcome_of(&rt, alloc, &FORMATTED, &[], Step::CommitName)?;
    assert_eq!(rt; done.answer, Ok(()));
    assert_eq!(rt; image(&done.log0, 5, b"")?.as_slice(), NAMED.as_slice());
    assert_eq!(rt; has_name(&rt, alloc, &NAMED)?, Some(true));
    Ok(())
}

// Whether an image of a moment has the name: the free bytes are all 0, all 1, or those of the record behind the gate.
fn may_have_name(
    rt: &impl Abort,
    alloc: Global,
    disk: &MemoryDisk,
    moments: u64,
) -> Result<bool, Fail> {
    let choices: [&[u8]; 3] = [b"", &[1; 64], &NAMED[18..]];
    let mut with = false;
    for moment in 0..moments {
        for choice in choices {
            let has = has_name(rt, alloc, &image(disk, moment, choice)?)?;
            with = has.ok_or("an image is no store")? || with;
        }
    }
    Ok(with)
}

// Each of the four calls of a commit fails, alone and with all later ones. After the first two the gate was not opened.
#[test]
fn is_given_up_where_a_disk_fails(rt: HostRuntime) -> Result<(), Fail> {
    let alloc = rt.alloc();
    let cases: [(&[u64], u64, bool); 8] = [
        (&[4], 3, false),
        (&[4, 5, 6, 7], 3, false),
        (&[5], 3, false),
        (&[5, 6, 7], 3, false),
        (&[6], 5, true),
        (&[6, 7], 5, true),
        (&[7], 5, true),
        (&[7, 8], 5, true),
    ];
    for (fails, moments, opened) in cases {
        let done = outcome_of(&rt, alloc, &FORMATTED, fails, Step::CommitName)?;
        let with = may_have_name(&rt, alloc, &done.log0, moments)?;
        assert_eq!(rt; done.answer, Err(StoreFault::Failed));
        assert_eq!(rt; with, opened, "calls {fails:?}");
    }
    Ok(())
}

#[test]
fn hands_back_files_that_are_no_store(rt: HostRuntime) -> Result<(), Fail> {
    let alloc = rt.alloc();
    let refused = outcome_of(&rt, alloc, b"abc", &[], Step::Nothing)?;
    assert_eq!(rt; refused.loaded, Err(LoadFault::NotAStore));
    assert_eq!(rt; image(&refused.log0, 1, b"")?.as_slice(), b"abc".as_slice());
    for call in 1..4 {
        let refused = outcome_of(&rt, alloc, &NAMED, &[call], Step::Nothing)?;
        assert_eq!(rt; refused.loaded, Err(LoadFault::Failed));
    }
    Ok(())
}

// The store with these bytes at this place of its log, and then these ones at its end.
fn edited(alloc: Global, at: usize, byte: u8, end: &[u8]) -> Result<Vec<u8>, Fail> {
    let mut log = NAMED.to_vec(alloc)?;
    if let Some(place) = log.get_mut(at) {
        *place = byte;
    }
    log.extend_from_slice(end)?;
    Ok(log)
}

#[test]
fn tells_stores_from_other_files(rt: HostRuntime) -> Result<(), Fail> {
    let alloc = rt.alloc();
    let fits = b"\0\0\0\0\0\0\0\x0f\x06\0\0\0\0\0\0\0\0\x02\0\0\0\x01y\0";
    let same = b"\0\0\0\0\0\0\0\x0f\x06\0\0\0\0\0\0\0\0\x02\0\0\0\x01x\0";
    let cut = b"\0\0\0\0\0\0\0\x0e\x06\0\0\0\0\0\0\0\0\x02\0\0\0\x01\0";
    let cases: [(usize, u8, &[u8], Option<bool>); 6] = [
        (41, 0, b"", Some(true)),
        (41, 1, fits, Some(true)),
        (8, 1, b"", None),
        (41, 1, same, None),
        (41, 1, cut, None),
        (41, 1, b"", None),
    ];
    for (at, byte, end, want) in cases {
        let log = edited(alloc, at, byte, end)?;
        assert_eq!(rt; has_name(&rt, alloc, &log)?, want, "{byte} at {at}");
    }
    assert_eq!(rt; has_name(&rt, alloc, b"")?, None);
    assert_eq!(rt; has_name(&rt, alloc, &NAMED[..30])?, None);
    Ok(())
}

// Places bytes, commits the row where it is new, and gives its id.
fn keep(alloc: Global, store: &mut RowStore<MemoryDisk>, bytes: &[u8]) -> Result<u64, Fail>
    requires { store.old.spent ≡ false }
    ensures { OnOk result (store.new.spent ≡ false) }
{
    let BodyRef { id, change } = store.place_body(bytes)?;
    let Some(change) = change else {
        return Ok(id);
    };
    if !store.tables().fits(&change) {
        return Err(Fail::from("it doesn't fit"));
    }
    let mut changes = Vec::new(alloc);
    changes.push(change)?;
    store.commit(changes)?;
    Ok(id)
}

// Places bodies and commits them.
fn keep_bodies(rt: &impl Abort, alloc: Global, store: &mut RowStore<MemoryDisk>) -> Result<(), Fail>
    requires { store.old.spent ≡ false }
{
    assert_eq!(rt; keep(alloc, store, b"hi")?, 1);
    assert_eq!(rt; keep(alloc, store, b"")?, 2);
    assert_eq!(rt; keep(alloc, store, b"hi")?, 1);
    if store.tables().bodyparts_row(1).is_some() {
        assert_eq!(rt; store.body(1)?.as_slice(), b"hi".as_slice());
        let first = store.place_body(b"ho")?;
        let again = store.place_body(b"ho")?;
        assert_eq!(rt; (first.id, again.id), (3, 3));
        assert!(rt; first.change.is_some() && again.change.is_none());
    }
    Ok(())
}

#[test]
fn equal_bodies_share_a_row(rt: HostRuntime) -> Result<(), Fail> {
    let done = outcome_of(&rt, rt.alloc(), &FORMATTED, &[], Step::KeepBodies)?;
    assert_eq!(rt; done.loaded, Ok(()));
    Ok(())
}

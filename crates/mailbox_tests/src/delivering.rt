//! A mail that is delivered to users of a store in memory, and what a crash leaves of that.

ghost use Rattle.std.specs.Prelude.{◌≡◌, false, []};

use crate::appending::{files_with, image, text};
use date_grammar::Stamp;
use disk_model::MemoryDisk;
use mailbox_core::deliver;
use mime_reader::read_or_wrap;
use row_store::{RowStore, StoreFault};
use row_tables::Tables;
use shredder::law_mails_fit;
use std::alloc::Global;
use std::test::Fail;

// A log of one record: users 1 to 3 are `a` to `c`, each with an INBOX of the same id. The second one has no mod-sequence left.
fn log_of_three(alloc: Global) -> Result<Vec<u8>, Fail> {
    let mut log = b"\x01MAILROW\0\0\0\0\0\0\0\0\x01\x01\0\0\0\0\0\0\0\xF0".to_vec(alloc)?;
    for (id, name, highest) in [(1, b'a', 1), (2, b'b', u64::MAX - 1), (3, b'c', 1)] {
        add_user(&mut log, id, name, highest)?;
    }
    log.extend_from_slice(b"\x12\x01\0\0\0\x04\0")?;
    Ok(log)
}

fn add_user(log: &mut Vec<u8>, id: u8, name: u8, highest: u64) -> Result<(), Fail> {
    log.extend_from_slice(b"\x01\0\0\0\0")?;
    log.push(id)?;
    log.extend_from_slice(b"\0\0\0\x01")?;
    log.push(name)?;
    log.extend_from_slice(b"eeeeeeeeeeeeeeeeeeeeeeeeeeeeeeee\x02\0\0\0\0")?;
    log.push(id)?;
    log.extend_from_slice(b"\0\0\0")?;
    log.push(id)?;
    log.extend_from_slice(b"\0\0\0\x05INBOX\0\0\0\x01\0\0\0\x01")?;
    log.extend_from_slice(&highest.to_be_bytes())?;
    Ok(())
}

// What the store has: of each INBOX the next UID, in all of them how many messages, and how many of the first two bodies.
#[derive(Clone, Copy, Debug, PartialEq, Eq)]
struct Seen {
    next: [u32; 3],
    messages: u64,
    bodies: u8,
}

const BEFORE: Seen = Seen {
    next: [1, 1, 1],
    messages: 0,
    bodies: 0,
};

const AFTER: Seen = Seen {
    next: [2, 1, 2],
    messages: 2,
    bodies: 1,
};

fn next_in(tables: &Tables, mailbox: u32) -> u32 {
    match tables.mailboxes_row(mailbox) {
        Some(row) => row.uidnext,
        None => 0,
    }
}

fn seen_in(tables: &Tables) -> Seen {
    let messages = tables
        .entry_count(1)
        .saturating_add(tables.entry_count(2))
        .saturating_add(tables.entry_count(3));
    Seen {
        next: [next_in(tables, 1), next_in(tables, 2), next_in(tables, 3)],
        messages,
        bodies: u8::from(tables.bodyparts_row(1).is_some())
            + u8::from(tables.bodyparts_row(2).is_some()),
    }
}

// The store whose log has these bytes.
fn look(alloc: Global, log: &[u8]) -> Result<Seen, Fail> {
    match RowStore::load(alloc, files_with(alloc, log, &[])?) {
        Ok(store) => Ok(seen_in(store.tables())),
        Err(unloaded) => Err(Fail::from(unloaded.fault)),
    }
}

// What a delivery was answered, and the log then.
#[derive(Drop)]
struct Outcome {
    answer: Result<Vec<Option<u32>>, StoreFault>,
    log: MemoryDisk,
}

// Loads a store whose log has these bytes and fails these calls, and delivers to these users. Loading makes three calls on the log, and
// one moment; a delivery that is made makes four calls, each a moment.
fn outcome_of(alloc: Global, log: &[u8], fails: &[u64], users: &[u32]) -> Result<Outcome, Fail> {
    match RowStore::load(alloc, files_with(alloc, log, fails)?) {
        Ok(mut store) => {
            let answer = deliver_abc(alloc, &mut store, users);
            let files = store.into_files();
            Ok(Outcome {
                answer: answer?,
                log: files.log0,
            })
        }
        Err(unloaded) => Err(Fail::from(unloaded.fault)),
    }
}

// Delivers the message to users, as 1970 begins.
fn deliver_abc(
    alloc: Global,
    store: &mut RowStore<MemoryDisk>,
    users: &[u32],
) -> Result<Result<Vec<Option<u32>>, StoreFault>, Fail>
    requires usable { store.old.spent ≡ false }
    requires fresh { store.old.placed ≡ [] }
{
    law_mails_fit();
    let mail = read_or_wrap(alloc, text(), 0)?;
    let stamp = Stamp {
        seconds: 0,
        zone: 0,
    };
    Ok(deliver(alloc, store, users, &mail, stamp, &[]))
}

// Each INBOX with room gets the mail once, all at once and with one body, though a user is named twice and an INBOX is full.
#[test]
fn a_mail_comes_to_all_who_take_it(rt: HostRuntime) -> Result<(), Fail> {
    let alloc = rt.alloc();
    let log = log_of_three(alloc)?;
    assert_eq!(rt; look(alloc, &log)?, BEFORE);
    let done = outcome_of(alloc, &log, &[], &[1, 2, 3, 1])?;
    let uids = done.answer?;
    assert!(rt; uids.as_slice() == [Some(1), None, Some(1), Some(1)].as_slice());
    assert_eq!(rt; look(alloc, &image(&done.log, 5, b"")?)?, AFTER);
    Ok(())
}

// Nobody's INBOX takes it: no call is made on the log but those that load it.
#[test]
fn a_mail_that_none_takes_is_no_change(rt: HostRuntime) -> Result<(), Fail> {
    let alloc = rt.alloc();
    let log = log_of_three(alloc)?;
    let done = outcome_of(alloc, &log, &[4], &[2, 4])?;
    let uids = done.answer?;
    assert!(rt; uids.as_slice() == [None, None].as_slice());
    assert!(rt; done.log.image(2, b"")?.is_none());
    assert_eq!(rt; look(alloc, &image(&done.log, 1, b"")?)?, BEFORE);
    Ok(())
}

// Each of the four calls fails: what a crash leaves of the first moment and of the last has the mail in both INBOXes or in none.
#[test]
fn a_mail_comes_whole_or_not_at_all(rt: HostRuntime) -> Result<(), Fail> {
    let alloc = rt.alloc();
    let log = log_of_three(alloc)?;
    let cases: [(u64, u64); 4] = [(4, 3), (5, 3), (6, 5), (7, 5)];
    for (fails, moments) in cases {
        let done = outcome_of(alloc, &log, &[fails], &[1, 2, 3, 1])?;
        assert!(rt;
            matches!(done.answer, Err(StoreFault::Failed)),
            "call {fails}"
        );
        for moment in 0..moments {
            for choice in [b"".as_slice(), &[1; 512]] {
                let seen = look(alloc, &image(&done.log, moment, choice)?)?;
                assert!(rt;
                    seen == BEFORE || seen == AFTER,
                    "call {fails}, moment {moment}: {seen:?}"
                );
            }
        }
    }
    Ok(())
}

//! Messages that are appended to a mailbox of a store in memory, and what a crash leaves of that.

ghost use Rattle.std.specs.Prelude.{◌≡◌, ◌≤◌, ◌^◌, false, [], length};

use date_grammar::Stamp;
use disk_model::{Files, MemoryDisk};
use imap_grammar::Flag;
use mailbox_core::{MailFault, append};
use mime_reader::read_or_wrap;
use row_store::RowStore;
use row_tables::Tables;
use shredder::law_mails_fit;
use std::alloc::Global;
use std::process::Abort;
use std::test::Fail;

// A log of one record: user 1 is `a`, whose INBOX is mailbox 1 and has this next UID.
fn log_of(alloc: Global, uidnext: u32) -> Result<Vec<u8>, Fail> {
    let mut log = b"\x01MAILROW\0\0\0\0\0\0\0\0\x01\x01\0\0\0\0\0\0\0\x54\
        \x01\0\0\0\0\x01\0\0\0\x01aeeeeeeeeeeeeeeeeeeeeeeeeeeeeeeee\
        \x02\0\0\0\0\x01\0\0\0\x01\0\0\0\x05INBOX"
        .to_vec(alloc)?;
    log.extend_from_slice(&uidnext.to_be_bytes())?;
    log.extend_from_slice(b"\0\0\0\x01\0\0\0\0\0\0\0\x01\x12\x01\0\0\0\x02\0")?;
    Ok(log)
}

fn disk_with(alloc: Global, bytes: &[u8], fails: &[u64]) -> Result<MemoryDisk, Fail> {
    Ok(MemoryDisk::new(alloc, bytes.to_vec(alloc)?, fails.to_vec(alloc)?)?)
}

// Files in memory, of which the log has these bytes and fails these calls.
pub(crate) fn files_with(
    alloc: Global,
    log: &[u8],
    fails: &[u64],
) -> Result<Files<MemoryDisk>, Fail> {
    Ok(Files {
        log0: disk_with(alloc, log, fails)?,
        log1: disk_with(alloc, b"", &[])?,
        bodies: disk_with(alloc, b"", &[])?,
    })
}

// What the mailbox has: its next UID, how many messages, and whether body 1 is that of the message.
#[derive(Clone, Copy, Debug, PartialEq, Eq)]
struct Seen {
    uidnext: u32,
    messages: u64,
    body: bool,
}

const BEFORE: Seen = Seen {
    uidnext: 1,
    messages: 0,
    body: false,
};

const AFTER: Seen = Seen {
    uidnext: 2,
    messages: 1,
    body: true,
};

fn seen_in(tables: &Tables) -> Seen {
    let uidnext = match tables.mailboxes_row(1) {
        Some(row) => row.uidnext,
        None => 0,
    };
    let body = match tables.bodyparts_row(1) {
        Some(row) => row.content.as_slice() == b"abc".as_slice(),
        None => false,
    };
    Seen {
        uidnext,
        messages: tables.entry_count(1),
        body,
    }
}

// The mailbox of the store whose log has these bytes.
fn look(alloc: Global, log: &[u8]) -> Result<Seen, Fail> {
    match RowStore::load(alloc, files_with(alloc, log, &[])?) {
        Ok(store) => Ok(seen_in(store.tables())),
        Err(unloaded) => Err(Fail::from(unloaded.fault)),
    }
}

// What an append was answered, and the log then.
#[derive(Drop)]
struct Outcome {
    answer: Result<u32, MailFault>,
    log: MemoryDisk,
}

// Loads a store whose log has these bytes and fails these calls, and appends. Loading makes three calls on the log, and one moment; an
// append that is made makes four calls, each a moment.
fn outcome_of(alloc: Global, log: &[u8], fails: &[u64]) -> Result<Outcome, Fail> {
    match RowStore::load(alloc, files_with(alloc, log, fails)?) {
        Ok(mut store) => {
            let answer = append_abc(alloc, &mut store);
            let files = store.into_files();
            Ok(Outcome {
                answer: answer?,
                log: files.log0,
            })
        }
        Err(unloaded) => Err(Fail::from(unloaded.fault)),
    }
}

// A message whose body is `abc`.
pub(crate) fn text() -> &'static [u8]
    ensures { length result.now ≤ 2 ^ 27 }
{
    b"\nabc"
}

// Appends the message, with a flag that is named twice, as 1970 begins.
fn append_abc(
    alloc: Global,
    store: &mut RowStore<MemoryDisk>,
) -> Result<Result<u32, MailFault>, Fail>
    requires usable { store.old.spent ≡ false }
    requires fresh { store.old.placed ≡ [] }
{
    law_mails_fit();
    let mail = read_or_wrap(alloc, text(), 0)?;
    if store.tables().mailboxes_row(1).is_none() {
        return Err(Fail::from("no mailbox"));
    }
    let stamp = Stamp {
        seconds: 0,
        zone: 0,
    };
    let flags = [Flag::Seen, Flag::Seen];
    Ok(append(alloc, store, 1, &flags, stamp, &mail, false))
}

// What a crash at a moment may leave.
pub(crate) fn image(disk: &MemoryDisk, moment: u64, choice: &[u8]) -> Result<Vec<u8>, Fail> {
    Ok(disk.image(moment, choice)?.ok_or("no such moment")?)
}

// Whether an image of one of these moments has the message: the free bytes are all 0, all 1, or these. Without it the mailbox is as
// before.
fn may_have_come(
    rt: &impl Abort,
    alloc: Global,
    disk: &MemoryDisk,
    moments: u64,
    record: &[u8],
) -> Result<bool, Fail> {
    let choices: [&[u8]; 3] = [b"", &[1; 512], record];
    let mut has = false;
    for moment in 0..moments {
        for choice in choices {
            let left = image(disk, moment, choice)?;
            let seen = look(alloc, &left)?;
            assert!(rt;
                seen == BEFORE || seen == AFTER,
                "moment {moment}: {seen:?}"
            );
            has = has || seen == AFTER;
        }
    }
    Ok(has)
}

// Each of the four calls fails, alone and with all later ones. After the first two the record isn't open yet.
#[test]
fn a_message_comes_whole_or_not_at_all(rt: HostRuntime) -> Result<(), Fail> {
    let alloc = rt.alloc();
    let log = log_of(alloc, 1)?;
    assert_eq!(rt; look(alloc, &log)?, BEFORE);
    let done = outcome_of(alloc, &log, &[])?;
    assert_eq!(rt; done.answer, Ok(1));
    let whole = image(&done.log, 5, b"")?;
    assert_eq!(rt; look(alloc, &whole)?, AFTER);
    let cases: [(&[u64], u64, bool); 8] = [
        (&[4], 3, false),
        (&[4, 5, 6, 7], 3, false),
        (&[5], 3, false),
        (&[5, 6, 7], 3, false),
        (&[6], 5, true),
        (&[6, 7], 5, true),
        (&[7], 5, true),
        (&[7, 8], 5, true),
    ];
    for (fails, moments, opened) in cases {
        let done = outcome_of(alloc, &log, fails)?;
        assert_eq!(rt; done.answer, Err(MailFault::Failed), "calls {fails:?}");
        let has = may_have_come(
            &rt,
            alloc,
            &done.log,
            moments,
            whole.get(log.len()..).ok_or("no record")?,
        )?;
        assert_eq!(rt; has, opened, "calls {fails:?}");
    }
    Ok(())
}

// The last UID is given once; then the mailbox takes no message, and no call is made on the log but those that load it.
#[test]
fn the_last_uid_is_given_once(rt: HostRuntime) -> Result<(), Fail> {
    let alloc = rt.alloc();
    let last = Seen {
        uidnext: 4_294_967_295,
        messages: 1,
        body: true,
    };
    let done = outcome_of(alloc, &log_of(alloc, 4_294_967_294)?, &[])?;
    assert_eq!(rt; done.answer, Ok(4_294_967_294));
    let log = image(&done.log, 5, b"")?;
    assert_eq!(rt; look(alloc, &log)?, last);
    let refused = outcome_of(alloc, &log, &[4])?;
    assert_eq!(rt; refused.answer, Err(MailFault::NoUid));
    assert!(rt; refused.log.image(2, b"")?.is_none());
    assert_eq!(rt; look(alloc, &image(&refused.log, 1, b"")?)?, last);
    Ok(())
}

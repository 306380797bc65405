//! What mail programs send, as published in their sources and in logs of theirs, and behind each command wrong neighbours. The meanings
//! have the marks of `manners`.
use crate::commands::told;
use crate::manners::{Letters, Strings, written};
use std::alloc::{AllocError, Global};
use std::test::Fail;

const CURL: [(&str, &str); 8] = [
    (
        "A003 LIST \"\" *\r\n",
        "List { reference: ``, name: `*`, subscribed: false }",
    ),
    ("A003 LIST \"\" *.\"\"\r\n", "bad"),
    (
        "A004 UID FETCH 5 BODY[TEXT]<0.100>\r\n",
        "Fetch { by_uid: true, set: SeqSet { ranges: Items { items: [(Some(5), Some(5))] } }, items: Items { items: [Part { section: Section { path: Items { items: [] }, part: Text }, peek: false, partial: Some((0, 100)) }] }, changed_since: None, vanished: false }",
    ),
    ("A004 UID FETCH 5 BODY[TEXT]<0,100>\r\n", "bad"),
    (
        "A003 APPEND Sent (\\Seen) {5}\r\na\r\nb\n\r\n",
        "Append { name: `Sent`, flags: Items { items: [Seen] }, stamp: None, text: `a\r\nb\n` }",
    ),
    ("A003 APPEND Sent (\\Seen) {5}\r\na\r\nb\r\n", "bad"),
    (
        "A004 STORE 1 +Flags \\Deleted\r\n",
        "Store { by_uid: false, set: SeqSet { ranges: Items { items: [(Some(1), Some(1))] } }, unchanged_since: None, how: Add, silent: false, flags: Items { items: [Deleted] } }",
    ),
    ("A004 STORE 1 + Flags \\Deleted\r\n", "bad"),
];

const MUTT: [(&str, &str); 8] = [
    (
        "a0002 LIST \"\" \"\"\r\n",
        "List { reference: ``, name: ``, subscribed: false }",
    ),
    ("a0002 LIST \"\" \r\n", "bad"),
    (
        "a0005 STATUS \"Sent Items\" (UIDNEXT UIDVALIDITY UNSEEN RECENT MESSAGES)\r\n",
        "Status { name: `Sent Items`, items: Items { items: [Uidnext, Uidvalidity, Unseen, Recent, Messages] } }",
    ),
    (
        "a0005 STATUS Sent Items (UIDNEXT UIDVALIDITY UNSEEN RECENT MESSAGES)\r\n",
        "bad",
    ),
    (
        "a0007 FETCH 1:2 (UID FLAGS INTERNALDATE RFC822.SIZE BODY.PEEK[HEADER.FIELDS (DATE FROM X-LABEL)])\r\n",
        "Fetch { by_uid: false, set: SeqSet { ranges: Items { items: [(Some(1), Some(2))] } }, items: Items { items: [Uid, Flags, InternalDate, Rfc822Size, Part { section: Section { path: Items { items: [] }, part: Fields { names: Items { items: [`DATE`, `FROM`, `X-LABEL`] }, except: false } }, peek: true, partial: None }] }, changed_since: None, vanished: false }",
    ),
    (
        "a0007 FETCH 1:2 (UID FLAGS BODY.PEEK[HEADER.FIELDS DATE FROM])\r\n",
        "bad",
    ),
    (
        "a0009 UID STORE 5,7 -FLAGS.SILENT (\\Seen Old)\r\n",
        "Store { by_uid: true, set: SeqSet { ranges: Items { items: [(Some(5), Some(5)), (Some(7), Some(7))] } }, unchanged_since: None, how: Remove, silent: true, flags: Items { items: [Seen, Keyword(`old`)] } }",
    ),
    (
        "a0009 UID STORE 5,7 -FLAGS.SILENT (\\Seen \\Old)\r\n",
        "bad",
    ),
];

const THUNDERBIRD: [(&str, &str); 8] = [
    ("7 list (subscribed) \"\" \"*\"\r\n", "bad"),
    (
        "7 lsub \"\" \"*\"\r\n",
        "List { reference: ``, name: `*`, subscribed: true }",
    ),
    (
        "9 select \"INBOX\" (CONDSTORE)\r\n",
        "Select { name: `INBOX`, examine: false, condstore: true, resync: None }",
    ),
    ("9 select \"INBOX\"(CONDSTORE)\r\n", "bad"),
    (
        "12 UID fetch 120:* (FLAGS) (CHANGEDSINCE 9)\r\n",
        "Fetch { by_uid: true, set: SeqSet { ranges: Items { items: [(Some(120), None)] } }, items: Items { items: [Flags] }, changed_since: Some(9), vanished: false }",
    ),
    ("12 UID fetch 120:* (FLAGS) CHANGEDSINCE 9\r\n", "bad"),
    (
        "14 uid copy 3:5 \"Archives/2003\"\r\n",
        "Copy { by_uid: true, set: SeqSet { ranges: Items { items: [(Some(3), Some(5))] } }, name: `Archives/2003` }",
    ),
    ("14 uid copy 3-5 \"Archives/2003\"\r\n", "bad"),
];

const APPLE_MAIL: [(&str, &str); 6] = [
    (
        "4.60 UID FETCH 9:12 (INTERNALDATE UID RFC822.SIZE FLAGS BODY.PEEK[HEADER.FIELDS (date x-uniform-type-identifier)])\r\n",
        "Fetch { by_uid: true, set: SeqSet { ranges: Items { items: [(Some(9), Some(12))] } }, items: Items { items: [InternalDate, Uid, Rfc822Size, Flags, Part { section: Section { path: Items { items: [] }, part: Fields { names: Items { items: [`date`, `x-uniform-type-identifier`] }, except: false } }, peek: true, partial: None }] }, changed_since: None, vanished: false }",
    ),
    ("4+60 UID FETCH 9:12 (FLAGS)\r\n", "no tag"),
    (
        "5.8 UID STORE 12 +FLAGS.SILENT ($NotJunk NotJunk $Forwarded)\r\n",
        "Store { by_uid: true, set: SeqSet { ranges: Items { items: [(Some(12), Some(12))] } }, unchanged_since: None, how: Add, silent: true, flags: Items { items: [Keyword(`$notjunk`), Keyword(`notjunk`), Keyword(`$forwarded`)] } }",
    ),
    (
        "5.8 UID STORE 12 +FLAGS.SILENT ($NotJunk  NotJunk)\r\n",
        "bad",
    ),
    (
        "6.11 UID SEARCH 1:900 NOT DELETED\r\n",
        "Search { by_uid: true, charset: None, key: And(Items { items: [Set { set: SeqSet { ranges: Items { items: [(Some(1), Some(900))] } }, by_uid: false }, Not(Boxed { inner: Has(Deleted) })] }) }",
    ),
    ("6.11 UID SEARCH 1:900 NOT(DELETED)\r\n", "bad"),
];

/// The place of the first unit that means another thing.
fn first_other(alloc: Global, cases: &[(&str, &str)]) -> Result<Option<usize>, AllocError> {
    for (at, (unit, meaning)) in cases.iter().enumerate() {
        let meaning = written(
            alloc,
            meaning.as_bytes(),
            Letters::AsTheyAre,
            Strings::Shown,
        )?;
        if told(alloc, unit.as_bytes())?.as_bytes() != meaning.as_slice() {
            return Ok(Some(at));
        }
    }
    Ok(None)
}

#[test]
fn what_programs_send_is_read(rt: HostRuntime) -> Result<(), Fail> {
    assert_eq!(rt; first_other(rt.alloc(), &CURL)?, None);
    assert_eq!(rt; first_other(rt.alloc(), &MUTT)?, None);
    assert_eq!(rt; first_other(rt.alloc(), &THUNDERBIRD)?, None);
    assert_eq!(rt; first_other(rt.alloc(), &APPLE_MAIL)?, None);
    Ok(())
}

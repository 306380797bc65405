//! Units and the commands that they are, as `Debug` shows them. Behind those that are commands stand their wrong neighbours.
use imap_grammar::{Bad, ParseFault, parse};
use std::alloc::{AllocError, Global};
use std::test::Fail;

/// The command that a unit is, `bad` for one that has a tag and no command, or `no tag`.
pub(crate) fn told(alloc: Global, unit: &[u8]) -> Result<String, AllocError> {
    match parse(alloc, unit) {
        Ok(tagged) => format!(in alloc; "{:?}", tagged.command),
        Err(ParseFault::Bad(Bad::WithTag(_))) => String::from_str(alloc, "bad"),
        Err(ParseFault::Bad(Bad::NoTag)) => String::from_str(alloc, "no tag"),
        Err(ParseFault::NoMemory) => String::from_str(alloc, "no memory"),
    }
}

/// The place of the first unit that is another command.
fn first_other(alloc: Global, cases: &[(&[u8], &str)]) -> Result<Option<usize>, AllocError> {
    for (at, (unit, command)) in cases.iter().enumerate() {
        if told(alloc, unit)?.as_str() != *command {
            return Ok(Some(at));
        }
    }
    Ok(None)
}

/// Commands of the session: RFC 3501 §6.1, §6.2 and §6.4, RFC 5161 §3.1, curl and Thunderbird.
const SESSION: [(&[u8], &str); 44] = [
    (b"abcd CAPABILITY\r\n", "Capability"),
    (b"a002 noop\r\n", "Noop"),
    (b"A023 LOGOUT\r\n", "Logout"),
    (b"FXXZ CHECK\r\n", "Check"),
    (b"A341 CLOSE\r\n", "Close"),
    (b"A202 EXPUNGE\r\n", "Expunge"),
    (
        b"a001 LOGIN SMITH SESAME\r\n",
        "Login { name: Octets { bytes: [83, 77, 73, 84, 72] }, password: Octets { bytes: [83, 69, 83, 65, 77, 69] } }",
    ),
    (
        b"A001 LOGIN {11}\r\nFRED FOOBAR {7}\r\nfat man\r\n",
        "Login { name: Octets { bytes: [70, 82, 69, 68, 32, 70, 79, 79, 66, 65, 82] }, password: Octets { bytes: [102, 97, 116, 32, 109, 97, 110] } }",
    ),
    (
        b"A002 Login \"m]c\" \"a\\\"\\\\\"\r\n",
        "Login { name: Octets { bytes: [109, 93, 99] }, password: Octets { bytes: [97, 34, 92] } }",
    ),
    (
        b"a]1 LOGIN a]b {00002}\r\n\r\n\r\n",
        "Login { name: Octets { bytes: [97, 93, 98] }, password: Octets { bytes: [13, 10] } }",
    ),
    (
        b"A002 AUTHENTICATE PLAIN\r\n",
        "Authenticate(Octets { bytes: [80, 76, 65, 73, 78] })",
    ),
    (
        b"t3 ENABLE CONDSTORE X-GOOD-IDEA\r\n",
        "Enable(Items { items: [Octets { bytes: [67, 79, 78, 68, 83, 84, 79, 82, 69] }, Octets { bytes: [88, 45, 71, 79, 79, 68, 45, 73, 68, 69, 65] }] })",
    ),
    (
        b"6 ENABLE UTF8=ACCEPT\r\n",
        "Enable(Items { items: [Octets { bytes: [85, 84, 70, 56, 61, 65, 67, 67, 69, 80, 84] }] })",
    ),
    (b"a NOOP \r\n", "bad"),
    (b"a NOOP", "bad"),
    (b"a NOOP\n", "bad"),
    (b"a NOOPS\r\n", "bad"),
    (b"a NOOP\r\n\r\n", "bad"),
    (b"a \r\n", "bad"),
    (b"a  NOOP\r\n", "bad"),
    (b"a LOGIN SMITH\r\n", "bad"),
    (b"a LOGIN SMITH  SESAME\r\n", "bad"),
    (b"a LOGIN a {2}\r\nbcd\r\n", "bad"),
    (b"a LOGIN a {3}\r\nb\r\n", "bad"),
    (b"a LOGIN a {2+}\r\nbc\r\n", "bad"),
    (b"a LOGIN a {+2}\r\nbc\r\n", "bad"),
    (b"a LOGIN a{2}\r\nbc\r\n", "bad"),
    (b"a LOGIN a {99999999999999999999}\r\n\r\n", "bad"),
    (b"a LOGIN a \"b\r\n", "bad"),
    (b"a LOGIN a \"\\b\"\r\n", "bad"),
    (b"a LOGIN a \"\0\"\r\n", "bad"),
    (b"a LOGIN a \xe9\r\n", "bad"),
    (b"a AUTHENTICATE\r\n", "bad"),
    (b"a AUTHENTICATE \"PLAIN\"\r\n", "bad"),
    (b"a ENABLE\r\n", "bad"),
    (b"a ENABLE \"CONDSTORE\"\r\n", "bad"),
    (b"a UID NOOP\r\n", "bad"),
    (b"NOOP\r\n", "no tag"),
    (b" NOOP\r\n", "no tag"),
    (b"+ NOOP\r\n", "no tag"),
    (b"a+ NOOP\r\n", "no tag"),
    (b"a* NOOP\r\n", "no tag"),
    (b"\r\n", "no tag"),
    (b"", "no tag"),
];

/// Commands of mailboxes: RFC 3501 §6.3, curl, mutt and Thunderbird.
const MAILBOXES: [(&[u8], &str); 27] = [
    (
        b"A003 CREATE owa/\r\n",
        "Create(Octets { bytes: [111, 119, 97, 47] })",
    ),
    (
        b"A683 DELETE \"b c\"\r\n",
        "Delete(Octets { bytes: [98, 32, 99] })",
    ),
    (
        b"A002 SUBSCRIBE #news.mime\r\n",
        "Subscribe(Octets { bytes: [35, 110, 101, 119, 115, 46, 109, 105, 109, 101] })",
    ),
    (
        b"A002 UNSUBSCRIBE {1}\r\nx\r\n",
        "Unsubscribe(Octets { bytes: [120] })",
    ),
    (
        b"A683 RENAME blurdy sara\r\n",
        "Rename { from: Octets { bytes: [98, 108, 117, 114, 100, 121] }, to: Octets { bytes: [115, 97, 114, 97] } }",
    ),
    (
        b"A202 LIST ~/Mail/ %\r\n",
        "List { reference: Octets { bytes: [126, 47, 77, 97, 105, 108, 47] }, name: Octets { bytes: [37] }, subscribed: false }",
    ),
    (
        b"A003 LIST \"\" *\r\n",
        "List { reference: Octets { bytes: [] }, name: Octets { bytes: [42] }, subscribed: false }",
    ),
    (
        b"5 lsub \"\" \"INBOX.*\"\r\n",
        "List { reference: Octets { bytes: [] }, name: Octets { bytes: [73, 78, 66, 79, 88, 46, 42] }, subscribed: true }",
    ),
    (
        b"A042 STATUS blurdy (UIDNEXT MESSAGES)\r\n",
        "Status { name: Octets { bytes: [98, 108, 117, 114, 100, 121] }, items: Items { items: [Uidnext, Messages] } }",
    ),
    (
        b"a5 STATUS \"INBOX\" (uidvalidity Unseen RECENT HIGHESTMODSEQ UNSEEN)\r\n",
        "Status { name: Octets { bytes: [73, 78, 66, 79, 88] }, items: Items { items: [Uidvalidity, Unseen, Recent, Highest, Unseen] } }",
    ),
    (b"a CREATE\r\n", "bad"),
    (b"a CREATE *\r\n", "bad"),
    (b"a CREATE a b\r\n", "bad"),
    (b"a CREATE (a)\r\n", "bad"),
    (b"a RENAME a\r\n", "bad"),
    (b"a RENAME a b c\r\n", "bad"),
    (b"a LIST *\r\n", "bad"),
    (b"a LIST % %\r\n", "bad"),
    (b"a LIST \"\" *\"\r\n", "bad"),
    (b"a LSUB \"\"  *\r\n", "bad"),
    (b"a STATUS a ()\r\n", "bad"),
    (b"a STATUS a MESSAGES\r\n", "bad"),
    (b"a STATUS a (MESSAGES )\r\n", "bad"),
    (b"a STATUS a (MESSAGES  RECENT)\r\n", "bad"),
    (b"a STATUS a (MESSAGES,RECENT)\r\n", "bad"),
    (b"a STATUS a (SIZE)\r\n", "bad"),
    (b"a STATUS a (MESSAGES\r\n", "bad"),
];

/// APPEND, STORE, COPY and UID EXPUNGE: RFC 3501 §6.3.11, §6.4.6 and §6.4.7, RFC 4551 §3.2, RFC 4315 §2.1, Thunderbird and Apple Mail.
const MESSAGES: [(&[u8], &str); 35] = [
    (
        b"A003 APPEND saved (\\Seen) {4}\r\na\r\nb\r\n",
        "Append { name: Octets { bytes: [115, 97, 118, 101, 100] }, flags: Items { items: [Seen] }, stamp: None, text: Octets { bytes: [97, 13, 10, 98] } }",
    ),
    (
        b"A APPEND a {0}\r\n\r\n",
        "Append { name: Octets { bytes: [97] }, flags: Items { items: [] }, stamp: None, text: Octets { bytes: [] } }",
    ),
    (
        b"A APPEND a () \" 7-Feb-1994 21:52:25 -0800\" {1}\r\nx\r\n",
        "Append { name: Octets { bytes: [97] }, flags: Items { items: [] }, stamp: Some(Stamp { seconds: 760686745, zone: -480 }), text: Octets { bytes: [120] } }",
    ),
    (
        b"A APPEND a (\\draft $MDNSent \\ANSWERED) {1}\r\nx\r\n",
        "Append { name: Octets { bytes: [97] }, flags: Items { items: [Draft, Keyword(Octets { bytes: [36, 109, 100, 110, 115, 101, 110, 116] }), Answered] }, stamp: None, text: Octets { bytes: [120] } }",
    ),
    (
        b"A003 STORE 2:4 +FLAGS (\\Deleted)\r\n",
        "Store { by_uid: false, set: SeqSet { ranges: Items { items: [(Some(2), Some(4))] } }, unchanged_since: None, how: Add, silent: false, flags: Items { items: [Deleted] } }",
    ),
    (
        b"a103 UID STORE 6,4,8 (UNCHANGEDSINCE 12121230045) +FLAGS.SILENT (\\Deleted)\r\n",
        "Store { by_uid: true, set: SeqSet { ranges: Items { items: [(Some(6), Some(6)), (Some(4), Some(4)), (Some(8), Some(8))] } }, unchanged_since: Some(12121230045), how: Add, silent: true, flags: Items { items: [Deleted] } }",
    ),
    (
        b"a STORE *:4 (unchangedsince 0) flags ()\r\n",
        "Store { by_uid: false, set: SeqSet { ranges: Items { items: [(None, Some(4))] } }, unchanged_since: Some(0), how: Set, silent: false, flags: Items { items: [] } }",
    ),
    (
        b"a STORE 4294967295 -Flags.Silent \\Flagged \\Seen Ab\r\n",
        "Store { by_uid: false, set: SeqSet { ranges: Items { items: [(Some(4294967295), Some(4294967295))] } }, unchanged_since: None, how: Remove, silent: true, flags: Items { items: [Flagged, Seen, Keyword(Octets { bytes: [97, 98] })] } }",
    ),
    (
        b"A003 COPY 2:4 MEETING\r\n",
        "Copy { by_uid: false, set: SeqSet { ranges: Items { items: [(Some(2), Some(4))] } }, name: Octets { bytes: [77, 69, 69, 84, 73, 78, 71] } }",
    ),
    (
        b"9 uid copy 7:* \"Trash\"\r\n",
        "Copy { by_uid: true, set: SeqSet { ranges: Items { items: [(Some(7), None)] } }, name: Octets { bytes: [84, 114, 97, 115, 104] } }",
    ),
    (
        b"A003 UID EXPUNGE 3000:3002,007\r\n",
        "UidExpunge(SeqSet { ranges: Items { items: [(Some(3000), Some(3002)), (Some(7), Some(7))] } })",
    ),
    (b"a APPEND a \"b\"\r\n", "bad"),
    (b"a APPEND a {1}\r\nxy\r\n", "bad"),
    (b"a APPEND a (\\Recent) {1}\r\nx\r\n", "bad"),
    (b"a APPEND a \\Seen {1}\r\nx\r\n", "bad"),
    (
        b"a APPEND a \"31-Jun-1994 21:52:25 -0800\" {1}\r\nx\r\n",
        "bad",
    ),
    (
        b"a APPEND a \"07-Feb-1994 21:52:60 -0800\" {1}\r\nx\r\n",
        "bad",
    ),
    (
        b"a APPEND a \"07-Feb-1994 21:52:25 -0800\" () {1}\r\nx\r\n",
        "bad",
    ),
    (b"a STORE 2:4 FLAGS\r\n", "bad"),
    (b"a STORE 2:4 FLAGS \r\n", "bad"),
    (b"a STORE 2:4 (\\Deleted)\r\n", "bad"),
    (b"a STORE 2:4 FLAGS.LOUD (\\Deleted)\r\n", "bad"),
    (b"a STORE 2:4 FLAGS \\Seenx\r\n", "bad"),
    (b"a STORE 2:4 FLAGS (\\Seen) \\Seen\r\n", "bad"),
    (
        b"a STORE 2:4 (UNCHANGEDSINCE 18446744073709551615) FLAGS ()\r\n",
        "bad",
    ),
    (b"a STORE 2:4 (UNCHANGEDSINCE) FLAGS ()\r\n", "bad"),
    (b"a STORE 0 FLAGS ()\r\n", "bad"),
    (b"a STORE 4294967296 FLAGS ()\r\n", "bad"),
    (b"a STORE 1,,2 FLAGS ()\r\n", "bad"),
    (b"a STORE 1: FLAGS ()\r\n", "bad"),
    (b"a STORE 1:2:3 FLAGS ()\r\n", "bad"),
    (b"a COPY 2:4\r\n", "bad"),
    (b"a COPY 1, a\r\n", "bad"),
    (b"a UID EXPUNGE\r\n", "bad"),
    (b"a EXPUNGE 1\r\n", "bad"),
];

/// SELECT and EXAMINE: RFC 3501 §6.3.1, §6.3.2, RFC 4551 §3.7, RFC 5162 §3.1.
const OPENINGS: [(&[u8], &str); 17] = [
    (
        b"A142 SELECT INBOX\r\n",
        "Select { name: Octets { bytes: [73, 78, 66, 79, 88] }, examine: false, condstore: false, resync: None }",
    ),
    (
        b"A932 EXAMINE blurdy\r\n",
        "Select { name: Octets { bytes: [98, 108, 117, 114, 100, 121] }, examine: true, condstore: false, resync: None }",
    ),
    (
        b"A142 SELECT INBOX (CONDSTORE)\r\n",
        "Select { name: Octets { bytes: [73, 78, 66, 79, 88] }, examine: false, condstore: true, resync: None }",
    ),
    (
        b"A02 SELECT INBOX (QRESYNC (67890007 20050715194045000 41,43:211))\r\n",
        "Select { name: Octets { bytes: [73, 78, 66, 79, 88] }, examine: false, condstore: false, resync: Some(Resync { validity: 67890007, since: 20050715194045000, known: Some(SeqSet { ranges: Items { items: [(Some(41), Some(41)), (Some(43), Some(211))] } }) }) }",
    ),
    (
        b"a EXAMINE b (qresync (0 1 (3 5)) condstore)\r\n",
        "Select { name: Octets { bytes: [98] }, examine: true, condstore: true, resync: Some(Resync { validity: 0, since: 1, known: None }) }",
    ),
    (
        b"a SELECT b (QRESYNC (1 2 7 (3,4 5)) CONDSTORE QRESYNC (3 4))\r\n",
        "Select { name: Octets { bytes: [98] }, examine: false, condstore: true, resync: Some(Resync { validity: 3, since: 4, known: None }) }",
    ),
    (b"a SELECT\r\n", "bad"),
    (b"a SELECT b ()\r\n", "bad"),
    (b"a SELECT b (CONDSTORE )\r\n", "bad"),
    (b"a SELECT b CONDSTORE\r\n", "bad"),
    (b"a SELECT b (QRESYNC)\r\n", "bad"),
    (b"a SELECT b (QRESYNC 1 2)\r\n", "bad"),
    (b"a SELECT b (QRESYNC (1 0))\r\n", "bad"),
    (b"a SELECT b (QRESYNC (1))\r\n", "bad"),
    (b"a SELECT b (QRESYNC (1 2 (3 4) 5))\r\n", "bad"),
    (b"a SELECT b (QRESYNC (1 2 (3)))\r\n", "bad"),
    (b"a SELECT b (QRESYNC (4294967296 2))\r\n", "bad"),
];

/// FETCH: RFC 3501 §6.4.5, RFC 4551 §3.3.1, RFC 5162 §3.2, curl, Thunderbird and Apple Mail.
const FETCHES: [(&[u8], &str); 31] = [
    (
        b"A654 FETCH 2:4 (FLAGS BODY[HEADER.FIELDS (DATE FROM)])\r\n",
        "Fetch { by_uid: false, set: SeqSet { ranges: Items { items: [(Some(2), Some(4))] } }, items: Items { items: [Flags, Part { section: Section { path: Items { items: [] }, part: Fields { names: Items { items: [Octets { bytes: [68, 65, 84, 69] }, Octets { bytes: [70, 82, 79, 77] }] }, except: false } }, peek: false, partial: None }] }, changed_since: None, vanished: false }",
    ),
    (
        b"a FETCH 1 ALL\r\n",
        "Fetch { by_uid: false, set: SeqSet { ranges: Items { items: [(Some(1), Some(1))] } }, items: Items { items: [Flags, InternalDate, Rfc822Size, Envelope] }, changed_since: None, vanished: false }",
    ),
    (
        b"a FETCH 1 fast\r\n",
        "Fetch { by_uid: false, set: SeqSet { ranges: Items { items: [(Some(1), Some(1))] } }, items: Items { items: [Flags, InternalDate, Rfc822Size] }, changed_since: None, vanished: false }",
    ),
    (
        b"a FETCH 1 FULL\r\n",
        "Fetch { by_uid: false, set: SeqSet { ranges: Items { items: [(Some(1), Some(1))] } }, items: Items { items: [Flags, InternalDate, Rfc822Size, Envelope, Body] }, changed_since: None, vanished: false }",
    ),
    (
        b"A FETCH 1 BODY[TEXT]\r\n",
        "Fetch { by_uid: false, set: SeqSet { ranges: Items { items: [(Some(1), Some(1))] } }, items: Items { items: [Part { section: Section { path: Items { items: [] }, part: Text }, peek: false, partial: None }] }, changed_since: None, vanished: false }",
    ),
    (
        b"a FETCH 1 (BODY BODY[] BODY[1] BODY.PEEK[4.2.HEADER] body[1.2.mime]<0.100> BODY[3.TEXT]<4294967295.1>)\r\n",
        "Fetch { by_uid: false, set: SeqSet { ranges: Items { items: [(Some(1), Some(1))] } }, items: Items { items: [Body, Part { section: Section { path: Items { items: [] }, part: Whole }, peek: false, partial: None }, Part { section: Section { path: Items { items: [1] }, part: Whole }, peek: false, partial: None }, Part { section: Section { path: Items { items: [4, 2] }, part: Header }, peek: true, partial: None }, Part { section: Section { path: Items { items: [1, 2] }, part: Mime }, peek: false, partial: Some((0, 100)) }, Part { section: Section { path: Items { items: [3] }, part: Text }, peek: false, partial: Some((4294967295, 1)) }] }, changed_since: None, vanished: false }",
    ),
    (
        b"5 UID fetch 1:* (FLAGS)\r\n",
        "Fetch { by_uid: true, set: SeqSet { ranges: Items { items: [(Some(1), None)] } }, items: Items { items: [Flags] }, changed_since: None, vanished: false }",
    ),
    (
        b"7 UID fetch 9 (UID RFC822.SIZE FLAGS BODY.PEEK[HEADER.FIELDS.NOT (From \"To\")])\r\n",
        "Fetch { by_uid: true, set: SeqSet { ranges: Items { items: [(Some(9), Some(9))] } }, items: Items { items: [Uid, Rfc822Size, Flags, Part { section: Section { path: Items { items: [] }, part: Fields { names: Items { items: [Octets { bytes: [70, 114, 111, 109] }, Octets { bytes: [84, 111] }] }, except: true } }, peek: true, partial: None }] }, changed_since: None, vanished: false }",
    ),
    (
        b"a UID FETCH 1 (ENVELOPE BODYSTRUCTURE INTERNALDATE MODSEQ RFC822 RFC822.HEADER RFC822.TEXT) (CHANGEDSINCE 12345 VANISHED)\r\n",
        "Fetch { by_uid: true, set: SeqSet { ranges: Items { items: [(Some(1), Some(1))] } }, items: Items { items: [Envelope, BodyStructure, InternalDate, Modseq, Rfc822, Rfc822Header, Rfc822Text] }, changed_since: Some(12345), vanished: true }",
    ),
    (
        b"a FETCH 1 FAST (CHANGEDSINCE 18446744073709551614)\r\n",
        "Fetch { by_uid: false, set: SeqSet { ranges: Items { items: [(Some(1), Some(1))] } }, items: Items { items: [Flags, InternalDate, Rfc822Size] }, changed_since: Some(18446744073709551614), vanished: false }",
    ),
    (b"a FETCH 1 ()\r\n", "bad"),
    (b"a FETCH 1 (ALL)\r\n", "bad"),
    (b"a FETCH 1 FLAGS UID\r\n", "bad"),
    (b"a FETCH 1 (FLAGS UID\r\n", "bad"),
    (b"a FETCH FLAGS\r\n", "bad"),
    (b"a FETCH 1 BODY[\r\n", "bad"),
    (b"a FETCH 1 BODY[MIME]\r\n", "bad"),
    (b"a FETCH 1 BODY[0]\r\n", "bad"),
    (b"a FETCH 1 BODY[1.]\r\n", "bad"),
    (b"a FETCH 1 BODY[1.0.TEXT]\r\n", "bad"),
    (b"a FETCH 1 BODY[TEXT.1]\r\n", "bad"),
    (b"a FETCH 1 BODY[1]<0.0>\r\n", "bad"),
    (b"a FETCH 1 BODY[1]<0>\r\n", "bad"),
    (b"a FETCH 1 BODY[HEADER.FIELDS ()]\r\n", "bad"),
    (b"a FETCH 1 BODY[HEADER.FIELDS]\r\n", "bad"),
    (b"a FETCH 1 BODY.PEEK\r\n", "bad"),
    (b"a FETCH 1 ENVELOPE[]\r\n", "bad"),
    (b"a FETCH 1 RFC822.PEEK\r\n", "bad"),
    (b"a FETCH 1 FLAGS (CHANGEDSINCE 0)\r\n", "bad"),
    (b"a FETCH 1 FLAGS (CHANGEDSINCE 5 VANISHED)\r\n", "bad"),
    (b"a UID FETCH 1 FLAGS (VANISHED)\r\n", "bad"),
];

/// SEARCH, SORT and THREAD: RFC 3501 §6.4.4, RFC 4551 §3.4, RFC 5256 §3.
const SEARCHES: [(&[u8], &str); 39] = [
    (
        b"A282 SEARCH FLAGGED SINCE 1-Feb-1994 NOT FROM \"Smith\"\r\n",
        "Search { by_uid: false, charset: None, key: And(Items { items: [Has(Flagged), Since { day: 8797, sent: false }, Not(Boxed { inner: Header { name: Octets { bytes: [70, 82, 79, 77] }, text: Octets { bytes: [83, 109, 105, 116, 104] } } })] }) }",
    ),
    (
        b"A284 SEARCH CHARSET UTF-8 TEXT {6}\r\nXXXXXX\r\n",
        "Search { by_uid: false, charset: Some(Octets { bytes: [85, 84, 70, 45, 56] }), key: And(Items { items: [Text(Octets { bytes: [88, 88, 88, 88, 88, 88] })] }) }",
    ),
    (
        b"a1 SEARCH MODSEQ \"/flags/\\\\draft\" all 620162338\r\n",
        "Search { by_uid: false, charset: None, key: And(Items { items: [Modseq(620162338)] }) }",
    ),
    (
        b"8 UID SEARCH 1:4,* UID 5 (OR SEEN NOT KEYWORD $Fwd) modseq 0\r\n",
        "Search { by_uid: true, charset: None, key: And(Items { items: [Set { set: SeqSet { ranges: Items { items: [(Some(1), Some(4)), (None, None)] } }, by_uid: false }, Set { set: SeqSet { ranges: Items { items: [(Some(5), Some(5))] } }, by_uid: true }, And(Items { items: [Or(Boxed { inner: Has(Seen) }, Boxed { inner: Not(Boxed { inner: Has(Keyword(Octets { bytes: [36, 102, 119, 100] })) }) })] }), Modseq(0)] }) }",
    ),
    (
        b"a SEARCH ALL RECENT NEW OLD ANSWERED DELETED DRAFT UNANSWERED UNDELETED UNDRAFT UNFLAGGED UNSEEN UNKEYWORD a\r\n",
        "Search { by_uid: false, charset: None, key: And(Items { items: [All, Recent, New, Old, Has(Answered), Has(Deleted), Has(Draft), Lacks(Answered), Lacks(Deleted), Lacks(Draft), Lacks(Flagged), Lacks(Seen), Lacks(Keyword(Octets { bytes: [97] }))] }) }",
    ),
    (
        b"a SEARCH BCC a CC b SUBJECT \"\" TO c HEADER X-Y d BODY e LARGER 0 SMALLER 4294967295\r\n",
        "Search { by_uid: false, charset: None, key: And(Items { items: [Header { name: Octets { bytes: [66, 67, 67] }, text: Octets { bytes: [97] } }, Header { name: Octets { bytes: [67, 67] }, text: Octets { bytes: [98] } }, Header { name: Octets { bytes: [83, 85, 66, 74, 69, 67, 84] }, text: Octets { bytes: [] } }, Header { name: Octets { bytes: [84, 79] }, text: Octets { bytes: [99] } }, Header { name: Octets { bytes: [88, 45, 89] }, text: Octets { bytes: [100] } }, Body(Octets { bytes: [101] }), Larger(0), Smaller(4294967295)] }) }",
    ),
    (
        b"a SEARCH BEFORE \"01-Feb-1994\" ON  1-Feb-1994 SENTBEFORE 01-feb-1994 SENTON \" 1-Feb-1994\" (SENTSINCE 1-Feb-1994)\r\n",
        "Search { by_uid: false, charset: None, key: And(Items { items: [Before { day: 8797, sent: false }, On { day: 8797, sent: false }, Before { day: 8797, sent: true }, On { day: 8797, sent: true }, And(Items { items: [Since { day: 8797, sent: true }] })] }) }",
    ),
    (
        b"A283 SORT (SUBJECT REVERSE DATE) UTF-8 ALL\r\n",
        "Sort { by_uid: false, keys: Items { items: [SortKey { by: Subject, reverse: false }, SortKey { by: Date, reverse: true }] }, charset: Octets { bytes: [85, 84, 70, 45, 56] }, key: And(Items { items: [All] }) }",
    ),
    (
        b"a UID SORT (arrival cc from size to) \"US-ASCII\" 1\r\n",
        "Sort { by_uid: true, keys: Items { items: [SortKey { by: Arrival, reverse: false }, SortKey { by: Cc, reverse: false }, SortKey { by: From, reverse: false }, SortKey { by: Size, reverse: false }, SortKey { by: To, reverse: false }] }, charset: Octets { bytes: [85, 83, 45, 65, 83, 67, 73, 73] }, key: And(Items { items: [Set { set: SeqSet { ranges: Items { items: [(Some(1), Some(1))] } }, by_uid: false }] }) }",
    ),
    (
        b"A283 THREAD ORDEREDSUBJECT UTF-8 SINCE 5-MAR-2000\r\n",
        "Thread { by_uid: false, charset: Octets { bytes: [85, 84, 70, 45, 56] }, key: And(Items { items: [Since { day: 11021, sent: false }] }) }",
    ),
    (
        b"a uid thread orderedsubject us-ascii all\r\n",
        "Thread { by_uid: true, charset: Octets { bytes: [117, 115, 45, 97, 115, 99, 105, 105] }, key: And(Items { items: [All] }) }",
    ),
    (b"a SEARCH\r\n", "bad"),
    (b"a SEARCH \r\n", "bad"),
    (b"a SEARCH ALL \r\n", "bad"),
    (b"a SEARCH ()\r\n", "bad"),
    (b"a SEARCH (ALL\r\n", "bad"),
    (b"a SEARCH ALL)\r\n", "bad"),
    (b"a SEARCH NOT\r\n", "bad"),
    (b"a SEARCH NOT ALL ANSWERE\r\n", "bad"),
    (b"a SEARCH OR ALL\r\n", "bad"),
    (b"a SEARCH KEYWORD \\Seen\r\n", "bad"),
    (b"a SEARCH KEYWORD \"a\"\r\n", "bad"),
    (b"a SEARCH SINCE 31-Feb-1994\r\n", "bad"),
    (b"a SEARCH SINCE 1-Feb-0000\r\n", "bad"),
    (b"a SEARCH SINCE 1-Feb-94\r\n", "bad"),
    (b"a SEARCH SINCE 1-Feb-19944\r\n", "bad"),
    (b"a SEARCH LARGER 4294967296\r\n", "bad"),
    (b"a SEARCH MODSEQ 18446744073709551615\r\n", "bad"),
    (b"a SEARCH MODSEQ /flags all 1\r\n", "bad"),
    (b"a SEARCH MODSEQ \"/flags\" some 1\r\n", "bad"),
    (b"a SEARCH CHARSET UTF-8\r\n", "bad"),
    (b"a SEARCH UNRECENT\r\n", "bad"),
    (b"a SORT () UTF-8 ALL\r\n", "bad"),
    (b"a SORT (REVERSE) UTF-8 ALL\r\n", "bad"),
    (b"a SORT (REVERSE REVERSE DATE) UTF-8 ALL\r\n", "bad"),
    (b"a SORT (DATE) ALL\r\n", "bad"),
    (b"a SORT DATE UTF-8 ALL\r\n", "bad"),
    (b"a THREAD REFERENCES UTF-8 ALL\r\n", "bad"),
    (b"a THREAD ORDEREDSUBJECT UTF-8\r\n", "bad"),
];

#[test]
fn units_are_read(rt: HostRuntime) -> Result<(), Fail> {
    assert_eq!(rt; first_other(rt.alloc(), &SESSION)?, None);
    assert_eq!(rt; first_other(rt.alloc(), &MAILBOXES)?, None);
    assert_eq!(rt; first_other(rt.alloc(), &MESSAGES)?, None);
    assert_eq!(rt; first_other(rt.alloc(), &OPENINGS)?, None);
    assert_eq!(rt; first_other(rt.alloc(), &FETCHES)?, None);
    assert_eq!(rt; first_other(rt.alloc(), &SEARCHES)?, None);
    Ok(())
}

/// A search whose key stands within so many levels, of parentheses, NOT and OR in turn.
fn nested(alloc: Global, levels: usize) -> Result<Vec<u8>, AllocError> {
    let mut unit = b"a SEARCH ".to_vec(alloc)?;
    let mut end = Vec::new(alloc);
    for level in 0..levels {
        if level % 3 == 0 {
            unit.extend_from_slice(b"(")?;
            end.extend_from_slice(b")")?;
        } else if level % 3 == 1 {
            unit.extend_from_slice(b"NOT ")?;
        } else {
            unit.extend_from_slice(b"OR 1 ")?;
        }
    }
    unit.extend_from_slice(b"ALL")?;
    unit.extend_from_slice(end.as_slice())?;
    unit.extend_from_slice(b"\r\n")?;
    Ok(unit)
}

fn is_bad(alloc: Global, levels: usize) -> Result<bool, AllocError> {
    Ok(told(alloc, nested(alloc, levels)?.as_slice())?.as_str() == "bad")
}

#[test]
fn keys_stand_within_100_levels(rt: HostRuntime) -> Result<(), Fail> {
    assert!(rt; !is_bad(rt.alloc(), 100)?);
    assert!(rt; is_bad(rt.alloc(), 101)?);
    Ok(())
}

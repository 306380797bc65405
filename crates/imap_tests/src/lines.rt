//! Lines of answers.
use imap_grammar::{Flag, StatusItem};
use imap_writer::{
    Extension, MessageData, Refusal, StatusData, flag_list, push_append_code, push_closed,
    push_copy_code, push_enabled, push_exists, push_expunge, push_fetch, push_flag_names,
    push_highest, push_highest_code, push_list, push_modified_code, push_permanent, push_recent,
    push_search, push_sort, push_status, push_uidnext, push_uidvalidity, push_unseen,
    push_vanished, tagged_no, tagged_ok, text, uid_set,
};
use octets::Octets;
use std::alloc::{AllocError, Global};
use std::test::Fail;

const REFUSALS: [(Refusal, &[u8]); 16] = [
    (Refusal::LiteralTooLong, b"T NO literal too long\r\n"),
    (Refusal::Syntax, b"T BAD syntax\r\n"),
    (Refusal::State, b"T BAD state\r\n"),
    (Refusal::NotEnabled, b"T BAD not enabled\r\n"),
    (Refusal::Mechanism, b"T NO mechanism\r\n"),
    (
        Refusal::LoginFailed,
        b"T NO [AUTHENTICATIONFAILED] login failed\r\n",
    ),
    (Refusal::ReadOnly, b"T NO read only\r\n"),
    (
        Refusal::Charset,
        b"T NO [BADCHARSET (US-ASCII UTF-8 ISO-8859-1)] charset\r\n",
    ),
    (Refusal::BadName, b"T NO [CANNOT] bad name\r\n"),
    (Refusal::Absent, b"T NO [NONEXISTENT] no such mailbox\r\n"),
    (Refusal::TryCreate, b"T NO [TRYCREATE] no such mailbox\r\n"),
    (Refusal::Exists, b"T NO [ALREADYEXISTS] mailbox exists\r\n"),
    (Refusal::InUse, b"T NO [INUSE] mailbox in use\r\n"),
    (Refusal::Full, b"T NO [LIMIT] full\r\n"),
    (Refusal::NoUid, b"T NO [LIMIT] no uid left\r\n"),
    (
        Refusal::ExpungeIssued,
        b"T NO [EXPUNGEISSUED] some messages are gone\r\n",
    ),
];

#[test]
fn answers_end_with_their_tags(rt: HostRuntime) -> Result<(), Fail> {
    for (refusal, line) in REFUSALS {
        assert_eq!(rt; tagged_no(rt.alloc(), b"T", refusal)?.as_slice(), line);
    }
    let bare = tagged_ok(rt.alloc(), b"a1", b"", b"UID FETCH")?;
    assert_eq!(rt;
        bare.as_slice(),
        b"a1 OK UID FETCH completed\r\n".as_slice()
    );
    let coded = tagged_ok(rt.alloc(), b"a1", b"READ-ONLY", b"EXAMINE")?;
    assert_eq!(rt;
        coded.as_slice(),
        b"a1 OK [READ-ONLY] EXAMINE completed\r\n".as_slice()
    );
    Ok(())
}

const TEXTS: [(&[u8], &[u8]); 6] = [
    (b"", b"\"\""),
    (b"a ~", b"\"a ~\""),
    (b"a\"b\\c", b"\"a\\\"b\\\\c\""),
    (b"a\tb", b"{3}\r\na\tb"),
    (b"\x7f", b"{1}\r\n\x7f"),
    (b"0123456789\r\n", b"{12}\r\n0123456789\r\n"),
];

const SETS: [(&[u32], &[u8]); 5] = [
    (&[], b""),
    (&[7], b"7"),
    (&[1, 2, 3, 5], b"1:3,5"),
    (&[2, 4, 6, 7], b"2,4,6:7"),
    (&[4_294_967_294, 4_294_967_295], b"4294967294:4294967295"),
];

#[test]
fn texts_and_sets(rt: HostRuntime) -> Result<(), Fail> {
    for (bytes, shown) in TEXTS {
        assert_eq!(rt; text(rt.alloc(), bytes)?.as_slice(), shown);
    }
    for (numbers, shown) in SETS {
        assert_eq!(rt; uid_set(rt.alloc(), numbers)?.as_slice(), shown);
    }
    assert_eq!(rt;
        flag_list(rt.alloc(), &[], false)?.as_slice(),
        b"()".as_slice()
    );
    assert_eq!(rt;
        flag_list(rt.alloc(), &[Flag::Seen], true)?.as_slice(),
        b"(\\Seen \\Recent)".as_slice()
    );
    Ok(())
}

// RFC 3501 §6.3.1 and §7.2, but for the remarks; RFC 4551 §3.1.1, §3.4, RFC 5162 §3.6, §3.7, RFC 5161 §3.2, RFC 5256 §4.
const LINES: &[u8] =
    b"* OK [CLOSED] closed\r\n* 172 EXISTS\r\n* 1 RECENT\r\n* FLAGS (\\Answered $fwd)\r\n* OK [UNSEEN 12] first unseen\r\n\
    * OK [PERMANENTFLAGS (\\Answered $fwd \\*)] kept\r\n* OK [PERMANENTFLAGS ()] kept\r\n* OK [UIDNEXT 4392] next\r\n\
    * OK [UIDVALIDITY 3857529045] valid\r\n* OK [HIGHESTMODSEQ 715194045007] highest\r\n* VANISHED (EARLIER) 300:302,310\r\n\
    * VANISHED 5\r\n* 44 EXPUNGE\r\n\
    * ENABLED CONDSTORE QRESYNC\r\n* ENABLED\r\n* SEARCH 2 5 23 (MODSEQ 917162500)\r\n* SEARCH\r\n* SORT 2 84 882\r\n* LIST () \"/\" \"a\"\r\n* LSUB (\\Noselect) \"/\" \"\"\r\n\
    * STATUS \"blurdy\" (MESSAGES 231 UIDNEXT 44292)\r\n\
    * 23 FETCH (UID 7 FLAGS (\\Answered $fwd) RFC822.SIZE 44827 MODSEQ (65402) INTERNALDATE \"17-Jul-1996 02:44:25 -0700\" BODY[] {2}\r\n\"x BODY[2] NIL ENVELOPE (NIL))\r\n";

fn push_selected(out: &mut Vec<u8>, flags: &[Flag]) -> Result<(), AllocError> {
    push_closed(out)?;
    push_exists(out, 172)?;
    push_recent(out, 1)?;
    push_flag_names(out, flags)?;
    push_unseen(out, 12)?;
    push_permanent(out, flags, true)?;
    push_permanent(out, flags, false)?;
    push_uidnext(out, 4392)?;
    push_uidvalidity(out, 3_857_529_045)?;
    push_highest(out, 715_194_045_007)
}

fn push_others(out: &mut Vec<u8>, flags: &[Flag]) -> Result<(), AllocError> {
    push_vanished(out, true, &[300, 301, 302, 310])?;
    push_vanished(out, false, &[5])?;
    push_expunge(out, 44)?;
    push_enabled(out, &[Extension::Condstore, Extension::Qresync])?;
    push_enabled(out, &[])?;
    push_search(out, &[2, 5, 23], Some(917_162_500))?;
    push_search(out, &[], None)?;
    push_sort(out, &[2, 84, 882], None)?;
    push_list(out, false, true, b"a")?;
    push_list(out, true, false, b"")?;
    push_status(
        out,
        b"blurdy",
        &[
            StatusData {
                item: StatusItem::Messages,
                number: 231,
            },
            StatusData {
                item: StatusItem::Uidnext,
                number: 44_292,
            },
        ],
    )?;
    push_fetch(
        out,
        23,
        &[
            MessageData::Uid(7),
            MessageData::Flags {
                flags,
                recent: false,
            },
            MessageData::Size(44_827),
            MessageData::Modseq(65_402),
            MessageData::InternalDate(b"17-Jul-1996 02:44:25 -0700"),
            MessageData::Bytes {
                item: b"BODY[]",
                bytes: b"\"x",
            },
            MessageData::Absent(b"BODY[2]"),
            MessageData::Printed {
                item: b"ENVELOPE",
                text: b"(NIL)",
            },
        ],
    )
}

fn all_lines(alloc: Global) -> Result<Vec<u8>, AllocError> {
    let flags = [
        Flag::Answered,
        Flag::Keyword(Octets::new(b"$fwd".to_vec(alloc)?)),
    ];
    let mut out = Vec::new(alloc);
    push_selected(&mut out, &flags)?;
    push_others(&mut out, &flags)?;
    Ok(out)
}

// RFC 4315 §3, RFC 4551 §3.2, RFC 5162 §3.5, with a space before each.
const CODES: &[u8] =
    b" APPENDUID 38505 3955 COPYUID 38505 304,319:320 3956:3958 MODIFIED 7,9 HIGHESTMODSEQ 20010715194045319";

fn all_codes(alloc: Global) -> Result<Vec<u8>, AllocError> {
    let mut out = Vec::new(alloc);
    out.extend_from_slice(b" ")?;
    push_append_code(&mut out, 38_505, 3955)?;
    out.extend_from_slice(b" ")?;
    push_copy_code(&mut out, 38_505, &[304, 319, 320], &[3956, 3957, 3958])?;
    out.extend_from_slice(b" ")?;
    push_modified_code(&mut out, &[7, 9])?;
    out.extend_from_slice(b" ")?;
    push_highest_code(&mut out, 20_010_715_194_045_319)?;
    Ok(out)
}

#[test]
fn codes_of_answers(rt: HostRuntime) -> Result<(), Fail> {
    assert_eq!(rt; all_codes(rt.alloc())?.as_slice(), CODES);
    Ok(())
}

#[test]
fn lines_of_answers(rt: HostRuntime) -> Result<(), Fail> {
    assert_eq!(rt; all_lines(rt.alloc())?.as_slice(), LINES);
    Ok(())
}

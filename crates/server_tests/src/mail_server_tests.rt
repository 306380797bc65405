//! Runs of the program over sources and sinks in memory.

use disk_model::{Files, MemoryDisk};
use mail_server::run;
use port_model::{FixedClock, MemorySink, MemorySource, ScriptPorts};
use std::alloc::{AllocError, Global};
use std::test::Fail;

const READY: &[u8] = b"1: * OK IMAP4rev1 ready\\r\\n\n";

fn no_disk(alloc: Global) -> Result<MemoryDisk, AllocError> {
    MemoryDisk::new(alloc, Vec::new(alloc), Vec::new(alloc))
}

/// Runs words over a script and an empty store, where the calls of these numbers fail, and answers the status and what was written.
fn ran(
    alloc: Global,
    words: &str,
    script: &[u8],
    read_fails: &[u64],
    write_fails: &[u64],
) -> Result<(u8, Vec<u8>), AllocError> {
    let mut all = Vec::new(alloc);
    for word in words.split_whitespace() {
        all.push(word.to_string(alloc)?)?;
    }
    let mut source = MemorySource::new(alloc, script.to_vec(alloc)?, read_fails.to_vec(alloc)?)?;
    let mut sink = MemorySink::new(alloc, write_fails.to_vec(alloc)?)?;
    let files = files_of(alloc, EMPTY_STORE, &[])?;
    let mut ports = ScriptPorts::new(alloc, Vec::new(alloc), Vec::new(alloc))?;
    let mut clock = FixedClock::new(0);
    let (status, _files) = run(
        alloc,
        &all,
        &mut source,
        &mut sink,
        files,
        &mut ports,
        &mut clock,
    );
    Ok((status, sink.written().to_vec(alloc)?))
}

#[test]
fn scripts_run(rt: HostRuntime) -> Result<(), Fail> {
    let noop = b"open imap\nsend 1 0 a NOOP\\r\\n\n".as_slice();
    let done = b"1: * OK IMAP4rev1 ready\\r\\n\n1: a OK NOOP completed\\r\\n\n".as_slice();
    let bad = b"1: * OK IMAP4rev1 ready\\r\\n\n1: a BAD syntax\\r\\n\n".as_slice();
    let untagged = b"1: * OK IMAP4rev1 ready\\r\\n\n1: * BAD syntax\\r\\n\n".as_slice();
    let two =
        b"1: * OK IMAP4rev1 ready\\r\\n\n1: * BAD syntax\\r\\n\n1: b OK NOOP completed\\r\\n\n".as_slice();
    let cases: [(&str, &[u8], u8, &[u8]); 15] = [
        ("script", noop, 0, done),
        ("script", b"", 0, b""),
        ("script", b"open imap", 0, READY),
        ("script x", noop, 2, b""),
        ("scripts", noop, 2, b""),
        ("Script", noop, 2, b""),
        ("", noop, 2, b""),
        ("script", b"open imap\nend 2", 9, b"bad line 2\n"),
        ("script", b"open lmtp\n", 9, b"bad line 1\n"),
        ("script", b"open imap\nsend 1 0 \\r\\nb noop\\r\\n", 0, two),
        ("script", b"open imap\nsend 1 0 a NO\\x00OP\\r\\n", 0, bad),
        ("script", b"open imap\nsend 1 0 a NOOP\\n\\r\\n", 0, bad),
        ("script", b"open imap\nsend 1 0 a NOOP\\r\\r\\n", 0, bad),
        (
            "script",
            b"open imap\nsend 1 0 \\xff NOOP\\r\\n",
            0,
            untagged,
        ),
        (
            "script",
            b"open imap\nsend 1 0 a\nsend 1 0  NOO\nsend 1 0 P\\r\nsend 1 0 \\n",
            0,
            done,
        ),
    ];
    for (words, script, status, lines) in cases {
        let (got, written) = ran(rt.alloc(), words, script, &[], &[])?;
        assert_eq!(rt; got, status);
        assert_eq!(rt; written.as_slice(), lines);
    }
    Ok(())
}

#[test]
fn faults_end_the_run(rt: HostRuntime) -> Result<(), Fail> {
    let alloc = rt.alloc();
    let open = b"open imap\n".as_slice();
    let cases: [(&[u8], &[u64], &[u64], u8, &[u8]); 7] = [
        (open, &[1], &[], 4, b""),
        (open, &[2], &[], 4, b""),
        (open, &[3], &[], 0, READY),
        (open, &[], &[1], 5, b""),
        (open, &[], &[2], 0, READY),
        (b"x", &[], &[1], 5, b""),
        (open, &[2], &[1], 4, b""),
    ];
    for (script, read_fails, write_fails, status, lines) in cases {
        let (got, written) = ran(alloc, "script", script, read_fails, write_fails)?;
        assert_eq!(rt; got, status);
        assert_eq!(rt; written.as_slice(), lines);
    }
    Ok(())
}

fn long_script(alloc: Global) -> Result<Vec<u8>, AllocError> {
    vec![in alloc; b'x'; 67_108_865]
}

#[test]
fn long_scripts_are_refused(rt: HostRuntime) -> Result<(), Fail> {
    let alloc = rt.alloc();
    let (status, written) = ran(alloc, "script", &long_script(alloc)?, &[], &[])?;
    assert_eq!(rt; status, 9);
    assert_eq!(rt; written.as_slice(), b"bad script: too long\n".as_slice());
    Ok(())
}

/// Adds a line in which the peer of a session sends one byte.
fn send_byte(script: &mut Vec<u8>, session: u8, byte: u8) -> Result<(), AllocError> {
    script.extend_from_slice(b"send ")?;
    script.push(session)?;
    script.extend_from_slice(b" 0 ")?;
    match byte {
        b'\r' => script.extend_from_slice(b"\\r\n"),
        b'\n' => script.extend_from_slice(b"\\n\n"),
        _ => script.extend_from_slice(&[byte, b'\n']),
    }
}

#[test]
fn sessions_take_turns_byte_by_byte(rt: HostRuntime) -> Result<(), Fail> {
    let alloc = rt.alloc();
    let first = b"a NOOP\r\n";
    let second = b"b CAPABILITY\r\n";
    let mut script = b"open imap\nopen imap\n".to_vec(alloc)?;
    for (i, byte) in second.iter().enumerate() {
        if i < first.len() {
            send_byte(&mut script, b'1', first[i])?;
        }
        send_byte(&mut script, b'2', *byte)?;
    }
    let whole = b"open imap\nopen imap\nsend 1 0 a NOOP\\r\\n\nsend 2 0 b CAPABILITY\\r\\n";
    let lines =
        b"1: * OK IMAP4rev1 ready\\r\\n\n1: a OK NOOP completed\\r\\n\n2: * OK IMAP4rev1 ready\\r\\n\n2: * CAPABILITY IMAP4rev1 AUTH=PLAIN\\r\\n\n2: b OK CAPABILITY completed\\r\\n\n";
    for text in [script.as_slice(), whole] {
        let (status, written) = ran(alloc, "script", text, &[], &[])?;
        assert_eq!(rt; status, 0);
        assert_eq!(rt; written.as_slice(), lines.as_slice());
    }
    Ok(())
}

// What ends a session, and what it is sent then.
#[test]
fn sessions_end(rt: HostRuntime) -> Result<(), Fail> {
    let answered = b"1: * OK IMAP4rev1 ready\\r\\n\n1: a OK NOOP completed\\r\\n\n".as_slice();
    let logged_out =
        b"1: * OK IMAP4rev1 ready\\r\\n\n1: * BYE logging out\\r\\n\n1: a OK LOGOUT completed\\r\\n\n".as_slice();
    let one_lost =
        b"1: * OK IMAP4rev1 ready\\r\\n\n1: a OK NOOP completed\\r\\n\n2: * OK IMAP4rev1 ready\\r\\n\n".as_slice();
    let cases: [(&[u8], &[u8]); 6] = [
        // What was queued when the link was lost is lost, be it the greeting or an answer.
        (b"open imap\nlose 1", b""),
        (b"open imap\nsend 1 0 a NOOP\\r\\n\nlose 1", READY),
        // A peer that ended its side is still answered.
        (
            b"# one\n\nopen imap\nsend 1 0 a NOOP\\r\\n\nend 1\n",
            answered,
        ),
        // What stands behind LOGOUT is dropped, in the piece and after it.
        (
            b"open imap\nsend 1 0 a LOGOUT\\r\\nb NOOP\\r\\n\nsend 1 0 c NOOP\\r\\n\nend 1",
            logged_out,
        ),
        // Session 2 is lost before its answer is sent. What session 1 was answered is sent by then.
        (
            b"open imap\nopen imap\nsend 1 0 a NOOP\\r\\n\nsend 2 0 b NOOP\\r\\n\nlose 2\nlose 1",
            one_lost,
        ),
        (b"open imap\nsend 1 0 a NO\nlose 1", READY),
    ];
    for (script, lines) in cases {
        let (status, written) = ran(rt.alloc(), "script", script, &[], &[])?;
        assert_eq!(rt; status, 0);
        assert_eq!(rt; written.as_slice(), lines);
    }
    Ok(())
}

fn open_many(alloc: Global, count: u32) -> Result<Vec<u8>, AllocError> {
    let mut script = Vec::new(alloc);
    for _ in 0..count {
        script.extend_from_slice(b"open imap\n")?;
    }
    Ok(script)
}

#[test]
fn sixty_four_sessions_are_served_at_once(rt: HostRuntime) -> Result<(), Fail> {
    let alloc = rt.alloc();
    let mut script = open_many(alloc, 65)?;
    let (status, written) = ran(alloc, "script", &script, &[], &[])?;
    assert_eq!(rt; status, 0);
    assert_eq!(rt; written.iter().filter(|byte| **byte == b'\n').count(), 65);
    assert!(rt;
        written.ends_with(b"\n64: * OK IMAP4rev1 ready\\r\\n\n65: * BYE too many sessions\\r\\n\n")
    );

    // The 65th isn't one of those that are served, and one of them leaves room for a 66th.
    script.extend_from_slice(b"send 3 0 a LOGOUT\\r\\n\nopen imap\n")?;
    let (status, written) = ran(alloc, "script", &script, &[], &[])?;
    assert_eq!(rt; status, 0);
    assert!(rt; written.ends_with(b"\n66: * OK IMAP4rev1 ready\\r\\n\n"));
    Ok(())
}

/// A script in which session 1 sends each of these units, in the form of a script's text.
fn sends_units(alloc: Global, units: &[&[u8]]) -> Result<Vec<u8>, AllocError> {
    let mut script = b"open imap\n".to_vec(alloc)?;
    for unit in units {
        script.extend_from_slice(b"send 1 0 ")?;
        script.extend_from_slice(unit)?;
        script.extend_from_slice(b"\\r\\n\n")?;
    }
    Ok(script)
}

/// What is answered to as many units, each with this line.
fn answers(alloc: Global, line: &[u8], count: usize) -> Result<Vec<u8>, AllocError> {
    let mut lines = READY.to_vec(alloc)?;
    for _ in 0..count {
        lines.extend_from_slice(line)?;
    }
    Ok(lines)
}

#[test]
fn units_are_answered_as_they_read(rt: HostRuntime) -> Result<(), Fail> {
    let alloc = rt.alloc();
    let cases: [(&[u8], &[&[u8]]); 6] = [
        (
            b"1: a OK NOOP completed\\r\\n\n",
            &[b"a NOOP", b"a noop", b"a NoOp"],
        ),
        (b"1: A1.b#] OK NOOP completed\\r\\n\n", &[b"A1.b#] NoOp"]),
        (b"1: ]x OK NOOP completed\\r\\n\n", &[b"]x NOOP"]),
        (b"1: !~ OK NOOP completed\\r\\n\n", &[b"!~ NOOP"]),
        // a tag and a space, and no command behind them
        (
            b"1: a BAD syntax\\r\\n\n",
            &[
                b"a NoOp ",
                b"a  NOOP",
                b"a NOOP x",
                b"a ",
                b"a NOOP\\n",
                b"a NOOP\\r",
                b"a NO\\x00OP",
                b"a NOOP\\xe9",
            ],
        ),
        // no tag, or no space behind it
        (
            b"1: * BAD syntax\\r\\n\n",
            &[
                b"A1.b#]{",
                b"",
                b" NOOP",
                b"NOOP",
                b"a\\x09NOOP",
                b"+ NOOP",
                b"a+ NOOP",
                b"* NOOP",
                b"a% NOOP",
                b"a( NOOP",
                b"a) NOOP",
                b"a\" NOOP",
                b"a\\\\ NOOP",
                b"a\\x7f NOOP",
                b"a\\xe9 NOOP",
                b"\\x00a NOOP",
                b"a\\nb NOOP",
                b"a\\r NOOP",
            ],
        ),
    ];
    for (line, units) in cases {
        let (status, written) = ran(alloc, "script", &sends_units(alloc, units)?, &[], &[])?;
        let want = answers(alloc, line, units.len())?;
        assert_eq!(rt; status, 0);
        assert_eq!(rt; written.as_slice(), want.as_slice());
    }
    Ok(())
}

/// A script of one line of so many letters, and a command behind it.
fn long_line(alloc: Global, letters: usize) -> Result<Vec<u8>, AllocError> {
    let mut script = b"open imap\nsend 1 0 ".to_vec(alloc)?;
    for _ in 0..letters {
        script.push(b'x')?;
    }
    script.extend_from_slice(b"\\r\\n\nsend 1 0 a NOOP\\r\\n\n")?;
    Ok(script)
}

#[test]
fn lines_have_8192_bytes_at_most(rt: HostRuntime) -> Result<(), Fail> {
    let alloc = rt.alloc();
    let (status, written) = ran(alloc, "script", &long_line(alloc, 8190)?, &[], &[])?;
    let taken =
        b"1: * OK IMAP4rev1 ready\\r\\n\n1: * BAD syntax\\r\\n\n1: a OK NOOP completed\\r\\n\n";
    assert_eq!(rt; status, 0);
    assert_eq!(rt; written.as_slice(), taken.as_slice());

    // The 8,193rd byte is the LF.
    let (status, written) = ran(alloc, "script", &long_line(alloc, 8191)?, &[], &[])?;
    let closed = b"1: * OK IMAP4rev1 ready\\r\\n\n1: * BYE line too long\\r\\n\n";
    assert_eq!(rt; status, 0);
    assert_eq!(rt; written.as_slice(), closed.as_slice());
    Ok(())
}

/// The canonical text of a message that stands for bytes which came at the first second of 1970.
fn wrapped(alloc: Global, reason: &str, base64: &str) -> Result<String, AllocError> {
    format!(in alloc;
        "Date: Thu, 01 Jan 1970 00:00:00 +0000\r\nSubject: Unreadable message\r\nMIME-Version: 1.0\r\nContent-Type: multipart/mixed; boundary=\"wrapped\"\r\n\r\n--wrapped\r\nContent-Type: text/plain; charset=us-ascii\r\n\r\nThe attached message could not be read: {reason}.\r\n--wrapped\r\nContent-Type: application/octet-stream\r\nContent-Transfer-Encoding: base64\r\nContent-Disposition: attachment; filename=original\r\n\r\n{base64}\r\n\r\n--wrapped--\r\n"
    )
}

// A usual mail, as it is sent: two parts, of which one is an attachment.
const USUAL_MAIL: &[u8] = b"From: \"Doe, Jane\" <jane@example.org>\n\
    To: Alice <alice@example.com>\n\
    Subject: =?utf-8?Q?Gr=C3=BC=C3=9Fe?=\n\
    Date: Tue, 1 Jul 2003 10:52:37 +0200\n\
    Message-ID: <m1@example.org>\n\
    MIME-Version: 1.0\n\
    Content-Type: multipart/mixed; boundary=\"b1\"\n\
    \n\
    This is a multi-part message in MIME format.\n\
    --b1\n\
    Content-Type: text/plain; charset=utf-8; format=flowed\n\
    Content-Transfer-Encoding: quoted-printable\n\
    \n\
    Gr=C3=BC=C3=9Fe\n\
    --b1\n\
    Content-Type: image/png; name=\"p.png\"\n\
    Content-Transfer-Encoding: base64\n\
    Content-Disposition: attachment; filename=\"p.png\"\n\
    \n\
    iVBORw0KGgo=\n\
    \n\
    --b1--\n";

// The same in canonical form: without a preamble, and with two digits for the day.
const USUAL_TEXT: &[u8] = b"From: \"Doe, Jane\" <jane@example.org>\r\n\
    To: Alice <alice@example.com>\r\n\
    Subject: =?utf-8?Q?Gr=C3=BC=C3=9Fe?=\r\n\
    Date: Tue, 01 Jul 2003 10:52:37 +0200\r\n\
    Message-ID: <m1@example.org>\r\n\
    MIME-Version: 1.0\r\n\
    Content-Type: multipart/mixed; boundary=\"b1\"\r\n\
    \r\n\
    --b1\r\n\
    Content-Type: text/plain; charset=utf-8; format=flowed\r\n\
    Content-Transfer-Encoding: quoted-printable\r\n\
    \r\n\
    Gr=C3=BC=C3=9Fe\r\n\
    --b1\r\n\
    Content-Type: image/png; name=\"p.png\"\r\n\
    Content-Transfer-Encoding: base64\r\n\
    Content-Disposition: attachment; filename=\"p.png\"\r\n\
    \r\n\
    iVBORw0KGgo=\r\n\
    \r\n\
    --b1--\r\n";

// Messages, and what `canon` writes of them: folded at 78 bytes a line, each line with its CRLF.
#[test]
fn messages_are_written_in_canonical_form(rt: HostRuntime) -> Result<(), Fail> {
    let cases: [(&[u8], &[u8]); 10] = [
        (USUAL_MAIL, USUAL_TEXT),
        (b"A:  b\n\nc\n", b"A: b\r\n\r\nc\r\n"),
        (b"", b"\r\n"),
        // A field that comes twice stays twice, a value that is empty stays so, and blanks at its ends go.
        (b"A: 1\nA:\t2 \nB:\n\n", b"A: 1\r\nA: 2\r\nB:\r\n\r\n"),
        // Without an empty line all is header, whose continuation is unfolded.
        (b"A: b\n c\n", b"A: b c\r\n\r\n"),
        (
            b"A: 3456789 123456789 123456789 123456789 123456789 123456789 123456789 1234567 x  y\n\n",
            b"A: 3456789 123456789 123456789 123456789 123456789 123456789 123456789 1234567\r\n x  y\r\n\r\n",
        ),
        (
            b"From: ann@x.org (Ann)\n\n",
            b"From: Ann <ann@x.org>\r\n\r\n",
        ),
        (
            b"To: Team: a@x.org , \"B, C\" <b@x.org>;\nCc: what?\nBcc: undisclosed-recipients:;\n",
            b"To: Team: a@x.org, \"B, C\" <b@x.org>;\r\nCc: what?\r\nBcc: undisclosed-recipients:;\r\n\r\n",
        ),
        (
            b"Date: 1 Jan 70 00:00 EST\nDate: 31 Feb 2003 10:00:00 +0000\nReferences: <a@x>  <b@x>\n",
            b"Date: Thu, 01 Jan 1970 00:00:00 -0500\r\nDate: 31 Feb 2003 10:00:00 +0000\r\nReferences: <a@x> <b@x>\r\n\r\n",
        ),
        (
            b"Content-Type: multipart/mixed; boundary=x\n\npre\n--x\n\nhi\n",
            b"Content-Type: multipart/mixed; boundary=x\r\n\r\n--x\r\n\r\nhi\r\n\r\n--x--\r\n",
        ),
    ];
    for (text, written) in cases {
        let (got, lines) = ran(rt.alloc(), "canon", text, &[], &[])?;
        assert_eq!(rt; got, 0);
        assert_eq!(rt; lines.as_slice(), written);
    }
    Ok(())
}

#[test]
fn unreadable_messages_are_wrapped(rt: HostRuntime) -> Result<(), Fail> {
    let alloc = rt.alloc();
    for (text, reason, base64) in [
        (b"A: b\r\n\r\n\0".as_slice(), "a zero byte", "QTogYg0KDQoA"),
        (b"A b\n", "a line that is no field", "QSBiCg=="),
        (b"A: b\rc\n\n", "a lone carriage return", "QTogYg1jCgo="),
    ] {
        let expected = wrapped(alloc, reason, base64)?;
        let (got, lines) = ran(alloc, "canon", text, &[], &[])?;
        assert_eq!(rt; got, 0);
        assert_eq!(rt; lines.as_slice(), expected.as_bytes());
        let (got, again) = ran(alloc, "canon", &lines, &[], &[])?;
        assert_eq!(rt; got, 0);
        assert_eq!(rt; again.as_slice(), expected.as_bytes());
    }
    Ok(())
}

#[test]
fn long_messages_are_refused(rt: HostRuntime) -> Result<(), Fail> {
    let alloc = rt.alloc();
    let (status, written) = ran(
        alloc,
        "canon",
        &vec![in alloc; b'\n'; 33_554_433]?,
        &[],
        &[],
    )?;
    assert_eq!(rt; status, 8);
    assert_eq!(rt;
        written.as_slice(),
        b"refused: message too long\n".as_slice()
    );
    Ok(())
}

fn disk(alloc: Global, bytes: &[u8], fails: &[u64]) -> Result<MemoryDisk, AllocError> {
    MemoryDisk::new(alloc, bytes.to_vec(alloc)?, fails.to_vec(alloc)?)
}

/// The files of a store whose first log has these bytes, and whose calls of these numbers fail.
pub(crate) fn files_of(
    alloc: Global,
    log: &[u8],
    fails: &[u64],
) -> Result<Files<MemoryDisk>, AllocError> {
    Ok(Files {
        log0: disk(alloc, log, fails)?,
        log1: no_disk(alloc)?,
        bodies: no_disk(alloc)?,
    })
}

/// Runs words, with a space between each two, on files, and answers the status, what was written, and the files.
fn on_files(
    alloc: Global,
    line: &str,
    files: Files<MemoryDisk>,
) -> Result<(u8, Vec<u8>, Files<MemoryDisk>), AllocError> {
    let mut words = Vec::new(alloc);
    for word in line.split(' ') {
        words.push(word.to_string(alloc)?)?;
    }
    let mut source = MemorySource::new(alloc, Vec::new(alloc), Vec::new(alloc))?;
    let mut sink = MemorySink::new(alloc, Vec::new(alloc))?;
    let mut ports = ScriptPorts::new(alloc, Vec::new(alloc), Vec::new(alloc))?;
    let (status, files) = run(
        alloc,
        &words,
        &mut source,
        &mut sink,
        files,
        &mut ports,
        &mut FixedClock::new(0),
    );
    Ok((status, sink.written().to_vec(alloc)?, files))
}

/// What a disk has after its last change.
fn last_image(alloc: Global, disk: &MemoryDisk) -> Result<Vec<u8>, AllocError> {
    let mut last = Vec::new(alloc);
    for moment in 0..64 {
        let Some(image) = disk.image(moment, b"")? else {
            break;
        };
        last = image;
    }
    Ok(last)
}

pub(crate) const EMPTY_STORE: &[u8] = b"\x01MAILROW\0\0\0\0\0\0\0\0\x01\0";

#[test]
fn a_store_is_made_once_and_listed(rt: HostRuntime) -> Result<(), Fail> {
    let alloc = rt.alloc();
    let (status, written, files) = on_files(alloc, "tables", files_of(alloc, b"", &[])?)?;
    assert_eq!(rt; status, 7);
    assert_eq!(rt; written.as_slice(), b"".as_slice());
    let (status, written, files) = on_files(alloc, "init", files)?;
    assert_eq!(rt; status, 0);
    assert_eq!(rt; written.as_slice(), b"".as_slice());
    assert_eq!(rt; last_image(alloc, &files.log0)?.as_slice(), EMPTY_STORE);
    assert_eq!(rt; last_image(alloc, &files.log1)?.as_slice(), b"".as_slice());
    let (status, written, files) = on_files(alloc, "tables", files)?;
    assert_eq!(rt; status, 0);
    assert_eq!(rt; written.as_slice(), b"counters 1\n".as_slice());
    let (status, written, _files) = on_files(alloc, "init", files)?;
    assert_eq!(rt; status, 8);
    assert_eq!(rt; written.as_slice(), b"refused: store exists\n".as_slice());
    Ok(())
}

#[test]
fn scripts_want_a_store(rt: HostRuntime) -> Result<(), Fail> {
    let alloc = rt.alloc();
    let cases: [(&[u8], &[u64], u8); 3] = [
        (EMPTY_STORE, &[], 0),
        (b"", &[], 7),
        (EMPTY_STORE, &[1], 6),
    ];
    for (log, fails, status) in cases {
        let (got, written, _files) = on_files(alloc, "script", files_of(alloc, log, fails)?)?;
        assert_eq!(rt; got, status);
        assert!(rt; written.is_empty());
    }
    Ok(())
}

#[test]
fn users_are_added_and_refused(rt: HostRuntime) -> Result<(), Fail> {
    let alloc = rt.alloc();
    let mut files = files_of(alloc, b"", &[])?;
    for (line, status, lines) in [
        ("adduser Alice pw", 7, b"".as_slice()),
        ("init", 0, b""),
        ("adduser alice", 2, b""),
        ("adduser alice p w", 2, b""),
        ("adduser Alice \x7f", 8, b"refused: bad name\n"),
        ("adduser alice \x7f", 8, b"refused: bad password\n"),
        ("adduser alice pw", 0, b""),
        ("adduser alice other", 8, b"refused: user exists\n"),
        ("adduser bob pw", 0, b""),
        (
            "tables",
            0,
            b"users 1 \"alice\" f1159c8ad57ebebdc2d7057686977a8d0b3c98ee4f7503827bb0d809fe258ad3\nusers 2 \"bob\" 91e3d51d23ba15185dc7a7464f764c8d73c9b3e6be9cb9553c053f42e2aa4905\nmailboxes 1 1 \"INBOX\" 1 1 1\nmailboxes 2 2 \"INBOX\" 1 1 1\ncounters 3\n",
        ),
    ] {
        let (got, written, after) = on_files(alloc, line, files)?;
        assert_eq!(rt; got, status, "to {line}");
        assert_eq!(rt; written.as_slice(), lines, "to {line}");
        files = after;
    }
    Ok(())
}

#[test]
fn damaged_files_are_no_store(rt: HostRuntime) -> Result<(), Fail> {
    let alloc = rt.alloc();
    let name = b"\x06\0\0\0\0\0\0\0\0\x01\0\0\0\x01x";
    let mut with_name = EMPTY_STORE[..17].to_vec(alloc)?;
    with_name.extend_from_slice(b"\x01\0\0\0\0\0\0\0\x0f")?;
    with_name.extend_from_slice(name)?;
    with_name.push(0)?;
    for (log, status, lines) in [
        (EMPTY_STORE, 0, b"counters 1\n".as_slice()),
        (&EMPTY_STORE[..17], 7, b""),
        (b"\x01MAILROW\x01\0\0\0\0\0\0\0\x01\0", 7, b""),
        (b"\0MAILROW\0\0\0\0\0\0\0\0\x01\0", 7, b""),
        (&with_name, 0, b"flag_names 1 \"x\"\ncounters 1\n"),
        (&with_name[..with_name.len() - 1], 7, b""),
    ] {
        let (got, written, _files) = on_files(alloc, "tables", files_of(alloc, log, &[])?)?;
        assert_eq!(rt; got, status);
        assert_eq!(rt; written.as_slice(), lines);
    }
    Ok(())
}

#[test]
fn disk_faults_end_the_run(rt: HostRuntime) -> Result<(), Fail> {
    let alloc = rt.alloc();
    for (word, log) in [("init", b"".as_slice()), ("tables", EMPTY_STORE)] {
        let mut is_reached = true;
        for call in 1..=12 {
            let (status, _written, _files) = on_files(alloc, word, files_of(alloc, log, &[call])?)?;
            if status == 6 {
                assert!(rt; is_reached);
            } else {
                assert_eq!(rt; status, 0);
                assert!(rt; call > 2);
                is_reached = false;
            }
        }
    }
    Ok(())
}

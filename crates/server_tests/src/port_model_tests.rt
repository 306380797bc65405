//! Scripts, sources, sinks and clocks in memory, tried from outside.

ghost use Rattle.std.specs.Prelude.{◌<◌, All, IfOk, OnOk, length};
ghost use Rattle.port_model.specs.Player.{HasBytes};

use octets::Octets;
use port_model::{
    Clock, Event, FixedClock, Kind, MemorySink, MemorySource, PortRead, PortSend, Ports,
    ScriptFault, ScriptPorts, Sink, SinkFault, Source, SourceFault, parse_script, print_session,
};
use std::alloc::Global;
use std::test::Fail;

#[test]
fn stands_still(rt: HostRuntime) {
    let mut clock = FixedClock::new(253402300799);
    for _ in 0..3 {
        assert_eq!(rt; clock.now(), 253402300799);
    }
}

#[test]
fn chosen_calls_fail(rt: HostRuntime) -> Result<(), Fail> {
    let alloc = rt.alloc();
    let bytes = b"abcde".to_vec(alloc)?;
    let mut source = MemorySource::new(alloc, bytes, vec![in alloc; 2, 5]?)?;
    let mut buf = [b'-'; 3];
    for (answer, now) in [
        (Ok(3), b"abc"),
        (Err(SourceFault), b"abc"),
        (Ok(2), b"dec"),
        (Ok(0), b"dec"),
        (Err(SourceFault), b"dec"),
        (Ok(0), b"dec"),
    ] {
        assert_eq!(rt; source.read(&mut buf), answer);
        assert_eq!(rt; buf, *now);
    }

    let mut sink = MemorySink::new(alloc, vec![in alloc; 2]?)?;
    for (bytes, answer) in [
        (b"one".as_slice(), Ok(3)),
        (b"two".as_slice(), Err(SinkFault)),
        (b"".as_slice(), Ok(0)),
        (b"four".as_slice(), Ok(4)),
    ] {
        assert_eq!(rt; sink.write(bytes), answer);
    }
    assert_eq!(rt; sink.written(), b"onefour".as_slice());
    assert!(rt; !sink.starved());
    Ok(())
}

/// The first bad line of a script of two lines, or 0.
fn bad_line(rt: &HostRuntime, first: &[u8], second: &[u8]) -> Result<u64, Fail> {
    let mut text = first.to_vec(rt.alloc())?;
    text.extend_from_slice(b"\n")?;
    text.extend_from_slice(second)?;
    if text.len() > 100_000 {
        return Ok(100_000);
    }
    match parse_script(rt.alloc(), text.as_slice()) {
        Ok(_) => Ok(0),
        Err(ScriptFault::BadLine(n)) => Ok(n),
        Err(ScriptFault::NoMemory) => Ok(100_000),
    }
}

#[test]
fn lines_are_good_or_bad(rt: HostRuntime) -> Result<(), Fail> {
    let open = b"open imap".as_slice();
    let cases: [(&[u8], &[u8], u64); 38] = [
        (b"", b"", 0),
        (b"open lmtp", b"", 1),
        (b"open imap ", b"", 1),
        (b"open imap\r", b"", 1),
        (b" #", b"", 1),
        (b"# open", b"open imap", 0),
        (b"# open imap", b"send 1 0 x", 2),
        (b"send 1 0 x", b"", 1),
        (open, b"", 0),
        (open, b"\n", 0),
        (open, b"#\x00\xff", 0),
        (open, b" ", 2),
        (open, b"\n# x\n\nsend 2 0 x", 5),
        (open, b"send 1 0 x", 0),
        (open, b"send 1 0 x\n", 0),
        (open, b"send 1 0 x\n\n", 0),
        (open, b"send 1 0  ", 0),
        (open, b"send 1 253402300799 x", 0),
        (open, b"send 1 253402300800 x", 2),
        (open, b"send 1 100000000000000000000000000000 x", 2),
        (open, b"send 100000000000000000000000000001 0 x", 2),
        (open, b"send 4294967297 0 x", 2),
        (open, b"send 0 0 x", 2),
        (open, b"send 2 0 x", 2),
        (open, b"send 01 0 x", 2),
        (open, b"send 1 00 x", 2),
        (open, b"send +1 0 x", 2),
        (open, b"send 1 0 ", 2),
        (open, b"send 1 0", 2),
        (open, b"send  1 0 x", 2),
        (open, b"send 1  0 x", 2),
        (open, b"SEND 1 0 x", 2),
        (open, b"send 1 0 \\x4", 2),
        (open, b"send 1 0 \\xg0", 2),
        (open, b"send 1 0 \\q", 2),
        (open, b"send 1 0 \\", 2),
        (open, b"send 1 0 \x7f", 2),
        (open, b"send 1 0 x\r", 2),
    ];
    for (first, second, line) in cases {
        assert_eq!(rt; bad_line(&rt, first, second)?, line);
    }
    Ok(())
}

#[test]
fn sessions_are_open_until_they_end_or_are_lost(rt: HostRuntime) -> Result<(), Fail> {
    let cases: [(&[u8], u64); 21] = [
        (b"end 1", 0),
        (b"lose 1", 0),
        (b"send 1 0 x\nsend 1 0 x\nsend 2 0 x\nend 1", 4),
        (b"open imap\nsend 2 0 x\nend 1\nsend 2 0 x\nlose 2", 0),
        (b"end 1\nsend 1 0 x", 3),
        (b"end 1\nend 1", 3),
        (b"end 1\nlose 1", 3),
        (b"lose 1\nsend 1 0 x", 3),
        (b"lose 1\nend 1", 3),
        (b"lose 1\nlose 1", 3),
        (b"end 1\nopen imap\nend 1", 4),
        (b"end 2", 2),
        (b"end 0", 2),
        (b"lose 0", 2),
        (b"end 01", 2),
        (b"end ", 2),
        (b"end 1 ", 2),
        (b"end 4294967297", 2),
        (b"lose", 2),
        (b"lose  1", 2),
        (b"lose 2\nopen imap", 2),
    ];
    for (later, line) in cases {
        assert_eq!(rt; bad_line(&rt, b"open imap", later)?, line);
    }
    Ok(())
}

#[test]
fn texts_stand_for_bytes(rt: HostRuntime) -> Result<(), Fail> {
    let text = b"# first\nopen imap\nsend 1 7 a NOOP\\r\\n\n\nsend 1 9 \\\\~\\x00\\xfF\\x5c\nend 1";
    let events = parse_script(rt.alloc(), text.as_slice())
        .ok()
        .unwrap_or(Vec::new(rt.alloc()));
    assert_eq!(rt; events.len(), 4);
    assert!(rt; matches!(&events[0], Event::Opens(Kind::Imap)));
    assert!(rt; is_piece(&events[1], 7, b"a NOOP\r\n"));
    assert!(rt; is_piece(&events[2], 9, b"\\~\x00\xff\\"));
    assert!(rt; matches!(&events[3], Event::Ends(1)));
    Ok(())
}

/// Whether the event is a piece of session 1 with these bytes at this moment.
fn is_piece(event: &Event, when: u64, expected: &[u8]) -> bool {
    match event {
        Event::Piece {
            number,
            bytes,
            moment,
        } => *number == 1 && *moment == when && bytes.as_slice() == expected,
        _ => false,
    }
}

#[test]
fn pieces_have_at_most_65536_bytes(rt: HostRuntime) -> Result<(), Fail> {
    let mut piece = b"send 1 0 ".to_vec(rt.alloc())?;
    for _ in 0..65_536 {
        piece.push(b'x')?;
    }
    assert_eq!(rt; bad_line(&rt, b"open imap", piece.as_slice())?, 0);
    piece.push(b'x')?;
    assert_eq!(rt; bad_line(&rt, b"open imap", piece.as_slice())?, 2);
    Ok(())
}

fn add(events: &mut Vec<Event>, event: Event) -> Result<(), Fail>
    requires all { All HasBytes events.old.items }
    requires bytes { HasBytes event }
    ensures { OnOk result (All HasBytes events.new.items) }
{
    events.push(event)?;
    Ok(())
}

fn add_piece(
    alloc: Global,
    events: &mut Vec<Event>,
    number: u32,
    bytes: &[u8],
    moment: u64,
) -> Result<(), Fail>
    requires all { All HasBytes events.old.items }
    requires bytes { 0 < length bytes.now }
    ensures { OnOk result (All HasBytes events.new.items) }
{
    let bytes = Octets::new(bytes.to_vec(alloc)?);
    add(
        events,
        Event::Piece {
            number,
            bytes,
            moment,
        },
    )
}

// Two sessions. The first is closed before its last piece.
fn two_sessions(alloc: Global) -> Result<Vec<Event>, Fail>
    ensures { IfOk result (λ events. All HasBytes events.items) }
{
    let mut events = Vec::new(alloc);
    add(&mut events, Event::Opens(Kind::Imap))?;
    add_piece(alloc, &mut events, 1, b"abc", 5)?;
    add(&mut events, Event::Opens(Kind::Lmtp))?;
    add_piece(alloc, &mut events, 1, b"unread", 6)?;
    add_piece(alloc, &mut events, 2, b"x", 9)?;
    add(&mut events, Event::Ends(1))?;
    add(&mut events, Event::Ends(2))?;
    add(&mut events, Event::Loses(2))?;
    Ok(events)
}

// A call with the answer that it is to have.
#[derive(Clone, Copy)]
enum Step {
    Accept(u32, Option<Kind>),
    // Into a buffer of two bytes; then the bytes in it, and the clock's reading after that.
    Read(u32, PortRead, [u8; 2], u64),
    Send(u32, PortSend),
    Close(u32),
}

// Two sessions. A buffer that is too short leaves the rest of a piece as the next event, and the events of the
// closed session are skipped.
const STEPS: [Step; 19] = [
    Step::Read(1, PortRead::Quiet, [0, 0], 0),
    Step::Accept(1, Some(Kind::Imap)),
    Step::Accept(2, None),
    Step::Read(2, PortRead::Quiet, [0, 0], 0),
    Step::Read(1, PortRead::Bytes(2), [b'a', b'b'], 5),
    Step::Read(1, PortRead::Bytes(1), [b'c', 0], 5),
    Step::Read(1, PortRead::Quiet, [0, 0], 5),
    Step::Accept(2, Some(Kind::Lmtp)),
    Step::Send(1, PortSend::Took(0)),
    Step::Send(1, PortSend::Took(1)),
    Step::Send(1, PortSend::Took(7)),
    Step::Send(1, PortSend::Took(8)),
    Step::Send(9, PortSend::Took(8)),
    Step::Close(1),
    Step::Read(1, PortRead::Quiet, [0, 0], 5),
    Step::Read(2, PortRead::Bytes(1), [b'x', 0], 9),
    Step::Read(2, PortRead::Ended, [0, 0], 9),
    Step::Send(2, PortSend::Lost),
    Step::Read(2, PortRead::Quiet, [0, 0], 9),
];

fn is_answered(ports: &mut ScriptPorts, step: Step) -> bool {
    match step {
        Step::Accept(number, kind) => ports.accept(number) == Ok(kind),
        Step::Read(number, answer, bytes, now) => {
            let mut buf = [0; 2];
            ports.read(number, &mut buf) == answer && buf == bytes && ports.now() == now
        }
        Step::Send(number, answer) => ports.send(number, b"12345678") == answer,
        Step::Close(number) => {
            ports.close(number);
            true
        }
    }
}

#[test]
fn plays_two_sessions(rt: HostRuntime) -> Result<(), Fail> {
    let alloc = rt.alloc();
    let sends = vec![in alloc; 0, 1, 7]?;
    let mut ports = ScriptPorts::new(alloc, two_sessions(alloc)?, sends)?;
    for (i, step) in STEPS.iter().enumerate() {
        assert_eq!(rt; ports.done(), i == STEPS.len() - 1, "before step {i}");
        assert!(rt; is_answered(&mut ports, *step), "at step {i}");
    }
    assert!(rt; !ports.starved());
    assert_eq!(rt; ports.sent(1), b"1123456712345678".as_slice());
    assert_eq!(rt; ports.sent(2), b"".as_slice());
    assert_eq!(rt; ports.sent(9), b"12345678".as_slice());
    Ok(())
}

#[test]
fn lines_tell_the_session(rt: HostRuntime) -> Result<(), Fail> {
    let mut out = Vec::new(rt.alloc());
    print_session(
        &mut out,
        1,
        b"* OK IMAP4rev1 ready\r\na OK NOOP completed\r\n",
    )?;
    print_session(&mut out, 2, b"")?;
    print_session(&mut out, 4294967295, b"\n~\\ \t\xfe\x7f\n\x00")?;
    let expected = b"1: * OK IMAP4rev1 ready\\r\\n\n1: a OK NOOP completed\\r\\n\n\
        4294967295: \\n\n4294967295: ~\\\\ \\x09\\xfe\\x7f\\n\n4294967295: \\x00\n";
    assert_eq!(rt; out.as_slice(), expected.as_slice());
    Ok(())
}

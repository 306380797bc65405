//! Sessions of LMTP as they are played: bytes in, bytes out.
ghost use Rattle.std.specs.Prelude.{◌≤◌, length, IfOk};

use lmtp_core::{Delivered, LineLexer, LmtpSession, Next, TextLexer, asked};
use octets::Octets;
use std::alloc::{AllocError, Global};
use std::test::Fail;

#[derive(Drop)]
struct Peer {
    lines: LineLexer,
    text: TextLexer,
    session: LmtpSession,
    next: Next,
    out: Vec<u8>,
}

fn make_peer(alloc: Global) -> Result<Peer, AllocError> {
    let lines = LineLexer::new(alloc)?;
    let session = LmtpSession::new(alloc)?;
    Ok(Peer {
        lines,
        text: TextLexer::new(alloc),
        session,
        next: Next::Line,
        out: Vec::new(alloc),
    })
}

// The only user is alice.
fn known(name: Option<Octets>) -> Option<u32> {
    match name {
        Some(octets) if octets.as_slice() == b"alice".as_slice() => Some(1),
        _ => None,
    }
}

fn take_line(peer: &mut Peer, alloc: Global, rest: &[u8]) -> Result<usize, AllocError>
    ensures { IfOk result (λ n. n ≤ length rest.now) }
{
    peer.lines.clear();
    let taken = peer.lines.feed(rest);
    let user = known(asked(alloc, peer.lines.line())?);
    peer.next = peer.session.line(peer.lines.line(), user, &mut peer.out)?;
    Ok(taken)
}

// Takes a byte of the text. Where it is whole, its content is printed before the answer.
fn take_text(peer: &mut Peer, byte: &[u8]) -> Result<usize, AllocError>
    ensures { IfOk result (λ n. n ≤ length byte.now) }
{
    let taken = peer.text.feed(byte)?;
    if peer.text.is_whole() {
        deliver(peer)?;
    }
    Ok(taken)
}

fn deliver(peer: &mut Peer) -> Result<(), AllocError> {
    match peer.text.content() {
        Some(content) => peer.out.extend_from_slice(content)?,
        None => {}
    }
    match peer.session.users() {
        [1] => peer
            .session
            .stored(&[Delivered::MailboxFull], &mut peer.out)?,
        [1, 1] => peer
            .session
            .stored(&[Delivered::Stored, Delivered::TooLong], &mut peer.out)?,
        _ => {}
    }
    peer.text.clear();
    peer.next = Next::Line;
    Ok(())
}

fn play(peer: &mut Peer, alloc: Global, input: &[u8]) -> Result<(), AllocError> {
    let mut rest = input;
    'steps: for _ in 0..input.len() {
        if rest.is_empty() {
            return Ok(());
        }
        let taken = match peer.next {
            Next::Line => take_line(peer, alloc, rest)?,
            Next::Text => take_text(peer, &rest[..1])?,
            Next::Close => return Ok(()),
        };
        rest = &rest[taken..];
    }
    Ok(())
}

fn is_answered(rt: &HostRuntime, input: &[u8], want: &[u8]) -> Result<bool, Fail> {
    let mut peer = make_peer(rt.alloc())?;
    play(&mut peer, rt.alloc(), input)?;
    Ok(peer.out.as_slice() == want)
}

#[test]
fn sessions_are_answered(rt: HostRuntime) -> Result<(), Fail> {
    for (input, want) in [
        (
            b"LHLO h\r\nMAIL FROM:<>\r\nRCPT TO:<alice@a>\r\nRCPT TO:<nobody@a>\r\nRCPT TO:<Alice@b>\r\nDATA\r\nA: b\r\n\r\n..\r\n.\r\nquit\r\nNOOP\r\n".as_slice(),
            b"250-mailstored\r\n250-PIPELINING\r\n250-ENHANCEDSTATUSCODES\r\n250 8BITMIME\r\n250 2.1.0 ok\r\n250 2.1.5 ok\r\n550 5.1.1 no such user\r\n250 2.1.5 ok\r\n354 go ahead\r\nA: b\r\n\r\n.\r\n250 2.0.0 stored\r\n552 5.3.4 message too long\r\n221 2.0.0 bye\r\n".as_slice(),
        ),
        (
            b"MAIL FROM:<>\r\nlhlo h\r\nmail from:<a>\r\nDATA\r\nrcpt to:<ALICE>\r\nMAIL FROM:<>\r\nDATA\r\n.\r\nRCPT TO:<alice>\r\nRSET\r\nVRFY a\r\nNOOP x\r\nHELO\r\n",
            b"503 5.5.1 bad sequence\r\n250-mailstored\r\n250-PIPELINING\r\n250-ENHANCEDSTATUSCODES\r\n250 8BITMIME\r\n250 2.1.0 ok\r\n503 5.5.1 bad sequence\r\n250 2.1.5 ok\r\n503 5.5.1 bad sequence\r\n354 go ahead\r\n452 4.2.2 mailbox full\r\n503 5.5.1 bad sequence\r\n250 2.0.0 ok\r\n252 2.0.0 cannot verify\r\n501 5.5.4 syntax\r\n500 5.5.2 unknown command\r\n",
        ),
    ] {
        assert!(rt; is_answered(&rt, input, want)?);
    }
    Ok(())
}

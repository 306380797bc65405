//! The server on links over TCP.

use crate::mail_server_tests::{EMPTY_STORE, files_of};
use mail_server::run;
use port_model::{FixedClock, MemorySink, MemorySource};
use std::alloc::{AllocError, Global};
use std::io::{self, ErrorKind, Read, Write};
use std::net::{Ipv4Addr, SocketAddr, TcpStream};
use std::test::Fail;
use system_adapters::TcpPorts;

/// How often a client reads, at most.
const MOST_READS: u32 = 100_000;

/// Runs words over an empty store and ports that are bound, and answers the status.
fn serve(alloc: Global, words: &str, ports: &mut TcpPorts<HostRuntime>) -> Result<u8, AllocError> {
    let mut all = Vec::new(alloc);
    for word in words.split_whitespace() {
        all.push(word.to_string(alloc)?)?;
    }
    let mut source = MemorySource::new(alloc, Vec::new(alloc), Vec::new(alloc))?;
    let mut sink = MemorySink::new(alloc, Vec::new(alloc))?;
    let files = files_of(alloc, EMPTY_STORE, &[])?;
    let mut clock = FixedClock::new(0);
    let (status, _files) = run(
        alloc,
        &all,
        &mut source,
        &mut sink,
        files,
        ports,
        &mut clock,
    );
    Ok(status)
}

/// What a client is sent until its link is closed.
fn read_all(mut client: TcpStream, text: &mut Vec<u8>) -> io::Result<()> {
    client.set_nonblocking(true)?;
    let mut buf = [0u8; 256];
    for _ in 0..MOST_READS {
        match client.read(&mut buf) {
            Ok(0) => return Ok(()),
            Ok(n) => text.extend_from_slice(&buf[..n])?,
            Err(error) if error.kind() == ErrorKind::WouldBlock => {}
            Err(error) => return Err(error),
        }
    }
    Err(io::Error::from(ErrorKind::TimedOut))
}

#[test]
fn links_over_tcp_are_served(rt: HostRuntime) -> Result<(), Fail> {
    let Ok(mut ports) = TcpPorts::bind(&rt, 0, 0) else {
        return Err(Fail::new("no port is free"));
    };
    let (imap, lmtp) = ports.numbers()?;
    let mut mail = TcpStream::connect(&rt, SocketAddr::from((Ipv4Addr::LOCALHOST, imap)))?;
    let transfer = TcpStream::connect(&rt, SocketAddr::from((Ipv4Addr::LOCALHOST, lmtp)))?;
    mail.write_all(b"a NOOP\r\nb LOGOUT\r\n")?;
    assert_eq!(rt; serve(rt.alloc(), "serve 100 1 1", &mut ports)?, 0);
    let mut text = Vec::new(rt.alloc());
    read_all(mail, &mut text)?;
    read_all(transfer, &mut text)?;
    assert_eq!(rt;
        text.as_slice(),
        b"* OK IMAP4rev1 ready\r\na OK NOOP completed\r\n* BYE logging out\r\nb OK LOGOUT completed\r\n421 4.3.2 LMTP is not served\r\n".as_slice()
    );
    Ok(())
}

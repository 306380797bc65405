//! Links over TCP, on the ports of this machine alone (127.0.0.1).

ghost use Rattle.std.specs.Prelude.{◌≡◌, ◌<◌, ◌≤◌, ◌≢◌, None, IfSome, length};
ghost use Rattle.fault_counts.specs.Rose.{Rose};
ghost use Rattle.port_model.specs.Ports.{ReadsWithin, TakesWithin};
ghost use Rattle.port_model.specs.declared.calls.PortRead.TheVariants.{Lost as ReadLost};
ghost use Rattle.port_model.specs.declared.calls.PortSend.TheVariants.{Lost as SendLost};

use crate::clock::SystemClock;
use fault_counts::raised;
use mio::net::{TcpListener, TcpStream};
use mio::{Events, Interest, Poll, Token};
use port_model::{Clock as _, Kind, ListenFault, PortRead, PortSend, Ports};
use std::alloc::{AllocGlobal, Global};
use std::io::{self, ErrorKind, Read, Write};
use std::net::{Ipv4Addr, Net, Shutdown, SocketAddr};
use std::time::{Clock, Duration};

/// How many links are open at once. A server serves fewer, and has room to tell others that they are too many.
const MOST_LINKS: usize = 128;

/// How many events one look at the sockets gives.
const MOST_EVENTS: usize = 256;

/// The events of the listener for IMAP; those of a link have its number.
const IMAP_TOKEN: Token = Token(usize::MAX);

/// The events of the listener for LMTP.
const LMTP_TOKEN: Token = Token(usize::MAX - 1);

/// The longest rest, in milliseconds, and in how many idle rounds a rest grows by one millisecond.
const LONGEST_REST: u64 = 50;

const ROUNDS_BY_REST: u64 = 8;

/// How many bytes a link that is let go is read at a time, and how often.
const LAST_ROOM: usize = 4096;

const LAST_READS: u32 = 16;

/// A port that can't be listened on.
#[derive(Drop)]
pub struct Unbound {
    /// The port's number.
    pub port: u16,
    /// The system's error.
    pub error: io::Error,
}

/// A listener, and whether a link may wait there: no accept found that none does since the last event.
#[derive(Drop)]
struct Door {
    listener: TcpListener,
    kind: Kind,
    is_ready: bool,
}

/// A link, and whether it may be read and written: no call found that it would wait since the last event.
#[derive(Drop)]
struct TcpLink {
    number: u32,
    stream: TcpStream,
    is_readable: bool,
    is_writable: bool,
}

/// Links over TCP: those that come by one port speak IMAP, those by another LMTP. They don't tell what came and went.
///
/// A call asks the system only about sockets of which an event came since the system last had nothing for them. The events are
/// looked for once a round, at its `accept`. After a round in which nothing moved that look waits for the next event: for a
/// millisecond, and longer the longer nothing moved, up to 50 of them, after which what is not told by events is tried again.
#[derive(Drop)]
pub struct TcpPorts<'a, T> {
    clock: SystemClock<'a, T>,
    poll: Poll,
    events: Events,
    imap: Door,
    lmtp: Door,
    /// Whether IMAP was asked first for the latest link.
    imap_first: bool,
    /// The links, in the order of their numbers.
    links: Vec<TcpLink>,
    /// How many rounds have passed in which nothing moved.
    idle: u64,
    /// The number of the link that was read last in this round.
    asked: u32,
    /// How often a link failed.
    lost: u64,
}

/// Listens on a port of this machine.
fn open_door<R: Net>(
    rt: &R,
    poll: &Poll,
    port: u16,
    kind: Kind,
    token: Token,
) -> Result<Door, Unbound> {
    let mut listener = match TcpListener::bind(rt, SocketAddr::from((Ipv4Addr::LOCALHOST, port))) {
        Ok(listener) => listener,
        Err(error) => return Err(Unbound { port, error }),
    };
    match poll
        .registry()
        .register(&mut listener, token, Interest::READABLE)
    {
        Ok(()) => Ok(Door {
            listener,
            kind,
            is_ready: true,
        }),
        Err(error) => Err(Unbound { port, error }),
    }
}

impl Door {
    /// The next link, if one came. A link that can't be taken now is asked for again.
    fn next(&mut self) -> Option<TcpStream> {
        if !self.is_ready {
            return None;
        }
        match self.listener.accept() {
            Ok((stream, _address)) => Some(stream),
            Err(error) => {
                if error.kind() == ErrorKind::WouldBlock {
                    self.is_ready = false;
                }
                None
            }
        }
    }
}

impl TcpLink {
    /// Reads what came.
    fn read(&mut self, buf: &mut [u8]) -> PortRead
        requires { 0 < length buf.old }
        ensures { ReadsWithin (length buf.old) result }
    {
        if !self.is_readable {
            return PortRead::Quiet;
        }
        match self.stream.read(buf) {
            Ok(0) => PortRead::Ended,
            Ok(n) => PortRead::Bytes(n),
            Err(error) => match error.kind() {
                ErrorKind::WouldBlock => {
                    self.is_readable = false;
                    PortRead::Quiet
                }
                ErrorKind::Interrupted => PortRead::Quiet,
                _ => PortRead::Lost,
            },
        }
    }

    /// Writes as much as the system takes.
    fn send(&mut self, bytes: &[u8]) -> PortSend
        ensures { TakesWithin (length bytes.now) result }
    {
        if !self.is_writable {
            return PortSend::Took(0);
        }
        match self.stream.write(bytes) {
            Ok(n) => PortSend::Took(n),
            Err(error) => match error.kind() {
                ErrorKind::WouldBlock => {
                    self.is_writable = false;
                    PortSend::Took(0)
                }
                ErrorKind::Interrupted => PortSend::Took(0),
                _ => PortSend::Lost,
            },
        }
    }

    /// Closes the link. What its peer sent meanwhile is read first, so that the system sends the last answers and doesn't
    /// break the link off with them (RFC 1122 §4.2.2.13).
    fn let_go(self) {
        let TcpLink { mut stream, .. } = self;
        let _ = stream.shutdown(Shutdown::Write);
        let mut rest = [0u8; LAST_ROOM];
        for _ in 0..LAST_READS {
            match stream.read(&mut rest) {
                Ok(n) if n > 0 => {}
                _ => break,
            }
        }
    }
}

/// The next link of two listeners, with what it speaks.
fn next_of(first: &mut Door, second: &mut Door) -> Option<(TcpStream, Kind)> {
    if let Some(stream) = first.next() {
        return Some((stream, first.kind));
    }
    let stream = second.next()?;
    Some((stream, second.kind))
}

/// Where the link of a number stands, if it is open.
fn place_of(links: &[TcpLink], number: u32) -> Option<usize>
    ensures { IfSome result (λ place. place < length links.now) }
{
    links.binary_search_by_key(&number, |link| link.number).ok()
}

/// Notes which sockets may be asked again.
fn note_events(events: &Events, imap: &mut Door, lmtp: &mut Door, links: &mut [TcpLink]) {
    for event in events {
        let token = event.token();
        if token == IMAP_TOKEN {
            imap.is_ready = true;
        } else if token == LMTP_TOKEN {
            lmtp.is_ready = true;
        } else if let Ok(number) = u32::try_from(token.0)
            && let Some(place) = place_of(links, number)
        {
            let link = &mut links[place];
            let is_broken = event.is_error();
            link.is_readable |= event.is_readable() || event.is_read_closed() || is_broken;
            link.is_writable |= event.is_writable() || event.is_write_closed() || is_broken;
        }
    }
}

/// How long a rest lasts at most after so many rounds in which nothing moved.
fn rest_of(idle: u64) -> Duration {
    if idle == 0 {
        return Duration::ZERO;
    }
    Duration::from_millis((1 + idle / ROUNDS_BY_REST).min(LONGEST_REST))
}

impl<'a, T> TcpPorts<'a, T> {
    /// Listens for links that speak IMAP on one port of this machine, and for links that speak LMTP on another. With 0 for a
    /// port the system chooses one that is free.
    pub fn bind(system: &'a T, imap: u16, lmtp: u16) -> Result<TcpPorts<'a, T>, Unbound>
    where
        T: Net + AllocGlobal,
    {
        let poll = match Poll::new(system) {
            Ok(poll) => poll,
            Err(error) => return Err(Unbound { port: imap, error }),
        };
        let imap_door = open_door(system, &poll, imap, Kind::Imap, IMAP_TOKEN)?;
        let lmtp_door = open_door(system, &poll, lmtp, Kind::Lmtp, LMTP_TOKEN)?;
        match new_room(system.alloc()) {
            Ok((events, links)) => Ok(TcpPorts {
                clock: SystemClock::new(system),
                poll,
                events,
                imap: imap_door,
                lmtp: lmtp_door,
                imap_first: false,
                links,
                idle: 0,
                asked: 0,
                lost: 0,
            }),
            Err(error) => Err(Unbound { port: imap, error }),
        }
    }

    /// The numbers of the two ports, of which the first speaks IMAP.
    pub fn numbers(&self) -> io::Result<(u16, u16)> {
        let imap = self.imap.listener.local_addr()?;
        let lmtp = self.lmtp.listener.local_addr()?;
        Ok((imap.port(), lmtp.port()))
    }

    /// Begins a round: looks for events, and rests where nothing moved in the last one.
    fn begin_round(&mut self)
        ensures { self.new.lost ≡ self.old.lost }
    {
        if self
            .poll
            .poll(&mut self.events, Some(rest_of(self.idle)))
            .is_ok()
        {
            note_events(
                &self.events,
                &mut self.imap,
                &mut self.lmtp,
                &mut self.links,
            );
        }
        self.idle = self.idle.saturating_add(1);
        self.asked = 0;
    }

    /// The next link that came by one of the listeners, which take turns.
    fn next_link(&mut self) -> Option<(TcpStream, Kind)>
        ensures { self.new.lost ≡ self.old.lost }
    {
        self.imap_first = !self.imap_first;
        if self.imap_first {
            next_of(&mut self.imap, &mut self.lmtp)
        } else {
            next_of(&mut self.lmtp, &mut self.imap)
        }
    }

    /// Has a link under a number. One that the system can't tell events of is let go.
    fn have_link(&mut self, number: u32, mut stream: TcpStream) -> bool
        ensures { self.new.lost ≡ self.old.lost }
    {
        let _ = stream.set_nodelay(true);
        let registered = self.poll.registry().register(
            &mut stream,
            Token(number as usize),
            Interest::READABLE | Interest::WRITABLE,
        );
        let link = TcpLink {
            number,
            stream,
            is_readable: true,
            is_writable: true,
        };
        registered.is_ok() && self.links.push(link).is_ok()
    }
}

/// Takes the memory for events and links.
fn new_room(alloc: Global) -> io::Result<(Events, Vec<TcpLink>)> {
    let events = Events::with_capacity(alloc, MOST_EVENTS)?;
    let links = Vec::with_capacity(alloc, MOST_LINKS)?;
    Ok((events, links))
}

impl<T: Clock> Ports for TcpPorts<'_, T> {
    ghost history = { λ _ _. Unit {0} };

    ghost listen_faults = { λ _. 0 };

    ghost link_faults = { λ ports _. ports.lost };

    ghost plan = { λ _. None };

    fn accept(&mut self, number: u32) -> Result<Option<Kind>, ListenFault> {
        self.begin_round();
        if self.links.len() >= MOST_LINKS {
            return Ok(None);
        }
        match self.next_link() {
            Some((stream, kind)) => {
                self.idle = 0;
                Ok(self.have_link(number, stream).then_some(kind))
            }
            None => Ok(None),
        }
    }

    fn read(&mut self, number: u32, buf: &mut [u8]) -> PortRead {
        // (a new round, where no more links are asked for)
        if number <= self.asked {
            self.begin_round();
        }
        self.asked = number;
        let answer = match place_of(&self.links, number) {
            Some(place) => self.links[place].read(buf),
            None => PortRead::Lost,
        };
        match answer {
            PortRead::Quiet => return answer,
            PortRead::Lost => self.lost = raised(self.lost),
            PortRead::Bytes(_) | PortRead::Ended => {}
        }
        self.idle = 0;
        answer
    }

    fn now(&mut self) -> u64 {
        self.clock.now()
    }

    fn send(&mut self, number: u32, bytes: &[u8]) -> PortSend {
        let answer = match place_of(&self.links, number) {
            Some(place) => self.links[place].send(bytes),
            None => PortSend::Lost,
        };
        match answer {
            PortSend::Took(0) => return answer,
            PortSend::Lost => self.lost = raised(self.lost),
            PortSend::Took(_) => {}
        }
        self.idle = 0;
        answer
    }

    fn close(&mut self, number: u32) {
        if let Some(place) = place_of(&self.links, number) {
            self.links.remove(place).let_go();
            self.idle = 0;
        }
    }
}

#[cfg(test)]
mod tests {
    use super::*;
    use std::net;
    use std::test::Fail;

    /// Takes the next link under a number, in so many rounds.
    fn take_link(ports: &mut TcpPorts<HostRuntime>, number: u32, rounds: u32) -> Option<Kind> {
        for _ in 0..rounds {
            if let Ok(Some(kind)) = ports.accept(number) {
                return Some(kind);
            }
        }
        None
    }

    /// Reads what comes by a link, in so many rounds.
    fn read_link(
        ports: &mut TcpPorts<HostRuntime>,
        number: u32,
        buf: &mut [u8],
        rounds: u32,
    ) -> PortRead
        requires { 0 < length buf.old }
    {
        for _ in 0..rounds {
            let _ = ports.accept(u32::MAX);
            match ports.read(number, buf) {
                PortRead::Quiet => {}
                answer => return answer,
            }
        }
        PortRead::Quiet
    }

    #[test]
    fn links_come_and_go(rt: HostRuntime) -> Result<(), Fail> {
        let Ok(mut ports) = TcpPorts::bind(&rt, 0, 0) else {
            return Err(Fail::new("no port is free"));
        };
        let (imap, lmtp) = ports.numbers()?;
        assert!(rt; TcpPorts::bind(&rt, imap, 0).is_err());
        let mut buf = [0u8; 16];
        let mut first = net::TcpStream::connect(
            &rt,
            SocketAddr::from((Ipv4Addr::LOCALHOST, imap)),
        )?;
        assert_eq!(rt; take_link(&mut ports, 1, 1000), Some(Kind::Imap));
        let second = net::TcpStream::connect(&rt, SocketAddr::from((Ipv4Addr::LOCALHOST, lmtp)))?;
        assert_eq!(rt; take_link(&mut ports, 2, 1000), Some(Kind::Lmtp));
        assert_eq!(rt; take_link(&mut ports, 3, 3), None);
        assert_eq!(rt; read_link(&mut ports, 1, &mut buf, 3), PortRead::Quiet);
        first.write_all(b"abc")?;
        assert_eq!(rt;
            read_link(&mut ports, 1, &mut buf, 1000),
            PortRead::Bytes(3)
        );
        assert_eq!(rt; &buf[..3], b"abc".as_slice());
        assert_eq!(rt; ports.send(1, b"defg"), PortSend::Took(4));
        assert_eq!(rt; first.read(&mut buf)?, 4);
        drop(second);
        assert_eq!(rt; read_link(&mut ports, 2, &mut buf, 1000), PortRead::Ended);
        ports.close(1);
        assert_eq!(rt; first.read(&mut buf)?, 0);
        assert_eq!(rt; ports.send(1, b"h"), PortSend::Lost);
        assert_eq!(rt; ports.lost, 1);
        Ok(())
    }
}

//! The rounds of the server.

ghost use Rattle.std.specs.Prelude.{ℕ, ◌≡◌, ◌≢◌, ◌<◌, ◌≤◌, ◌+◌, ◌∷◌, ◌++◌, false, [], List, Option, OnOk, OnErr, IfOk, IfErr, IsErrOf, IfSome, length, take, drop, slice_get, is_err, is_ok, count_by, map};
ghost use Rattle.fault_counts.specs.Rose.{Rose};
ghost use Rattle.port_model.specs.Ports.{NeverFall};
ghost use Rattle.imap_steps.specs.Stepping.{World, Shared};
ghost use Rattle.imap_steps.specs.Step.{greeting};
ghost use Rattle.mail_model.specs.Machine.{Made, at_once, is_open};
ghost use Rattle.mail_rounds.specs.declared.rounds.RoundFault.TheVariants.{NoMemory as RoundNoMemory};
ghost use Rattle.mail_rounds.specs.CoreSeen.{LeavesFiles, SomeRose};
ghost use Rattle.mail_rounds.specs.Crashes.{GreetingCrashes};
ghost use Rattle.mail_rounds.specs.Held.{held, Held, AsksPart, AtEach, AtPlace, session_of};
ghost use Rattle.mail_rounds.specs.Calls.{GoesOn, Offers, Asks, Closes, Accepts, Flushes, Takes, TakesPart, Rounds, RoundsPart};
ghost use Rattle.mail_rounds.specs.Faults.{fault_of};
ghost use Rattle.mail_rounds.specs.Serves.{Begins, Does, IsGoing, Serves, Opens};
ghost use Rattle.mail_rounds.specs.Served.{ServesAll, ServesPart};

use crate::ending::settle;
use crate::hearing::hear;
use crate::link::Link;
use crate::mail_core::{Core, CoreFault};
use crate::sending::offer;
use crate::server::{Server, Unserved};
use mail_model::{
    changes_stand_by_their_answers, later_changes_stand_behind, steps_record_their_changes,
};
use port_model::{Kind, ListenFault, Ports};
use session_units::Reader;
use std::alloc::{AllocError, Global};

/// Why a round ended before its end. The server is given up.
#[derive(Clone, Copy, Debug, PartialEq, Eq)]
pub enum RoundFault {
    /// A call on a file of the store failed.
    StoreFault,
    /// Listening for new links failed.
    ListenFault,
    /// Memory was refused.
    NoMemory,
}

impl From<AllocError> for RoundFault {
    ghost from_gives = { λ _ fault. fault ≡ RoundNoMemory };

    fn from(_fault: AllocError) -> RoundFault {
        RoundFault::NoMemory
    }
}

impl From<CoreFault> for RoundFault {
    ghost from_gives = { λ core_fault fault. fault ≡ fault_of core_fault };

    fn from(fault: CoreFault) -> RoundFault {
        match fault {
            CoreFault::Failed => RoundFault::StoreFault,
            CoreFault::NoMemory => RoundFault::NoMemory,
        }
    }
}

/// How many sessions are served at once.
pub const SESSION_LIMIT: usize = 64;

/// How many bytes a link is read at a time.
const READ_ROOM: usize = 65536;

/// A buffer to read links into.
fn new_buffer(alloc: Global) -> Result<Vec<u8>, AllocError>
    ensures { IfOk result (λ buffer. length buffer.items ≡ 65536) }
{
    vec![in alloc; 0u8; READ_ROOM]
}

/// As many readers as there are sessions at once.
fn new_readers(alloc: Global) -> Result<Vec<Reader>, AllocError> {
    let mut readers = Vec::with_capacity(alloc, SESSION_LIMIT)?;
    'readers: for _ in 0..SESSION_LIMIT {
        readers.push(Reader::new(alloc)?)?;
    }
    Ok(readers)
}

/// A reader of those that are spare, or a new one.
fn take_reader(alloc: Global, spare: &mut Vec<Reader>) -> Result<Reader, AllocError> {
    match spare.pop() {
        Some(reader) => Ok(reader),
        None => Reader::new(alloc),
    }
}

/// Keeps a reader for a link that is to come, unless there are enough. It takes no memory.
fn spare_reader(spare: &mut Vec<Reader>, reader: Reader) {
    if spare.len() < spare.capacity() {
        let _ = spare.push(reader);
    }
}

/// The memory of a server: room to read into, the table of links, and readers for them.
#[derive(Drop)]
struct Room {
    buffer: Vec<u8>,
    links: Vec<Link>,
    spare: Vec<Reader>,
}

/// Takes the memory for as many sessions as are served at once.
fn new_room(alloc: Global) -> Result<Room, AllocError>
    ensures buffer { IfOk result (λ room. length room.buffer.items ≡ 65536) }
    ensures links { IfOk result (λ room. room.links.items ≡ []) }
{
    Ok(Room {
        buffer: new_buffer(alloc)?,
        links: Vec::with_capacity(alloc, SESSION_LIMIT)?,
        spare: new_readers(alloc)?,
    })
}

/// Has a link behind the others.
fn add_link(links: &mut Vec<Link>, link: Link) -> Result<(), AllocError>
    ensures { OnOk result (links.new.items ≡ links.old.items ++ link ∷ []) }
{
    links.push(link)?;
    Ok(())
}

/// How many links are open.
fn count_open(links: &[Link]) -> usize
    ensures { result ≡ count_by (λ link. is_open link.standing) links.now }
{
    links.iter().filter(|link| link.standing.is_open()).count()
}

impl<C: Core> Server<C> {
    /// A server over a core, with no link yet. It asks the core nothing. The memory for the lines of 64 sessions is taken
    /// here.
    pub fn new(alloc: Global, core: C) -> Result<Server<C>, Unserved<C>>
        ensures fresh { IfOk result (λ server. ((held server).links ≡ []) × ((held server).last ≡ 0)) }
        ensures core { IfOk result (λ server. server.core ≡ core) }
        ensures going { IfOk result (λ server. C.seen.ready core → IsGoing C.seen server) }
        ensures serves { IfOk result (λ server. (first : World) → C.seen.stands core (record { world = first; parts = [] }) → Serves C.seen first [] (held server)) }
        ensures back { IfErr result (λ unserved. unserved.core ≡ core) }
    {
        let Ok(room) = new_room(alloc) else {
            return Err(Unserved { core });
        };
        let Room {
            buffer,
            links,
            spare,
        } = room;
        Ok(Server {
            core,
            alloc,
            links,
            last: 0,
            buffer,
            spare,
            spent: false,
        })
    }

    /// The number of the latest session, 0 before the first.
    pub fn last(&self) -> u32
        ensures { result ≡ (held self.now).last }
    {
        self.last
    }

    /// The core as it is, also from a server that is given up.
    pub fn into_core(self) -> C
        ensures { result ≡ self.core }
    {
        let Server {
            core,
            alloc: _,
            links: _,
            last: _,
            buffer: _,
            spare: _,
            spent: _,
        } = self;
        core
    }

    /// Offers the link at an index what it has to send.
    fn offer_at<P: Ports>(&mut self, i: usize, ports: &mut P)
        requires ready { C.seen.ready self.old.core }
        requires within { i < length self.old.links.items }
        ensures plan { P.plan ports.new ≡ P.plan ports.old }
        ensures counts { NeverFall (P.listen_faults ports.old) (P.link_faults ports.old) (P.listen_faults ports.new) (P.link_faults ports.new) }
        ensures quiet { P.listen_faults ports.new ≡ P.listen_faults ports.old }
        ensures goes { GoesOn (Does C.seen (AtPlace Offers self.old.links.items i) (held self.old) (held self.new)) (P.history ports.old) (P.history ports.new) }
        ensures others { (k : ℕ) → k ≢ i → slice_get self.new.links.items k ≡ slice_get self.old.links.items k }
        ensures count { length self.new.links.items ≡ length self.old.links.items }
        ensures last { self.new.last ≡ self.old.last }
        ensures ready { C.seen.ready self.new.core }
        ensures files { LeavesFiles C.seen self.old.core self.new.core }
        ensures spent { self.new.spent ≡ self.old.spent }
    {
        offer(&mut self.core, &mut self.links[i], ports);
    }

    /// Offers each link what it has to send.
    fn offer_all<P: Ports>(&mut self, ports: &mut P)
        requires ready { C.seen.ready self.old.core }
        ensures plan { P.plan ports.new ≡ P.plan ports.old }
        ensures counts { NeverFall (P.listen_faults ports.old) (P.link_faults ports.old) (P.listen_faults ports.new) (P.link_faults ports.new) }
        ensures quiet { P.listen_faults ports.new ≡ P.listen_faults ports.old }
        ensures goes { GoesOn (Does C.seen (AtEach Offers self.old.links.items) (held self.old) (held self.new)) (P.history ports.old) (P.history ports.new) }
        ensures ready { C.seen.ready self.new.core }
        ensures files { LeavesFiles C.seen self.old.core self.new.core }
        ensures spent { self.new.spent ≡ self.old.spent }
    {
        'offers: for i in 0..self.links.len() {
            self.offer_at(i, ports);
        }
    }

    /// Closes the link at an index where it isn't open and has nothing to send, and answers where the next link stands.
    fn close_or_pass<P: Ports>(&mut self, i: usize, ports: &mut P) -> usize
        requires { i < length self.old.links.items }
        ensures plan { P.plan ports.new ≡ P.plan ports.old }
        ensures counts { NeverFall (P.listen_faults ports.old) (P.link_faults ports.old) (P.listen_faults ports.new) (P.link_faults ports.new) }
        ensures quiet { P.listen_faults ports.new ≡ P.listen_faults ports.old }
        ensures goes { GoesOn (Does C.seen (AtPlace Closes self.old.links.items i) (held self.old) (held self.new)) (P.history ports.old) (P.history ports.new) }
        ensures rest { drop result self.new.links.items ≡ drop (i + 1) self.old.links.items }
        ensures within { (result ≤ length self.new.links.items) × (length self.new.links.items ≤ length self.old.links.items) }
        ensures index { result + length self.old.links.items ≡ i + 1 + length self.new.links.items }
        ensures core { self.new.core ≡ self.old.core }
        ensures spent { self.new.spent ≡ self.old.spent }
    {
        let link = &self.links[i];
        if link.standing.is_open() || !link.queue.is_empty() {
            return i + 1;
        }
        ports.close(link.number);
        let Link {
            number: _,
            standing: _,
            reader,
            queue: _,
        } = self.links.remove(i);
        spare_reader(&mut self.spare, reader);
        i
    }

    /// Closes each link that isn't open and has nothing to send.
    fn close_all<P: Ports>(&mut self, ports: &mut P)
        ensures plan { P.plan ports.new ≡ P.plan ports.old }
        ensures counts { NeverFall (P.listen_faults ports.old) (P.link_faults ports.old) (P.listen_faults ports.new) (P.link_faults ports.new) }
        ensures quiet { P.listen_faults ports.new ≡ P.listen_faults ports.old }
        ensures goes { GoesOn (Does C.seen (AtEach Closes self.old.links.items) (held self.old) (held self.new)) (P.history ports.old) (P.history ports.new) }
        ensures core { self.new.core ≡ self.old.core }
        ensures spent { self.new.spent ≡ self.old.spent }
    {
        let mut i = 0;
        'closing: while i < self.links.len() {
            i = self.close_or_pass(i, ports);
        }
    }

    /// Offers every link what it has to send, and then closes those whose session is over and which have nothing to
    /// send any more. It takes no memory.
    pub fn flush<P: Ports>(&mut self, ports: &mut P)
        requires { IsGoing C.seen self.old }
        ensures plan { P.plan ports.new ≡ P.plan ports.old }
        ensures counts { NeverFall (P.listen_faults ports.old) (P.link_faults ports.old) (P.listen_faults ports.new) (P.link_faults ports.new) }
        ensures quiet { P.listen_faults ports.new ≡ P.listen_faults ports.old }

        // By exactly these calls, by which only answers of earlier calls go out, and a crash leaves the world as it was. Where the server
        // held what the machine had, it does so then.
        ensures goes { GoesOn (ServesAll C.seen Flushes (held self.old) (held self.new)) (P.history ports.old) (P.history ports.new) }
        ensures files { LeavesFiles C.seen self.old.core self.new.core }
        ensures going { IsGoing C.seen self.new }
    {
        later_changes_stand_behind();
        changes_stand_by_their_answers();
        self.offer_all(ports);
        self.close_all(ports);
    }

    /// Has a link of a new session.
    fn open(&mut self, number: u32, kind: Kind) -> Result<(), CoreFault>
        requires next { number ≡ self.old.last + 1 }
        requires ready { C.seen.ready self.old.core }
        ensures opens { OnOk result (Opens C.seen (held self.old) (held self.new) number kind) }
        ensures front { OnOk result (take (length self.old.links.items) self.new.links.items ≡ self.old.links.items) }
        ensures ready { OnOk result (C.seen.ready self.new.core) }
        ensures crash { (shared : Shared) (from : ℕ) (changes : List Made) → C.seen.stands self.old.core shared
            → GreetingCrashes C.seen self.old.core self.new.core shared number (greeting shared number kind (at_once (map session_of self.old.links.items))) from changes }
        ensures failed { IsErrOf result CoreFault.Failed → SomeRose (C.seen.faults self.old.core) (C.seen.faults self.new.core) }
        ensures stored { (IsErrOf result CoreFault.Failed → ⊥) → C.seen.faults self.new.core ≡ C.seen.faults self.old.core }
        ensures spent { self.new.spent ≡ self.old.spent }
    {
        steps_record_their_changes();
        let others = count_open(&self.links);
        let mut queue = Vec::new(self.alloc);
        let mut reader = take_reader(self.alloc, &mut self.spare)?;
        let outcome = self.core.greet(number, kind, others, &mut queue)?;
        reader.next(outcome.awaits);
        let standing = settle(&mut self.core, number, outcome.closes);
        let link = Link {
            number,
            standing,
            reader,
            queue,
        };
        add_link(&mut self.links, link)?;
        self.last = number;
        Ok(())
    }

    /// Takes a new link, if one came, while numbers last.
    fn accept<P: Ports>(&mut self, ports: &mut P) -> Result<(), RoundFault>
        requires ready { C.seen.ready self.old.core }
        ensures plan { P.plan ports.new ≡ P.plan ports.old }
        ensures counts { NeverFall (P.listen_faults ports.old) (P.link_faults ports.old) (P.listen_faults ports.new) (P.link_faults ports.new) }
        ensures done { OnOk result (GoesOn (Does C.seen (λ first. Accepts self.old.last) (held self.old) (held self.new)) (P.history ports.old) (P.history ports.new)) }
        ensures part { OnErr result (GoesOn (Begins C.seen (λ first. Accepts self.old.last) (held self.old) (held self.new)) (P.history ports.old) (P.history ports.new)) }
        ensures front { OnOk result (take (length self.old.links.items) self.new.links.items ≡ self.old.links.items) }
        ensures listen { IsErrOf result RoundFault.ListenFault → Rose (P.listen_faults ports.old) (P.listen_faults ports.new) }
        ensures quiet { (IsErrOf result RoundFault.ListenFault → ⊥) → P.listen_faults ports.new ≡ P.listen_faults ports.old }
        ensures ready { OnOk result (C.seen.ready self.new.core) }
        ensures failed { IsErrOf result RoundFault.StoreFault → SomeRose (C.seen.faults self.old.core) (C.seen.faults self.new.core) }
        ensures stored { (IsErrOf result RoundFault.StoreFault → ⊥) → C.seen.faults self.new.core ≡ C.seen.faults self.old.core }
        ensures spent { self.new.spent ≡ self.old.spent }
    {
        if self.last == u32::MAX {
            return Ok(());
        }
        let number = self.last + 1;
        match ports.accept(number) {
            Ok(Some(kind)) => Ok(self.open(number, kind)?),
            Ok(None) => Ok(()),
            Err(ListenFault) => Err(RoundFault::ListenFault),
        }
    }

    /// Asks the link at an index what came by it, where it is its turn.
    fn ask<P: Ports>(&mut self, i: usize, ports: &mut P) -> Result<(), CoreFault>
        requires ready { C.seen.ready self.old.core }
        requires within { i < length self.old.links.items }
        ensures plan { P.plan ports.new ≡ P.plan ports.old }
        ensures counts { NeverFall (P.listen_faults ports.old) (P.link_faults ports.old) (P.listen_faults ports.new) (P.link_faults ports.new) }
        ensures quiet { P.listen_faults ports.new ≡ P.listen_faults ports.old }
        ensures done { OnOk result (GoesOn (Does C.seen (AtPlace Asks self.old.links.items i) (held self.old) (held self.new)) (P.history ports.old) (P.history ports.new)) }
        ensures part { OnErr result (GoesOn (Begins C.seen (AtPlace Asks self.old.links.items i) (held self.old) (held self.new)) (P.history ports.old) (P.history ports.new)) }
        ensures others { (k : ℕ) → k ≢ i → slice_get self.new.links.items k ≡ slice_get self.old.links.items k }
        ensures count { length self.new.links.items ≡ length self.old.links.items }
        ensures ready { OnOk result (C.seen.ready self.new.core) }
        ensures failed { IsErrOf result CoreFault.Failed → SomeRose (C.seen.faults self.old.core) (C.seen.faults self.new.core) }
        ensures stored { (IsErrOf result CoreFault.Failed → ⊥) → C.seen.faults self.new.core ≡ C.seen.faults self.old.core }
        ensures spent { self.new.spent ≡ self.old.spent }
    {
        hear(&mut self.core, &mut self.links[i], &mut self.buffer, ports)
    }

    /// Asks so many links, from the first, what came by them.
    fn ask_all<P: Ports>(&mut self, count: usize, ports: &mut P) -> Result<(), CoreFault>
        requires ready { C.seen.ready self.old.core }
        requires within { count ≤ length self.old.links.items }
        ensures plan { P.plan ports.new ≡ P.plan ports.old }
        ensures counts { NeverFall (P.listen_faults ports.old) (P.link_faults ports.old) (P.listen_faults ports.new) (P.link_faults ports.new) }
        ensures quiet { P.listen_faults ports.new ≡ P.listen_faults ports.old }
        ensures done { OnOk result (GoesOn (Does C.seen (AtEach Asks (take count self.old.links.items)) (held self.old) (held self.new)) (P.history ports.old) (P.history ports.new)) }
        ensures part { OnErr result (GoesOn (Begins C.seen (AsksPart count self.old.links.items) (held self.old) (held self.new)) (P.history ports.old) (P.history ports.new)) }
        ensures ready { OnOk result (C.seen.ready self.new.core) }
        ensures failed { IsErrOf result CoreFault.Failed → SomeRose (C.seen.faults self.old.core) (C.seen.faults self.new.core) }
        ensures stored { (IsErrOf result CoreFault.Failed → ⊥) → C.seen.faults self.new.core ≡ C.seen.faults self.old.core }
        ensures spent { self.new.spent ≡ self.old.spent }
    {
        'asks: for i in 0..count {
            self.ask(i, ports)?;
        }
        Ok(())
    }

    /// Takes one new link, if one came, and then what came by each link that is open and has nothing to send, in the
    /// order of their numbers. It sends nothing. After a fault the server is given up.
    pub fn take<P: Ports>(&mut self, ports: &mut P) -> Result<(), RoundFault>
        requires { IsGoing C.seen self.old }
        ensures plan { P.plan ports.new ≡ P.plan ports.old }
        ensures counts { NeverFall (P.listen_faults ports.old) (P.link_faults ports.old) (P.listen_faults ports.new) (P.link_faults ports.new) }

        // By exactly these calls, and at a fault by a part of them from the front. With whatever answer, a crash leaves the world
        // after some of the changes that they make, and keeps every change that was handed out.
        ensures done { OnOk result (GoesOn (ServesAll C.seen Takes (held self.old) (held self.new)) (P.history ports.old) (P.history ports.new)) }
        ensures part { OnErr result (GoesOn (ServesPart C.seen TakesPart (held self.old) (held self.new)) (P.history ports.old) (P.history ports.new)) }
        ensures listen { IsErrOf result RoundFault.ListenFault → Rose (P.listen_faults ports.old) (P.listen_faults ports.new) }
        ensures quiet { (IsErrOf result RoundFault.ListenFault → ⊥) → P.listen_faults ports.new ≡ P.listen_faults ports.old }
        ensures going { OnOk result (IsGoing C.seen self.new) }
        ensures failed { IsErrOf result RoundFault.StoreFault → SomeRose (C.seen.faults self.old.core) (C.seen.faults self.new.core) }
        ensures stored { (IsErrOf result RoundFault.StoreFault → ⊥) → C.seen.faults self.new.core ≡ C.seen.faults self.old.core }
        ensures spent { self.new.spent ≡ is_err result }
    {
        later_changes_stand_behind();
        changes_stand_by_their_answers();
        self.spent = true;
        let count = self.links.len();
        self.accept(ports)?;
        self.ask_all(count, ports)?;
        self.spent = false;
        Ok(())
    }

    /// One round: `flush`, then `take`. So a byte that is sent answers an event of an earlier round.
    pub fn round<P: Ports>(&mut self, ports: &mut P) -> Result<(), RoundFault>
        requires { IsGoing C.seen self.old }
        ensures plan { P.plan ports.new ≡ P.plan ports.old }
        ensures counts { NeverFall (P.listen_faults ports.old) (P.link_faults ports.old) (P.listen_faults ports.new) (P.link_faults ports.new) }

        // By exactly these calls, and at a fault by a part of them from the front. With whatever answer, a crash leaves the world
        // after some of the changes that they make, and keeps every change that was handed out.
        ensures done { OnOk result (GoesOn (ServesAll C.seen Rounds (held self.old) (held self.new)) (P.history ports.old) (P.history ports.new)) }
        ensures part { OnErr result (GoesOn (ServesPart C.seen RoundsPart (held self.old) (held self.new)) (P.history ports.old) (P.history ports.new)) }
        ensures listen { IsErrOf result RoundFault.ListenFault → Rose (P.listen_faults ports.old) (P.listen_faults ports.new) }
        ensures quiet { (IsErrOf result RoundFault.ListenFault → ⊥) → P.listen_faults ports.new ≡ P.listen_faults ports.old }
        ensures going { OnOk result (IsGoing C.seen self.new) }
        ensures failed { IsErrOf result RoundFault.StoreFault → SomeRose (C.seen.faults self.old.core) (C.seen.faults self.new.core) }
        ensures stored { (IsErrOf result RoundFault.StoreFault → ⊥) → C.seen.faults self.new.core ≡ C.seen.faults self.old.core }
        ensures spent { self.new.spent ≡ is_err result }
    {
        later_changes_stand_behind();
        changes_stand_by_their_answers();
        self.flush(ports);
        self.take(ports)
    }
}

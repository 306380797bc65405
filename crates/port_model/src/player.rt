//! What is left of a script while its ports are called.

ghost use Rattle.std.specs.Prelude.{◌≡◌, ◌+◌, ◌<◌, ◌≤◌, ◌↔◌, IsTrue, true, List, [], ◌∷◌, length, drop, filter, All, MatchOption, OnOk, OnErr, Ok};
ghost use Rattle.std.specs.Ordering.{nat_cmp};
ghost use Rattle.std.specs.BTreeSet.{contains};
ghost use Rattle.port_model.specs.declared.calls.PortCall.TheVariants.{Accept, Read, Now, Send, Close};
ghost use Rattle.port_model.specs.Ports.{answer_of_read, ReadsWithin, TakesWithin};
ghost use Rattle.port_model.specs.Playing.{Plan, Playing, amount};
ghost use Rattle.port_model.specs.Player.{HasBytes, Plays, is_left, left_of, HasMore, Happens};

use crate::calls::{Kind, PortRead, PortSend};
use crate::events::Event;
use crate::memory_streams::copy_front;
use std::alloc::{AllocError, Global};
use std::collections::BTreeSet;
use std::marker::Model;

/// A script that is played. Each call answers as the script has it. A call costs O(log n) in the closed links, but
/// that the events which it skips are each skipped once.
#[derive(Drop)]
pub(crate) struct Player {
    events: Vec<Event>,
    sends: Vec<usize>,
    // The place of the next event, which is of no closed link.
    next: usize,
    // How many bytes of the next event were read, where it is a piece.
    offset: usize,
    // How many sends there were, as far as `sends` goes.
    sent: usize,
    // Of the last piece that was read.
    moment: u64,
    closed: BTreeSet<u32>,
}

impl Model for Player {
    ghost use Rattle.std.specs.Prelude.{◌≤◌, length, drop, All};
    ghost use Rattle.std.specs.Ordering.{nat_cmp};
    ghost use Rattle.std.specs.BTreeSet.{contains};
    ghost use Rattle.port_model.specs.Playing.{Plan, Playing};
    ghost use Rattle.port_model.specs.Player.{HasBytes, Played, left_of, HasMore, Happens};

    ghost Value = { Played };

    ghost view = { λ player. record {
      plan = record { events = player.events.items; sends = player.sends.items };
      playing = record {
        left = left_of (contains nat_cmp player.closed) player.offset (drop player.next player.events.items);
        sends = drop player.sent player.sends.items;
        moment = player.moment;
      };
    } };

    ghost invariant = { λ player.
        Happens (contains nat_cmp player.closed) (drop player.next player.events.items)
        × HasMore player.offset (drop player.next player.events.items)
        × All HasBytes player.events.items
        × (player.next ≤ length player.events.items)
        × (player.sent ≤ length player.sends.items) };
}

impl Player {
    pub(crate) fn new(alloc: Global, events: Vec<Event>, sends: Vec<usize>) -> Player
        requires { All HasBytes events.items }
        ensures { result ≡ record { plan = record { events = events.items; sends = sends.items }; playing = record { left = events.items; sends = sends.items; moment = 0 } } }
    {
        Player {
            events,
            sends,
            next: 0,
            offset: 0,
            sent: 0,
            moment: 0,
            closed: BTreeSet::new(alloc),
        }
    }

    /// Whether no event is left.
    pub(crate) fn is_done(&self) -> bool
        ensures { IsTrue result ↔ (self.now.playing.left ≡ []) }
    {
        event_at(&self.events, self.next).is_none()
    }

    pub(crate) fn accept(&mut self, number: u32) -> Option<Kind>
        ensures { Plays (Accept number (Ok result)) self.old self.new }
    {
        match event_at(&self.events, self.next) {
            Some(Event::Opens(kind)) => {
                let kind = *kind;
                self.next = first_left(&self.events, &self.closed, self.next + 1);
                self.offset = 0;
                Some(kind)
            }
            Some(Event::Piece { .. } | Event::Ends(_) | Event::Loses(_)) | None => None,
        }
    }

    pub(crate) fn read(&mut self, number: u32, buf: &mut [u8]) -> PortRead
        requires { 0 < length buf.old }
        ensures within { ReadsWithin (length buf.old) result }
        ensures plays { Plays (Read number (length buf.old) (answer_of_read result buf.new)) self.old self.new }
    {
        match event_at(&self.events, self.next) {
            Some(
                Event::Piece {
                    number: who,
                    bytes,
                    moment,
                },
            ) if *who == number => {
                self.moment = *moment;
                let rest = &bytes.as_slice()[self.offset..];
                let given = copy_front(buf, rest);
                if given < rest.len() {
                    self.offset += given;
                } else {
                    self.next = first_left(&self.events, &self.closed, self.next + 1);
                    self.offset = 0;
                }
                PortRead::Bytes(given)
            }
            Some(Event::Ends(who)) if *who == number => {
                self.next = first_left(&self.events, &self.closed, self.next + 1);
                self.offset = 0;
                PortRead::Ended
            }
            Some(Event::Loses(who)) if *who == number => {
                self.next = first_left(&self.events, &self.closed, self.next + 1);
                self.offset = 0;
                PortRead::Lost
            }
            Some(_) | None => PortRead::Quiet,
        }
    }

    pub(crate) fn now(&self) -> u64
        ensures { result ≡ self.now.playing.moment }
    {
        self.moment
    }

    pub(crate) fn send(&mut self, number: u32, bytes: &[u8]) -> PortSend
        ensures within { TakesWithin (length bytes.now) result }
        ensures plays { Plays (Send number bytes.now result) self.old self.new }
    {
        let taken = next_amount(&self.sends, &mut self.sent, bytes.len());
        match event_at(&self.events, self.next) {
            Some(Event::Loses(who)) if *who == number => {
                self.next = first_left(&self.events, &self.closed, self.next + 1);
                self.offset = 0;
                PortSend::Lost
            }
            Some(_) | None => PortSend::Took(taken),
        }
    }

    /// Closes a link, whose events are skipped from then on. Where that finds no memory, nothing changes.
    pub(crate) fn close(&mut self, number: u32) -> Result<(), AllocError>
        ensures plays { OnOk result (Plays (Close number) self.old self.new) }
        ensures err { OnErr result (self.new ≡ self.old) }
    {
        self.closed.insert(number)?;
        let (next, offset) = skip(&self.events, &self.closed, self.next, self.offset);
        self.next = next;
        self.offset = offset;
        Ok(())
    }
}

/// How many of the bytes that it is offered the next send takes, after as many sends as are counted.
fn next_amount(sends: &[usize], sent: &mut usize, offered: usize) -> usize
    requires { sent.old ≤ length sends.now }
    ensures amount { result ≡ amount (drop sent.old sends.now) offered }
    ensures counted { drop sent.new sends.now ≡ drop 1 (drop sent.old sends.now) }
    ensures within { sent.new ≤ length sends.now }
{
    if *sent == sends.len() {
        return offered;
    }
    let most = sends[*sent];
    *sent += 1;
    offered.min(most)
}

/// The event at a place.
fn event_at(events: &[Event], at: usize) -> Option<&Event>
    ensures { MatchOption result (drop at events.now ≡ []) (λ event. drop at events.now ≡ event.now ∷ drop (at + 1) events.now) }
{
    events.get(at)
}

/// The place of the first event from a place on that is of no closed link.
fn first_left(events: &[Event], closed: &BTreeSet<u32>, from: usize) -> usize
    requires bytes { All HasBytes events.now }
    requires within { from ≤ length events.now }
    ensures left { left_of (contains nat_cmp closed.now) 0 (drop result events.now) ≡ filter (is_left (contains nat_cmp closed.now)) (drop from events.now) }
    ensures happens { Happens (contains nat_cmp closed.now) (drop result events.now) }
    ensures more { HasMore 0 (drop result events.now) }
    ensures within { result ≤ length events.now }
{
    let mut at = from;
    while let Some(event) = event_at(events, at) {
        if happens(event, closed) {
            return at;
        }
        at += 1;
    }
    at
}

/// The place of the next event that is of no closed link, and how many of its bytes were read, where it was this one
/// before links were closed.
fn skip(events: &[Event], closed: &BTreeSet<u32>, next: usize, offset: usize) -> (usize, usize)
    requires bytes { All HasBytes events.now }
    requires within { next ≤ length events.now }
    requires more { HasMore offset (drop next events.now) }
    ensures left { left_of (contains nat_cmp closed.now) result.1 (drop result.0 events.now) ≡ left_of (contains nat_cmp closed.now) offset (drop next events.now) }
    ensures happens { Happens (contains nat_cmp closed.now) (drop result.0 events.now) }
    ensures more { HasMore result.1 (drop result.0 events.now) }
    ensures within { result.0 ≤ length events.now }
{
    match event_at(events, next) {
        Some(event) if !happens(event, closed) => (first_left(events, closed, next + 1), 0),
        Some(_) | None => (next, offset),
    }
}

/// Whether an event is of no closed link.
fn happens(event: &Event, closed: &BTreeSet<u32>) -> bool
    ensures { result ≡ is_left (contains nat_cmp closed.now) event.now }
{
    match event {
        Event::Opens(_) => true,
        Event::Piece { number, .. } => !closed.contains(number),
        Event::Ends(number) => !closed.contains(number),
        Event::Loses(number) => !closed.contains(number),
    }
}

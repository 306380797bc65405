//! The own parts of the sessions that are open.
ghost use Rattle.std.specs.Prelude.{◌≡◌, ◌<◌, ◌++◌, ◌∷◌, [], not, IfOk, OnOk, OnErr, MatchOption, IsTrue, is_some, position, filter};
ghost use Rattle.std.specs.Option.{option_copied};
ghost use Rattle.std.specs.List.{find, list_any};
ghost use Rattle.session_view.specs.Parts.{has_number, has_selected, selects_mailbox, state_of, with_state};

use crate::sessions::{SessionPart, State};
use std::alloc::{AllocError, Global};
use std::marker::Model;

/// How many sessions there is room for from the start.
const ROOM: usize = 64;

/// The own parts of the sessions that are open, in the order of their opening. Contracts see the list of them.
#[derive(Debug, Drop)]
pub struct Sessions {
    list: Vec<SessionPart>,
}

impl Model for Sessions {
    ghost use Rattle.std.specs.Prelude.{List};
    ghost use Rattle.session_view.specs.declared.sessions.SessionPart.{SessionPart};

    ghost Value = { List SessionPart };

    ghost view = { λ sessions. sessions.list.items };
}

fn place_of(parts: &[SessionPart], number: u32) -> Option<usize>
    ensures { result ≡ position (has_number number) parts.now }
{
    parts.iter().position(|part| part.number == number)
}

fn part_of(parts: &[SessionPart], number: u32) -> Option<&SessionPart>
    ensures { option_copied result ≡ find (has_number number) parts.now }
{
    parts.iter().find(|part| part.number == number)
}

fn put_state(parts: &mut Vec<SessionPart>, number: u32, state: State)
    ensures { parts.new.items ≡ with_state number state parts.old.items }
{
    match place_of(parts.as_slice(), number) {
        Some(place) => {
            parts[place] = SessionPart { number, state };
        }
        None => {}
    }
}

fn take_out(parts: &mut Vec<SessionPart>, number: u32)
    ensures { parts.new.items ≡ filter (λ part. not (has_number number part)) parts.old.items }
{
    parts.retain(|part| part.number != number);
}

fn selects(state: &State, mailbox: u32) -> bool
    ensures { result ≡ selects_mailbox mailbox state.now }
{
    match state {
        State::Selected(_, selection) => selection.mailbox == mailbox,
        _ => false,
    }
}

fn is_held(parts: &[SessionPart], mailbox: u32) -> bool
    ensures { result ≡ list_any (has_selected mailbox) parts.now }
{
    for part in parts {
        if selects(&part.state, mailbox) {
            return true;
        }
    }
    false
}

impl Sessions {
    /// No session, with room for 64.
    pub fn new(alloc: Global) -> Result<Sessions, AllocError>
        ensures { IfOk result (λ sessions. sessions ≡ []) }
    {
        Ok(Sessions {
            list: Vec::with_capacity(alloc, ROOM)?,
        })
    }

    /// The parts, in order.
    pub fn as_slice(&self) -> &[SessionPart]
        ensures { result.now ≡ self.now }
    {
        self.list.as_slice()
    }

    /// The state of the session of a number. None stands for a number that no session has.
    pub fn state(&self, number: u32) -> Option<&State>
        ensures state { MatchOption result (state_of number self.now ≡ State.Fresh) (λ state. state.now ≡ state_of number self.now) }
        ensures found { is_some result ≡ list_any (has_number number) self.now }
    {
        match part_of(self.list.as_slice(), number) {
            Some(part) => Some(&part.state),
            None => None,
        }
    }

    /// Gives the session of a number another state. Where there is no such session, nothing changes.
    pub fn set_state(&mut self, number: u32, state: State)
        ensures { self.new ≡ with_state number state self.old }
    {
        put_state(&mut self.list, number, state);
    }

    /// Adds a session that isn't authenticated yet, behind the others.
    pub fn push(&mut self, number: u32) -> Result<(), AllocError>
        ensures ok { OnOk result (self.new ≡ self.old ++ record { number = number; state = State.Fresh } ∷ []) }
        ensures err { OnErr result (self.new ≡ self.old) }
    {
        let state = State::Fresh;
        self.list.push(SessionPart { number, state })?;
        Ok(())
    }

    /// Takes the session of a number out, if it's there.
    pub fn remove(&mut self, number: u32)
        ensures { self.new ≡ filter (λ part. not (has_number number part)) self.old }
    {
        take_out(&mut self.list, number);
    }

    /// Whether a session has a mailbox selected.
    pub fn held(&self, mailbox: u32) -> bool
        ensures { result ≡ list_any (has_selected mailbox) self.now }
    {
        is_held(self.list.as_slice(), mailbox)
    }
}

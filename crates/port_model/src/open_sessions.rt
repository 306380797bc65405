//! Which sessions of a script are open, after some of its events.

ghost use Rattle.std.specs.Prelude.{ℕ, ◌≡◌, ◌<◌, ◌-◌, ◌++◌, List, [], ◌∷◌, Ok, OnOk, Bool, true, false, slice_set};
ghost use Rattle.port_model.specs.declared.events.Event.{Event};
ghost use Rattle.port_model.specs.Script.{is_open, follows};
ghost use Rattle.port_model.specs.OpenSessions.{TellOpen};

use crate::events::Event;
use std::alloc::{AllocError, Global};
use std::marker::Model;

/// A flag for each session that was opened, by its number less 1: whether it was neither ended nor lost.
#[derive(Drop)]
pub(crate) struct OpenSessions {
    open: Vec<bool>,
}

impl Model for OpenSessions {
    ghost Value = { List Bool };

    ghost view = { λ sessions. sessions.open.items };
}

impl OpenSessions {
    pub(crate) fn new(alloc: Global) -> OpenSessions
        ensures { TellOpen [] result }
    {
        OpenSessions {
            open: Vec::new(alloc),
        }
    }

    fn is_open(&self, number: u32) -> bool
        ensures { (before : List Event) → TellOpen before self.now → result ≡ is_open before number }
    {
        if number == 0 {
            return false;
        }
        match self.open.get(number as usize - 1) {
            Some(open) => *open,
            None => false,
        }
    }

    /// Whether an event may come while these sessions are open.
    pub(crate) fn may_come(&self, event: &Event) -> bool
        ensures { (before : List Event) → TellOpen before self.now → result ≡ follows before event.now }
    {
        match event {
            Event::Opens(_) => true,
            Event::Piece { number, .. } => self.is_open(*number),
            Event::Ends(number) | Event::Loses(number) => self.is_open(*number),
        }
    }

    /// Takes note of an event that comes.
    pub(crate) fn note(&mut self, event: &Event) -> Result<(), AllocError>
        ensures { OnOk result ((before : List Event) → TellOpen before self.old → follows before event.now ≡ true → TellOpen (before ++ event.now ∷ []) self.new) }
    {
        match event {
            Event::Opens(_) => self.open.push(true)?,
            Event::Piece { .. } => {}
            Event::Ends(number) | Event::Loses(number) => self.shut(*number),
        }
        Ok(())
    }

    fn shut(&mut self, number: u32)
        ensures { 0 < number → self.new ≡ slice_set self.old (number - 1) false }
    {
        if number == 0 {
            return;
        }
        if let Some(open) = self.open.get_mut(number as usize - 1) {
            *open = false;
        }
    }
}

//! The sessions' own parts.

use crate::view::View;
use octets::Octets;

/// A mailbox that a session has selected.
#[derive(Debug, Drop)]
pub struct Selection {
    /// The mailbox's id.
    pub mailbox: u32,
    /// SELECT, or EXAMINE.
    pub read_write: bool,
    pub view: View,
}

/// The states of a session (RFC 3501 §3).
#[derive(Debug, Drop)]
pub enum State {
    /// Not authenticated.
    Fresh,
    /// Not authenticated yet: the line of AUTHENTICATE PLAIN is awaited, and this is the command's tag (RFC 4616 §2).
    Asked(Octets),
    /// Authenticated as the user of an id.
    Known(u32),
    /// Authenticated as the user of an id, with a mailbox selected.
    Selected(u32, Selection),
}

/// A session's own part of what the sessions share.
#[derive(Debug, Drop)]
pub struct SessionPart {
    /// The session's number, from 1.
    pub number: u32,
    pub state: State,
}

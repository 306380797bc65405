//! What a step does to a link.

use session_units::Awaits;

/// What a unit does to the link of its session.
#[derive(Clone, Copy, Debug, PartialEq, Eq)]
pub struct Outcome {
    /// Whether the link is to be closed once its answers are sent.
    pub closes: bool,
    /// What the session awaits next: a line without literals after AUTHENTICATE PLAIN, else a command.
    pub awaits: Awaits,
}

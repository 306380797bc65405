//! What each command of IMAP does, over the world of mail as plain lists: at most one change of it, the answer, and the sessions'
//! own parts after it (RFC 3501 §6).
//!
//! There is no code here but a type. `specs/Stepping.antt` has what a step is, `specs/Executing.antt` the table of commands, the
//! files before it a command each, and `specs/Step.antt` what one unit of one session does.
#![tactic(auto)]

mod outcome;

pub use outcome::Outcome;

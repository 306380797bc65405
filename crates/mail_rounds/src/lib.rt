//! The server: it takes the events of links one after another, and answers each session what the machine answers.
//!
//! `Server` has the rounds, over ports and over a `Core`, which has the world of mail. Their contracts, in `rounds.rt`, tie
//! it to the machine of the crate `mail_model` by the one relation `Serves` of `specs/Serves.antt`, and say by
//! `specs/Crashes.antt` which worlds a crash leaves.
#![tactic(auto)]

mod crash_laws;
mod ending;
mod hearing;
mod link;
mod mail_core;
mod rounds;
mod sending;
mod server;

pub use crash_laws::worlds_reach_back;
pub use mail_core::{Core, CoreFault, Outcome};
pub use rounds::{RoundFault, SESSION_LIMIT};
pub use server::{Server, Unserved};

//! What a session has of its own beside its link: its user, the mailbox that it has selected, and what it was told of that mailbox's
//! messages (RFC 3501 §2.3.1.2, §3).
#![tactic(auto)]

mod parts;
mod sessions;
mod spans;
mod uids;
mod view;

pub use parts::Sessions;
pub use sessions::{Selection, SessionPart, State};
pub use uids::ViewUids;
pub use view::View;

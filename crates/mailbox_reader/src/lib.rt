//! Messages of mailboxes, looked up in the rows of a store by mailbox and UID: whether they are there, the flags that they have, and
//! what a mailbox keeps of them (RFC 3501 §2.3).
//!
//! Where the tables stand for a world of mail, each answer is that of the world's entry (`mail_stands`). Over any other tables each
//! call ends too. No call changes anything, or reads a disk.
#![tactic(auto)]

mod entries;
mod flags;
mod keywords;

pub use entries::{is_there, message_at, size_at};
pub use flags::{flags_at, is_seen};

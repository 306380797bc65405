//! The lines of FETCH (RFC 3501 §6.4.5, §7.4.2): what is told of a message, in the order in which it was asked for.
#![tactic(auto)]

mod asked;
mod dates;
mod facts;
mod items;
mod laws;
mod names;
mod same;
mod values;

pub use asked::{ToldItem, marks_seen, reads_body, reads_header, told_items};
pub use facts::MessageFacts;
pub use items::push_message;
pub use laws::{law_reading, law_same_items};

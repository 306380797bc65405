//! What FETCH shows of a message: its envelope, its structure and its sections (RFC 3501 §6.4.5, §7.4.2).
#![tactic(auto)]

mod boundaries;
mod counting;
mod envelopes;
mod laws;
mod lines;
mod parts;
mod sections;
mod structures;
mod values;

pub use envelopes::push_envelope;
pub use laws::law_sections;
pub use sections::section;
pub use structures::push_structure;

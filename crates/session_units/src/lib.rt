//! What a session's peer sends, cut into units: commands of IMAP, lines without literals, and lines and texts of LMTP.
//!
//! `Awaits` is the form of the unit that a session awaits, and `Reader` reads units of all forms, as `imap_lexer` and
//! `lmtp_core` cut them off. The definition, `first` in `specs/Units.antt`, looks at a whole list of bytes.
#![tactic(auto)]

mod forms;
mod laws;
mod reader;

pub use forms::{Awaits, Fed, Shown};
pub use laws::{texts_are_units, units_go_on_and_end};
pub use reader::Reader;

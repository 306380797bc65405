//! Cuts what a session's peer sends into units: IMAP commands, which are lines and literals in turn (RFC 3501 §2.2.1,
//! §4.3), and lines without literals.
//!
//! The definition, `first` in `specs/Units.antt`, looks at a whole list of bytes; `Lexer` is fed byte by byte, and with
//! slices within a literal. `specs/Turns.antt` says what units are made of.
#![tactic(auto)]

mod lexer;
mod literals;
mod units;

pub use lexer::Lexer;
pub use units::{Fed, Form, Shown, lines_and_literals_are_units, units_end_where_they_end};

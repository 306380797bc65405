//! The commands of IMAP (RFC 3501 §6, §9), read exactly where they are ones.
#![tactic(auto)]

mod classes;
mod commands;
mod fetching;
mod finding;
mod flags;
mod items;
mod keys;
mod laws;
mod lists;
mod mailboxes;
mod messages;
mod parsing;
mod reader;
mod searching;
mod selecting;
mod session;
mod sets;
mod spellings;
mod strings;
mod verbs;
mod words;

pub use commands::{Bad, Command, ParseFault, Tagged};
pub use finding::{SortBy, SortKey};
pub use flags::{Flag, FlagChange};
pub use items::{FetchItem, Section, SectionPart, StatusItem};
pub use laws::{law_commands, law_lists};
pub use parsing::parse;
pub use searching::SearchKey;
pub use selecting::Resync;
pub use sets::SeqSet;

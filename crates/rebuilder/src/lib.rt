//! Rows into mails: the one mail whose rows a message in a store has.
#![tactic(auto)]

mod fields;
mod mails;
mod parts;
mod paths;
mod stored;
mod values;

pub use mails::{law_kept_mails_are_rebuilt, law_one_mail, reason_in};
pub use stored::{header, message, tree};

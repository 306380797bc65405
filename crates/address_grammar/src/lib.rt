//! Addresses and ids in the values of header fields (RFC 5322 §3.4, §3.6.4), as they are read and printed.
#![tactic(auto)]

mod addresses;
mod bytes;
mod ids;
mod items;
mod laws;
mod lexing;
mod pieces;
mod places;
mod printing;
mod reading;

pub use ids::{print_ids, read_ids};
pub use laws::{law_addresses, law_ids, law_weights};
pub use printing::{is_bare, print};
pub use reading::read;

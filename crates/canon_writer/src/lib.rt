//! The canonical text of a message: the one text that stands for its tree. Reading it gives the tree again.
#![tactic(auto)]

mod counting;
mod folding;
mod printing;
mod sizes;
mod value_sizes;

pub use printing::{append_field, law_print, value_text, write_body, write_header, write_message};
pub use sizes::{field_size, printed_body_size, printed_header_size, printed_size, size_within};

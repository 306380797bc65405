//! Messages into rows: the changes that add a message to a store. Equal field names, equal addresses and equal bodies share one row.
#![tactic(auto)]

mod addresses;
mod bodies;
mod fields;
mod headers;
mod laws;
mod names;
mod new_rows;
mod parts;
mod paths;
mod rows;
mod trees;

pub use laws::{law_mails_fit, law_other_messages_stay};
pub use paths::path_of_child;
pub use rows::rows_of;

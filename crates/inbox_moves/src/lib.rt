//! The changes of rows by which the messages of INBOX go to a new mailbox (RFC 3501 §6.3.5), as mail_stands defines them.
#![tactic(auto)]

mod entry_rows;
mod row_changes;

pub use entry_rows::{any_gone, messages};
pub use row_changes::moving_changes;

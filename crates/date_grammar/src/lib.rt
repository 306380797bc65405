//! The dates of mail (RFC 5322 §3.3, §4.3) and of IMAP (RFC 3501 §9), read and printed. No call takes memory.
#![tactic(auto)]

mod days;
mod header;
mod instants;
mod laws;
mod names;
mod numbers;
mod parts;
mod printing;
mod reading;
mod stamps;
mod times;
mod words;

pub use header::read_date;
pub use instants::{civil_day, print_internal, print_now};
pub use laws::{law_comments, law_dates, law_one_print, law_values};
pub use mime_tree::SentDate;
pub use parts::Stamp;
pub use stamps::{read_day, read_internal};

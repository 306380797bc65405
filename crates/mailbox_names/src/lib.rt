//! Names of mailboxes: their levels, patterns of them, and what LIST and LSUB tell of them (RFC 3501 §5.1, §6.3.8, §6.3.9).
#![tactic(auto)]

mod fronts;
mod listed;
mod listing;
mod names;
mod parts;
mod patterns;

pub use fronts::matched_fronts;
pub use listed::Listed;
pub use listing::list;
pub use names::mailbox_name;
pub use parts::needed_front;

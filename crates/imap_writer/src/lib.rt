//! The lines that answers of IMAP are made of (RFC 3501 §7). No call fails but for want of memory.
#![tactic(auto)]

mod codes;
mod enabled;
mod fetches;
mod flags;
mod found;
mod laws;
mod lines;
mod refusals;
mod runs;
mod spaced;
mod statuses;
mod tagged;
mod texts;

pub use codes::{push_append_code, push_copy_code, push_highest_code, push_modified_code};
pub use enabled::{Extension, push_enabled};
pub use fetches::{MessageData, push_fetch};
pub use flags::{flag_list, push_flags};
pub use found::{push_search, push_sort};
pub use laws::{law_sets, law_texts};
pub use lines::{
    push_closed, push_exists, push_expunge, push_flag_names, push_highest, push_list,
    push_permanent, push_recent, push_uidnext, push_uidvalidity, push_unseen, push_vanished,
};
pub use refusals::Refusal;
pub use runs::{push_set, uid_set};
pub use statuses::{StatusData, push_status};
pub use tagged::{tagged_no, tagged_ok};
pub use texts::{push_number, push_text, text};

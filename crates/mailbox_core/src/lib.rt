//! The calls by which users and mailboxes are found and change, over the rows of a store.
//!
//! Where the tables stand for a world, each call that changes something is one change of that world: refused with its first reason,
//! or made, in the tables and in the files, so that a crash at any moment leaves the world before or after it. Over tables that
//! stand for no world it ends too, takes no user away and no mailbox but one that its user deletes, and changes no owner.
#![tactic(auto)]

mod adding;
mod appending;
mod arrivals;
mod deleting;
mod delivering;
mod expunging;
mod faults;
mod finishing;
mod flag_rows;
mod flag_tests;
mod gone_rows;
mod inbox_renaming;
mod keywords;
pub mod laws;
mod listing;
mod look_ups;
mod looking;
mod names;
mod new_names;
mod new_rows;
mod numbers;
mod receivers;
mod recents;
mod renaming;
mod renaming_calls;
mod rooms;
mod statuses;
mod storing;
mod subscribing;
mod summing;
mod uid_lists;
mod unseen;
mod verifiers;

pub use adding::{add_user, create};
pub use appending::append;
pub use deleting::delete;
pub use delivering::deliver;
pub use expunging::expunge;
pub use faults::MailFault;
pub use listing::list;
pub use looking::{find, login, user_of};
pub use mailbox_names::Listed;
pub use names::{canonical_name, is_user_name};
pub use numbers::Status;
pub use recents::take_recent;
pub use renaming_calls::rename;
pub use statuses::status;
pub use storing::store_flags;
pub use subscribing::{subscribe, unsubscribe};
pub use summing::{Summary, summarize};

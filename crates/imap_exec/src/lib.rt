//! The commands of IMAP, carried out over a store (RFC 3501 §6).
//!
//! Where the store's tables stand for a world of mail, each call is one step of the machine over that world (`imap_steps`): its answer,
//! its one change, made in the tables and in the files so that a crash at any moment leaves the world before or after it, and the
//! sessions after it. Over any other tables each call ends too.
#![tactic(auto)]

mod append;
mod authenticate;
mod create;
mod credentials;
mod delete;
mod distinct;
mod executing;
mod fetch;
mod fetch_lines;
mod greeting;
mod lines;
mod list;
mod login;
mod plain_lines;
mod rename;
mod select;
mod simple;
mod status;
mod stepping;
mod store;
mod store_lines;
mod subscribe;
mod telling;
mod unfit;
mod users;

pub use executing::execute;
pub use greeting::{greet, leave};
pub use plain_lines::plain_line;
pub use stepping::step;

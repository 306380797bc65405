//! What a mail store is to its users, as plain lists: users, mailboxes with their messages, subscriptions; the changes that can be
//! made of it, when each is refused, and what it leaves.
//!
//! There is no code here but functions whose contracts are laws of the definitions, which stand in `specs/`: `Worlds` says what a
//! store is, `Changes` and `Applying` what is done to it, `Legal` what then holds of it, `Laws` what users rely on.
#![tactic(auto)]

mod laws;

pub use laws::{ids_are_given_once, mailboxes_follow, others_keep_their_own, stores_stay_legal};

//! What the rows of a store's tables stand for as a world, the mail store as plain lists, and the laws by which a change of rows goes on
//! standing for the world after a change.
//!
//! There is no code here but functions whose contracts are laws of the definitions, which stand in `specs/`: `Stands` says what tables
//! stand for, `Refusals` why a change is not made as the tables tell it, `RowChanges`, `Naming`, `Arriving`, `Storing`, `Delivering`,
//! `Expunging` and `MovingInbox` which rows make a change, `Leading` what they lead to, `Sameness` how far tables tell worlds apart.
#![tactic(auto)]

mod arriving;
mod delivering;
mod expunging;
mod laws;
mod moving_inbox;
mod renaming;
mod storing;

pub use arriving::{append, message_uids, names_grow};
pub use delivering::deliver;
pub use expunging::expunge;
pub use laws::{
    add_user, create, delete, entry_rows, mailbox_rows, no_rows_stand, one_world, subscribe,
    take_recents, unsubscribe, user_rows,
};
pub use moving_inbox::rename_inbox;
pub use renaming::rename;
pub use storing::store_flags;

//! What the server is to its users: a machine over plain lists, which takes the events of links one after another.
//!
//! There is no code here but the functions whose contracts are laws of the definitions. `specs/Machine.antt` has the
//! machine; what one unit does is told by the definitions of the crate `imap_steps`.
#![tactic(auto)]

mod change_laws;
mod laws;
mod standing;

pub use change_laws::{
    changes_stand_by_their_answers, handed_out_stays, later_changes_stand_behind,
    steps_record_their_changes,
};
pub use laws::{
    answers_only_grow, closing_takes_leave, cuts_whatever_happens_between,
    open_sessions_await_a_unit, units_whatever_the_pieces,
};
pub use standing::Standing;

//! A redo log on a disk that may crash at any moment: what was acknowledged is there, and nothing is there in part.
//!
//! A log is a header and records, each behind a gate byte of its own. A record counts once its gate is open, and
//! its gate is opened only after its bytes are sure.
#![tactic(auto)]

mod faults;
mod reading;
mod redo;
mod stages;

pub use faults::{CommitFault, FormatFault, LoadFault};
pub use reading::a_text_says_one_thing;
pub use redo::Log;

//! The words of the program, and what each does; `run` reads them. The server that they have is that of the crate
//! `mail_rounds`.
#![tactic(auto)]

mod answer;
mod canonical;
mod laws;
mod linked;
mod printing;
mod program;
mod script;
mod scripted;
mod serve_numbers;
mod serve_words;
mod serving;
mod serving_links;
mod status;
mod store_core;
mod stores;
mod streams;
mod users;
mod words;

pub use laws::one_history_plays_a_script;
pub use mail_rounds::{RoundFault, Server};
pub use program::run;
pub use serve_numbers::ServePorts;
pub use serve_words::serve_ports;

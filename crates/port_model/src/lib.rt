//! The outside of the server, but for its disks: what bytes come from and go to, the clock, and the links to peers.
//!
//! Each trait says what an object may answer and what it then means. The types in memory that play these
//! traits are for scripts and tests.
#![tactic(auto)]

mod call_record;
mod calls;
mod events;
mod fixed_clock;
mod memory_streams;
mod open_sessions;
mod player;
mod ports;
mod script;
mod script_ports;
mod sent_texts;
mod streams;
mod transcript;

pub use calls::{Kind, ListenFault, PortCall, PortRead, PortSend, ReadAnswer};
pub use events::Event;
pub use fixed_clock::FixedClock;
pub use memory_streams::{MemorySink, MemorySource};
pub use ports::Ports;
pub use script::{ScriptFault, law_script_lines, parse_script};
pub use script_ports::ScriptPorts;
pub use streams::{Clock, Sink, SinkFault, Source, SourceFault};
pub use transcript::{law_escaped_text, print_session};

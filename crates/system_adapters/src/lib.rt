//! The outside as the system has it: a reader as a source, a writer as a sink, the system's clock, a file as a disk, and links over
//! TCP as ports.
//!
//! None of them tells what it read or has; each counts its faults.
#![tactic(auto)]

mod clock;
mod disk;
mod sink;
mod source;
mod tcp;

pub use clock::SystemClock;
pub use disk::{Action, Failure, FileDisk};
pub use sink::StreamSink;
pub use source::StreamSource;
pub use tcp::{TcpPorts, Unbound};

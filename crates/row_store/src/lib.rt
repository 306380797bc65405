//! The store of rows in its files: what was committed is there after a crash at any moment, whole, and nothing is there in part.
//!
//! The files are a redo log of row changes, whose bodies have their content in their rows; a second log and a file of bodies are
//! there, and are not used yet.
#![tactic(auto)]

mod bodies;
mod committing;
mod faults;
mod in_memory;
pub mod laws;
mod loading;
mod replaying;
mod store;

pub use bodies::BodyRef;
pub use faults::{LoadFault, StoreFault};
pub use in_memory::empty_store;
pub use loading::Unloaded;
pub use store::RowStore;

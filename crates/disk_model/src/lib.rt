//! A disk by what a read of it gives and what a crash may leave of it, and a disk in memory that shows each crash.
#![tactic(auto)]

mod disk;
mod memory;
mod replaying;

pub use disk::{Disk, DiskFault, Files};
pub use memory::{Change, MemoryDisk, Written, torn_writes_leave_the_images};

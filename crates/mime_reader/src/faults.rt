//! Why bytes were not read.
use mime_tree::Reason;

/// Why bytes were not read as a message.
#[derive(Clone, Copy, Debug, PartialEq, Eq)]
pub enum ReadFault {
    /// They are no message, for this reason, the first that holds.
    Unreadable(Reason),
    NoMemory,
}

//! What is told of a message beside what stands in it.
use date_grammar::Stamp;
use imap_grammar::Flag;
use sqlite_items::Items;

/// What is told of a message beside what stands in it.
#[derive(Debug, Drop)]
pub struct MessageFacts {
    pub uid: u32,
    /// The mod-sequence of its last change.
    pub modseq: u64,
    /// Its flags, in the order in which they are told.
    pub flags: Items<Flag>,
    /// Whether it is recent to the session.
    pub recent: bool,
    /// How many bytes its text has.
    pub size: u64,
    /// Its internal date.
    pub date: Stamp,
}

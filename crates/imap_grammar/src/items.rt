//! What commands ask for.
use octets::Octets;
use sqlite_items::Items;

/// A number that STATUS tells of a mailbox (RFC 3501 §6.3.10, RFC 4551 §3.6).
#[derive(Clone, Copy, Debug, PartialEq, Eq)]
pub enum StatusItem {
    Messages,
    Recent,
    Uidnext,
    Uidvalidity,
    Unseen,
    /// The highest mod-sequence of the mailbox.
    Highest,
}

/// What FETCH tells of a message (RFC 3501 §6.4.5, RFC 4551 §3.3.2).
#[derive(Debug, Drop)]
pub enum FetchItem {
    /// The structure without its extensions.
    Body,
    BodyStructure,
    Envelope,
    Flags,
    InternalDate,
    Modseq,
    Rfc822,
    Rfc822Header,
    Rfc822Size,
    Rfc822Text,
    Uid,
    /// Bytes of the message. Where `peek` they are read without the message being seen. `partial` is where they start and how
    /// many there are at most, from 1.
    Part {
        section: Section,
        peek: bool,
        partial: Option<(u32, u32)>,
    },
}

/// A part of a message, and what is asked of it.
#[derive(Debug, Drop)]
pub struct Section {
    /// The numbers of parts within parts, from 1. None are the message itself.
    pub path: Items<u32>,
    pub part: SectionPart,
}

/// What is asked of a part.
#[derive(Debug, Drop)]
pub enum SectionPart {
    Whole,
    /// The header of the part itself.
    Mime,
    /// The header of the message that the part is.
    Header,
    /// Those fields of that header, or all others.
    Fields { names: Items<Octets>, except: bool },
    /// The body of the message that the part is.
    Text,
}

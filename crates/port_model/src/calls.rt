//! Calls on ports and what they answered.

use octets::Octets;

/// The protocol that a link speaks.
#[derive(Clone, Copy, Debug, PartialEq, Eq)]
pub enum Kind {
    /// IMAP4rev1 (RFC 3501).
    Imap,
    /// LMTP (RFC 2033).
    Lmtp,
}

/// Listening for new links failed. The ports count it.
#[derive(Clone, Copy, Debug, PartialEq, Eq)]
pub struct ListenFault;

/// What `Ports::read` answers.
#[derive(Clone, Copy, Debug, PartialEq, Eq)]
pub enum PortRead {
    /// So many bytes came, one at least.
    Bytes(usize),
    /// Nothing is there yet.
    Quiet,
    /// The peer closed its side: no byte will come.
    Ended,
    /// The link is lost.
    Lost,
}

/// What `Ports::send` answers.
#[derive(Clone, Copy, Debug, PartialEq, Eq)]
pub enum PortSend {
    /// So many bytes were taken from the front, perhaps none.
    Took(usize),
    /// The link is lost. Nothing was taken.
    Lost,
}

/// What a read gave, with the bytes.
#[derive(Drop, Debug)]
pub enum ReadAnswer {
    /// These bytes came.
    Gave(Octets),
    /// Nothing is there yet.
    Quiet,
    /// The peer closed its side.
    Ended,
    /// The link is lost.
    Lost,
}

/// A call on ports with its answer, as histories tell it.
#[derive(Drop, Debug)]
pub enum PortCall {
    /// A new link was asked for; it would have this number.
    Accept {
        number: u32,
        answer: Result<Option<Kind>, ListenFault>,
    },
    /// A link was read, into a buffer of `room` bytes.
    Read {
        number: u32,
        room: usize,
        answer: ReadAnswer,
    },
    /// The clock was read, in seconds since 1970.
    Now(u64),
    /// Bytes were offered to a link.
    Send {
        number: u32,
        bytes: Octets,
        answer: PortSend,
    },
    /// A link was closed.
    Close(u32),
}

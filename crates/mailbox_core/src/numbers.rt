//! The numbers of a mailbox.

/// The numbers that STATUS tells of a mailbox (RFC 3501 §6.3.10).
#[derive(Clone, Copy, Debug)]
pub struct Status {
    /// How many messages it has.
    pub messages: u32,
    /// How many of them no session was told of as recent yet (RFC 3501 §2.3.2).
    pub recent: u32,
    /// The UID of the next message.
    pub uidnext: u32,
    /// Its id, by which its UIDs are valid (RFC 3501 §2.3.1.1).
    pub uidvalidity: u32,
    /// How many of them are without `\Seen`; 0 where that isn't asked for.
    pub unseen: u32,
    /// Its highest mod-sequence (RFC 4551 §3.1.1).
    pub highest: u64,
}

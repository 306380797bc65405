//! The numbers in the words of `serve`.

ghost use Rattle.std.specs.Prelude.{◌<◌};

/// The ports that a server listens on, by the numbers in its words.
#[derive(Clone, Copy, Debug, PartialEq, Eq)]
pub struct ServePorts {
    /// The port for IMAP.
    pub imap: u16,
    /// The port for LMTP.
    pub lmtp: u16,
}

/// The numbers in the words of `serve`.
#[derive(Clone, Copy, Debug, PartialEq, Eq)]
pub(crate) struct ServeWords {
    /// How many rounds are made.
    pub(crate) rounds: u64,
    pub(crate) ports: ServePorts,
    ghost some: { 0 < rounds },
}

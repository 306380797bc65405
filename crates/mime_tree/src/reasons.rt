//! Why a text is no message, and mail as it is kept.
use crate::trees::Message;

/// Why a text can't be read as a message.
#[derive(Clone, Copy, Debug, PartialEq, Eq)]
pub enum Reason {
    /// A byte 0 anywhere.
    ZeroByte,
    /// A header line has a CR within.
    LoneReturn,
    /// A header line is neither a field nor the continuation of one.
    NoField,
    /// A header is longer than 262,144 bytes.
    LongHeader,
    /// A multipart names no boundary that can be used.
    NoBoundary,
    /// A multipart has no delimiter line before a closing one.
    NoDelimiter,
    /// A part is nested too deep.
    TooDeep,
    /// The message has too many parts.
    TooMany,
}

/// A message as it is kept: as it was read, or the message that stands for a text that can't be read, with the reason.
#[derive(Debug, Drop)]
pub struct Mail {
    pub message: Message,
    pub reason: Option<Reason>,
}

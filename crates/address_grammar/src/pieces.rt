//! What the value of an address field is written in (RFC 5322 §3.2).
use octets::Octets;

/// A special character that stands for itself.
#[derive(Clone, Copy, Debug, PartialEq, Eq)]
pub(crate) enum Special {
    Comma,
    Colon,
    Semicolon,
    Open,
    Close,
    At,
}

/// A piece of a value.
#[derive(Debug, Drop)]
pub(crate) enum Piece {
    /// Atoms and dots with nothing between.
    Run(Octets),
    /// A quoted string, without its quotes and without each quoting `\`.
    Quoted(Octets),
    /// A comment, without its parentheses and without each quoting `\`. Comments in it keep their parentheses.
    Comment(Octets),
    /// A domain literal, with its brackets.
    Literal(Octets),
    Mark(Special),
    /// A space or a tab.
    Blank,
}

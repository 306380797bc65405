//! The forms of units, and what bytes show of one.

ghost use Rattle.std.specs.Prelude.{◌≡◌};
ghost use Rattle.session_units.specs.Units.{ending, is_prompted};

/// What a session awaits from its peer.
#[derive(Clone, Copy, Debug, PartialEq, Eq)]
pub enum Awaits {
    /// A command of IMAP.
    Command,
    /// A line that is no command, as after AUTHENTICATE PLAIN (RFC 3501 §6.2.2).
    PlainLine,
    /// A line of LMTP (RFC 2033).
    LmtpLine,
    /// The text of a mail, as after DATA (RFC 5321 §4.1.1.4).
    LmtpText,
}

/// What a unit that is cut off shows.
#[derive(Clone, Copy, Debug, PartialEq, Eq)]
pub enum Shown {
    /// It is whole.
    Unit,
    /// It has lines of more bytes than they may have together.
    LineTooLong,
    /// It announces literals of more bytes than they may have together.
    LiteralTooLong,
    /// It is the whole text of a mail whose content has more bytes than it may have.
    TextTooLong,
}

/// What the bytes since the last unit show.
#[derive(Clone, Copy, Debug, PartialEq, Eq)]
pub enum Fed {
    /// The unit goes on.
    More,
    /// The unit goes on with a literal once the peer is told so: the bytes end with its announcement.
    Continue,
    /// The unit ends.
    Ended(Shown),
}

/// The lexer that reads what is awaited.
#[derive(Clone, Copy, Debug, PartialEq, Eq)]
pub(crate) enum Source {
    /// Commands and plain lines.
    Imap,
    Line,
    Text,
}

impl Fed {
    /// What ends with the bytes, if a unit does.
    pub fn ending(self) -> Option<Shown>
        ensures { result ≡ ending self }
    {
        match self {
            Fed::More | Fed::Continue => None,
            Fed::Ended(shown) => Some(shown),
        }
    }

    /// Whether the peer is to be told that it may go on.
    pub fn is_prompted(self) -> bool
        ensures { result ≡ is_prompted self }
    {
        match self {
            Fed::Continue => true,
            Fed::More | Fed::Ended(_) => false,
        }
    }
}

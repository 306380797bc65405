//! Lines that are sent.
ghost use Rattle.std.specs.Prelude.{◌≡◌, ◌≤◌, length};
ghost use Rattle.lmtp_core.specs.Replies.{reply_text};

/// What is sent to the peer.
#[derive(Clone, Copy, Debug, PartialEq, Eq)]
pub enum Reply {
    /// The first line of a session.
    Greeting,
    /// There are as many sessions as there may be. The link is then closed.
    TooManySessions,
    /// A line has more bytes than it may have. The link is then closed.
    LineTooLong,
    /// The service extensions, which answer LHLO (RFC 2033 §4.1).
    Extensions,
    /// The mail has its sender.
    SenderOk,
    /// The recipient is accepted.
    RecipientOk,
    /// RSET and NOOP.
    Done,
    /// The text may come.
    GoAhead,
    /// Users aren't told of by VRFY (RFC 5321 §3.5.3).
    CannotVerify,
    /// The link is then closed.
    Bye,
    /// The command doesn't stand here: before LHLO, within a mail or without one.
    BadSequence,
    /// The mail has as many recipients as it may have.
    TooManyRecipients,
    /// No user has the name.
    NoSuchUser,
    /// A known word in another form.
    Syntax,
    /// No known word.
    UnknownCommand,
    /// The mail is stored for this recipient.
    Stored,
    /// The recipient's mailbox takes no more.
    MailboxFull,
    /// The text has more bytes than it may have.
    MessageTooLong,
}

impl Reply {
    /// Its lines, each with its CRLF.
    pub fn text(self) -> &'static [u8]
        ensures text { result.now ≡ reply_text self }
        ensures short { length result.now ≤ 80 }
    {
        match self {
            Reply::Greeting => b"220 mailstored LMTP ready\r\n",
            Reply::TooManySessions => b"421 4.3.2 too many sessions\r\n",
            Reply::LineTooLong => b"421 4.3.0 line too long\r\n",
            Reply::Extensions => {
                b"250-mailstored\r\n250-PIPELINING\r\n250-ENHANCEDSTATUSCODES\r\n250 8BITMIME\r\n"
            }
            Reply::SenderOk => b"250 2.1.0 ok\r\n",
            Reply::RecipientOk => b"250 2.1.5 ok\r\n",
            Reply::Done => b"250 2.0.0 ok\r\n",
            Reply::GoAhead => b"354 go ahead\r\n",
            Reply::CannotVerify => b"252 2.0.0 cannot verify\r\n",
            Reply::Bye => b"221 2.0.0 bye\r\n",
            Reply::BadSequence => b"503 5.5.1 bad sequence\r\n",
            Reply::TooManyRecipients => b"452 4.5.3 too many recipients\r\n",
            Reply::NoSuchUser => b"550 5.1.1 no such user\r\n",
            Reply::Syntax => b"501 5.5.4 syntax\r\n",
            Reply::UnknownCommand => b"500 5.5.2 unknown command\r\n",
            Reply::Stored => b"250 2.0.0 stored\r\n",
            Reply::MailboxFull => b"452 4.2.2 mailbox full\r\n",
            Reply::MessageTooLong => b"552 5.3.4 message too long\r\n",
        }
    }
}

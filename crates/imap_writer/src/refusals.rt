//! Why commands are refused.
ghost use Rattle.std.specs.Prelude.{◌≡◌};
ghost use Rattle.imap_writer.specs.Refusals.{reason_of};

/// Why a command is refused. Where several stand together, the first of them is told.
#[derive(Clone, Copy, Debug, PartialEq, Eq)]
pub enum Refusal {
    /// Its literals are longer than a command may have.
    LiteralTooLong,
    /// It is no command.
    Syntax,
    /// The state of the session doesn't allow it.
    State,
    /// It needs QRESYNC to be turned on.
    NotEnabled,
    /// It authenticates in another way than by PLAIN.
    Mechanism,
    /// No user has the name and the password.
    LoginFailed,
    /// It changes a mailbox that is open to be read alone.
    ReadOnly,
    /// Its charset isn't known.
    Charset,
    /// No mailbox can have the name.
    BadName,
    /// There is no such mailbox.
    Absent,
    /// There is no such mailbox to put messages into; the client may make it.
    TryCreate,
    /// There is such a mailbox already.
    Exists,
    /// A session has the mailbox selected.
    InUse,
    /// A limit would be passed.
    Full,
    /// The mailbox has given its last UID.
    NoUid,
    /// It names messages by numbers, and some of them are gone.
    ExpungeIssued,
}

/// The answer's word and what stands behind it.
pub(crate) fn reason(refusal: Refusal) -> &'static [u8]
    ensures { result.now ≡ reason_of refusal }
{
    match refusal {
        Refusal::LiteralTooLong => b"NO literal too long",
        Refusal::Syntax => b"BAD syntax",
        Refusal::State => b"BAD state",
        Refusal::NotEnabled => b"BAD not enabled",
        Refusal::Mechanism => b"NO mechanism",
        Refusal::LoginFailed => b"NO [AUTHENTICATIONFAILED] login failed",
        Refusal::ReadOnly => b"NO read only",
        Refusal::Charset => b"NO [BADCHARSET (US-ASCII UTF-8 ISO-8859-1)] charset",
        Refusal::BadName => b"NO [CANNOT] bad name",
        Refusal::Absent => b"NO [NONEXISTENT] no such mailbox",
        Refusal::TryCreate => b"NO [TRYCREATE] no such mailbox",
        Refusal::Exists => b"NO [ALREADYEXISTS] mailbox exists",
        Refusal::InUse => b"NO [INUSE] mailbox in use",
        Refusal::Full => b"NO [LIMIT] full",
        Refusal::NoUid => b"NO [LIMIT] no uid left",
        Refusal::ExpungeIssued => b"NO [EXPUNGEISSUED] some messages are gone",
    }
}

//! How a run ends.

ghost use Rattle.std.specs.Prelude.{◌≡◌};
ghost use Rattle.mail_server.specs.Run.{code_of};

/// How a run ends.
#[derive(Clone, Copy, Debug, PartialEq, Eq)]
pub(crate) enum Status {
    /// The command did all of its work.
    Done,
    /// The words are none that are understood.
    Usage,
    /// Memory was refused.
    NoMemory,
    /// Reading the source failed.
    ReadFault,
    /// Writing to the sink failed.
    WriteFault,
    /// A disk failed.
    StoreFault,
    /// The files hold no store.
    NotAStore,
    /// What is asked for is refused.
    Refused,
    /// The script has a bad line or is too long.
    BadScript,
    /// Listening for links failed.
    ListenFault,
}

impl Status {
    /// The number that the process ends with.
    pub(crate) fn code(self) -> u8
        ensures { result ≡ code_of self }
    {
        match self {
            Status::Done => 0,
            Status::Usage => 2,
            Status::NoMemory => 3,
            Status::ReadFault => 4,
            Status::WriteFault => 5,
            Status::StoreFault => 6,
            Status::NotAStore => 7,
            Status::Refused => 8,
            Status::BadScript => 9,
            Status::ListenFault => 10,
        }
    }
}

//! Why a call on mailboxes made no change.

use std::alloc::AllocError;

/// Why a call made no change. The first six refuse it, and leave the store as it was; the other two give the store up, and its files
/// are to be loaded again.
#[derive(Clone, Copy, Debug, PartialEq, Eq)]
pub enum MailFault {
    /// No mailbox can have the name, or INBOX can't.
    BadName,
    /// There is no such mailbox, or no such subscription.
    Absent,
    /// A user or a mailbox has the name.
    Exists,
    /// A session has the mailbox selected.
    InUse,
    /// A limit would be passed.
    Full,
    /// The mailbox has given its last UID.
    NoUid,
    /// A disk failed.
    Failed,
    /// There was no memory.
    NoMemory,
}

impl From<AllocError> for MailFault {
    ghost use Rattle.std.specs.Prelude.{◌≡◌};
    ghost use Rattle.mailbox_core.specs.declared.faults.MailFault.{MailFault};

    ghost from_gives = { λ _ e. e ≡ MailFault.NoMemory };

    fn from(_: AllocError) -> Self {
        MailFault::NoMemory
    }
}

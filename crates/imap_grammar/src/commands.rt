//! What commands are.
use crate::finding::SortKey;
use crate::flags::{Flag, FlagChange};
use crate::items::{FetchItem, StatusItem};
use crate::searching::SearchKey;
use crate::selecting::Resync;
use crate::sets::SeqSet;
use date_grammar::Stamp;
use octets::Octets;
use sqlite_items::Items;

/// A command with its arguments (RFC 3501 §6).
#[derive(Debug, Drop)]
pub enum Command {
    Capability,
    Noop,
    Logout,
    Check,
    Close,
    Expunge,
    Login {
        name: Octets,
        password: Octets,
    },
    /// The mechanism, as it is written.
    Authenticate(Octets),
    /// The capabilities as they are written, at least one.
    Enable(Items<Octets>),
    Create(Octets),
    Delete(Octets),
    Subscribe(Octets),
    Unsubscribe(Octets),
    Rename {
        from: Octets,
        to: Octets,
    },
    /// LIST, or LSUB where `subscribed`. The name may have wildcards.
    List {
        reference: Octets,
        name: Octets,
        subscribed: bool,
    },
    /// The items in the order asked, at least one.
    Status {
        name: Octets,
        items: Items<StatusItem>,
    },
    /// A message with the flags and the date that it is to have.
    Append {
        name: Octets,
        flags: Items<Flag>,
        stamp: Option<Stamp>,
        text: Octets,
    },
    /// SELECT, or EXAMINE.
    Select {
        name: Octets,
        examine: bool,
        condstore: bool,
        resync: Option<Resync>,
    },
    /// The messages that have changed since are left as they are. The silent form isn't answered.
    Store {
        by_uid: bool,
        set: SeqSet,
        unchanged_since: Option<u64>,
        how: FlagChange,
        silent: bool,
        flags: Items<Flag>,
    },
    /// Those that have changed since are told alone; with `vanished` the gone ones too.
    Fetch {
        by_uid: bool,
        set: SeqSet,
        items: Items<FetchItem>,
        changed_since: Option<u64>,
        vanished: bool,
    },
    /// The texts of the key are in the charset, or in UTF-8.
    Search {
        by_uid: bool,
        charset: Option<Octets>,
        key: SearchKey,
    },
    /// The first of the keys counts most.
    Sort {
        by_uid: bool,
        keys: Items<SortKey>,
        charset: Octets,
        key: SearchKey,
    },
    /// Threads by ORDEREDSUBJECT.
    Thread {
        by_uid: bool,
        charset: Octets,
        key: SearchKey,
    },
    Copy {
        by_uid: bool,
        set: SeqSet,
        name: Octets,
    },
    UidExpunge(SeqSet),
}

/// A command with the tag that its answer is told with.
#[derive(Debug, Drop)]
pub struct Tagged {
    pub tag: Octets,
    pub command: Command,
}

/// A unit that is no command.
#[derive(Debug, Drop)]
pub enum Bad {
    /// It begins with a tag and a space.
    WithTag(Octets),
    NoTag,
}

/// Why no command was read.
#[derive(Debug, Drop)]
pub enum ParseFault {
    NoMemory,
    Bad(Bad),
}

impl From<std::alloc::AllocError> for ParseFault {
    ghost use Rattle.std.specs.Prelude.{◌≡◌};
    ghost use Rattle.imap_grammar.specs.declared.commands.ParseFault.TheVariants.{NoMemory};

    ghost from_gives = { λ _ fault. fault ≡ NoMemory };

    fn from(_: std::alloc::AllocError) -> ParseFault
        ensures { result ≡ NoMemory }
    {
        ParseFault::NoMemory
    }
}

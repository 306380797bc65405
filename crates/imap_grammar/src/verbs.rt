//! The names of commands.
ghost use Rattle.imap_grammar.specs.Verbs.{uid_verbs, verbs};
ghost use Rattle.imap_grammar.specs.Words.{keyword as keyword_of};
ghost use Rattle.imap_grammar.specs.Readings.{Reads};

use crate::reader::{Fault, Reader};
use crate::words::keyword;

#[derive(Clone, Copy, Debug, PartialEq, Eq)]
pub(crate) enum Verb {
    Capability,
    Noop,
    Logout,
    Check,
    Close,
    Expunge,
    Login,
    Authenticate,
    Create,
    Delete,
    Subscribe,
    Unsubscribe,
    Rename,
    List,
    Lsub,
    Status,
    Append,
    Select,
    Examine,
    Store,
    Copy,
    Fetch,
    Search,
    Sort,
    Thread,
    Enable,
    Uid,
}

static VERBS: [(&[u8], Verb); 27] = [
    (b"CAPABILITY", Verb::Capability),
    (b"NOOP", Verb::Noop),
    (b"LOGOUT", Verb::Logout),
    (b"CHECK", Verb::Check),
    (b"CLOSE", Verb::Close),
    (b"EXPUNGE", Verb::Expunge),
    (b"LOGIN", Verb::Login),
    (b"AUTHENTICATE", Verb::Authenticate),
    (b"CREATE", Verb::Create),
    (b"DELETE", Verb::Delete),
    (b"SUBSCRIBE", Verb::Subscribe),
    (b"UNSUBSCRIBE", Verb::Unsubscribe),
    (b"RENAME", Verb::Rename),
    (b"LIST", Verb::List),
    (b"LSUB", Verb::Lsub),
    (b"STATUS", Verb::Status),
    (b"APPEND", Verb::Append),
    (b"SELECT", Verb::Select),
    (b"EXAMINE", Verb::Examine),
    (b"STORE", Verb::Store),
    (b"COPY", Verb::Copy),
    (b"FETCH", Verb::Fetch),
    (b"SEARCH", Verb::Search),
    (b"SORT", Verb::Sort),
    (b"THREAD", Verb::Thread),
    (b"ENABLE", Verb::Enable),
    (b"UID", Verb::Uid),
];

/// The commands that UID stands before (RFC 3501 §6.4.8, RFC 4315 §2.1).
#[derive(Clone, Copy, Debug, PartialEq, Eq)]
pub(crate) enum UidVerb {
    Search,
    Sort,
    Thread,
    Fetch,
    Store,
    Copy,
    Expunge,
}

static UID_VERBS: [(&[u8], UidVerb); 7] = [
    (b"SEARCH", UidVerb::Search),
    (b"SORT", UidVerb::Sort),
    (b"THREAD", UidVerb::Thread),
    (b"FETCH", UidVerb::Fetch),
    (b"STORE", UidVerb::Store),
    (b"COPY", UidVerb::Copy),
    (b"EXPUNGE", UidVerb::Expunge),
];

/// The name of a command behind UID.
pub(crate) fn read_uid_verb(reader: &mut Reader<'_>) -> Result<UidVerb, Fault>
    ensures { Reads (keyword_of uid_verbs reader.old) result reader.new }
{
    keyword(reader, &UID_VERBS)
}

/// The name of a command.
pub(crate) fn read_verb(reader: &mut Reader<'_>) -> Result<Verb, Fault>
    ensures { Reads (keyword_of verbs reader.old) result reader.new }
{
    keyword(reader, &VERBS)
}

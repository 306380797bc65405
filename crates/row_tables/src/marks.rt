// The rows of the messages of mailboxes, of those that are gone, and of flags.
use octets::Octets;
use ordered_rows::{Key, Keyed, Owned};

/// A row of `mailbox_messages`: a message in a mailbox. `modseq` is its mod-sequence (RFC 7162 §3.1); `seconds` its internal date, in
/// seconds since 1970 began (UTC), and `zone` the zone in which that is shown, in minutes east of UTC.
#[derive(Drop, Debug)]
pub struct MailboxMessage {
    pub mailbox: u32,
    pub uid: u32,
    pub message: u64,
    pub modseq: u64,
    pub seconds: i64,
    pub zone: i16,
}

/// A row of `deleted_messages`: a UID that is gone from a mailbox, and the mod-sequence at which it went.
#[derive(Drop, Debug)]
pub struct DeletedMessage {
    pub mailbox: u32,
    pub uid: u32,
    pub modseq: u64,
}

/// A row of `flag_names`: a flag as it is printed, a keyword or a word such as `\Seen`. No two rows have the same name.
#[derive(Drop, Debug)]
pub struct FlagName {
    pub id: u64,
    pub name: Octets,
}

/// A row of `flags`: a flag that a message of a mailbox has.
#[derive(Drop, Debug)]
pub struct FlagRow {
    pub mailbox: u32,
    pub uid: u32,
    pub flag: u64,
}

impl Keyed for MailboxMessage {
    ghost use Rattle.row_tables.specs.Keys.{mailbox_message_key};

    ghost key_of = { mailbox_message_key };

    fn key(&self) -> Key<'_> {
        Key {
            place: self.uid as u64,
            ..Key::of_number(self.mailbox as u64)
        }
    }
}

impl Owned for MailboxMessage {
    ghost owner_of = { λ row. row.mailbox };

    fn owner(&self) -> u64 {
        self.mailbox as u64
    }
}

impl Keyed for DeletedMessage {
    ghost use Rattle.row_tables.specs.Keys.{deleted_message_key};

    ghost key_of = { deleted_message_key };

    fn key(&self) -> Key<'_> {
        Key {
            place: self.uid as u64,
            ..Key::of_number(self.mailbox as u64)
        }
    }
}

impl Keyed for FlagName {
    ghost use Rattle.row_tables.specs.Keys.{flag_name_key};

    ghost key_of = { flag_name_key };

    fn key(&self) -> Key<'_> {
        Key::of_number(self.id)
    }
}

impl Keyed for FlagRow {
    ghost use Rattle.row_tables.specs.Keys.{flag_key};

    ghost key_of = { flag_key };

    fn key(&self) -> Key<'_> {
        Key {
            place: self.uid as u64,
            item: self.flag,
            ..Key::of_number(self.mailbox as u64)
        }
    }
}

// Keys of rows from their columns.
ghost use Rattle.std.specs.Prelude.{◌≡◌};
ghost use Rattle.ordered_rows.specs.RowKey.{row_key};
ghost use Rattle.row_tables.specs.Keys.{after_key, owned_key, uid_key, uid_flag_key, part_key, field_key, item_key};

use ordered_rows::Key;

pub(crate) fn owned<'a>(owner: u32, name: &'a [u8]) -> Key<'a>
    ensures { row_key result ≡ owned_key owner name.now }
{
    Key {
        text: name,
        ..Key::of_number(owner as u64)
    }
}

// The key from which on names come after a name.
pub(crate) fn after<'a>(owner: u32, name: &'a [u8]) -> Key<'a>
    ensures { row_key result ≡ after_key owner name.now }
{
    Key {
        place: 1,
        ..owned(owner, name)
    }
}

pub(crate) fn of_uid<'a>(mailbox: u32, uid: u32) -> Key<'a>
    ensures { row_key result ≡ uid_key mailbox uid }
{
    Key {
        place: uid as u64,
        ..Key::of_number(mailbox as u64)
    }
}

pub(crate) fn of_flag<'a>(mailbox: u32, uid: u32, flag: u64) -> Key<'a>
    ensures { row_key result ≡ uid_flag_key mailbox uid flag }
{
    Key {
        place: uid as u64,
        item: flag,
        ..Key::of_number(mailbox as u64)
    }
}

pub(crate) fn part<'a>(message: u64, path: &'a [u8]) -> Key<'a>
    ensures { row_key result ≡ part_key message path.now }
{
    Key {
        text: path,
        ..Key::of_number(message)
    }
}

pub(crate) fn field<'a>(message: u64, path: &'a [u8], place: u32) -> Key<'a>
    ensures { row_key result ≡ field_key message path.now place }
{
    Key {
        text: path,
        place: place as u64,
        ..Key::of_number(message)
    }
}

pub(crate) fn item<'a>(message: u64, path: &'a [u8], place: u32, item: u32) -> Key<'a>
    ensures { row_key result ≡ item_key message path.now place item }
{
    Key {
        text: path,
        place: place as u64,
        item: item as u64,
        ..Key::of_number(message)
    }
}

// Rows of indexes, which find the rows of a table by their contents.
ghost use Rattle.std.specs.Prelude.{◌≡◌, IfOk};
ghost use Rattle.ordered_rows.specs.RowKey.{number_key};
ghost use Rattle.row_tables.specs.Keys.{content_entry_key};
ghost use Rattle.row_tables.specs.Indexes.{Contents};
ghost use Rattle.row_tables.specs.Names.{Names};

use octets::Octets;
use ordered_rows::{Key, Keyed, Owned};
use std::alloc::{AllocError, Global};

// Where a content is: the id of the row with these texts. A content of one text leaves the others empty.
#[derive(Drop)]
pub(crate) struct ContentEntry {
    pub(crate) text: Octets,
    pub(crate) second: Octets,
    pub(crate) third: Octets,
    pub(crate) id: u64,
}

// A row with a digest. Several rows may have it.
#[derive(Drop)]
pub(crate) struct DigestEntry {
    pub(crate) digest: [u8; 32],
    pub(crate) id: u64,
}

// A row with a name, which stands among those of a number. Several rows may have it.
#[derive(Drop)]
pub(crate) struct NameEntry {
    pub(crate) number: u32,
    pub(crate) name: Octets,
    pub(crate) id: u32,
}

// A row with an id and a content that no other row has.
pub(crate) trait Unique: Keyed {
    ghost contents: { Contents Self };

    fn id(&self) -> u64
        ensures id { result ≡ contents.id self.now }
        ensures key { Self.key_of self.now ≡ number_key result };

    fn entry(&self, alloc: Global) -> Result<ContentEntry, AllocError>
        ensures key { IfOk result (λ e. content_entry_key e ≡ contents.entry (contents.content self.now)) }
        ensures id { IfOk result (λ e. e.id ≡ contents.id self.now) };
}

// A row with an id and a name that others may have too. It is counted among the rows of the number among whose rows the name stands.
pub(crate) trait Named: Owned {
    ghost names: { Names Self };

    fn id(&self) -> u32
        ensures id { result ≡ names.id self.now }
        ensures key { Self.key_of self.now ≡ number_key result };

    fn number(&self) -> u32
        ensures { result ≡ names.number (names.place self.now) };

    fn name(&self) -> &Octets
        ensures { result.now ≡ names.name (names.place self.now) };

    ghost keyed: { (row : Self) → Self.Keyed.key_of row ≡ number_key (names.id row) };

    ghost owned: { (row : Self) → Self.Owned.owner_of row ≡ names.number (names.place row) };
}

impl Keyed for ContentEntry {
    ghost use Rattle.row_tables.specs.Keys.{content_entry_key};

    ghost key_of = { content_entry_key };

    fn key(&self) -> Key<'_> {
        Key {
            text: self.text.as_slice(),
            second: self.second.as_slice(),
            third: self.third.as_slice(),
            ..Key::of_number(0)
        }
    }
}

impl Keyed for DigestEntry {
    ghost use Rattle.row_tables.specs.Keys.{digest_entry_key};

    ghost key_of = { digest_entry_key };

    fn key(&self) -> Key<'_> {
        Key {
            text: &self.digest,
            item: self.id,
            ..Key::of_number(0)
        }
    }
}

impl Keyed for NameEntry {
    ghost use Rattle.row_tables.specs.Names.{name_entry_key};

    ghost key_of = { name_entry_key };

    fn key(&self) -> Key<'_> {
        Key {
            text: self.name.as_slice(),
            item: self.id as u64,
            ..Key::of_number(self.number as u64)
        }
    }
}

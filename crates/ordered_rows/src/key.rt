// What a row is found by.
ghost use Rattle.std.specs.Prelude.{◌≡◌, []};
ghost use Rattle.ordered_rows.specs.RowKey.{RowKey, row_key, number_key, key_cmp, same_key, same_group};

use std::cmp::Ordering;

/// The key of a row: a number, up to three texts, and two further numbers. Keys compare by these in order. A part that the keys
/// of a table lack is 0 or empty. A key takes no memory: its texts are borrowed.
#[derive(Clone, Copy)]
pub struct Key<'a> {
    pub number: u64,
    pub text: &'a [u8],
    pub second: &'a [u8],
    pub third: &'a [u8],
    pub place: u64,
    pub item: u64,
}

impl<'a> Key<'a> {
    /// The key of a row that has a number alone.
    pub fn of_number(number: u64) -> Key<'a>
        ensures { row_key result ≡ number_key number }
    {
        Key {
            number,
            text: &[],
            second: &[],
            third: &[],
            place: 0,
            item: 0,
        }
    }
}

/// A row of a table, which says its key.
pub trait Keyed: Drop {
    /// The key, without where it lies in memory.
    ghost key_of: { Self → RowKey };

    fn key(&self) -> Key<'_>
        ensures { row_key result ≡ key_of self.now };
}

pub(crate) fn compare(a: Key<'_>, b: Key<'_>) -> Ordering
    ensures { result ≡ key_cmp (row_key a.entry) (row_key b.entry) }
{
    a.number
        .cmp(&b.number)
        .then(a.text.cmp(b.text))
        .then(a.second.cmp(b.second))
        .then(a.third.cmp(b.third))
        .then(a.place.cmp(&b.place))
        .then(a.item.cmp(&b.item))
}

pub(crate) fn is_same(a: Key<'_>, b: Key<'_>) -> bool
    ensures { result ≡ same_key (row_key a.entry) (row_key b.entry) }
{
    a.second == b.second
        && a.third == b.third
        && a.text == b.text
        && a.item == b.item
        && a.place == b.place
        && a.number == b.number
}

pub(crate) fn is_beside(a: Key<'_>, b: Key<'_>) -> bool
    ensures { result ≡ same_group (row_key a.entry) (row_key b.entry) }
{
    a.second == b.second
        && a.third == b.third
        && a.text == b.text
        && a.place == b.place
        && a.number == b.number
}

// The rows of the values of typed fields.
use octets::Octets;
use ordered_rows::{Key, Keyed};

/// A row of `address_fields`: an item of a field of addresses. `item` counts the items of the field from 0. `kind` is 0 for an
/// address, 1 for the start of a group and 2 for its end. `address` is the `addresses` row, for a group the one with its name and
/// without local part and domain, and 0 for a group's end.
#[derive(Drop, Debug)]
pub struct AddressField {
    pub message: u64,
    pub path: Octets,
    pub place: u32,
    pub item: u32,
    pub kind: u8,
    pub address: u64,
}

/// A row of `date_fields`: the date of a field as it is printed, its instant in seconds since 1970 began (UTC), and its day as it
/// is written, in days since 1 January 1970.
#[derive(Drop, Debug)]
pub struct DateField {
    pub message: u64,
    pub path: Octets,
    pub place: u32,
    pub value: Octets,
    pub seconds: i64,
    pub day: i64,
}

/// A row of `message_ids`: an id of a field of ids, with its `<` and `>`. `item` counts the ids of the field from 0.
#[derive(Drop, Debug)]
pub struct MessageId {
    pub message: u64,
    pub path: Octets,
    pub place: u32,
    pub item: u32,
    pub value: Octets,
}

impl Keyed for AddressField {
    ghost use Rattle.row_tables.specs.Keys.{address_field_key};

    ghost key_of = { address_field_key };

    fn key(&self) -> Key<'_> {
        Key {
            text: self.path.as_slice(),
            place: self.place as u64,
            item: self.item as u64,
            ..Key::of_number(self.message)
        }
    }
}

impl Keyed for DateField {
    ghost use Rattle.row_tables.specs.Keys.{date_field_key};

    ghost key_of = { date_field_key };

    fn key(&self) -> Key<'_> {
        Key {
            text: self.path.as_slice(),
            place: self.place as u64,
            ..Key::of_number(self.message)
        }
    }
}

impl Keyed for MessageId {
    ghost use Rattle.row_tables.specs.Keys.{message_id_key};

    ghost key_of = { message_id_key };

    fn key(&self) -> Key<'_> {
        Key {
            text: self.path.as_slice(),
            place: self.place as u64,
            item: self.item as u64,
            ..Key::of_number(self.message)
        }
    }
}

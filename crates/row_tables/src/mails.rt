// The rows of messages, of their parts and of the fields of these.
use octets::Octets;
use ordered_rows::{Key, Keyed};

/// A row of `messages`. `size` counts the bytes of the message as it is printed.
#[derive(Drop, Debug)]
pub struct MessageRow {
    pub id: u64,
    pub size: u64,
}

/// A row of `part_numbers`. `path` is empty for the message itself; the i-th child of a multipart at `P` has `P.i` (or `i` at the
/// top), and the message in a nested part has `P.0`. `kind` is 0 for a plain leaf, 1 for a base64 leaf, 2 for a multipart and 3
/// for a nested message. `body` is the `bodyparts` row of a leaf, and 0 for the others.
#[derive(Drop, Debug)]
pub struct PartNumber {
    pub message: u64,
    pub path: Octets,
    pub kind: u8,
    pub body: u64,
}

/// A row of `header_fields`. `place` counts the fields of the part from 0. `form` is 0 for text, 1 for addresses, 2 for a date and
/// 3 for message ids; `value` is empty but for form 0.
#[derive(Drop, Debug)]
pub struct HeaderField {
    pub message: u64,
    pub path: Octets,
    pub place: u32,
    pub name: u64,
    pub form: u8,
    pub value: Octets,
}

/// A row of `unparsed_messages`: a message that couldn't be read and stands in a wrapper. `reason` is the number of the reason, from
/// 1 to 8.
#[derive(Drop, Debug)]
pub struct UnparsedMessage {
    pub message: u64,
    pub reason: u8,
}

impl Keyed for MessageRow {
    ghost use Rattle.row_tables.specs.Keys.{message_key};

    ghost key_of = { message_key };

    fn key(&self) -> Key<'_> {
        Key::of_number(self.id)
    }
}

impl Keyed for PartNumber {
    ghost use Rattle.row_tables.specs.Keys.{part_number_key};

    ghost key_of = { part_number_key };

    fn key(&self) -> Key<'_> {
        Key {
            text: self.path.as_slice(),
            ..Key::of_number(self.message)
        }
    }
}

impl Keyed for HeaderField {
    ghost use Rattle.row_tables.specs.Keys.{header_field_key};

    ghost key_of = { header_field_key };

    fn key(&self) -> Key<'_> {
        Key {
            text: self.path.as_slice(),
            place: self.place as u64,
            ..Key::of_number(self.message)
        }
    }
}

impl Keyed for UnparsedMessage {
    ghost use Rattle.row_tables.specs.Keys.{unparsed_message_key};

    ghost key_of = { unparsed_message_key };

    fn key(&self) -> Key<'_> {
        Key::of_number(self.message)
    }
}

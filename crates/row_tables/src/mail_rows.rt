// The calls that give rows of messages, of their parts and fields, and of the values of these.
ghost use Rattle.std.specs.Prelude.{◌≡◌};
ghost use Rattle.std.specs.Option.{option_copied};
ghost use Rattle.ordered_rows.specs.RowKey.{number_key};
ghost use Rattle.ordered_rows.specs.Listed.{IsInOrder, IsNewNumber, row_at, rows_from};
ghost use Rattle.row_tables.specs.Keys.{part_key, field_key, item_key, message_key, part_number_key, header_field_key, address_field_key, date_field_key, message_id_key, unparsed_message_key};
ghost use Rattle.row_tables.specs.References.{addresses_at, addresses_of, dates_of, fields_at, fields_of, ids_at, ids_of, parts_of};

use crate::keys::{field, item, part};
use crate::mails::{HeaderField, MessageRow, PartNumber, UnparsedMessage};
use crate::tables::Tables;
use crate::values::{AddressField, DateField, MessageId};
use ordered_rows::{Group, Key, Numbered, Rows, Under};

impl Tables {
    pub fn messages_row(&self, key: u64) -> Option<&MessageRow>
        ensures { option_copied result ≡ row_at message_key (number_key key) self.now.mails.messages }
    {
        let mails = &self.mails;
        mails.messages.get(Key::of_number(key))
    }

    pub fn messages_rows(&self) -> Rows<'_, MessageRow>
        ensures rows { result ≡ self.now.mails.messages }
        ensures order { IsInOrder message_key self.now.mails.messages }
    {
        let mails = &self.mails;
        mails.messages.rows()
    }

    pub fn messages_rows_from(&self, key: u64) -> Rows<'_, MessageRow>
        ensures rows { result ≡ rows_from message_key (number_key key) self.now.mails.messages }
        ensures order { IsInOrder message_key self.now.mails.messages }
    {
        let mails = &self.mails;
        mails.messages.rows_from(Key::of_number(key))
    }

    /// The key is the message and the path.
    pub fn part_numbers_row(&self, key: (u64, &[u8])) -> Option<&PartNumber>
        ensures { option_copied result ≡ row_at part_number_key (part_key key.entry.0 key.entry.1.now) self.now.mails.part_numbers }
    {
        let mails = &self.mails;
        mails.part_numbers.get(part(key.0, key.1))
    }

    pub fn part_numbers_rows(&self) -> Rows<'_, PartNumber>
        ensures rows { result ≡ self.now.mails.part_numbers }
        ensures order { IsInOrder part_number_key self.now.mails.part_numbers }
    {
        let mails = &self.mails;
        mails.part_numbers.rows()
    }

    /// The key is the message and the path.
    pub fn part_numbers_rows_from(&self, key: (u64, &[u8])) -> Rows<'_, PartNumber>
        ensures rows { result ≡ rows_from part_number_key (part_key key.entry.0 key.entry.1.now) self.now.mails.part_numbers }
        ensures order { IsInOrder part_number_key self.now.mails.part_numbers }
    {
        let mails = &self.mails;
        mails.part_numbers.rows_from(part(key.0, key.1))
    }

    /// The key is the message, the path and the place.
    pub fn header_fields_row(&self, key: (u64, &[u8], u32)) -> Option<&HeaderField>
        ensures { option_copied result
            ≡ row_at header_field_key (field_key key.entry.0 key.entry.1.now key.entry.2) self.now.mails.header_fields }
    {
        let mails = &self.mails;
        mails.header_fields.get(field(key.0, key.1, key.2))
    }

    pub fn header_fields_rows(&self) -> Rows<'_, HeaderField>
        ensures rows { result ≡ self.now.mails.header_fields }
        ensures order { IsInOrder header_field_key self.now.mails.header_fields }
    {
        let mails = &self.mails;
        mails.header_fields.rows()
    }

    /// The key is the message, the path and the place.
    pub fn header_fields_rows_from(&self, key: (u64, &[u8], u32)) -> Rows<'_, HeaderField>
        ensures rows { result
            ≡ rows_from header_field_key (field_key key.entry.0 key.entry.1.now key.entry.2) self.now.mails.header_fields }
        ensures order { IsInOrder header_field_key self.now.mails.header_fields }
    {
        let mails = &self.mails;
        mails.header_fields.rows_from(field(key.0, key.1, key.2))
    }

    /// The key is the message, the path, the place and the item.
    pub fn address_fields_row(&self, key: (u64, &[u8], u32, u32)) -> Option<&AddressField>
        ensures { option_copied result ≡ row_at address_field_key (item_key key.entry.0 key.entry.1.now key.entry.2 key.entry.3) self.now.mails.address_fields }
    {
        let mails = &self.mails;
        mails.address_fields.get(item(key.0, key.1, key.2, key.3))
    }

    pub fn address_fields_rows(&self) -> Rows<'_, AddressField>
        ensures rows { result ≡ self.now.mails.address_fields }
        ensures order { IsInOrder address_field_key self.now.mails.address_fields }
    {
        let mails = &self.mails;
        mails.address_fields.rows()
    }

    /// The key is the message, the path, the place and the item.
    pub fn address_fields_rows_from(&self, key: (u64, &[u8], u32, u32)) -> Rows<'_, AddressField>
        ensures rows { result ≡ rows_from address_field_key (item_key key.entry.0 key.entry.1.now key.entry.2 key.entry.3) self.now.mails.address_fields }
        ensures order { IsInOrder address_field_key self.now.mails.address_fields }
    {
        let mails = &self.mails;
        mails
            .address_fields
            .rows_from(item(key.0, key.1, key.2, key.3))
    }

    /// The key is the message, the path and the place.
    pub fn date_fields_row(&self, key: (u64, &[u8], u32)) -> Option<&DateField>
        ensures { option_copied result ≡ row_at date_field_key (field_key key.entry.0 key.entry.1.now key.entry.2) self.now.mails.date_fields }
    {
        let mails = &self.mails;
        mails.date_fields.get(field(key.0, key.1, key.2))
    }

    pub fn date_fields_rows(&self) -> Rows<'_, DateField>
        ensures rows { result ≡ self.now.mails.date_fields }
        ensures order { IsInOrder date_field_key self.now.mails.date_fields }
    {
        let mails = &self.mails;
        mails.date_fields.rows()
    }

    /// The key is the message, the path and the place.
    pub fn date_fields_rows_from(&self, key: (u64, &[u8], u32)) -> Rows<'_, DateField>
        ensures rows { result ≡ rows_from date_field_key (field_key key.entry.0 key.entry.1.now key.entry.2) self.now.mails.date_fields }
        ensures order { IsInOrder date_field_key self.now.mails.date_fields }
    {
        let mails = &self.mails;
        mails.date_fields.rows_from(field(key.0, key.1, key.2))
    }

    /// The key is the message, the path, the place and the item.
    pub fn message_ids_row(&self, key: (u64, &[u8], u32, u32)) -> Option<&MessageId>
        ensures { option_copied result ≡ row_at message_id_key (item_key key.entry.0 key.entry.1.now key.entry.2 key.entry.3) self.now.mails.message_ids }
    {
        let mails = &self.mails;
        mails.message_ids.get(item(key.0, key.1, key.2, key.3))
    }

    pub fn message_ids_rows(&self) -> Rows<'_, MessageId>
        ensures rows { result ≡ self.now.mails.message_ids }
        ensures order { IsInOrder message_id_key self.now.mails.message_ids }
    {
        let mails = &self.mails;
        mails.message_ids.rows()
    }

    /// The key is the message, the path, the place and the item.
    pub fn message_ids_rows_from(&self, key: (u64, &[u8], u32, u32)) -> Rows<'_, MessageId>
        ensures rows { result ≡ rows_from message_id_key (item_key key.entry.0 key.entry.1.now key.entry.2 key.entry.3) self.now.mails.message_ids }
        ensures order { IsInOrder message_id_key self.now.mails.message_ids }
    {
        let mails = &self.mails;
        mails
            .message_ids
            .rows_from(item(key.0, key.1, key.2, key.3))
    }

    /// The key is the message.
    pub fn unparsed_messages_row(&self, key: u64) -> Option<&UnparsedMessage>
        ensures { option_copied result ≡ row_at unparsed_message_key (number_key key) self.now.mails.unparsed_messages }
    {
        let mails = &self.mails;
        mails.unparsed_messages.get(Key::of_number(key))
    }

    pub fn unparsed_messages_rows(&self) -> Rows<'_, UnparsedMessage>
        ensures rows { result ≡ self.now.mails.unparsed_messages }
        ensures order { IsInOrder unparsed_message_key self.now.mails.unparsed_messages }
    {
        let mails = &self.mails;
        mails.unparsed_messages.rows()
    }

    /// The key is the message.
    pub fn unparsed_messages_rows_from(&self, key: u64) -> Rows<'_, UnparsedMessage>
        ensures rows { result ≡ rows_from unparsed_message_key (number_key key) self.now.mails.unparsed_messages }
        ensures order { IsInOrder unparsed_message_key self.now.mails.unparsed_messages }
    {
        let mails = &self.mails;
        mails.unparsed_messages.rows_from(Key::of_number(key))
    }

    /// The id for a new message.
    pub fn new_message_id(&self) -> u64
        ensures { IsNewNumber message_key self.now.mails.messages result }
    {
        let mails = &self.mails;
        mails.messages.new_number()
    }

    /// The parts of a message, in the order of their paths as texts.
    pub fn part_numbers_of(&self, message: u64) -> Numbered<'_, PartNumber>
        ensures { result ≡ parts_of message self.now.mails.part_numbers }
    {
        let mails = &self.mails;
        mails.part_numbers.numbered(message)
    }

    /// The fields of a message and of its parts, in the order of the paths as texts and of the places.
    pub fn header_fields_of(&self, message: u64) -> Numbered<'_, HeaderField>
        ensures { result ≡ fields_of message self.now.mails.header_fields }
    {
        let mails = &self.mails;
        mails.header_fields.numbered(message)
    }

    /// The items of the address fields of a message and of its parts, in the order of their keys.
    pub fn address_fields_of(&self, message: u64) -> Numbered<'_, AddressField>
        ensures { result ≡ addresses_of message self.now.mails.address_fields }
    {
        let mails = &self.mails;
        mails.address_fields.numbered(message)
    }

    /// The dates of a message and of its parts, in the order of their keys.
    pub fn date_fields_of(&self, message: u64) -> Numbered<'_, DateField>
        ensures { result ≡ dates_of message self.now.mails.date_fields }
    {
        let mails = &self.mails;
        mails.date_fields.numbered(message)
    }

    /// The ids in the fields of a message and of its parts, in the order of their keys.
    pub fn message_ids_of(&self, message: u64) -> Numbered<'_, MessageId>
        ensures { result ≡ ids_of message self.now.mails.message_ids }
    {
        let mails = &self.mails;
        mails.message_ids.numbered(message)
    }

    /// The fields of the part of a message, in the order of their places.
    pub fn header_fields_at<'a>(&'a self, message: u64, path: &'a [u8]) -> Under<'a, HeaderField>
        ensures { result ≡ fields_at message path.now self.now.mails.header_fields }
    {
        let mails = &self.mails;
        mails.header_fields.under(message, path)
    }

    /// The items of one address field, in their order.
    pub fn address_fields_at<'a>(
        &'a self,
        message: u64,
        path: &'a [u8],
        place: u32,
    ) -> Group<'a, AddressField>
        ensures { result ≡ addresses_at message path.now place self.now.mails.address_fields }
    {
        let mails = &self.mails;
        mails.address_fields.group(field(message, path, place))
    }

    /// The ids of one field, in their order.
    pub fn message_ids_at<'a>(
        &'a self,
        message: u64,
        path: &'a [u8],
        place: u32,
    ) -> Group<'a, MessageId>
        ensures { result ≡ ids_at message path.now place self.now.mails.message_ids }
    {
        let mails = &self.mails;
        mails.message_ids.group(field(message, path, place))
    }
}

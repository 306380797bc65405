// The tables of messages, of their parts and fields, and of the values of these.
ghost use Rattle.std.specs.Prelude.{◌≡◌, OnOk, OnErr, None};
ghost use Rattle.ordered_rows.specs.Listed.{row_at, with_row};
ghost use Rattle.row_tables.specs.Keys.{message_key, part_number_key, header_field_key, address_field_key, date_field_key, message_id_key, unparsed_message_key};
ghost use Rattle.row_tables.specs.TableRows.{no_mails};

use crate::mails::{HeaderField, MessageRow, PartNumber, UnparsedMessage};
use crate::values::{AddressField, DateField, MessageId};
use ordered_rows::Table;
use std::alloc::{AllocError, Global};
use std::marker::Model;

// Contracts see the record of the rows.
#[derive(Drop)]
pub(crate) struct MailTables {
    pub(crate) messages: Table<MessageRow>,
    pub(crate) part_numbers: Table<PartNumber>,
    pub(crate) header_fields: Table<HeaderField>,
    pub(crate) address_fields: Table<AddressField>,
    pub(crate) date_fields: Table<DateField>,
    pub(crate) message_ids: Table<MessageId>,
    pub(crate) unparsed_messages: Table<UnparsedMessage>,
}

impl Model for MailTables {
    ghost use Rattle.row_tables.specs.TableRows.{MailRows};

    ghost Value = { MailRows };

    ghost view = { λ t. record { messages = t.messages; part_numbers = t.part_numbers; header_fields = t.header_fields; address_fields = t.address_fields; date_fields = t.date_fields; message_ids = t.message_ids; unparsed_messages = t.unparsed_messages } };
}

impl MailTables {
    pub(crate) fn new(alloc: Global) -> MailTables
        ensures { result ≡ no_mails }
    {
        MailTables {
            messages: Table::new(alloc),
            part_numbers: Table::new(alloc),
            header_fields: Table::new(alloc),
            address_fields: Table::new(alloc),
            date_fields: Table::new(alloc),
            message_ids: Table::new(alloc),
            unparsed_messages: Table::new(alloc),
        }
    }

    pub(crate) fn insert_message(&mut self, row: MessageRow) -> Result<(), AllocError>
        requires { row_at message_key (message_key row) self.old.messages ≡ None }
        ensures ok { OnOk result (self.new ≡ record self.old { messages = with_row message_key row self.old.messages }) }
        ensures err { OnErr result (self.new ≡ self.old) }
    {
        self.messages.insert(row)
    }

    pub(crate) fn insert_part_number(&mut self, row: PartNumber) -> Result<(), AllocError>
        requires { row_at part_number_key (part_number_key row) self.old.part_numbers ≡ None }
        ensures ok { OnOk result (self.new ≡ record self.old { part_numbers = with_row part_number_key row self.old.part_numbers }) }
        ensures err { OnErr result (self.new ≡ self.old) }
    {
        self.part_numbers.insert(row)
    }

    pub(crate) fn insert_header_field(&mut self, row: HeaderField) -> Result<(), AllocError>
        requires { row_at header_field_key (header_field_key row) self.old.header_fields ≡ None }
        ensures ok { OnOk result (self.new ≡ record self.old { header_fields = with_row header_field_key row self.old.header_fields }) }
        ensures err { OnErr result (self.new ≡ self.old) }
    {
        self.header_fields.insert(row)
    }

    pub(crate) fn insert_address_field(&mut self, row: AddressField) -> Result<(), AllocError>
        requires { row_at address_field_key (address_field_key row) self.old.address_fields ≡ None }
        ensures ok { OnOk result (self.new ≡ record self.old { address_fields = with_row address_field_key row self.old.address_fields }) }
        ensures err { OnErr result (self.new ≡ self.old) }
    {
        self.address_fields.insert(row)
    }

    pub(crate) fn insert_date_field(&mut self, row: DateField) -> Result<(), AllocError>
        requires { row_at date_field_key (date_field_key row) self.old.date_fields ≡ None }
        ensures ok { OnOk result (self.new ≡ record self.old { date_fields = with_row date_field_key row self.old.date_fields }) }
        ensures err { OnErr result (self.new ≡ self.old) }
    {
        self.date_fields.insert(row)
    }

    pub(crate) fn insert_message_id(&mut self, row: MessageId) -> Result<(), AllocError>
        requires { row_at message_id_key (message_id_key row) self.old.message_ids ≡ None }
        ensures ok { OnOk result (self.new ≡ record self.old { message_ids = with_row message_id_key row self.old.message_ids }) }
        ensures err { OnErr result (self.new ≡ self.old) }
    {
        self.message_ids.insert(row)
    }

    pub(crate) fn insert_unparsed_message(&mut self, row: UnparsedMessage) -> Result<(), AllocError>
        requires { row_at unparsed_message_key (unparsed_message_key row) self.old.unparsed_messages ≡ None }
        ensures ok { OnOk result (self.new ≡ record self.old { unparsed_messages = with_row unparsed_message_key row self.old.unparsed_messages }) }
        ensures err { OnErr result (self.new ≡ self.old) }
    {
        self.unparsed_messages.insert(row)
    }
}

// The rows of messages, parts and fields as lines.
use crate::cells::{Cell, print_line};
use crate::lines::Lined;
use row_tables::{HeaderField, MessageRow, PartNumber, UnparsedMessage};
use std::alloc::AllocError;

impl Lined for MessageRow {
    ghost use Rattle.admin_texts.specs.Listing.{message_line};

    ghost line_of = { message_line };

    fn print(&self, out: &mut Vec<u8>) -> Result<(), AllocError> {
        let cells = [Cell::Number(self.id), Cell::Number(self.size)];
        print_line(out, b"messages", &cells)
    }
}

impl Lined for PartNumber {
    ghost use Rattle.admin_texts.specs.Listing.{part_number_line};

    ghost line_of = { part_number_line };

    fn print(&self, out: &mut Vec<u8>) -> Result<(), AllocError> {
        let cells = [
            Cell::Number(self.message),
            Cell::Text(self.path.as_slice()),
            Cell::Number(self.kind as u64),
            Cell::Number(self.body),
        ];
        print_line(out, b"part_numbers", &cells)
    }
}

impl Lined for HeaderField {
    ghost use Rattle.admin_texts.specs.Listing.{header_field_line};

    ghost line_of = { header_field_line };

    fn print(&self, out: &mut Vec<u8>) -> Result<(), AllocError> {
        let cells = [
            Cell::Number(self.message),
            Cell::Text(self.path.as_slice()),
            Cell::Number(self.place as u64),
            Cell::Number(self.name),
            Cell::Number(self.form as u64),
            Cell::Text(self.value.as_slice()),
        ];
        print_line(out, b"header_fields", &cells)
    }
}

impl Lined for UnparsedMessage {
    ghost use Rattle.admin_texts.specs.Listing.{unparsed_message_line};

    ghost line_of = { unparsed_message_line };

    fn print(&self, out: &mut Vec<u8>) -> Result<(), AllocError> {
        let cells = [Cell::Number(self.message), Cell::Number(self.reason as u64)];
        print_line(out, b"unparsed_messages", &cells)
    }
}

// The rows of the values of fields as lines.
use crate::cells::{Cell, print_line};
use crate::lines::Lined;
use row_tables::{AddressField, DateField, MessageId};
use std::alloc::AllocError;

impl Lined for AddressField {
    ghost use Rattle.admin_texts.specs.Listing.{address_field_line};

    ghost line_of = { address_field_line };

    fn print(&self, out: &mut Vec<u8>) -> Result<(), AllocError> {
        let cells = [
            Cell::Number(self.message),
            Cell::Text(self.path.as_slice()),
            Cell::Number(self.place as u64),
            Cell::Number(self.item as u64),
            Cell::Number(self.kind as u64),
            Cell::Number(self.address),
        ];
        print_line(out, b"address_fields", &cells)
    }
}

impl Lined for DateField {
    ghost use Rattle.admin_texts.specs.Listing.{date_field_line};

    ghost line_of = { date_field_line };

    fn print(&self, out: &mut Vec<u8>) -> Result<(), AllocError> {
        let cells = [
            Cell::Number(self.message),
            Cell::Text(self.path.as_slice()),
            Cell::Number(self.place as u64),
            Cell::Text(self.value.as_slice()),
            Cell::Integer(&self.seconds),
            Cell::Integer(&self.day),
        ];
        print_line(out, b"date_fields", &cells)
    }
}

impl Lined for MessageId {
    ghost use Rattle.admin_texts.specs.Listing.{message_id_line};

    ghost line_of = { message_id_line };

    fn print(&self, out: &mut Vec<u8>) -> Result<(), AllocError> {
        let cells = [
            Cell::Number(self.message),
            Cell::Text(self.path.as_slice()),
            Cell::Number(self.place as u64),
            Cell::Number(self.item as u64),
            Cell::Text(self.value.as_slice()),
        ];
        print_line(out, b"message_ids", &cells)
    }
}

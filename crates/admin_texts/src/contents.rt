// The rows of contents that messages share as lines.
use crate::cells::{Cell, print_line};
use crate::lines::Lined;
use row_tables::{AddressRow, BodyPart, FieldName};
use std::alloc::AllocError;

impl Lined for BodyPart {
    ghost use Rattle.admin_texts.specs.Listing.{body_part_line};

    ghost line_of = { body_part_line };

    fn print(&self, out: &mut Vec<u8>) -> Result<(), AllocError> {
        let cells = [
            Cell::Number(self.id),
            Cell::Digest(&self.digest),
            Cell::Text(self.content.as_slice()),
        ];
        print_line(out, b"bodyparts", &cells)
    }
}

impl Lined for FieldName {
    ghost use Rattle.admin_texts.specs.Listing.{field_name_line};

    ghost line_of = { field_name_line };

    fn print(&self, out: &mut Vec<u8>) -> Result<(), AllocError> {
        let cells = [Cell::Number(self.id), Cell::Text(self.name.as_slice())];
        print_line(out, b"field_names", &cells)
    }
}

impl Lined for AddressRow {
    ghost use Rattle.admin_texts.specs.Listing.{address_line};

    ghost line_of = { address_line };

    fn print(&self, out: &mut Vec<u8>) -> Result<(), AllocError> {
        let cells = [
            Cell::Number(self.id),
            Cell::Text(self.name.as_slice()),
            Cell::Text(self.local.as_slice()),
            Cell::Text(self.domain.as_slice()),
        ];
        print_line(out, b"addresses", &cells)
    }
}

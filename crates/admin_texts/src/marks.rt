// The rows of the messages of mailboxes, of those that are gone, and of flags as lines.
use crate::cells::{Cell, print_line};
use crate::lines::Lined;
use row_tables::{DeletedMessage, FlagName, FlagRow, MailboxMessage};
use std::alloc::AllocError;

impl Lined for MailboxMessage {
    ghost use Rattle.admin_texts.specs.Listing.{mailbox_message_line};

    ghost line_of = { mailbox_message_line };

    fn print(&self, out: &mut Vec<u8>) -> Result<(), AllocError> {
        let zone = self.zone as i64;
        let cells = [
            Cell::Number(self.mailbox as u64),
            Cell::Number(self.uid as u64),
            Cell::Number(self.message),
            Cell::Number(self.modseq),
            Cell::Integer(&self.seconds),
            Cell::Integer(&zone),
        ];
        print_line(out, b"mailbox_messages", &cells)
    }
}

impl Lined for DeletedMessage {
    ghost use Rattle.admin_texts.specs.Listing.{deleted_message_line};

    ghost line_of = { deleted_message_line };

    fn print(&self, out: &mut Vec<u8>) -> Result<(), AllocError> {
        let cells = [
            Cell::Number(self.mailbox as u64),
            Cell::Number(self.uid as u64),
            Cell::Number(self.modseq),
        ];
        print_line(out, b"deleted_messages", &cells)
    }
}

impl Lined for FlagName {
    ghost use Rattle.admin_texts.specs.Listing.{flag_name_line};

    ghost line_of = { flag_name_line };

    fn print(&self, out: &mut Vec<u8>) -> Result<(), AllocError> {
        let cells = [Cell::Number(self.id), Cell::Text(self.name.as_slice())];
        print_line(out, b"flag_names", &cells)
    }
}

impl Lined for FlagRow {
    ghost use Rattle.admin_texts.specs.Listing.{flag_line};

    ghost line_of = { flag_line };

    fn print(&self, out: &mut Vec<u8>) -> Result<(), AllocError> {
        let cells = [
            Cell::Number(self.mailbox as u64),
            Cell::Number(self.uid as u64),
            Cell::Number(self.flag),
        ];
        print_line(out, b"flags", &cells)
    }
}

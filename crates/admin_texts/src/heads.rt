// The rows of users, mailboxes, subscriptions and counters as lines.
use crate::cells::{Cell, print_line};
use crate::lines::Lined;
use row_tables::{Counters, Mailbox, Subscription, User};
use std::alloc::AllocError;

impl Lined for User {
    ghost use Rattle.admin_texts.specs.Listing.{user_line};

    ghost line_of = { user_line };

    fn print(&self, out: &mut Vec<u8>) -> Result<(), AllocError> {
        let cells = [
            Cell::Number(self.id as u64),
            Cell::Text(self.name.as_slice()),
            Cell::Digest(&self.verifier),
        ];
        print_line(out, b"users", &cells)
    }
}

impl Lined for Mailbox {
    ghost use Rattle.admin_texts.specs.Listing.{mailbox_line};

    ghost line_of = { mailbox_line };

    fn print(&self, out: &mut Vec<u8>) -> Result<(), AllocError> {
        let cells = [
            Cell::Number(self.id as u64),
            Cell::Number(self.owner as u64),
            Cell::Text(self.name.as_slice()),
            Cell::Number(self.uidnext as u64),
            Cell::Number(self.first_recent as u64),
            Cell::Number(self.highest),
        ];
        print_line(out, b"mailboxes", &cells)
    }
}

impl Lined for Subscription {
    ghost use Rattle.admin_texts.specs.Listing.{subscription_line};

    ghost line_of = { subscription_line };

    fn print(&self, out: &mut Vec<u8>) -> Result<(), AllocError> {
        let cells = [
            Cell::Number(self.owner as u64),
            Cell::Text(self.name.as_slice()),
        ];
        print_line(out, b"subscriptions", &cells)
    }
}

impl Lined for Counters {
    ghost use Rattle.admin_texts.specs.Listing.{counters_line};

    ghost line_of = { counters_line };

    fn print(&self, out: &mut Vec<u8>) -> Result<(), AllocError> {
        let cells = [Cell::Number(self.next as u64)];
        print_line(out, b"counters", &cells)
    }
}

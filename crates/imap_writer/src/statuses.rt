//! The answer to STATUS.
ghost use Rattle.std.specs.Prelude.{◌≡◌, ◌++◌, OnOk};
ghost use Rattle.imap_grammar.specs.StatusItems.{status_text};
ghost use Rattle.imap_writer.specs.Statuses.{status_line, status_data_text};

use crate::spaced::{Shown, print_spaced};
use crate::texts::{push_number, push_text};
use imap_grammar::StatusItem;
use std::alloc::AllocError;

/// An item of STATUS with its number.
#[derive(Clone, Copy, Debug, PartialEq, Eq)]
pub struct StatusData {
    pub item: StatusItem,
    pub number: u64,
}

fn name_of(item: StatusItem) -> &'static [u8]
    ensures { result.now ≡ status_text item }
{
    match item {
        StatusItem::Messages => b"MESSAGES",
        StatusItem::Recent => b"RECENT",
        StatusItem::Uidnext => b"UIDNEXT",
        StatusItem::Uidvalidity => b"UIDVALIDITY",
        StatusItem::Unseen => b"UNSEEN",
        StatusItem::Highest => b"HIGHESTMODSEQ",
    }
}

impl Shown for StatusData {
    ghost text_of = { status_data_text };

    fn print(&self, out: &mut Vec<u8>) -> Result<(), AllocError> {
        out.extend_from_slice(name_of(self.item))?;
        out.extend_from_slice(b" ")?;
        push_number(out, self.number)
    }
}

/// `* STATUS "name" (ITEM n ..)`: the numbers of a mailbox, in the order given.
#[tactic(auto, unfolding(crate::specs::Statuses::status_line))]
pub fn push_status(out: &mut Vec<u8>, name: &[u8], all: &[StatusData]) -> Result<(), AllocError>
    ensures { OnOk result (out.new.items ≡ out.old.items ++ status_line name.now all.now) }
{
    out.extend_from_slice(b"* STATUS ")?;
    push_text(out, name)?;
    out.extend_from_slice(b" (")?;
    print_spaced(out, all)?;
    out.extend_from_slice(b")\r\n")
}

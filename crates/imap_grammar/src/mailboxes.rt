//! Commands of mailboxes.
ghost use Rattle.imap_grammar.specs.Mailboxes as spec;
ghost use Rattle.imap_grammar.specs.Readings.{Reads};

use crate::classes::Class;
use crate::commands::Command;
use crate::items::StatusItem;
use crate::lists::{Rule, read_listed};
use crate::reader::{Fault, Reader};
use crate::strings::string_or;
use crate::words::keyword;
use octets::Octets;
use std::alloc::Global;

/// The name of a mailbox, and the end of the command.
#[tactic(auto, unfolding(crate::specs::Mailboxes::one_name))]
pub(crate) fn one_name(alloc: Global, reader: &mut Reader<'_>) -> Result<Octets, Fault>
    ensures { Reads (spec.one_name reader.old) result reader.new }
{
    reader.byte(b' ')?;
    let name = string_or(reader, Class::Astring)?;
    reader.end()?;
    Ok(name.to_octets(alloc)?)
}

#[tactic(auto, unfolding(crate::specs::Mailboxes::rename))]
pub(crate) fn rename(alloc: Global, reader: &mut Reader<'_>) -> Result<Command, Fault>
    ensures { Reads (spec.rename reader.old) result reader.new }
{
    reader.byte(b' ')?;
    let from = string_or(reader, Class::Astring)?;
    reader.byte(b' ')?;
    let to = string_or(reader, Class::Astring)?;
    reader.end()?;
    Ok(Command::Rename {
        from: from.to_octets(alloc)?,
        to: to.to_octets(alloc)?,
    })
}

/// LIST, or LSUB where `subscribed`.
#[tactic(auto, unfolding(crate::specs::Mailboxes::listing))]
pub(crate) fn listing(
    alloc: Global,
    reader: &mut Reader<'_>,
    subscribed: bool,
) -> Result<Command, Fault>
    ensures { Reads (spec.listing subscribed reader.old) result reader.new }
{
    reader.byte(b' ')?;
    let reference = string_or(reader, Class::Astring)?;
    reader.byte(b' ')?;
    let name = string_or(reader, Class::Pattern)?;
    reader.end()?;
    Ok(Command::List {
        reference: reference.to_octets(alloc)?,
        name: name.to_octets(alloc)?,
        subscribed,
    })
}

static STATUS_ITEMS: [(&[u8], StatusItem); 6] = [
    (b"MESSAGES", StatusItem::Messages),
    (b"RECENT", StatusItem::Recent),
    (b"UIDNEXT", StatusItem::Uidnext),
    (b"UIDVALIDITY", StatusItem::Uidvalidity),
    (b"UNSEEN", StatusItem::Unseen),
    (b"HIGHESTMODSEQ", StatusItem::Highest),
];

/// An item of STATUS.
struct ItemRule;

impl Rule for ItemRule {
    type Value = StatusItem;

    ghost use Rattle.imap_grammar.specs.Mailboxes.{status_items};
    ghost use Rattle.imap_grammar.specs.Words.{keyword};

    ghost reading = { λ _. keyword status_items };

    fn read(&self, _alloc: Global, reader: &mut Reader<'_>) -> Result<StatusItem, Fault> {
        keyword(reader, &STATUS_ITEMS)
    }
}

#[tactic(auto, unfolding(crate::specs::Mailboxes::status))]
pub(crate) fn status(alloc: Global, reader: &mut Reader<'_>) -> Result<Command, Fault>
    ensures { Reads (spec.status reader.old) result reader.new }
{
    reader.byte(b' ')?;
    let name = string_or(reader, Class::Astring)?;
    reader.byte(b' ')?;
    let items = read_listed(alloc, reader, &ItemRule)?;
    reader.end()?;
    Ok(Command::Status {
        name: name.to_octets(alloc)?,
        items,
    })
}

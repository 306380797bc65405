//! What is told of a mailbox as a whole.

ghost use Rattle.std.specs.Prelude.{◌≡◌, Some, false, IfOk};
ghost use Rattle.row_tables.specs.References.{HasMailbox};
ghost use Rattle.row_store.specs.Kept.{IfContents};
ghost use Rattle.mail_world.specs.Worlds.{Mailbox as WorldMailbox, World, mailbox_at};
ghost use Rattle.mail_stands.specs.Stands.{Stands};
ghost use Rattle.mailbox_core.specs.Summing.{IsSummary};
ghost use Rattle.mailbox_core.specs.SummaryRows.{IsRowSummary};

use crate::keywords::keywords;
use crate::uid_lists::{uids_from, uids_of};
use crate::unseen::first_unseen;
use disk_model::Disk;
use mail_stands::{mailbox_rows, message_uids};
use octets::Octets;
use ordered_rows::laws::{insertion, keys, rows_at_keys};
use row_store::RowStore;
use row_tables::{FlagName, FlagRow, Tables};
use sqlite_items::Items;
use std::alloc::{AllocError, Global};

/// What SELECT tells of a mailbox (RFC 3501 §6.3.1).
#[derive(Drop, Debug)]
pub struct Summary {
    /// The UIDs of its messages, ascending.
    pub uids: Items<u32>,
    /// The UIDs of the messages that no session was told of as recent yet, ascending (RFC 3501 §2.3.2).
    pub recent: Items<u32>,
    /// The place of the first message without `\Seen`, from 0; none where all are seen.
    pub first_unseen: Option<usize>,
    /// The keywords that its messages have, each once, by bytes.
    pub keywords: Items<Octets>,
    /// The UID of the next message.
    pub uidnext: u32,
    /// The first UID that is recent.
    pub first_recent: u32,
}

/// What is told of a mailbox, which is there, as a whole. Changes nothing, and calls no disk. Walks the rows of the mailbox's messages
/// and those of their flags once, and looks up the name of each flag that they have.
pub fn summarize<D: Disk>(
    alloc: Global,
    store: &RowStore<D>,
    mailbox: u32,
) -> Result<Summary, AllocError>
    requires usable { store.now.spent ≡ false }
    requires there { HasMailbox store.now.tables mailbox }
    ensures summed { IfContents D.told store.now (λ content. (w : World) → Stands content store.now.tables w
        → (m : WorldMailbox) → mailbox_at mailbox w.mailboxes ≡ Some m → IfOk result (λ its. IsSummary its m)) }
{
    mailbox_rows();
    message_uids();
    keys();
    insertion::<FlagName>();
    rows_at_keys::<FlagRow>();
    let tables = store.tables();
    tables.are_whole();
    summary_of(alloc, tables, mailbox)
}

// The same of the rows of tables.
fn summary_of(alloc: Global, tables: &Tables, mailbox: u32) -> Result<Summary, AllocError>
    requires { HasMailbox tables.now mailbox }
    ensures { IfOk result (IsRowSummary tables.now mailbox) }
{
    let Some(head) = tables.mailboxes_row(mailbox) else {
        unreachable!()
    };
    let uids = uids_of(alloc, tables, mailbox)?;
    let recent = uids_from(alloc, head.first_recent, uids.as_slice())?;
    let first_unseen = first_unseen(tables, mailbox, uids.as_slice());
    let keywords = keywords(alloc, tables, mailbox)?;
    Ok(Summary {
        uids: Items::from_vec(uids),
        recent: Items::from_vec(recent),
        first_unseen,
        keywords,
        uidnext: head.uidnext,
        first_recent: head.first_recent,
    })
}

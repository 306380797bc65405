//! The UIDs of the messages of a mailbox.

ghost use Rattle.std.specs.Prelude.{◌≡◌, nat_le, filter, IfOk};
ghost use Rattle.row_tables.specs.References.{uids_of};

use row_tables::Tables;
use std::alloc::{AllocError, Global};

// The UIDs of a mailbox, ascending.
pub(crate) fn uids_of(alloc: Global, tables: &Tables, mailbox: u32) -> Result<Vec<u32>, AllocError>
    ensures { IfOk result (λ uids. uids.items ≡ uids_of mailbox tables.now.marks.mailbox_messages) }
{
    let mut uids = Vec::with_capacity(alloc, tables.entry_count(mailbox) as usize)?;
    let mut left = tables.uids(mailbox);
    'left: while let Some(uid) = left.next() {
        uids.push(uid)?;
    }
    Ok(uids)
}

// Those from one on.
pub(crate) fn uids_from(alloc: Global, first: u32, uids: &[u32]) -> Result<Vec<u32>, AllocError>
    ensures { IfOk result (λ kept. kept.items ≡ filter (λ uid. nat_le first uid) uids.now) }
{
    let mut kept = Vec::new(alloc);
    for uid in uids {
        if first <= *uid {
            kept.push(*uid)?;
        }
    }
    Ok(kept)
}

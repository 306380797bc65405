//! RENAME of any mailbox.

ghost use Rattle.std.specs.Prelude.{◌≡◌, ◌∷◌, [], false};
ghost use Rattle.row_store.specs.Kept.{IfContents};
ghost use Rattle.mail_world.specs.Worlds.{World};
ghost use Rattle.mail_world.specs.Changes.{Absent, BadName, Exists, Full, Rename};
ghost use Rattle.mail_stands.specs.Stands.{Stands};
ghost use Rattle.mailbox_core.specs.Calls.{Behaves, Makes};
ghost use Rattle.mailbox_core.specs.Faults.{RefusesFor};

use crate::MailFault;
use crate::inbox_renaming::rename_inbox;
use crate::names::is_inbox;
use crate::renaming::rename_other;
use disk_model::Disk;
use row_store::RowStore;
use std::alloc::Global;

/// Renames a mailbox of a user (RFC 3501 §6.3.5): one other than INBOX with all that are inferior to it, which keep their messages,
/// their UIDs and their ids; INBOX hands its messages to a new mailbox, as UIDs from 1 on. A new name that is INBOX in any case is
/// `INBOX`.
///
/// Refused with `BadName` where no mailbox can have a new name, with `Absent` where the user has no such mailbox, with `Exists` where
/// the user has a mailbox of a new name, and, of INBOX, with `Full` where no mailbox more can be made, or where there are messages and
/// no mod-sequence is left. Costs a look-up for each mailbox that is renamed, or for each message of INBOX and for each of its flags,
/// and one commit.
#[tactic(auto, using(crate::proofs::MovedInbox::refuses_more))]
pub fn rename<D: Disk>(
    alloc: Global,
    store: &mut RowStore<D>,
    user: u32,
    from: &[u8],
    to: &[u8],
) -> Result<(), MailFault>
    requires usable { store.old.spent ≡ false }
    ensures makes { IfContents D.told store.old (λ content. (w : World) → Stands content store.old.tables w
        → Makes D.told result store.old store.new w (Rename user from.now to.now) tt) }
    ensures behaves { Behaves D.told result store.old store.new }
    ensures refuses { RefusesFor (BadName ∷ Absent ∷ Exists ∷ Full ∷ []) result }
{
    if is_inbox(from) {
        rename_inbox(alloc, store, user, to)
    } else {
        rename_other(alloc, store, user, from, to)
    }
}

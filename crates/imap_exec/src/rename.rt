//! RENAME (RFC 3501 §6.3.5).

ghost use Rattle.session_view.specs.Parts.{state_of};
ghost use Rattle.imap_steps.specs.Renaming.{rename};
ghost use Rattle.imap_steps.specs.Executing.{of_user};
ghost use Rattle.imap_exec.specs.Ready.{IsReady};
ghost use Rattle.imap_exec.specs.Does.{Executes};

use crate::lines::{refuse, tell_made};
use crate::users::user_of;
use disk_model::Disk;
use imap_steps::Outcome;
use imap_writer::Refusal;
use octets::Octets;
use row_store::{RowStore, StoreFault};
use session_view::Sessions;
use std::alloc::Global;

// RENAME of a session that is authenticated.
pub(crate) fn rename<D: Disk>(
    alloc: Global,
    store: &mut RowStore<D>,
    sessions: &Sessions,
    number: u32,
    answer: &mut Vec<u8>,
    tag: &[u8],
    from: &Octets,
    to: &Octets,
) -> Result<Outcome, StoreFault>
    requires ready { IsReady store.old sessions.now }
    ensures { Executes D.told result store.old store.new sessions.now sessions.now answer.old.items answer.new.items
        (λ shared. of_user shared tag.now (state_of number shared.parts) (λ user. rename shared user tag.now from.now to.now)) }
{
    match user_of(sessions, number) {
        Some(user) => {
            let made = mailbox_core::rename(alloc, store, user, from.as_slice(), to.as_slice());
            tell_made(alloc, answer, tag, b"RENAME", made)
        }
        None => refuse(alloc, answer, tag, Refusal::State),
    }
}

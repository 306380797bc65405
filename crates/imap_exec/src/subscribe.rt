//! SUBSCRIBE and UNSUBSCRIBE (RFC 3501 §6.3.6, §6.3.7).

ghost use Rattle.session_view.specs.Parts.{state_of};
ghost use Rattle.imap_steps.specs.Managing.{subscribe, unsubscribe};
ghost use Rattle.imap_steps.specs.Executing.{of_user};
ghost use Rattle.imap_exec.specs.Ready.{IsReady};
ghost use Rattle.imap_exec.specs.Does.{Executes};

use crate::lines::{refuse, tell_made};
use crate::users::user_of;
use disk_model::Disk;
use imap_steps::Outcome;
use imap_writer::Refusal;
use octets::Octets;
use row_store::{RowStore, StoreFault};
use session_view::Sessions;
use std::alloc::Global;

// SUBSCRIBE of a session that is authenticated.
pub(crate) fn subscribe<D: Disk>(
    alloc: Global,
    store: &mut RowStore<D>,
    sessions: &Sessions,
    number: u32,
    answer: &mut Vec<u8>,
    tag: &[u8],
    name: &Octets,
) -> Result<Outcome, StoreFault>
    requires ready { IsReady store.old sessions.now }
    ensures { Executes D.told result store.old store.new sessions.now sessions.now answer.old.items answer.new.items
        (λ shared. of_user shared tag.now (state_of number shared.parts) (λ user. subscribe shared user tag.now name.now)) }
{
    match user_of(sessions, number) {
        Some(user) => {
            let made = mailbox_core::subscribe(alloc, store, user, name.as_slice());
            tell_made(alloc, answer, tag, b"SUBSCRIBE", made)
        }
        None => refuse(alloc, answer, tag, Refusal::State),
    }
}

// UNSUBSCRIBE of a session that is authenticated.
pub(crate) fn unsubscribe<D: Disk>(
    alloc: Global,
    store: &mut RowStore<D>,
    sessions: &Sessions,
    number: u32,
    answer: &mut Vec<u8>,
    tag: &[u8],
    name: &Octets,
) -> Result<Outcome, StoreFault>
    requires ready { IsReady store.old sessions.now }
    ensures { Executes D.told result store.old store.new sessions.now sessions.now answer.old.items answer.new.items
        (λ shared. of_user shared tag.now (state_of number shared.parts) (λ user. unsubscribe shared user tag.now name.now)) }
{
    match user_of(sessions, number) {
        Some(user) => {
            let made = mailbox_core::unsubscribe(alloc, store, user, name.as_slice());
            tell_made(alloc, answer, tag, b"UNSUBSCRIBE", made)
        }
        None => refuse(alloc, answer, tag, Refusal::State),
    }
}

//! DELETE (RFC 3501 §6.3.4).

ghost use Rattle.std.specs.Prelude.{◌≡◌, IfOk};
ghost use Rattle.session_view.specs.Parts.{state_of};
ghost use Rattle.imap_steps.specs.Managing.{delete, held};
ghost use Rattle.imap_steps.specs.Executing.{of_user};
ghost use Rattle.imap_exec.specs.Ready.{IsReady};
ghost use Rattle.imap_exec.specs.Does.{Executes};

use crate::lines::{refuse, tell_made};
use crate::users::user_of;
use disk_model::Disk;
use imap_steps::Outcome;
use imap_writer::Refusal;
use octets::Octets;
use row_store::{RowStore, StoreFault};
use session_view::{SessionPart, Sessions, State};
use std::alloc::{AllocError, Global};

// DELETE of a session that is authenticated.
pub(crate) fn delete<D: Disk>(
    alloc: Global,
    store: &mut RowStore<D>,
    sessions: &Sessions,
    number: u32,
    answer: &mut Vec<u8>,
    tag: &[u8],
    name: &Octets,
) -> Result<Outcome, StoreFault>
    requires ready { IsReady store.old sessions.now }
    ensures { Executes D.told result store.old store.new sessions.now sessions.now answer.old.items answer.new.items
        (λ shared. of_user shared tag.now (state_of number shared.parts) (λ user. delete shared user tag.now name.now)) }
{
    match user_of(sessions, number) {
        Some(user) => delete_as(alloc, store, sessions, answer, tag, user, name.as_slice()),
        None => refuse(alloc, answer, tag, Refusal::State),
    }
}

// DELETE of a user.
fn delete_as<D: Disk>(
    alloc: Global,
    store: &mut RowStore<D>,
    sessions: &Sessions,
    answer: &mut Vec<u8>,
    tag: &[u8],
    user: u32,
    name: &[u8],
) -> Result<Outcome, StoreFault>
    requires ready { IsReady store.old sessions.now }
    ensures { Executes D.told result store.old store.new sessions.now sessions.now answer.old.items answer.new.items
        (λ shared. delete shared user tag.now name.now) }
{
    match held(alloc, sessions.as_slice()) {
        Ok(held) => {
            let made = mailbox_core::delete(alloc, store, user, name, held.as_slice());
            tell_made(alloc, answer, tag, b"DELETE", made)
        }
        Err(AllocError) => Err(StoreFault::NoMemory),
    }
}

// The mailboxes that sessions have selected.
fn held(alloc: Global, parts: &[SessionPart]) -> Result<Vec<u32>, AllocError>
    ensures { IfOk result (λ ids. ids.items ≡ held parts.now) }
{
    let mut ids = Vec::new(alloc);
    for part in parts {
        if let State::Selected(_, selection) = &part.state {
            ids.push(selection.mailbox)?;
        }
    }
    Ok(ids)
}

//! LOGIN (RFC 3501 §6.2.3).

ghost use Rattle.session_view.specs.Parts.{state_of};
ghost use Rattle.mail_world.specs.Worlds.{World};
ghost use Rattle.imap_steps.specs.Executing.{before_login};
ghost use Rattle.imap_steps.specs.LoggingIn.{logged_in, login};
ghost use Rattle.imap_exec.specs.Ready.{IsReady};
ghost use Rattle.imap_exec.specs.Does.{Executes};
ghost use Rattle.imap_exec.specs.Answers.{Says};

use crate::lines::{complete, refuse};
use crate::users::is_fresh;
use disk_model::Disk;
use imap_steps::Outcome;
use imap_writer::Refusal;
use row_store::{RowStore, StoreFault};
use session_view::{Sessions, State};
use std::alloc::Global;

// LOGIN of a session that isn't authenticated.
pub(crate) fn login<D: Disk>(
    alloc: Global,
    store: &RowStore<D>,
    sessions: &mut Sessions,
    number: u32,
    answer: &mut Vec<u8>,
    tag: &[u8],
    name: &[u8],
    password: &[u8],
) -> Result<Outcome, StoreFault>
    requires ready { IsReady store.now sessions.old }
    ensures { Executes D.told result store.now store.now sessions.old sessions.new answer.old.items answer.new.items
        (λ shared. before_login shared tag.now (state_of number shared.parts) (login shared number tag.now name.now password.now)) }
{
    if is_fresh(sessions, number) {
        log_in(alloc, store, sessions, number, answer, tag, name, password)
    } else {
        refuse(alloc, answer, tag, Refusal::State)
    }
}

// The same where the session isn't authenticated.
fn log_in<D: Disk>(
    alloc: Global,
    store: &RowStore<D>,
    sessions: &mut Sessions,
    number: u32,
    answer: &mut Vec<u8>,
    tag: &[u8],
    name: &[u8],
    password: &[u8],
) -> Result<Outcome, StoreFault>
    requires ready { IsReady store.now sessions.old }
    ensures { Executes D.told result store.now store.now sessions.old sessions.new answer.old.items answer.new.items
        (λ shared. login shared number tag.now name.now password.now) }
{
    let user = mailbox_core::login(store, name, password);
    turn_to(alloc, sessions, number, answer, tag, b"LOGIN", user)
}

// Makes a session that of a user, where there is one, and tells how the command ended.
pub(crate) fn turn_to(
    alloc: Global,
    sessions: &mut Sessions,
    number: u32,
    answer: &mut Vec<u8>,
    tag: &[u8],
    command: &[u8],
    user: Option<u32>,
) -> Result<Outcome, StoreFault>
    ensures { (world : World) → Says result sessions.new answer.old.items answer.new.items
        (logged_in (record { world = world; parts = sessions.old }) number tag.now command.now user) }
{
    match user {
        Some(user) => {
            sessions.set_state(number, State::Known(user));
            complete(alloc, answer, tag, command)
        }
        None => {
            sessions.set_state(number, State::Fresh);
            refuse(alloc, answer, tag, Refusal::LoginFailed)
        }
    }
}

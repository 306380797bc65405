//! The line behind AUTHENTICATE PLAIN (RFC 4616).

ghost use Rattle.std.specs.Option.{option_and_then, option_map};
ghost use Rattle.session_view.specs.Parts.{state_of};
ghost use Rattle.imap_steps.specs.LoggingIn.{authenticated, credentials_of, plain_line};
ghost use Rattle.imap_steps.specs.Step.{plain_by_state};
ghost use Rattle.imap_exec.specs.Ready.{IsReady};
ghost use Rattle.imap_exec.specs.Does.{Executes};

use crate::credentials::{credentials_in, decoded_line};
use crate::lines::refuse;
use crate::login::turn_to;
use crate::users::tag_asked;
use disk_model::Disk;
use imap_steps::Outcome;
use imap_writer::Refusal;
use row_store::{RowStore, StoreFault};
use session_view::{Sessions, State};
use std::alloc::{AllocError, Global};

/// Authenticates a session by the line behind AUTHENTICATE PLAIN, which ends with CRLF. One that is no message of PLAIN, as `*`, is
/// refused, and ends the exchange; where no such line is awaited it is refused too.
///
/// Costs a look-up and a digest, and calls no disk.
pub fn plain_line<D: Disk>(
    alloc: Global,
    store: &RowStore<D>,
    sessions: &mut Sessions,
    number: u32,
    unit: &[u8],
    answer: &mut Vec<u8>,
) -> Result<Outcome, StoreFault>
    requires ready { IsReady store.now sessions.old }
    ensures { Executes D.told result store.now store.now sessions.old sessions.new answer.old.items answer.new.items
        (λ shared. plain_by_state shared number unit.now (state_of number shared.parts)) }
{
    match tag_asked(alloc, sessions, number) {
        Ok(asked) => match asked {
            Some(tag) => {
                authenticate_by(alloc, store, sessions, number, answer, tag.as_slice(), unit)
            }
            None => refuse(alloc, answer, b"*", Refusal::Syntax),
        },
        Err(AllocError) => Err(StoreFault::NoMemory),
    }
}

// Authenticates a session by a line, with the tag of its AUTHENTICATE.
fn authenticate_by<D: Disk>(
    alloc: Global,
    store: &RowStore<D>,
    sessions: &mut Sessions,
    number: u32,
    answer: &mut Vec<u8>,
    tag: &[u8],
    unit: &[u8],
) -> Result<Outcome, StoreFault>
    requires ready { IsReady store.now sessions.old }
    ensures { Executes D.told result store.now store.now sessions.old sessions.new answer.old.items answer.new.items
        (λ shared. plain_line shared number tag.now unit.now) }
{
    match decoded_line(alloc, unit) {
        Ok(message) => authenticate_as(alloc, store, sessions, number, answer, tag, &message),
        Err(AllocError) => Err(StoreFault::NoMemory),
    }
}

// Authenticates a session as the user of a message, where it tells one.
fn authenticate_as<D: Disk>(
    alloc: Global,
    store: &RowStore<D>,
    sessions: &mut Sessions,
    number: u32,
    answer: &mut Vec<u8>,
    tag: &[u8],
    message: &Option<Vec<u8>>,
) -> Result<Outcome, StoreFault>
    requires ready { IsReady store.now sessions.old }
    ensures { Executes D.told result store.now store.now sessions.old sessions.new answer.old.items answer.new.items
        (λ shared. authenticated shared number tag.now (option_and_then credentials_of (option_map (λ v. v.items) message.now))) }
{
    match credentials_in(message) {
        Some(its) => {
            let user = mailbox_core::login(store, its.name(), its.password());
            turn_to(alloc, sessions, number, answer, tag, b"AUTHENTICATE", user)
        }
        None => {
            sessions.set_state(number, State::Fresh);
            refuse(alloc, answer, tag, Refusal::Syntax)
        }
    }
}

//! Commands that ask for no more than a line (RFC 3501 §6.1, §6.4.1).

ghost use Rattle.std.specs.Prelude.{◌++◌, [], codes};
ghost use Rattle.imap_writer.specs.Tagged.{ok_line};
ghost use Rattle.session_view.specs.Parts.{state_of};
ghost use Rattle.mail_world.specs.Worlds.{World};
ghost use Rattle.imap_steps.specs.Stepping.{Shared, answered, answered_last, bye, completed};
ghost use Rattle.imap_steps.specs.Executing.{capabilities, unserved, while_selected};
ghost use Rattle.imap_exec.specs.Answers.{Says};

use crate::lines::{complete, refuse, say_last};
use crate::users::is_selected;
use imap_steps::Outcome;
use imap_writer::{Refusal, tagged_ok};
use row_store::StoreFault;
use session_view::Sessions;
use std::alloc::Global;

// CAPABILITY (RFC 3501 §6.1.1).
pub(crate) fn capability(
    alloc: Global,
    answer: &mut Vec<u8>,
    tag: &[u8],
) -> Result<Outcome, StoreFault>
    ensures { (shared : Shared) → Says result shared.parts answer.old.items answer.new.items
        (answered shared (capabilities ++ ok_line tag.now [] (codes "CAPABILITY"))) }
{
    answer.extend_from_slice(b"* CAPABILITY IMAP4rev1 AUTH=PLAIN\r\n")?;
    complete(alloc, answer, tag, b"CAPABILITY")
}

// LOGOUT (RFC 3501 §6.1.3).
pub(crate) fn logout(alloc: Global, answer: &mut Vec<u8>, tag: &[u8]) -> Result<Outcome, StoreFault>
    ensures { (shared : Shared) → Says result shared.parts answer.old.items answer.new.items
        (answered_last shared (bye (codes "logging out") ++ ok_line tag.now [] (codes "LOGOUT"))) }
{
    answer.extend_from_slice(b"* BYE logging out\r\n")?;
    let line = tagged_ok(alloc, tag, b"", b"LOGOUT")?;
    say_last(answer, &line)
}

// CHECK (RFC 3501 §6.4.1).
pub(crate) fn check(
    alloc: Global,
    sessions: &Sessions,
    number: u32,
    answer: &mut Vec<u8>,
    tag: &[u8],
) -> Result<Outcome, StoreFault>
    ensures { (world : World) → Says result sessions.now answer.old.items answer.new.items
        (while_selected (record { world = world; parts = sessions.now }) tag.now (state_of number sessions.now)
        (completed (record { world = world; parts = sessions.now }) tag.now (codes "CHECK"))) }
{
    if is_selected(sessions, number) {
        complete(alloc, answer, tag, b"CHECK")
    } else {
        refuse(alloc, answer, tag, Refusal::State)
    }
}

// A command that isn't served yet.
pub(crate) fn unserved(
    alloc: Global,
    answer: &mut Vec<u8>,
    tag: &[u8],
) -> Result<Outcome, StoreFault>
    ensures { (shared : Shared) → Says result shared.parts answer.old.items answer.new.items (unserved shared tag.now) }
{
    refuse(alloc, answer, tag, Refusal::Syntax)
}

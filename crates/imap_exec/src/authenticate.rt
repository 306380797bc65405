//! AUTHENTICATE PLAIN, and the line behind it (RFC 3501 §6.2.2, RFC 4616).

ghost use Rattle.std.specs.Prelude.{◌≡◌, codes};
ghost use Rattle.std.specs.Str.{str_eq_ignore_ascii_case};
ghost use Rattle.session_view.specs.Parts.{state_of};
ghost use Rattle.mail_world.specs.Worlds.{World};
ghost use Rattle.imap_steps.specs.LoggingIn.{asked, authenticate};
ghost use Rattle.imap_steps.specs.Executing.{before_login};
ghost use Rattle.imap_exec.specs.Answers.{Says};

use crate::lines::refuse;
use crate::users::is_fresh;
use imap_steps::Outcome;
use imap_writer::Refusal;
use octets::Octets;
use row_store::StoreFault;
use session_units::Awaits;
use session_view::{Sessions, State};
use std::alloc::Global;

// AUTHENTICATE of a session that isn't authenticated.
pub(crate) fn authenticate(
    alloc: Global,
    sessions: &mut Sessions,
    number: u32,
    answer: &mut Vec<u8>,
    tag: &[u8],
    mechanism: &Octets,
) -> Result<Outcome, StoreFault>
    ensures { (world : World) → Says result sessions.new answer.old.items answer.new.items
        (before_login (record { world = world; parts = sessions.old }) tag.now (state_of number sessions.old)
        (authenticate (record { world = world; parts = sessions.old }) number tag.now mechanism.now)) }
{
    if is_fresh(sessions, number) {
        begin(alloc, sessions, number, answer, tag, mechanism)
    } else {
        refuse(alloc, answer, tag, Refusal::State)
    }
}

// Begins the exchange of a mechanism. PLAIN is the one that there is.
fn begin(
    alloc: Global,
    sessions: &mut Sessions,
    number: u32,
    answer: &mut Vec<u8>,
    tag: &[u8],
    mechanism: &Octets,
) -> Result<Outcome, StoreFault>
    ensures { (world : World) → Says result sessions.new answer.old.items answer.new.items
        (authenticate (record { world = world; parts = sessions.old }) number tag.now mechanism.now) }
{
    if is_plain(mechanism) {
        ask(alloc, sessions, number, answer, tag)
    } else {
        refuse(alloc, answer, tag, Refusal::Mechanism)
    }
}

fn is_plain(mechanism: &Octets) -> bool
    ensures { result ≡ str_eq_ignore_ascii_case mechanism.now (codes "PLAIN") }
{
    mechanism.as_slice().eq_ignore_ascii_case(b"PLAIN")
}

// Asks for the line of PLAIN by an empty challenge.
fn ask(
    alloc: Global,
    sessions: &mut Sessions,
    number: u32,
    answer: &mut Vec<u8>,
    tag: &[u8],
) -> Result<Outcome, StoreFault>
    ensures { (world : World) → Says result sessions.new answer.old.items answer.new.items
        (asked (record { world = world; parts = sessions.old }) number tag.now) }
{
    let tag = Octets::new(tag.to_vec(alloc)?);
    answer.extend_from_slice(b"+ \r\n")?;
    sessions.set_state(number, State::Asked(tag));
    Ok(Outcome {
        closes: false,
        awaits: Awaits::PlainLine,
    })
}

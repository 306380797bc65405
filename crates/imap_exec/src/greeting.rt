//! Sessions that begin and end.

ghost use Rattle.std.specs.Prelude.{◌≡◌, ◌++◌, ◌∷◌, [], ℕ, nat_lt};
ghost use Rattle.row_tables.specs.TableRows.{TableRows};
ghost use Rattle.mail_world.specs.Worlds.{World};
ghost use Rattle.imap_steps.specs.Stepping.{Shared, left_by};
ghost use Rattle.imap_steps.specs.Step.{greeting, session_limit};
ghost use Rattle.imap_exec.specs.Ready.{AreLive};
ghost use Rattle.imap_exec.specs.Answers.{Says};

use crate::lines::{say, say_last};
use imap_steps::Outcome;
use port_model::Kind;
use row_store::StoreFault;
use session_view::{Sessions, State};
use std::alloc::AllocError;

// How many sessions are served at once.
const SESSION_LIMIT: usize = 64;

/// Greets a new session of a kind, and adds its own part behind the others. `others` is how many sessions
/// are open beside it (RFC 3501 §7.1.1).
pub fn greet(
    sessions: &mut Sessions,
    number: u32,
    kind: Kind,
    others: usize,
    answer: &mut Vec<u8>,
) -> Result<Outcome, StoreFault>
    ensures says { (world : World) → Says result sessions.new answer.old.items answer.new.items
        (greeting (record { world = world; parts = sessions.old }) number kind others) }
    ensures live { (t : TableRows) → AreLive t sessions.old → AreLive t sessions.new }
{
    match sessions.push(number) {
        Ok(()) => welcome(kind, others, answer),
        Err(AllocError) => Err(StoreFault::NoMemory),
    }
}

// The greeting of a session of a kind, where so many are open beside it.
fn welcome(kind: Kind, others: usize, answer: &mut Vec<u8>) -> Result<Outcome, StoreFault>
    ensures { (shared : Shared) (number : ℕ) → Says result (shared.parts ++ record { number = number; state = State.Fresh } ∷ []) answer.old.items answer.new.items
        (greeting shared number kind others) }
{
    match kind {
        Kind::Imap => {
            if is_served(others) {
                say(answer, b"* OK IMAP4rev1 ready\r\n")
            } else {
                say_last(answer, b"* BYE too many sessions\r\n")
            }
        }
        Kind::Lmtp => say_last(answer, b"421 4.3.2 LMTP is not served\r\n"),
    }
}

// Whether there is room for one more session.
fn is_served(others: usize) -> bool
    ensures { result ≡ nat_lt others session_limit }
{
    others < SESSION_LIMIT
}

/// A session takes leave: its own part is gone.
pub fn leave(sessions: &mut Sessions, number: u32)
    ensures left { (world : World) → record { world = world; parts = sessions.new } ≡ left_by (record { world = world; parts = sessions.old }) number }
    ensures live { (t : TableRows) → AreLive t sessions.old → AreLive t sessions.new }
{
    sessions.remove(number);
}

//! What one unit of one session does.

ghost use Rattle.imap_grammar.specs.Commands.{meaning};
ghost use Rattle.imap_steps.specs.Stepping.{Shared};
ghost use Rattle.imap_steps.specs.Executing.{executed, literal_refused};
ghost use Rattle.imap_steps.specs.Step.{step, whole_step};
ghost use Rattle.imap_exec.specs.Ready.{IsReady};
ghost use Rattle.imap_exec.specs.Does.{Executes};
ghost use Rattle.imap_exec.specs.Answers.{Says};

use crate::executing::execute;
use crate::lines::{refuse, refuse_bad, refuse_tag, say_last};
use crate::plain_lines::plain_line;
use disk_model::Disk;
use imap_grammar::{ParseFault, parse};
use imap_steps::Outcome;
use imap_writer::Refusal;
use row_store::{RowStore, StoreFault};
use session_units::{Awaits, Shown};
use session_view::Sessions;
use std::alloc::Global;

/// Does what a unit of the session of a number shows, and adds its answer. `awaits` is the form in which the unit was awaited, `now`
/// when its last byte came, in seconds since 1970.
///
/// A fault or want of memory gives the store up: its files are to be loaded again, and what was answered may lack its end.
pub fn step<D: Disk>(
    alloc: Global,
    store: &mut RowStore<D>,
    sessions: &mut Sessions,
    number: u32,
    awaits: Awaits,
    shown: Shown,
    unit: &[u8],
    now: u64,
    answer: &mut Vec<u8>,
) -> Result<Outcome, StoreFault>
    requires ready { IsReady store.old sessions.old }
    ensures { Executes D.told result store.old store.new sessions.old sessions.new answer.old.items answer.new.items
        (λ shared. step shared number awaits shown unit.now now) }
{
    match shown {
        Shown::LineTooLong => say_last(answer, b"* BYE line too long\r\n"),
        Shown::LiteralTooLong => literal_refused(alloc, unit, answer),
        Shown::TextTooLong => refuse(alloc, answer, b"*", Refusal::Syntax),
        Shown::Unit => whole_unit(alloc, store, sessions, number, awaits, unit, now, answer),
    }
}

// Does what a whole unit asks, by the form in which it was awaited.
fn whole_unit<D: Disk>(
    alloc: Global,
    store: &mut RowStore<D>,
    sessions: &mut Sessions,
    number: u32,
    awaits: Awaits,
    unit: &[u8],
    now: u64,
    answer: &mut Vec<u8>,
) -> Result<Outcome, StoreFault>
    requires ready { IsReady store.old sessions.old }
    ensures { Executes D.told result store.old store.new sessions.old sessions.new answer.old.items answer.new.items
        (λ shared. whole_step shared number awaits unit.now now) }
{
    match awaits {
        Awaits::Command => execute_unit(alloc, store, sessions, number, unit, now, answer),
        Awaits::PlainLine => plain_line(alloc, store, sessions, number, unit, answer),
        Awaits::LmtpLine => refuse(alloc, answer, b"*", Refusal::Syntax),
        Awaits::LmtpText => refuse(alloc, answer, b"*", Refusal::Syntax),
    }
}

// Carries out the command that a unit is, if it is one.
fn execute_unit<D: Disk>(
    alloc: Global,
    store: &mut RowStore<D>,
    sessions: &mut Sessions,
    number: u32,
    unit: &[u8],
    now: u64,
    answer: &mut Vec<u8>,
) -> Result<Outcome, StoreFault>
    requires ready { IsReady store.old sessions.old }
    ensures { Executes D.told result store.old store.new sessions.old sessions.new answer.old.items answer.new.items
        (λ shared. executed shared number (meaning unit.now) now) }
{
    match parse(alloc, unit) {
        Ok(tagged) => execute(alloc, store, sessions, number, &tagged, now, answer),
        Err(fault) => match fault {
            ParseFault::Bad(bad) => refuse_bad(alloc, answer, &bad, Refusal::Syntax),
            ParseFault::NoMemory => Err(StoreFault::NoMemory),
        },
    }
}

// The line of a command that announces literals of more bytes than they may have together.
fn literal_refused(alloc: Global, unit: &[u8], answer: &mut Vec<u8>) -> Result<Outcome, StoreFault>
    ensures { (shared : Shared) → Says result shared.parts answer.old.items answer.new.items (literal_refused shared (meaning unit.now)) }
{
    match parse(alloc, unit) {
        Ok(tagged) => refuse_tag(alloc, answer, &tagged.tag, Refusal::LiteralTooLong),
        Err(fault) => match fault {
            ParseFault::Bad(bad) => refuse_bad(alloc, answer, &bad, Refusal::LiteralTooLong),
            ParseFault::NoMemory => Err(StoreFault::NoMemory),
        },
    }
}

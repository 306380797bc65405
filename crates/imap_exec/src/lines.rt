//! Answers that change nothing, after which the session goes on or ends.

ghost use Rattle.std.specs.Prelude.{◌≡◌};
ghost use Rattle.imap_steps.specs.Stepping.{Shared, answered, answered_last, completed, refused_with};
ghost use Rattle.imap_exec.specs.Answers.{Says, TellsMade, refusal_in, refused_bad};

use imap_grammar::Bad;
use imap_steps::Outcome;
use imap_writer::{Refusal, tagged_no, tagged_ok};
use mailbox_core::MailFault;
use octets::Octets;
use row_store::StoreFault;
use session_units::Awaits;
use std::alloc::Global;

// Answers these bytes.
pub(crate) fn say(answer: &mut Vec<u8>, text: &[u8]) -> Result<Outcome, StoreFault>
    ensures { (shared : Shared) → Says result shared.parts answer.old.items answer.new.items (answered shared text.now) }
{
    answer.extend_from_slice(text)?;
    Ok(Outcome {
        closes: false,
        awaits: Awaits::Command,
    })
}

// The same for the last answer before the link is closed.
pub(crate) fn say_last(answer: &mut Vec<u8>, text: &[u8]) -> Result<Outcome, StoreFault>
    ensures { (shared : Shared) → Says result shared.parts answer.old.items answer.new.items (answered_last shared text.now) }
{
    answer.extend_from_slice(text)?;
    Ok(Outcome {
        closes: true,
        awaits: Awaits::Command,
    })
}

// Tells that a command was carried out.
pub(crate) fn complete(
    alloc: Global,
    answer: &mut Vec<u8>,
    tag: &[u8],
    name: &[u8],
) -> Result<Outcome, StoreFault>
    ensures { (shared : Shared) → Says result shared.parts answer.old.items answer.new.items (completed shared tag.now name.now) }
{
    let line = tagged_ok(alloc, tag, b"", name)?;
    say(answer, &line)
}

// Tells why a command was refused.
pub(crate) fn refuse(
    alloc: Global,
    answer: &mut Vec<u8>,
    tag: &[u8],
    refusal: Refusal,
) -> Result<Outcome, StoreFault>
    ensures { (shared : Shared) → Says result shared.parts answer.old.items answer.new.items (refused_with shared tag.now refusal) }
{
    let line = tagged_no(alloc, tag, refusal)?;
    say(answer, &line)
}

// The same with a tag as commands keep it.
pub(crate) fn refuse_tag(
    alloc: Global,
    answer: &mut Vec<u8>,
    tag: &Octets,
    refusal: Refusal,
) -> Result<Outcome, StoreFault>
    ensures { (shared : Shared) → Says result shared.parts answer.old.items answer.new.items (refused_with shared tag.now refusal) }
{
    refuse(alloc, answer, tag.as_slice(), refusal)
}

// Tells of a unit that is no command, with its tag if it has one.
pub(crate) fn refuse_bad(
    alloc: Global,
    answer: &mut Vec<u8>,
    bad: &Bad,
    refusal: Refusal,
) -> Result<Outcome, StoreFault>
    ensures { (shared : Shared) → Says result shared.parts answer.old.items answer.new.items (refused_bad shared bad.now refusal) }
{
    match bad {
        Bad::WithTag(tag) => refuse_tag(alloc, answer, tag, refusal),
        Bad::NoTag => refuse(alloc, answer, b"*", Refusal::Syntax),
    }
}

// How the answer of a call is told, where it isn't the store's fault.
pub(crate) fn refusal_of(fault: MailFault) -> Result<Refusal, StoreFault>
    ensures { result ≡ refusal_in fault }
{
    match fault {
        MailFault::BadName => Ok(Refusal::BadName),
        MailFault::Absent => Ok(Refusal::Absent),
        MailFault::Exists => Ok(Refusal::Exists),
        MailFault::InUse => Ok(Refusal::InUse),
        MailFault::Full => Ok(Refusal::Full),
        MailFault::NoUid => Ok(Refusal::NoUid),
        MailFault::Failed => Err(StoreFault::Failed),
        MailFault::NoMemory => Err(StoreFault::NoMemory),
    }
}

// Tells of a call that changed the store, or refused to.
pub(crate) fn tell_made<T: Drop>(
    alloc: Global,
    answer: &mut Vec<u8>,
    tag: &[u8],
    name: &[u8],
    made: Result<T, MailFault>,
) -> Result<Outcome, StoreFault>
    ensures { TellsMade made result answer.old.items answer.new.items tag.now name.now }
{
    match made {
        Ok(made) => {
            drop(made);
            complete(alloc, answer, tag, name)
        }
        Err(fault) => {
            let refusal = refusal_of(fault)?;
            refuse(alloc, answer, tag, refusal)
        }
    }
}

//! What comes by one link is taken.

ghost use Rattle.std.specs.Prelude.{ℕ, ◌≡◌, ◌≤◌, ◌++◌, List, OnOk, OnErr, IfOk, IsErrOf, None, [], length, take, if◌then◌else◌};
ghost use Rattle.port_model.specs.Ports.{NeverFall};
ghost use Rattle.port_model.specs.Streams.{moment};
ghost use Rattle.session_units.specs.Awaited.{awaits_of};
ghost use Rattle.session_units.specs.Units.{first, is_prompted, unit_of};
ghost use Rattle.imap_steps.specs.Stepping.{World, Shared};
ghost use Rattle.imap_steps.specs.Step.{step};
ghost use Rattle.mail_model.specs.Machine.{Taking, go_ahead, take_byte, take_piece};
ghost use Rattle.mail_rounds.specs.CoreSeen.{SomeRose};
ghost use Rattle.mail_rounds.specs.Crashes.{MayLeave, TakingCrashes};
ghost use Rattle.mail_rounds.specs.Calls.{GoesOn, read_room};
ghost use Rattle.mail_rounds.specs.Held.{session_of};
ghost use Rattle.mail_rounds.specs.Heard.{Hearing, Hears, IsTaking, AfterStep, in_session};

use crate::ending::{end_session, settle};
use crate::link::Link;
use crate::mail_core::{Core, CoreFault};
use mail_model::{Standing, steps_record_their_changes};
use port_model::{PortRead, Ports};
use session_units::{Awaits, Fed, Reader, Shown, units_go_on_and_end};
use std::alloc::AllocError;

/// The last second of the year 9999, in seconds since 1970. A later reading of a clock is used as this one.
const LAST_MOMENT: u64 = 253_402_300_799;

/// Does what a whole unit asks, and awaits the next one.
fn finish_unit<C: Core>(
    core: &mut C,
    number: u32,
    standing: &mut Standing,
    reader: &mut Reader,
    queue: &mut Vec<u8>,
    shown: Shown,
    moment: u64,
) -> Result<(), CoreFault>
    requires { C.seen.ready core.old }
    ensures taken { OnOk result ((shared : Shared) → C.seen.stands core.old shared
        → AfterStep C.seen core.new standing.new reader.new queue.old.items queue.new.items shared number (step shared number (awaits_of reader.old) shown (unit_of reader.old) moment)) }
    ensures none { first reader.new [] ≡ None }
    ensures ready { OnOk result (C.seen.ready core.new) }
    ensures crash { (shared : Shared) → C.seen.stands core.old shared
        → MayLeave C.seen core.old core.new shared.world (step shared number (awaits_of reader.old) shown (unit_of reader.old) moment).change }
    ensures failed { IsErrOf result CoreFault.Failed → SomeRose (C.seen.faults core.old) (C.seen.faults core.new) }
    ensures stored { (IsErrOf result CoreFault.Failed → ⊥) → C.seen.faults core.new ≡ C.seen.faults core.old }
{
    let awaits = reader.awaits();
    match core.execute(number, awaits, shown, reader.unit(), moment, queue) {
        Ok(outcome) => {
            reader.next(outcome.awaits);
            *standing = settle(core, number, outcome.closes);
            Ok(())
        }
        Err(fault) => {
            reader.next(Awaits::Command);
            Err(fault)
        }
    }
}

/// Adds a prompt where bytes ask for one.
fn add_prompt(fed: Fed, queue: &mut Vec<u8>) -> Result<(), AllocError>
    ensures { OnOk result (queue.new.items ≡ (if is_prompted fed then queue.old.items ++ go_ahead else queue.old.items)) }
{
    if fed.is_prompted() {
        queue.extend_from_slice(b"+ go ahead\r\n")?;
    }
    Ok(())
}

/// Takes one byte of a link's peer, and does what its unit asks where it is the last one.
fn serve_byte<C: Core>(
    core: &mut C,
    link: &mut Link,
    byte: u8,
    moment: u64,
) -> Result<(), CoreFault>
    requires { C.seen.ready core.old }
    ensures taken { OnOk result ((taking : Taking) → IsTaking C.seen core.old link.old taking → IsTaking C.seen core.new link.new (take_byte moment taking byte)) }
    ensures number { link.new.number ≡ link.old.number }
    ensures ready { OnOk result (C.seen.ready core.new) }
    ensures crash { (taking : Taking) → IsTaking C.seen core.old link.old taking → TakingCrashes C.seen core.old core.new taking (take_byte moment taking byte) }
    ensures failed { IsErrOf result CoreFault.Failed → SomeRose (C.seen.faults core.old) (C.seen.faults core.new) }
    ensures stored { (IsErrOf result CoreFault.Failed → ⊥) → C.seen.faults core.new ≡ C.seen.faults core.old }
{
    units_go_on_and_end();
    steps_record_their_changes();
    if !link.standing.is_open() {
        return Ok(());
    }
    let fed = link.reader.feed(byte)?;
    match fed.ending() {
        None => {
            add_prompt(fed, &mut link.queue)?;
            Ok(())
        }
        Some(shown) => finish_unit(
            core,
            link.number,
            &mut link.standing,
            &mut link.reader,
            &mut link.queue,
            shown,
            moment,
        ),
    }
}

/// Takes the bytes of a piece that go on with a literal or a line of a text, and tells how many they are. Where the link isn't
/// open, they are none.
fn take_inside(link: &mut Link, piece: &[u8]) -> Result<usize, AllocError>
    ensures within { IfOk result (λ count. count ≤ length piece.now) }
    ensures taken { IfOk result (λ count. (moment : ℕ) (taking : Taking) → session_of link.old ≡ taking.session
        → take_piece moment taking (take count piece.now) ≡ in_session taking (session_of link.new)) }
    ensures queue { link.new.queue.items ≡ link.old.queue.items }
    ensures number { link.new.number ≡ link.old.number }
{
    units_go_on_and_end();
    if !link.standing.is_open() {
        return Ok(0);
    }
    link.reader.feed_inside(piece)
}

/// Takes a piece that came by a link, byte by byte, and those of literals and of lines of texts together.
fn serve_bytes<C: Core>(
    core: &mut C,
    link: &mut Link,
    piece: &[u8],
    moment: u64,
) -> Result<(), CoreFault>
    requires { C.seen.ready core.old }
    ensures taken { OnOk result ((taking : Taking) → IsTaking C.seen core.old link.old taking → IsTaking C.seen core.new link.new (take_piece moment taking piece.now)) }
    ensures number { link.new.number ≡ link.old.number }
    ensures ready { OnOk result (C.seen.ready core.new) }
    ensures crash { (taking : Taking) → IsTaking C.seen core.old link.old taking → TakingCrashes C.seen core.old core.new taking (take_piece moment taking piece.now) }
    ensures failed { IsErrOf result CoreFault.Failed → SomeRose (C.seen.faults core.old) (C.seen.faults core.new) }
    ensures stored { (IsErrOf result CoreFault.Failed → ⊥) → C.seen.faults core.new ≡ C.seen.faults core.old }
{
    steps_record_their_changes();
    let mut rest = piece;
    'bytes: while !rest.is_empty() {
        let count = take_inside(link, rest)?;
        let Some((byte, behind)) = rest[count..].split_first() else {
            return Ok(());
        };
        serve_byte(core, link, *byte, moment)?;
        rest = behind;
    }
    Ok(())
}

/// Asks a link that is open and has nothing to send what came by it, and takes that.
pub(crate) fn hear<C: Core, P: Ports>(
    core: &mut C,
    link: &mut Link,
    buffer: &mut [u8],
    ports: &mut P,
) -> Result<(), CoreFault>
    requires room { length buffer.old ≡ read_room }
    requires ready { C.seen.ready core.old }
    ensures plan { P.plan ports.new ≡ P.plan ports.old }
    ensures counts { NeverFall (P.listen_faults ports.old) (P.link_faults ports.old) (P.listen_faults ports.new) (P.link_faults ports.new) }
    ensures quiet { P.listen_faults ports.new ≡ P.listen_faults ports.old }
    ensures done { OnOk result (GoesOn (λ before later. Hearing C.seen core.old link.old core.new before later × Hears C.seen core.old link.old core.new link.new before later)
        (P.history ports.old) (P.history ports.new)) }
    ensures part { OnErr result (GoesOn (Hearing C.seen core.old link.old core.new) (P.history ports.old) (P.history ports.new)) }
    ensures number { link.new.number ≡ link.old.number }
    ensures ready { OnOk result (C.seen.ready core.new) }
    ensures failed { IsErrOf result CoreFault.Failed → SomeRose (C.seen.faults core.old) (C.seen.faults core.new) }
    ensures stored { (IsErrOf result CoreFault.Failed → ⊥) → C.seen.faults core.new ≡ C.seen.faults core.old }
{
    steps_record_their_changes();
    if !link.standing.is_open() || !link.queue.is_empty() {
        return Ok(());
    }
    match ports.read(link.number, buffer) {
        PortRead::Bytes(count) => {
            let moment = ports.now().min(LAST_MOMENT);
            serve_bytes(core, link, &buffer[..count], moment)?;
            Ok(())
        }
        PortRead::Quiet => Ok(()),
        PortRead::Ended => {
            end_session(core, link);
            Ok(())
        }
        PortRead::Lost => {
            end_session(core, link);
            Ok(())
        }
    }
}

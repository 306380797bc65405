//! SELECT and EXAMINE (RFC 3501 §6.3.1, §6.3.2).

ghost use Rattle.std.specs.Prelude.{◌≡◌, ◌==◌, ◌&&◌, ◌<◌, ◌^◌, ◌++◌, length, not, false, Some, IsSomeAnd, IfOk, OnOk};
ghost use Rattle.ordered_rows.specs.RowKey.{number_key};
ghost use Rattle.ordered_rows.specs.Listed.{row_at};
ghost use Rattle.row_tables.specs.Keys.{mailbox_key};
ghost use Rattle.row_tables.specs.References.{HasUser, HasMailbox};
ghost use Rattle.row_store.specs.Kept.{IfContents};
ghost use Rattle.imap_writer.specs.Tagged.{ok_line};
ghost use Rattle.session_view.specs.declared.sessions.State.TheVariants.{Selected};
ghost use Rattle.session_view.specs.Parts.{state_of};
ghost use Rattle.mail_world.specs.Worlds.{World, Mailbox, mailbox_at};
ghost use Rattle.mail_world.specs.Looking.{mailbox_id};
ghost use Rattle.mail_stands.specs.Stands.{Stands};
ghost use Rattle.mailbox_core.specs.Summing.{IsSummary};
ghost use Rattle.imap_steps.specs.Selecting.{access_code, mailbox_told, select, select_name};
ghost use Rattle.imap_steps.specs.Executing.{of_user, select_plainly};
ghost use Rattle.imap_exec.specs.Ready.{IsReady};
ghost use Rattle.imap_exec.specs.Does.{Executes};
ghost use Rattle.imap_exec.specs.Users.{is_plain};
ghost use Rattle.imap_exec.specs.Selecting.{Changes, GoesOn, recents_if, selection_from};

use crate::lines::refuse;
use crate::simple::unserved;
use crate::telling::tell_mailbox;
use crate::users::user_of;
use disk_model::Disk;
use imap_grammar::Resync;
use imap_steps::Outcome;
use imap_writer::{Refusal, tagged_ok};
use mailbox_core::Summary;
use octets::Octets;
use row_store::{RowStore, StoreFault};
use session_units::Awaits;
use session_view::{Selection, Sessions, State, View};
use std::alloc::{AllocError, Global};

// SELECT or EXAMINE.
pub(crate) fn select<D: Disk>(
    alloc: Global,
    store: &mut RowStore<D>,
    sessions: &mut Sessions,
    number: u32,
    answer: &mut Vec<u8>,
    tag: &[u8],
    name: &Octets,
    examine: bool,
    condstore: bool,
    resync: &Option<Resync>,
) -> Result<Outcome, StoreFault>
    requires ready { IsReady store.old sessions.old }
    ensures { Executes D.told result store.old store.new sessions.old sessions.new answer.old.items answer.new.items
        (λ shared. select_plainly shared number tag.now (state_of number shared.parts) name.now examine condstore resync.now) }
{
    if is_plain(condstore, resync) {
        select_by_user(alloc, store, sessions, number, answer, tag, name, !examine)
    } else {
        unserved(alloc, answer, tag)
    }
}

// Whether nothing of CONDSTORE and QRESYNC is asked for.
fn is_plain(condstore: bool, resync: &Option<Resync>) -> bool
    ensures { result ≡ is_plain condstore resync.now }
{
    !condstore && resync.is_none()
}

// Selects a mailbox, if the session is authenticated.
fn select_by_user<D: Disk>(
    alloc: Global,
    store: &mut RowStore<D>,
    sessions: &mut Sessions,
    number: u32,
    answer: &mut Vec<u8>,
    tag: &[u8],
    name: &Octets,
    read_write: bool,
) -> Result<Outcome, StoreFault>
    requires ready { IsReady store.old sessions.old }
    ensures { Executes D.told result store.old store.new sessions.old sessions.new answer.old.items answer.new.items
        (λ shared. of_user shared tag.now (state_of number shared.parts) (λ user. select shared number user tag.now name.now read_write)) }
{
    match user_of(sessions, number) {
        Some(user) => select_for(
            alloc, store, sessions, number, answer, tag, name, read_write, user,
        ),
        None => refuse(alloc, answer, tag, Refusal::State),
    }
}

// Selects a mailbox of a user.
fn select_for<D: Disk>(
    alloc: Global,
    store: &mut RowStore<D>,
    sessions: &mut Sessions,
    number: u32,
    answer: &mut Vec<u8>,
    tag: &[u8],
    name: &Octets,
    read_write: bool,
    user: u32,
) -> Result<Outcome, StoreFault>
    requires ready { IsReady store.old sessions.old }
    requires user { HasUser store.old.tables user }
    ensures { Executes D.told result store.old store.new sessions.old sessions.new answer.old.items answer.new.items
        (λ shared. select shared number user tag.now name.now read_write) }
{
    match mailbox_core::find(store, user, name.as_slice()) {
        Some(mailbox) => open(
            alloc, store, sessions, number, answer, tag, name, read_write, user, mailbox,
        ),
        None => {
            sessions.set_state(number, State::Known(user));
            refuse(alloc, answer, tag, Refusal::Absent)
        }
    }
}

// Selects a user's mailbox of an id.
fn open<D: Disk>(
    alloc: Global,
    store: &mut RowStore<D>,
    sessions: &mut Sessions,
    number: u32,
    answer: &mut Vec<u8>,
    tag: &[u8],
    name: &Octets,
    read_write: bool,
    user: u32,
    mailbox: u32,
) -> Result<Outcome, StoreFault>
    requires ready { IsReady store.old sessions.old }
    requires user { HasUser store.old.tables user }
    requires owned { IsSomeAnd (row_at mailbox_key (number_key mailbox) store.old.tables.heads.mailboxes) (λ row. row.owner ≡ user) }
    requires found { IfContents D.told store.old (λ content. (w : World) → Stands content store.old.tables w → Some mailbox ≡ mailbox_id user name.now w.mailboxes) }
    ensures { Executes D.told result store.old store.new sessions.old sessions.new answer.old.items answer.new.items
        (λ shared. select shared number user tag.now name.now read_write) }
{
    let its = tell_selection(alloc, store, answer, tag, mailbox, read_write)?;
    let taken = are_taken(&its, read_write);
    take_recents(alloc, store, mailbox, taken)?;
    sessions.set_state(number, selected(user, mailbox, read_write, its));
    Ok(Outcome {
        closes: false,
        awaits: Awaits::Command,
    })
}

// Tells of a mailbox that is selected.
fn tell_selection<D: Disk>(
    alloc: Global,
    store: &RowStore<D>,
    answer: &mut Vec<u8>,
    tag: &[u8],
    mailbox: u32,
    read_write: bool,
) -> Result<Summary, AllocError>
    requires usable { store.now.spent ≡ false }
    requires there { HasMailbox store.now.tables mailbox }
    ensures { IfContents D.told store.now (λ content. (w : World) → Stands content store.now.tables w
        → (m : Mailbox) → mailbox_at mailbox w.mailboxes ≡ Some m → m.head.id ≡ mailbox → length m.entries < 2 ^ 32
        → IfOk result (λ its. IsSummary its m × (answer.new.items ≡ answer.old.items ++ (mailbox_told read_write m ++ ok_line tag.now (access_code read_write) (select_name read_write))))) }
{
    let its = mailbox_core::summarize(alloc, store, mailbox)?;
    tell_mailbox(alloc, answer, &its, mailbox, read_write)?;
    tell_completed(alloc, answer, tag, read_write)?;
    Ok(its)
}

// The last line of the answer.
fn tell_completed(
    alloc: Global,
    answer: &mut Vec<u8>,
    tag: &[u8],
    read_write: bool,
) -> Result<(), AllocError>
    ensures { OnOk result (answer.new.items ≡ answer.old.items ++ ok_line tag.now (access_code read_write) (select_name read_write)) }
{
    let line = if read_write {
        tagged_ok(alloc, tag, b"READ-WRITE", b"SELECT")?
    } else {
        tagged_ok(alloc, tag, b"READ-ONLY", b"EXAMINE")?
    };
    answer.extend_from_slice(&line)
}

// Whether the recent messages of a mailbox are to be taken, of which this was told: for reading and writing, and where a UID was given
// since they were last taken.
fn are_taken(its: &Summary, read_write: bool) -> bool
    ensures { result ≡ read_write && not (its.now.first_recent == its.now.uidnext) }
{
    read_write && its.first_recent != its.uidnext
}

// Takes the recent messages of a mailbox, which is there, if they are to be taken.
fn take_recents<D: Disk>(
    alloc: Global,
    store: &mut RowStore<D>,
    mailbox: u32,
    taken: bool,
) -> Result<(), StoreFault>
    requires usable { store.old.spent ≡ false }
    requires there { HasMailbox store.old.tables mailbox }
    ensures changes { IfContents D.told store.old (λ content. (w : World) → Stands content store.old.tables w
        → (m : Mailbox) → mailbox_at mailbox w.mailboxes ≡ Some m → Changes D.told result store.old store.new w (recents_if taken mailbox)) }
    ensures goes_on { GoesOn D.told result store.old store.new }
{
    if taken {
        mailbox_core::take_recent(alloc, store, mailbox)
    } else {
        Ok(())
    }
}

// The state of a session of a user who has selected a mailbox.
fn selected(user: u32, mailbox: u32, read_write: bool, its: Summary) -> State
    ensures { result ≡ Selected user (selection_from its mailbox read_write) }
{
    let view = View::new(its.uids, its.recent);
    State::Selected(
        user,
        Selection {
            mailbox,
            read_write,
            view,
        },
    )
}

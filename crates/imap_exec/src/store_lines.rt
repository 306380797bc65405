//! What STORE tells of messages (RFC 3501 §6.4.6, §7.4.2).

ghost use Rattle.std.specs.Prelude.{◌≡◌, ◌++◌, ℕ, List, not, is_some, IsErrOf, OnOk};
ghost use Rattle.std.specs.List.{list_any};
ghost use Rattle.ordered_rows.specs.Listed.{row_at};
ghost use Rattle.row_tables.specs.Keys.{mailbox_message_key, uid_key};
ghost use Rattle.row_tables.specs.declared.contents.BodyPart.{BodyPart};
ghost use Rattle.mail_world.specs.Worlds.{World};
ghost use Rattle.mail_stands.specs.Stands.{Stands};
ghost use Rattle.imap_steps.specs.Stepping.{Shared, answered};
ghost use Rattle.imap_steps.specs.Storing.{entry_of, some_gone, store_line, told, told_if};
ghost use Rattle.imap_exec.specs.Answers.{Says};
ghost use Rattle.imap_exec.specs.Storing.{flags_line, stored_text};

use crate::lines::{complete, refuse};
use imap_grammar::Flag;
use imap_steps::Outcome;
use imap_writer::{MessageData, Refusal, push_fetch};
use mail_stands::entry_rows;
use mailbox_reader::{flags_at, is_there};
use row_store::StoreFault;
use row_tables::Tables;
use session_view::{Selection, View};
use std::alloc::{AllocError, Global};

// Tells of flags that were stored, for messages of the mailbox that is selected, some of which were gone.
pub(crate) fn tell_stored(
    alloc: Global,
    tables: &Tables,
    answer: &mut Vec<u8>,
    tag: &[u8],
    selection: &Selection,
    by_uid: bool,
    uids: &[u32],
    silent: bool,
    gone: bool,
) -> Result<Outcome, StoreFault>
    ensures told { (content : BodyPart → List ℕ) (w : World) → Stands content tables.now w → (shared : Shared) → Says result shared.parts answer.old.items answer.new.items
        (answered shared (stored_text w tag.now selection.now by_uid uids.now silent gone)) }
    ensures memory { ¬ IsErrOf result StoreFault.Failed }
{
    if silent {
        tell_end(alloc, answer, tag, by_uid, gone)
    } else {
        tell_messages(alloc, tables, answer, selection, by_uid, uids)?;
        tell_end(alloc, answer, tag, by_uid, gone)
    }
}

// The last line.
fn tell_end(
    alloc: Global,
    answer: &mut Vec<u8>,
    tag: &[u8],
    by_uid: bool,
    gone: bool,
) -> Result<Outcome, StoreFault>
    ensures { (shared : Shared) → Says result shared.parts answer.old.items answer.new.items (answered shared (store_line tag.now by_uid gone)) }
{
    if by_uid {
        complete(alloc, answer, tag, b"UID STORE")
    } else if gone {
        refuse(alloc, answer, tag, Refusal::ExpungeIssued)
    } else {
        complete(alloc, answer, tag, b"STORE")
    }
}

// The lines of messages.
fn tell_messages(
    alloc: Global,
    tables: &Tables,
    answer: &mut Vec<u8>,
    selection: &Selection,
    by_uid: bool,
    uids: &[u32],
) -> Result<(), AllocError>
    ensures { (content : BodyPart → List ℕ) (w : World) → Stands content tables.now w
        → OnOk result (answer.new.items ≡ answer.old.items ++ told w selection.now by_uid uids.now) }
{
    for uid in uids {
        tell_message(alloc, tables, answer, selection, by_uid, *uid)?;
    }
    Ok(())
}

// The line of a message, if it isn't gone.
fn tell_message(
    alloc: Global,
    tables: &Tables,
    answer: &mut Vec<u8>,
    selection: &Selection,
    by_uid: bool,
    uid: u32,
) -> Result<(), AllocError>
    ensures { (content : BodyPart → List ℕ) (w : World) → Stands content tables.now w
        → OnOk result (answer.new.items ≡ answer.old.items ++ told_if by_uid selection.now.view (entry_of w selection.now.mailbox uid)) }
{
    match flags_at(alloc, tables, selection.mailbox, uid)? {
        Some(flags) => tell_flags(answer, &selection.view, by_uid, uid, flags.as_slice()),
        None => Ok(()),
    }
}

// The line of a message with these flags.
#[tactic(auto, unfolding(imap_writer::specs::Fetches::fetch_line))]
fn tell_flags(
    answer: &mut Vec<u8>,
    view: &View,
    by_uid: bool,
    uid: u32,
    flags: &[Flag],
) -> Result<(), AllocError>
    ensures { OnOk result (answer.new.items ≡ answer.old.items ++ flags_line by_uid view.now uid flags.now) }
{
    let number = view.position(uid).unwrap_or(0);
    let recent = view.is_recent(uid);
    let flags = MessageData::Flags { flags, recent };
    if by_uid {
        push_fetch(answer, number, &[MessageData::Uid(uid), flags])
    } else {
        push_fetch(answer, number, &[flags])
    }
}

// Whether some of the messages are gone.
pub(crate) fn some_gone(tables: &Tables, mailbox: u32, uids: &[u32]) -> bool
    ensures { (content : BodyPart → List ℕ) (w : World) → Stands content tables.now w → result ≡ some_gone w mailbox uids.now }
{
    entry_rows();
    lacks_any(tables, mailbox, uids)
}

fn lacks_any(tables: &Tables, mailbox: u32, uids: &[u32]) -> bool
    ensures { result ≡ list_any (λ uid. not (is_some (row_at mailbox_message_key (uid_key mailbox uid) tables.now.marks.mailbox_messages))) uids.now }
{
    uids.iter().any(|uid| !is_there(tables, mailbox, *uid))
}

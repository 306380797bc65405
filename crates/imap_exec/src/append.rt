//! APPEND (RFC 3501 §6.3.11).

ghost use Rattle.std.specs.Prelude.{◌≡◌, ◌≤◌, [], List, None, codes, false, length};
ghost use Rattle.row_tables.specs.References.{HasMailbox};
ghost use Rattle.session_view.specs.Parts.{state_of};
ghost use Rattle.session_view.specs.declared.sessions.SessionPart.{SessionPart};
ghost use Rattle.date_grammar.specs.Stamps.{HasPrint};
ghost use Rattle.mime_reader.specs.Wrapping.{mail};
ghost use Rattle.mail_world.specs.Changes.{Append};
ghost use Rattle.mail_world.specs.Looking.{mailbox_id};
ghost use Rattle.mailbox_core.specs.Messages.{AreProper};
ghost use Rattle.imap_lexer.specs.Units.{literal_limit};
ghost use Rattle.imap_steps.specs.Stepping.{made};
ghost use Rattle.imap_steps.specs.Appending.{append, appended_if, date_or as date_or_of, unfit as unfit_of};
ghost use Rattle.imap_steps.specs.Executing.{of_user};
ghost use Rattle.imap_exec.specs.Ready.{IsReady};
ghost use Rattle.imap_exec.specs.Does.{Executes};

use crate::lines::{refuse, tell_made};
use crate::unfit::unfit;
use crate::users::user_of;
use date_grammar::Stamp;
use disk_model::Disk;
use imap_grammar::Flag;
use imap_steps::Outcome;
use imap_writer::Refusal;
use mime_reader::read_or_wrap;
use octets::Octets;
use row_store::{RowStore, StoreFault};
use session_view::Sessions;
use shredder::law_mails_fit;
use sqlite_items::Items;
use std::alloc::{AllocError, Global};

/// The last second of the year 9999.
const LAST_SECOND: u64 = 253_402_300_799;

// APPEND of a session that is authenticated.
pub(crate) fn append<D: Disk>(
    alloc: Global,
    store: &mut RowStore<D>,
    sessions: &Sessions,
    number: u32,
    answer: &mut Vec<u8>,
    tag: &[u8],
    name: &Octets,
    flags: &Items<Flag>,
    stamp: &Option<Stamp>,
    text: &Octets,
    now: u64,
) -> Result<Outcome, StoreFault>
    requires ready { IsReady store.old sessions.now }
    ensures { Executes D.told result store.old store.new sessions.now sessions.now answer.old.items answer.new.items
        (λ shared. of_user shared tag.now (state_of number shared.parts) (λ user. append shared user tag.now name.now flags.now stamp.now text.now now)) }
{
    match user_of(sessions, number) {
        Some(user) => {
            let (flags, text) = (flags.as_slice(), text.as_slice());
            append_as(
                alloc,
                store,
                answer,
                tag,
                user,
                name.as_slice(),
                flags,
                stamp,
                text,
                now,
            )
        }
        None => refuse(alloc, answer, tag, Refusal::State),
    }
}

// APPEND of a user.
fn append_as<D: Disk>(
    alloc: Global,
    store: &mut RowStore<D>,
    answer: &mut Vec<u8>,
    tag: &[u8],
    user: u32,
    name: &[u8],
    flags: &[Flag],
    stamp: &Option<Stamp>,
    text: &[u8],
    now: u64,
) -> Result<Outcome, StoreFault>
    requires usable { store.old.spent ≡ false }
    requires fresh { store.old.placed ≡ [] }
    ensures { (parts : List SessionPart) → IsReady store.old parts → Executes D.told result store.old store.new parts parts answer.old.items answer.new.items
        (λ shared. append shared user tag.now name.now flags.now stamp.now text.now now) }
{
    match unfit(flags, stamp, text) {
        Some(refusal) => refuse(alloc, answer, tag, refusal),
        None => append_fit(
            alloc, store, answer, tag, user, name, flags, stamp, text, now,
        ),
    }
}

// The same of what a mailbox can have.
fn append_fit<D: Disk>(
    alloc: Global,
    store: &mut RowStore<D>,
    answer: &mut Vec<u8>,
    tag: &[u8],
    user: u32,
    name: &[u8],
    flags: &[Flag],
    stamp: &Option<Stamp>,
    text: &[u8],
    now: u64,
) -> Result<Outcome, StoreFault>
    requires usable { store.old.spent ≡ false }
    requires fresh { store.old.placed ≡ [] }
    requires fit { unfit_of flags.now stamp.now text.now ≡ None }
    ensures { (parts : List SessionPart) → IsReady store.old parts → Executes D.told result store.old store.new parts parts answer.old.items answer.new.items
        (λ shared. appended_if shared tag.now flags.now stamp.now text.now now (mailbox_id user name.now shared.world.mailboxes)) }
{
    match mailbox_core::find(store, user, name) {
        Some(mailbox) => {
            let stamp = date_or(stamp, now);
            append_to(alloc, store, answer, tag, mailbox, flags, stamp, text, now)
        }
        None => refuse(alloc, answer, tag, Refusal::TryCreate),
    }
}

// The internal date of a message: the one that is given, or now.
fn date_or(stamp: &Option<Stamp>, now: u64) -> Stamp
    ensures { result ≡ date_or_of stamp.now now }
{
    match stamp {
        Some(stamp) => *stamp,
        None => Stamp {
            seconds: now.min(LAST_SECOND) as i64,
            zone: 0,
        },
    }
}

// Appends a message to a mailbox.
fn append_to<D: Disk>(
    alloc: Global,
    store: &mut RowStore<D>,
    answer: &mut Vec<u8>,
    tag: &[u8],
    mailbox: u32,
    flags: &[Flag],
    stamp: Stamp,
    text: &[u8],
    now: u64,
) -> Result<Outcome, StoreFault>
    requires usable { store.old.spent ≡ false }
    requires fresh { store.old.placed ≡ [] }
    requires there { HasMailbox store.old.tables mailbox }
    requires flags { AreProper flags.now }
    requires date { HasPrint stamp }
    requires text { length text.now ≤ literal_limit }
    ensures { (parts : List SessionPart) → IsReady store.old parts → Executes D.told result store.old store.new parts parts answer.old.items answer.new.items
        (λ shared. made shared (Append mailbox flags.now stamp (mail text.now now) false) tag.now (codes "APPEND")) }
{
    law_mails_fit();
    match read_or_wrap(alloc, text, now) {
        Ok(mail) => {
            let made = mailbox_core::append(alloc, store, mailbox, flags, stamp, &mail, false);
            tell_made(alloc, answer, tag, b"APPEND", made)
        }
        Err(AllocError) => Err(StoreFault::NoMemory),
    }
}

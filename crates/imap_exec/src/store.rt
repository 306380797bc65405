//! STORE and UID STORE (RFC 3501 §6.4.6, §6.4.8).

ghost use Rattle.std.specs.Prelude.{◌≡◌, [], List, false, true};
ghost use Rattle.std.specs.List.{list_all};
ghost use Rattle.std.specs.Ordering.{nat_cmp};
ghost use Rattle.std.specs.List.Sorted.{IsStrictlySortedBy};
ghost use Rattle.row_tables.specs.References.{HasMailbox};
ghost use Rattle.session_view.specs.Parts.{state_of};
ghost use Rattle.session_view.specs.Resolving.{resolved};
ghost use Rattle.session_view.specs.declared.sessions.SessionPart.{SessionPart};
ghost use Rattle.mail_world.specs.Flags.{are_distinct};
ghost use Rattle.mail_world.specs.Changes.{StoreFlags};
ghost use Rattle.mail_world.specs.Applying.{refused};
ghost use Rattle.mailbox_core.specs.Messages.{AreProper};
ghost use Rattle.imap_steps.specs.Appending.{is_fit_flag};
ghost use Rattle.imap_steps.specs.Storing.{store as store_of, stored, stored_unless};
ghost use Rattle.imap_steps.specs.Executing.{of_selection, store_plainly};
ghost use Rattle.imap_exec.specs.Ready.{IsReady};
ghost use Rattle.imap_exec.specs.Does.{Executes};

use crate::distinct::distinct_flags;
use crate::lines::{refuse, tell_made};
use crate::simple::unserved;
use crate::store_lines::{some_gone, tell_stored};
use crate::unfit::are_fit_flags;
use crate::users::selection_of;
use disk_model::Disk;
use imap_grammar::{Flag, FlagChange, SeqSet};
use imap_steps::Outcome;
use imap_writer::Refusal;
use row_store::{RowStore, StoreFault};
use session_view::{Selection, Sessions};
use sqlite_items::Items;
use std::alloc::Global;

// STORE or UID STORE.
pub(crate) fn store_flags<D: Disk>(
    alloc: Global,
    store: &mut RowStore<D>,
    sessions: &Sessions,
    number: u32,
    answer: &mut Vec<u8>,
    tag: &[u8],
    by_uid: bool,
    set: &SeqSet,
    unchanged_since: Option<u64>,
    how: FlagChange,
    silent: bool,
    flags: &Items<Flag>,
) -> Result<Outcome, StoreFault>
    requires ready { IsReady store.old sessions.now }
    ensures { Executes D.told result store.old store.new sessions.now sessions.now answer.old.items answer.new.items
        (λ shared. store_plainly shared tag.now (state_of number shared.parts) by_uid set.now.ranges unchanged_since how silent flags.now) }
{
    match unchanged_since {
        Some(_) => unserved(alloc, answer, tag),
        None => {
            let flags = flags.as_slice();
            store_selected(
                alloc, store, sessions, number, answer, tag, by_uid, set, how, silent, flags,
            )
        }
    }
}

// The same of a session that has a mailbox selected.
fn store_selected<D: Disk>(
    alloc: Global,
    store: &mut RowStore<D>,
    sessions: &Sessions,
    number: u32,
    answer: &mut Vec<u8>,
    tag: &[u8],
    by_uid: bool,
    set: &SeqSet,
    how: FlagChange,
    silent: bool,
    flags: &[Flag],
) -> Result<Outcome, StoreFault>
    requires ready { IsReady store.old sessions.now }
    ensures { Executes D.told result store.old store.new sessions.now sessions.now answer.old.items answer.new.items
        (λ shared. of_selection shared tag.now (state_of number shared.parts) (λ selection. store_of shared tag.now selection by_uid set.now.ranges how silent flags.now)) }
{
    match selection_of(sessions, number) {
        Some(selection) => store_fit(
            alloc, store, answer, tag, selection, by_uid, set, how, silent, flags,
        ),
        None => refuse(alloc, answer, tag, Refusal::State),
    }
}

// The same of flags that a message can have, in a mailbox that was selected for writing.
fn store_fit<D: Disk>(
    alloc: Global,
    store: &mut RowStore<D>,
    answer: &mut Vec<u8>,
    tag: &[u8],
    selection: &Selection,
    by_uid: bool,
    set: &SeqSet,
    how: FlagChange,
    silent: bool,
    flags: &[Flag],
) -> Result<Outcome, StoreFault>
    requires usable { store.old.spent ≡ false }
    requires fresh { store.old.placed ≡ [] }
    requires there { HasMailbox store.old.tables selection.now.mailbox }
    ensures { (parts : List SessionPart) → IsReady store.old parts → Executes D.told result store.old store.new parts parts answer.old.items answer.new.items
        (λ shared. store_of shared tag.now selection.now by_uid set.now.ranges how silent flags.now) }
{
    if !are_fit_flags(flags) {
        refuse(alloc, answer, tag, Refusal::Syntax)
    } else if !selection.read_write {
        refuse(alloc, answer, tag, Refusal::ReadOnly)
    } else {
        store_in(
            alloc, store, answer, tag, selection, by_uid, set, how, silent, flags,
        )
    }
}

// Stores flags for the messages that a set selects.
fn store_in<D: Disk>(
    alloc: Global,
    store: &mut RowStore<D>,
    answer: &mut Vec<u8>,
    tag: &[u8],
    selection: &Selection,
    by_uid: bool,
    set: &SeqSet,
    how: FlagChange,
    silent: bool,
    flags: &[Flag],
) -> Result<Outcome, StoreFault>
    requires usable { store.old.spent ≡ false }
    requires fresh { store.old.placed ≡ [] }
    requires there { HasMailbox store.old.tables selection.now.mailbox }
    requires fit { list_all is_fit_flag flags.now ≡ true }
    ensures { (parts : List SessionPart) → IsReady store.old parts → Executes D.told result store.old store.new parts parts answer.old.items answer.new.items
        (λ shared. stored shared tag.now selection.now by_uid (resolved selection.now.view.uids set.now.ranges by_uid) how silent flags.now) }
{
    let uids = selection.view.resolve(alloc, set, by_uid)?;
    let named = distinct_flags(alloc, flags)?;
    let (uids, named) = (uids.as_slice(), named.as_slice());
    store_for(
        alloc, store, answer, tag, selection, by_uid, uids, how, silent, named,
    )
}

// Stores flags, each of which is named once, for messages.
fn store_for<D: Disk>(
    alloc: Global,
    store: &mut RowStore<D>,
    answer: &mut Vec<u8>,
    tag: &[u8],
    selection: &Selection,
    by_uid: bool,
    uids: &[u32],
    how: FlagChange,
    silent: bool,
    flags: &[Flag],
) -> Result<Outcome, StoreFault>
    requires usable { store.old.spent ≡ false }
    requires fresh { store.old.placed ≡ [] }
    requires there { HasMailbox store.old.tables selection.now.mailbox }
    requires uids { IsStrictlySortedBy nat_cmp uids.now }
    requires flags { AreProper flags.now }
    requires once { are_distinct flags.now ≡ true }
    ensures { (parts : List SessionPart) → IsReady store.old parts → Executes D.told result store.old store.new parts parts answer.old.items answer.new.items
        (λ shared. let change = StoreFlags selection.now.mailbox uids.now how flags.now in
        stored_unless shared tag.now selection.now by_uid uids.now silent change (refused shared.world change)) }
{
    let gone = some_gone(store.tables(), selection.mailbox, uids);
    let made = mailbox_core::store_flags(alloc, store, selection.mailbox, uids, how, flags);
    if made.is_ok() {
        let tables = store.tables();
        tell_stored(
            alloc, tables, answer, tag, selection, by_uid, uids, silent, gone,
        )
    } else {
        tell_made(alloc, answer, tag, b"STORE", made)
    }
}

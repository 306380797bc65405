//! FETCH and UID FETCH (RFC 3501 §6.4.5, §6.4.8).

ghost use Rattle.std.specs.Prelude.{◌≡◌, [], List, false, None};
ghost use Rattle.std.specs.List.{list_any};
ghost use Rattle.std.specs.Ordering.{nat_cmp};
ghost use Rattle.std.specs.List.Sorted.{IsStrictlySortedBy};
ghost use Rattle.row_tables.specs.References.{HasMailbox};
ghost use Rattle.session_view.specs.Parts.{state_of};
ghost use Rattle.session_view.specs.Resolving.{resolved};
ghost use Rattle.session_view.specs.declared.sessions.SessionPart.{SessionPart};
ghost use Rattle.mail_world.specs.Applying.{refused};
ghost use Rattle.mail_world.specs.Worlds.{World};
ghost use Rattle.row_store.specs.Holding.{in_row};
ghost use Rattle.mail_stands.specs.Stands.{Stands};
ghost use Rattle.imap_steps.specs.Fetching.{fetch, newly_seen, seeing, seen_unless, served, unseen_among as unseen_among_of};
ghost use Rattle.imap_steps.specs.Storing.{some_gone as some_gone_of};
ghost use Rattle.imap_steps.specs.Executing.{fetch_plainly, is_modseq as is_modseq_of, is_plain_fetch as is_plain_of, of_selection};
ghost use Rattle.imap_exec.specs.Ready.{IsReady};
ghost use Rattle.imap_exec.specs.Does.{Executes};

use crate::fetch_lines::{tell_fetched, unseen_among};
use crate::lines::{refusal_of, refuse};
use crate::simple::unserved;
use crate::store_lines::some_gone;
use crate::users::selection_of;
use disk_model::Disk;
use fetch_writer::marks_seen;
use imap_grammar::{FetchItem, Flag, FlagChange, SeqSet};
use imap_steps::Outcome;
use imap_writer::Refusal;
use row_store::{RowStore, StoreFault};
use session_view::{Selection, Sessions};
use sqlite_items::Items;
use std::alloc::Global;

// FETCH or UID FETCH.
pub(crate) fn fetch<D: Disk>(
    alloc: Global,
    store: &mut RowStore<D>,
    sessions: &Sessions,
    number: u32,
    answer: &mut Vec<u8>,
    tag: &[u8],
    by_uid: bool,
    set: &SeqSet,
    items: &Items<FetchItem>,
    changed_since: Option<u64>,
    vanished: bool,
) -> Result<Outcome, StoreFault>
    requires ready { IsReady store.old sessions.now }
    ensures { Executes D.told result store.old store.new sessions.now sessions.now answer.old.items answer.new.items
        (λ shared. fetch_plainly shared tag.now (state_of number shared.parts) by_uid set.now.ranges items.now changed_since vanished) }
{
    let items = items.as_slice();
    if is_plain(items, changed_since, vanished) {
        fetch_selected(
            alloc, store, sessions, number, answer, tag, by_uid, set, items,
        )
    } else {
        unserved(alloc, answer, tag)
    }
}

// Whether nothing is asked for that CONDSTORE or QRESYNC brings.
fn is_plain(items: &[FetchItem], changed_since: Option<u64>, vanished: bool) -> bool
    ensures { result ≡ is_plain_of items.now changed_since vanished }
{
    match changed_since {
        Some(_) => false,
        None => !vanished && !asks_modseq(items),
    }
}

// Whether an item is asked for that comes with CONDSTORE.
fn asks_modseq(items: &[FetchItem]) -> bool
    ensures { result ≡ list_any is_modseq_of items.now }
{
    items.iter().any(|item| is_modseq(item))
}

fn is_modseq(item: &FetchItem) -> bool
    ensures { result ≡ is_modseq_of item.now }
{
    match item {
        FetchItem::Modseq => true,
        _ => false,
    }
}

// FETCH of a session that has a mailbox selected.
fn fetch_selected<D: Disk>(
    alloc: Global,
    store: &mut RowStore<D>,
    sessions: &Sessions,
    number: u32,
    answer: &mut Vec<u8>,
    tag: &[u8],
    by_uid: bool,
    set: &SeqSet,
    items: &[FetchItem],
) -> Result<Outcome, StoreFault>
    requires ready { IsReady store.old sessions.now }
    ensures { Executes D.told result store.old store.new sessions.now sessions.now answer.old.items answer.new.items
        (λ shared. of_selection shared tag.now (state_of number shared.parts) (λ selection. fetch shared tag.now selection by_uid set.now.ranges items.now)) }
{
    match selection_of(sessions, number) {
        Some(selection) => fetch_from(alloc, store, answer, tag, selection, by_uid, set, items),
        None => refuse(alloc, answer, tag, Refusal::State),
    }
}

// FETCH of the messages that a set selects.
fn fetch_from<D: Disk>(
    alloc: Global,
    store: &mut RowStore<D>,
    answer: &mut Vec<u8>,
    tag: &[u8],
    selection: &Selection,
    by_uid: bool,
    set: &SeqSet,
    items: &[FetchItem],
) -> Result<Outcome, StoreFault>
    requires usable { store.old.spent ≡ false }
    requires fresh { store.old.placed ≡ [] }
    requires there { HasMailbox store.old.tables selection.now.mailbox }
    ensures { (parts : List SessionPart) → IsReady store.old parts → Executes D.told result store.old store.new parts parts answer.old.items answer.new.items
        (λ shared. fetch shared tag.now selection.now by_uid set.now.ranges items.now) }
{
    let uids = selection.view.resolve(alloc, set, by_uid)?;
    serve(
        alloc,
        store,
        answer,
        tag,
        selection,
        by_uid,
        items,
        uids.as_slice(),
    )
}

// Serves messages, after those that weren't seen are made so, where the items ask for that.
fn serve<D: Disk>(
    alloc: Global,
    store: &mut RowStore<D>,
    answer: &mut Vec<u8>,
    tag: &[u8],
    selection: &Selection,
    by_uid: bool,
    items: &[FetchItem],
    uids: &[u32],
) -> Result<Outcome, StoreFault>
    requires usable { store.old.spent ≡ false }
    requires fresh { store.old.placed ≡ [] }
    requires there { HasMailbox store.old.tables selection.now.mailbox }
    requires uids { IsStrictlySortedBy nat_cmp uids.now }
    ensures { (parts : List SessionPart) → IsReady store.old parts → Executes D.told result store.old store.new parts parts answer.old.items answer.new.items
        (λ shared. served shared tag.now selection.now by_uid items.now uids.now (newly_seen shared.world selection.now items.now uids.now)) }
{
    let gone = some_gone(store.tables(), selection.mailbox, uids);
    if !selection.read_write || !marks_seen(items) {
        return tell_fetched(
            alloc,
            store,
            answer,
            tag,
            selection,
            by_uid,
            items,
            uids,
            &[],
            gone,
        );
    }
    let unseen = unseen_among(alloc, store.tables(), selection.mailbox, uids)?;
    serve_seen(
        alloc,
        store,
        answer,
        tag,
        selection,
        by_uid,
        items,
        uids,
        unseen.as_slice(),
        gone,
    )
}

// The same once these messages are made seen, in one change; where it is refused, none is.
fn serve_seen<D: Disk>(
    alloc: Global,
    store: &mut RowStore<D>,
    answer: &mut Vec<u8>,
    tag: &[u8],
    selection: &Selection,
    by_uid: bool,
    items: &[FetchItem],
    uids: &[u32],
    unseen: &[u32],
    gone: bool,
) -> Result<Outcome, StoreFault>
    requires usable { store.old.spent ≡ false }
    requires fresh { store.old.placed ≡ [] }
    requires there { HasMailbox store.old.tables selection.now.mailbox }
    requires unseen { IsStrictlySortedBy nat_cmp unseen.now }
    ensures { (parts : List SessionPart) → IsReady store.old parts
        → ((w : World) → Stands in_row store.old.tables w → gone ≡ some_gone_of w selection.now.mailbox uids.now)
        → Executes D.told result store.old store.new parts parts answer.old.items answer.new.items
        (λ shared. served shared tag.now selection.now by_uid items.now uids.now (seen_unless unseen.now (refused shared.world (seeing selection.now.mailbox unseen.now)))) }
{
    if unseen.is_empty() {
        return tell_fetched(
            alloc,
            store,
            answer,
            tag,
            selection,
            by_uid,
            items,
            uids,
            &[],
            gone,
        );
    }
    let made = mailbox_core::store_flags(
        alloc,
        store,
        selection.mailbox,
        unseen,
        FlagChange::Add,
        &[Flag::Seen],
    );
    match made {
        Ok(()) => tell_fetched(
            alloc, store, answer, tag, selection, by_uid, items, uids, unseen, gone,
        ),
        Err(fault) => {
            refusal_of(fault)?;
            tell_fetched(
                alloc,
                store,
                answer,
                tag,
                selection,
                by_uid,
                items,
                uids,
                &[],
                gone,
            )
        }
    }
}

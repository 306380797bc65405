//! What FETCH tells of messages (RFC 3501 §6.4.5, §7.4.2).

ghost use Rattle.std.specs.Prelude.{◌≡◌, ◌++◌, ℕ, Bool, List, [], map, false, true, IfOk, OnOk};
ghost use Rattle.std.specs.Option.{option_copied, option_map};
ghost use Rattle.std.specs.Ordering.{nat_cmp};
ghost use Rattle.std.specs.List.Sorted.{IsStrictlySortedBy};
ghost use Rattle.ordered_rows.specs.Listed.{row_at};
ghost use Rattle.row_tables.specs.Keys.{mailbox_message_key, uid_key};
ghost use Rattle.row_tables.specs.declared.contents.BodyPart.{BodyPart};
ghost use Rattle.row_store.specs.Holding.{in_row, stored_by};
ghost use Rattle.rebuilder.specs.Rebuilding.{HasMail};
ghost use Rattle.mime_tree.specs.declared.reasons.Mail.{Mail};
ghost use Rattle.imap_grammar.specs.declared.items.FetchItem.{FetchItem};
ghost use Rattle.date_grammar.specs.Stamps.{HasPrint};
ghost use Rattle.fetch_writer.specs.Told.{item_told};
ghost use Rattle.fetch_writer.specs.Items.{items_line};
ghost use Rattle.session_view.specs.Numbers.{number_of};
ghost use Rattle.std.specs.Option.{unwrap_or};
ghost use Rattle.envelope_view.specs.Structure.{fields_of as fields_of_tree};
ghost use Rattle.mail_world.specs.Worlds.{World, is_among};
ghost use Rattle.mail_stands.specs.Facts.{IsEntryRow, Tied, entry_in};
ghost use Rattle.mail_stands.specs.Stands.{Stands};
ghost use Rattle.imap_steps.specs.Stepping.{Shared, answered};
ghost use Rattle.imap_steps.specs.Storing.{entry_of};
ghost use Rattle.imap_steps.specs.Fetching.{facts_of, fetch_line, fetched, is_unseen_if, unseen_among as unseen_among_of};
ghost use Rattle.imap_exec.specs.Answers.{Says};
ghost use Rattle.imap_exec.specs.Does.{Tells};
ghost use Rattle.imap_exec.specs.Fetching.{AreTold, IsEnough, Reads, fetched_text, line_with};

use crate::lines::{complete, refuse};
use crate::unfit::has_print;
use date_grammar::Stamp;
use disk_model::Disk;
use fetch_writer::{
    MessageFacts, ToldItem, law_reading, push_message, reads_body, reads_header,
    told_items as items_told,
};
use imap_grammar::FetchItem;
use imap_steps::Outcome;
use imap_writer::Refusal;
use mail_stands::entry_rows;
use mailbox_reader::{flags_at, is_seen, is_there, message_at, size_at};
use mime_tree::{Body, Encoding, Field, Message};
use octets::Octets;
use rebuilder::law_kept_mails_are_rebuilt;
use row_store::{RowStore, StoreFault};
use row_tables::{MailboxMessage, RowCount, Tables};
use session_view::Selection;
use std::alloc::{AllocError, Global};

// Those of messages that are there, without `\Seen`.
pub(crate) fn unseen_among(
    alloc: Global,
    tables: &Tables,
    mailbox: u32,
    uids: &[u32],
) -> Result<Vec<u32>, AllocError>
    ensures value { (content : BodyPart → List ℕ) (w : World) → Stands content tables.now w
        → IfOk result (λ unseen. unseen.items ≡ unseen_among_of w mailbox uids.now) }
    ensures ascend { IsStrictlySortedBy nat_cmp uids.now → IfOk result (λ unseen. IsStrictlySortedBy nat_cmp unseen.items) }
{
    let mut unseen = Vec::new(alloc);
    for uid in uids {
        if is_unseen(tables, mailbox, *uid) {
            unseen.push(*uid)?;
        }
    }
    Ok(unseen)
}

// Whether a message is there, without `\Seen`.
fn is_unseen(tables: &Tables, mailbox: u32, uid: u32) -> bool
    ensures { (content : BodyPart → List ℕ) (w : World) → Stands content tables.now w
        → result ≡ is_unseen_if (entry_of w mailbox uid) }
{
    is_there(tables, mailbox, uid) && !is_seen(tables, mailbox, uid)
}

// A message of which nothing is read but these fields.
fn bare(alloc: Global, fields: Vec<Field>) -> Message
    ensures { fields_of_tree result ≡ fields.items }
{
    let bytes = Octets::new(Vec::new(alloc));
    Message {
        fields,
        body: Body::Leaf {
            encoding: Encoding::Plain,
            bytes,
        },
    }
}

// As much of the message of an id as is read of it.
fn message_for<D: Disk>(
    alloc: Global,
    store: &mut RowStore<D>,
    id: u64,
    header: bool,
    body: bool,
) -> Result<Message, StoreFault>
    requires usable { store.old.spent ≡ false }
    ensures reads { Reads D.told result store.old store.new }
    ensures message { (mail : Mail) → HasMail (stored_by in_row store.old.tables) id mail → IfOk result (IsEnough header body mail.message) }
{
    if body {
        return rebuilder::tree(alloc, store, id);
    }
    if header {
        let fields = rebuilder::header(alloc, store, id)?;
        return Ok(bare(alloc, fields));
    }
    Ok(bare(alloc, Vec::new(alloc)))
}

// The row of a message of a mailbox.
fn row_of(tables: &Tables, mailbox: u32, uid: u32) -> Option<&MailboxMessage>
    ensures row { option_copied result ≡ row_at mailbox_message_key (uid_key mailbox uid) tables.now.marks.mailbox_messages }
    ensures entry { (content : BodyPart → List ℕ) (w : World) → Stands content tables.now w
        → Tied (IsEntryRow (stored_by content tables.now)) (option_copied result) (entry_in mailbox uid w.mailboxes) }
{
    let mut count = RowCount::new();
    message_at(tables, mailbox, uid, &mut count)
}

// The internal date of a message.
fn date_of(row: &MailboxMessage) -> Stamp
    ensures seconds { result.seconds ≡ row.now.seconds }
    ensures zone { result.zone ≡ row.now.zone }
{
    Stamp {
        seconds: row.seconds,
        zone: row.zone,
    }
}

// What is told of a message beside what stands in it; None where the mailbox doesn't have it.
fn facts_at(
    alloc: Global,
    tables: &Tables,
    selection: &Selection,
    uid: u32,
) -> Result<Option<MessageFacts>, AllocError>
    ensures { (content : BodyPart → List ℕ) (w : World) → Stands content tables.now w
        → IfOk result (λ facts. facts ≡ option_map (facts_of selection.now.view) (entry_of w selection.now.mailbox uid)) }
{
    let Some(row) = row_of(tables, selection.mailbox, uid) else {
        return Ok(None);
    };
    let Some(size) = size_at(tables, selection.mailbox, uid) else {
        return Ok(None);
    };
    let Some(flags) = flags_at(alloc, tables, selection.mailbox, uid)? else {
        return Ok(None);
    };
    Ok(Some(MessageFacts {
        uid,
        modseq: row.modseq,
        flags,
        recent: selection.view.is_recent(uid),
        size,
        date: date_of(row),
    }))
}

// The id of the mail of a message.
fn mail_at(tables: &Tables, mailbox: u32, uid: u32) -> Option<u64>
    ensures { result ≡ option_map (λ row. row.message) (row_at mailbox_message_key (uid_key mailbox uid) tables.now.marks.mailbox_messages) }
{
    Some(row_of(tables, mailbox, uid)?.message)
}

// The line of a message of which this is told.
fn tell_facts<D: Disk>(
    alloc: Global,
    store: &mut RowStore<D>,
    answer: &mut Vec<u8>,
    selection: &Selection,
    facts: &MessageFacts,
    id: u64,
    items: &[ToldItem<'_>],
    header: bool,
    body: bool,
) -> Result<(), StoreFault>
    requires usable { store.old.spent ≡ false }
    requires date { HasPrint facts.now.date }
    ensures reads { Reads D.told result store.old store.new }
    ensures line { (mail : Mail) (by_uid : Bool) (asked : List FetchItem) (changed : Bool) → HasMail (stored_by in_row store.old.tables) id mail → AreTold by_uid asked changed header body (map item_told items.now)
        → OnOk result (answer.new.items ≡ answer.old.items ++ items_line (unwrap_or (number_of facts.now.uid selection.now.view.uids) 0) facts.now mail.message (map item_told items.now)) }
{
    law_reading();
    let message = message_for(alloc, store, id, header, body)?;
    let number = selection.view.position(facts.uid).unwrap_or(0);
    push_message(alloc, answer, number, facts, &message, items)?;
    Ok(())
}

// The line of a message, if it isn't gone.
fn tell_message<D: Disk>(
    alloc: Global,
    store: &mut RowStore<D>,
    answer: &mut Vec<u8>,
    selection: &Selection,
    uid: u32,
    items: &[ToldItem<'_>],
    header: bool,
    body: bool,
) -> Result<(), StoreFault>
    requires usable { store.old.spent ≡ false }
    ensures reads { Reads D.told result store.old store.new }
    ensures line { (w : World) (by_uid : Bool) (asked : List FetchItem) (changed : Bool) → Stands in_row store.old.tables w → AreTold by_uid asked changed header body (map item_told items.now)
        → OnOk result (answer.new.items ≡ answer.old.items ++ line_with by_uid selection.now.view asked changed (entry_of w selection.now.mailbox uid)) }
{
    entry_rows();
    law_kept_mails_are_rebuilt();
    let Some(facts) = facts_at(alloc, store.tables(), selection, uid)? else {
        return Ok(());
    };
    let Some(id) = mail_at(store.tables(), selection.mailbox, uid) else {
        return Ok(());
    };
    if !has_print(facts.date) {
        return Ok(());
    }
    tell_facts(
        alloc, store, answer, selection, &facts, id, items, header, body,
    )
}

// The line of a message by one of two lists of items, as the command changed its flags or not.
fn tell_either<D: Disk>(
    alloc: Global,
    store: &mut RowStore<D>,
    answer: &mut Vec<u8>,
    selection: &Selection,
    uid: u32,
    plain: &[ToldItem<'_>],
    more: &[ToldItem<'_>],
    changed: bool,
    header: bool,
    body: bool,
) -> Result<(), StoreFault>
    requires usable { store.old.spent ≡ false }
    ensures reads { Reads D.told result store.old store.new }
    ensures line { (w : World) (by_uid : Bool) (asked : List FetchItem) → Stands in_row store.old.tables w
        → AreTold by_uid asked false header body (map item_told plain.now) → AreTold by_uid asked true header body (map item_told more.now)
        → OnOk result (answer.new.items ≡ answer.old.items ++ line_with by_uid selection.now.view asked changed (entry_of w selection.now.mailbox uid)) }
{
    if changed {
        tell_message(alloc, store, answer, selection, uid, more, header, body)
    } else {
        tell_message(alloc, store, answer, selection, uid, plain, header, body)
    }
}

// Whether one of ascending UIDs is this.
fn is_one_of(uids: &[u32], uid: u32) -> bool
    requires { IsStrictlySortedBy nat_cmp uids.now }
    ensures { result ≡ is_among uid uids.now }
{
    match uids.binary_search(&uid) {
        Ok(_) => true,
        Err(_) => false,
    }
}

// The lines of messages, those of which `seen` are by the command.
fn tell_messages<D: Disk>(
    alloc: Global,
    store: &mut RowStore<D>,
    answer: &mut Vec<u8>,
    selection: &Selection,
    by_uid: bool,
    items: &[FetchItem],
    uids: &[u32],
    seen: &[u32],
) -> Result<(), StoreFault>
    requires usable { store.old.spent ≡ false }
    requires seen { IsStrictlySortedBy nat_cmp seen.now }
    ensures reads { Reads D.told result store.old store.new }
    ensures told { (w : World) → Stands in_row store.old.tables w → OnOk result (answer.new.items ≡ answer.old.items ++ fetched w selection.now by_uid items.now seen.now uids.now) }
{
    let (header, body) = (reads_header(items), reads_body(items));
    let plain = items_told(alloc, by_uid, items, false)?;
    let more = items_told(alloc, by_uid, items, true)?;
    for uid in uids {
        let changed = is_one_of(seen, *uid);
        tell_either(
            alloc,
            store,
            answer,
            selection,
            *uid,
            plain.as_slice(),
            more.as_slice(),
            changed,
            header,
            body,
        )?;
    }
    Ok(())
}

// The last line.
fn tell_end(
    alloc: Global,
    answer: &mut Vec<u8>,
    tag: &[u8],
    by_uid: bool,
    gone: bool,
) -> Result<Outcome, StoreFault>
    ensures { (shared : Shared) → Says result shared.parts answer.old.items answer.new.items (answered shared (fetch_line tag.now by_uid gone)) }
{
    if by_uid {
        complete(alloc, answer, tag, b"UID FETCH")
    } else if gone {
        refuse(alloc, answer, tag, Refusal::ExpungeIssued)
    } else {
        complete(alloc, answer, tag, b"FETCH")
    }
}

// Tells of messages, some of which the command made seen, and some of which are gone.
pub(crate) fn tell_fetched<D: Disk>(
    alloc: Global,
    store: &mut RowStore<D>,
    answer: &mut Vec<u8>,
    tag: &[u8],
    selection: &Selection,
    by_uid: bool,
    items: &[FetchItem],
    uids: &[u32],
    seen: &[u32],
    gone: bool,
) -> Result<Outcome, StoreFault>
    requires usable { store.old.spent ≡ false }
    requires seen { IsStrictlySortedBy nat_cmp seen.now }
    ensures reads { Reads D.told result store.old store.new }
    ensures told { (w : World) → Stands in_row store.old.tables w → (shared : Shared) → Tells result answer.old.items answer.new.items
        (answered shared (fetched_text w tag.now selection.now by_uid items.now seen.now uids.now gone)) }
{
    tell_messages(alloc, store, answer, selection, by_uid, items, uids, seen)?;
    tell_end(alloc, answer, tag, by_uid, gone)
}

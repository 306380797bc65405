//! What is planned before a message comes into a mailbox: whether there is room, its flags, and then the rows.

ghost use Rattle.std.specs.Prelude.{◌≡◌, ℕ, List, Some, None, ◌+◌, ◌++◌, ◌∷◌, [], ◌<◌, ◌≤◌, nat_lt, length, map, is_some, IfOk, IfErr, OnOk};
ghost use Rattle.ordered_rows.specs.RowKey.{number_key};
ghost use Rattle.ordered_rows.specs.Listed.{row_at, rows_from};
ghost use Rattle.row_tables.specs.Keys.{flag_name_key, mailbox_key, mailbox_message_key, uid_key};
ghost use Rattle.row_tables.specs.Fits.{IsText};
ghost use Rattle.std.specs.List.{list_any};
ghost use Rattle.imap_grammar.specs.declared.flags.Flag.{Flag as Kind};
ghost use Rattle.row_tables.specs.References.{HasMailbox};
ghost use Rattle.mail_world.specs.Changes.{Full, NoUid};
ghost use Rattle.mail_world.specs.Flags.{distinct, same_flag};
ghost use Rattle.mail_world.specs.Limits.{most_flags, most_messages};
ghost use Rattle.imap_grammar.specs.Flags.{flag_text};
ghost use Rattle.row_tables.specs.InTurn.{flag_insertions};
ghost use Rattle.row_tables.specs.Indexes.{flag_name_id};
ghost use Rattle.mail_stands.specs.Naming.{flag_ids, flag_namings, id_or, naming, next_after};
ghost use Rattle.mail_stands.specs.Arriving.{append_changes, append_refused, arrival_row, message_count, with_arrival};
ghost use Rattle.mailbox_core.specs.Messages.{AreProper};
ghost use Rattle.mailbox_core.specs.Appending.{HasNextFree, PlansArrival};
ghost use Rattle.mailbox_core.specs.Rooms.{PlansNone, RefusesPlan};
ghost use Rattle.mailbox_core.specs.Faults.{IsRefusal};

use crate::MailFault;
use crate::new_rows::copy_of;
use date_grammar::Stamp;
use imap_grammar::Flag;
use octets::Octets;
use row_tables::{FlagName, FlagRow, Mailbox, MailboxMessage, RowChange, RowCount, Tables};
use std::alloc::{AllocError, Global};

// How many flags a message may have.
pub(crate) const MOST_FLAGS: usize = 30;

// How many messages a mailbox may have.
const MOST_MESSAGES: u64 = 100_000;

// The last UID that a message may have.
pub(crate) const LAST_UID: u32 = u32::MAX - 1;

// The last mod-sequence.
pub(crate) const LAST_MODSEQ: u64 = u64::MAX - 1;

// A mailbox in which there is room for a message, the ids of its flags, and the changes that name those of them that are new.
#[derive(Drop)]
pub(crate) struct Arrival {
    pub(crate) row: Mailbox,
    pub(crate) ids: Vec<u64>,
    pub(crate) names: Vec<RowChange>,
}

// Plans a message with flags for a mailbox, which is there, if there is room for it.
pub(crate) fn plan_arrival(
    alloc: Global,
    tables: &Tables,
    mailbox: u32,
    flags: &[Flag],
) -> Result<Arrival, MailFault>
    requires there { HasMailbox tables.now mailbox }
    requires flags { AreProper flags.now }
    ensures plan { IfOk result (λ plan. PlansArrival tables.now mailbox flags.now plan.row plan.ids.items plan.names.items) }
    ensures none { IfErr result (λ fault. PlansNone (HasNextFree tables.now mailbox) fault (append_refused tables.now mailbox flags.now)) }
    ensures refuses { IfErr result (RefusesPlan (Full ∷ NoUid ∷ [])) }
{
    mail_stands::names_grow();
    tables.are_whole();
    if has_too_many_flags(flags) {
        return Err(MailFault::Full);
    }
    let row = room_in(tables, mailbox)?;
    let row = copy_of(alloc, row)?;
    let flags = distinct_flags(alloc, flags)?;
    let FlagPlan { ids, names } = plan_flags(alloc, tables, flags.as_slice())?;
    Ok(Arrival { row, ids, names })
}

// The row of a mailbox, which is there, if it takes one message more.
fn room_in(tables: &Tables, mailbox: u32) -> Result<&Mailbox, MailFault>
    requires there { HasMailbox tables.now mailbox }
    ensures found { IfOk result (λ row. row_at mailbox_key (number_key mailbox) tables.now.heads.mailboxes ≡ Some row.now) }
    ensures free { IfOk result (λ row. IsText row.now.name × (row_at mailbox_message_key (uid_key mailbox row.now.uidnext) tables.now.marks.mailbox_messages ≡ None)) }
    ensures room { IfOk result (λ row. (flags : List Kind) → length (distinct flags) ≤ most_flags → append_refused tables.now mailbox flags ≡ None) }
    ensures none { IfErr result (λ fault. (flags : List Kind) → length (distinct flags) ≤ most_flags
        → PlansNone (HasNextFree tables.now mailbox) fault (append_refused tables.now mailbox flags)) }
    ensures refuses { IfErr result (IsRefusal (Full ∷ NoUid ∷ [])) }
{
    let Some(row) = tables.mailboxes_row(mailbox) else {
        unreachable!()
    };
    if has_most_messages(tables, mailbox) || row.highest >= LAST_MODSEQ {
        return Err(MailFault::Full);
    }
    if row.uidnext > LAST_UID {
        return Err(MailFault::NoUid);
    }
    if row.name.len() > u32::MAX as usize || has_message(tables, mailbox, row.uidnext) {
        return Err(MailFault::Full);
    }
    Ok(row)
}

// Whether a mailbox has a message with a UID.
pub(crate) fn has_message(tables: &Tables, mailbox: u32, uid: u32) -> bool
    ensures { result ≡ is_some (row_at mailbox_message_key (uid_key mailbox uid) tables.now.marks.mailbox_messages) }
{
    let mut count = RowCount::new();
    tables.mailbox_row(mailbox, uid, &mut count).is_some()
}

// Whether a mailbox has as many messages as a mailbox may have.
#[tactic(auto, using(crate::proofs::Counts::entries_most))]
pub(crate) fn has_most_messages(tables: &Tables, mailbox: u32) -> bool
    ensures { result ≡ nat_lt most_messages (message_count tables.now mailbox + 1) }
{
    tables.entry_count(mailbox) >= MOST_MESSAGES
}

// Whether a message may not have so many flags, of which each counts once. Takes no memory.
fn has_too_many_flags(flags: &[Flag]) -> bool
    ensures { result ≡ nat_lt most_flags (length (distinct flags.now)) }
{
    let mut count: usize = 0;
    for (place, flag) in flags.iter().enumerate() {
        if !is_among(&flags[..place], flag) {
            if count == MOST_FLAGS {
                return true;
            }
            count += 1;
        }
    }
    false
}

fn is_among(flags: &[Flag], flag: &Flag) -> bool
    ensures { result ≡ list_any (λ other. same_flag other flag.now) flags.now }
{
    flags.iter().any(|other| is_same(other, flag))
}

// Flags, each of them once, where it stands first.
pub(crate) fn distinct_flags<'a>(
    alloc: Global,
    flags: &'a [Flag],
) -> Result<Vec<&'a Flag>, AllocError>
    ensures { IfOk result (λ found. map (λ flag. flag.now) found.items ≡ distinct flags.now) }
{
    let mut found = Vec::with_capacity(alloc, flags.len().min(MOST_FLAGS))?;
    for flag in flags {
        if !has_flag(found.as_slice(), flag) {
            push(&mut found, flag)?;
        }
    }
    Ok(found)
}

fn push<'a>(flags: &mut Vec<&'a Flag>, flag: &'a Flag) -> Result<(), AllocError>
    ensures { OnOk result (map (λ one. one.now) flags.new.items ≡ map (λ one. one.now) flags.old.items ++ flag.now ∷ []) }
{
    flags.push(flag)?;
    Ok(())
}

fn has_flag(flags: &[&Flag], flag: &Flag) -> bool
    ensures { result ≡ list_any (λ other. same_flag other.now flag.now) flags.now }
{
    flags.iter().any(|other| is_same(other, flag))
}

fn is_same(one: &Flag, other: &Flag) -> bool
    ensures { result ≡ same_flag one.now other.now }
{
    match (one, other) {
        (Flag::Answered, Flag::Answered)
        | (Flag::Flagged, Flag::Flagged)
        | (Flag::Deleted, Flag::Deleted)
        | (Flag::Seen, Flag::Seen)
        | (Flag::Draft, Flag::Draft) => true,
        (Flag::Keyword(one), Flag::Keyword(other)) => one.as_slice() == other.as_slice(),
        _ => false,
    }
}

// A flag as it is written.
pub(crate) fn text_of(flag: &Flag) -> &[u8]
    ensures { result.now ≡ flag_text flag.now }
{
    match flag {
        Flag::Answered => b"\\Answered",
        Flag::Flagged => b"\\Flagged",
        Flag::Deleted => b"\\Deleted",
        Flag::Seen => b"\\Seen",
        Flag::Draft => b"\\Draft",
        Flag::Keyword(name) => name.as_slice(),
    }
}

// The ids of flags, and the changes that name those of them that are new.
#[derive(Drop)]
pub(crate) struct FlagPlan {
    pub(crate) ids: Vec<u64>,
    pub(crate) names: Vec<RowChange>,
}

// The ids of flags that differ. Those of new ones are counted from the last on; there is no memory in which all ids were given.
pub(crate) fn plan_flags(
    alloc: Global,
    tables: &Tables,
    flags: &[&Flag],
) -> Result<FlagPlan, AllocError>
    ensures { IfOk result (λ plan. (next : ℕ) × (rows_from flag_name_key (number_key next) tables.now.marks.flag_names ≡ [])
        × (plan.ids.items ≡ flag_ids next tables.now.marks.flag_names (map (λ flag. flag.now) flags.now))
        × (plan.names.items ≡ flag_namings next tables.now.marks.flag_names (map (λ flag. flag.now) flags.now))) }
{
    let mut next = free_from(tables)?;
    let mut plan = FlagPlan {
        ids: Vec::with_capacity(alloc, flags.len())?,
        names: Vec::new(alloc),
    };
    for flag in flags {
        next = plan_flag(alloc, tables, &mut plan, next, text_of(flag))?;
    }
    Ok(plan)
}

// An id on which no flag is, nor above it.
fn free_from(tables: &Tables) -> Result<u64, AllocError>
    ensures { IfOk result (λ next. rows_from flag_name_key (number_key next) tables.now.marks.flag_names ≡ []) }
{
    let next = tables.new_flag_name_id();
    if tables.flag_names_rows_from(next).next().is_some() {
        return Err(AllocError);
    }
    Ok(next)
}

// Adds the id of a flag of a name, and answers the next new id.
fn plan_flag(
    alloc: Global,
    tables: &Tables,
    plan: &mut FlagPlan,
    next: u64,
    name: &[u8],
) -> Result<u64, AllocError>
    ensures after { IfOk result (λ after. after ≡ next_after next (flag_name_id name.now tables.now.marks.flag_names)) }
    ensures ids { OnOk result (plan.new.ids.items ≡ plan.old.ids.items ++ id_or next (flag_name_id name.now tables.now.marks.flag_names) ∷ []) }
    ensures names { OnOk result (plan.new.names.items ≡ plan.old.names.items ++ naming next name.now (flag_name_id name.now tables.now.marks.flag_names)) }
{
    if let Some(id) = tables.flag_name_id(name) {
        plan.ids.push(id)?;
        return Ok(next);
    }
    let Some(after) = next.checked_add(1) else {
        return Err(AllocError);
    };
    let name = Octets::new(name.to_vec(alloc)?);
    plan.ids.push(next)?;
    plan.names
        .push(RowChange::InsertFlagName(FlagName { id: next, name }))?;
    Ok(after)
}

// The changes that append a message of an id, which these rows add.
pub(crate) fn arrival_changes(
    alloc: Global,
    rows: Vec<RowChange>,
    arrival: Arrival,
    message: u64,
    stamp: Stamp,
    taken: bool,
) -> Result<Vec<RowChange>, AllocError>
    requires uid { arrival.row.uidnext < 4294967295 }
    requires modseq { arrival.row.highest < 18446744073709551615 }
    ensures { IfOk result (λ changes. changes.items
        ≡ append_changes rows.items arrival.names.items arrival.row message stamp arrival.ids.items taken) }
{
    let Arrival { row, ids, names } = arrival;
    let mut names = names;
    let mut flags = flag_rows(alloc, row.id, row.uidnext, ids.as_slice())?;
    let mut changes = rows;
    changes.append(&mut names)?;
    changes.push(RowChange::InsertMailboxMessage(arrival_row(&row, message, stamp)))?;
    changes.append(&mut flags)?;
    changes.push(RowChange::UpdateMailbox(with_arrival(taken, row)))?;
    Ok(changes)
}

// The row of a message that comes into a mailbox.
fn arrival_row(row: &Mailbox, message: u64, stamp: Stamp) -> MailboxMessage
    requires { row.now.highest < 18446744073709551615 }
    ensures { result ≡ arrival_row row.now message stamp }
{
    MailboxMessage {
        mailbox: row.id,
        uid: row.uidnext,
        message,
        modseq: row.highest + 1,
        seconds: stamp.seconds,
        zone: stamp.zone,
    }
}

// The changes that give a message the flags of these ids.
pub(crate) fn flag_rows(
    alloc: Global,
    mailbox: u32,
    uid: u32,
    ids: &[u64],
) -> Result<Vec<RowChange>, AllocError>
    ensures { IfOk result (λ rows. rows.items ≡ flag_insertions mailbox uid ids.now) }
{
    ids.iter()
        .map(|flag| {
            RowChange::InsertFlagRow(FlagRow {
                mailbox,
                uid,
                flag: *flag,
            })
        })
        .collect(alloc)
}

// A mailbox with one message more, of which a session is told or none is.
fn with_arrival(taken: bool, row: Mailbox) -> Mailbox
    requires uid { row.uidnext < 4294967295 }
    requires modseq { row.highest < 18446744073709551615 }
    ensures { result ≡ with_arrival taken row }
{
    let next = row.uidnext + 1;
    Mailbox {
        id: row.id,
        owner: row.owner,
        name: row.name,
        uidnext: next,
        first_recent: if taken { next } else { row.first_recent },
        highest: row.highest + 1,
    }
}

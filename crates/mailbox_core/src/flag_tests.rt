//! Whether flags of messages change where they are stored. These tests take no memory.

ghost use Rattle.std.specs.Prelude.{◌≡◌, ◌+◌, ◌<◌, ℕ, not, length, filter, MatchOption};
ghost use Rattle.std.specs.List.{list_any};
ghost use Rattle.mail_world.specs.Limits.{most_flags};
ghost use Rattle.mail_stands.specs.Facts.{has_flag_named};
ghost use Rattle.mail_stands.specs.Storing.{differs, drops, given, has_row, has_too_many, ids_at, is_changed, is_named_id, passes_limit};

use crate::arrivals::{MOST_FLAGS, has_message, text_of};
use imap_grammar::{Flag, FlagChange};
use row_tables::Tables;

// Whether a message has a flag.
fn has_row(tables: &Tables, mailbox: u32, uid: u32, flag: &Flag) -> bool
    ensures { result ≡ has_row tables.now mailbox uid flag.now }
{
    match tables.flag_name_id(text_of(flag)) {
        Some(id) => tables.flags_row((mailbox, uid, id)).is_some(),
        None => false,
    }
}

// Whether one of the flags is written so.
fn has_text(flags: &[Flag], name: &[u8]) -> bool
    ensures { result ≡ has_flag_named name.now flags.now }
{
    flags.iter().any(|flag| text_of(flag) == name)
}

// Whether the flag of an id is one of the flags.
fn is_named_id(tables: &Tables, flags: &[Flag], id: u64) -> bool
    ensures { result ≡ is_named_id tables.now flags.now id }
{
    match tables.flag_names_row(id) {
        Some(row) => has_text(flags, row.name.as_slice()),
        None => false,
    }
}

// Whether a message that has the flag of an id loses it.
pub(crate) fn loses(tables: &Tables, how: FlagChange, flags: &[Flag], id: u64) -> bool
    ensures { result ≡ drops how (is_named_id tables.now flags.now id) }
{
    match how {
        FlagChange::Set => !is_named_id(tables, flags, id),
        FlagChange::Add => false,
        FlagChange::Remove => is_named_id(tables, flags, id),
    }
}

// The flags that a message gets where it lacks them.
pub(crate) fn given(how: FlagChange, flags: &[Flag]) -> &[Flag]
    ensures { result.now ≡ given how flags.now }
{
    match how {
        FlagChange::Set | FlagChange::Add => flags,
        FlagChange::Remove => &flags[..0],
    }
}

// Whether a message lacks a flag that it gets.
fn lacks_any(tables: &Tables, mailbox: u32, uid: u32, flags: &[Flag]) -> bool
    ensures { result ≡ list_any (λ flag. not (has_row tables.now mailbox uid flag)) flags.now }
{
    flags
        .iter()
        .any(|flag| !has_row(tables, mailbox, uid, flag))
}

// Whether a message loses a flag that it has.
fn loses_any(tables: &Tables, mailbox: u32, uid: u32, how: FlagChange, flags: &[Flag]) -> bool
    ensures { result ≡ list_any (λ flag. drops how (is_named_id tables.now flags.now flag)) (ids_at tables.now mailbox uid) }
{
    let mut rows = tables.flags_at(mailbox, uid);
    'rows: while let Some(row) = rows.next() {
        if loses(tables, how, flags, row.flag) {
            return true;
        }
    }
    false
}

// Whether a message's flags change, if it is there.
pub(crate) fn differs(
    tables: &Tables,
    mailbox: u32,
    uid: u32,
    how: FlagChange,
    flags: &[Flag],
) -> bool
    ensures { result ≡ differs tables.now mailbox how flags.now uid }
{
    lacks_any(tables, mailbox, uid, given(how, flags))
        || loses_any(tables, mailbox, uid, how, flags)
}

// Whether there is a message whose flags change.
fn is_changed(tables: &Tables, mailbox: u32, uid: u32, how: FlagChange, flags: &[Flag]) -> bool
    ensures { result ≡ is_changed tables.now mailbox how flags.now uid }
{
    has_message(tables, mailbox, uid) && differs(tables, mailbox, uid, how, flags)
}

// How many flags more a message may have.
fn room_at(tables: &Tables, mailbox: u32, uid: u32) -> Option<usize>
    ensures { MatchOption result (most_flags < length (ids_at tables.now mailbox uid)) (λ room. room + length (ids_at tables.now mailbox uid) ≡ most_flags) }
{
    let mut room = MOST_FLAGS;
    let mut rows = tables.flags_at(mailbox, uid);
    'rows: while let Some(_) = rows.next() {
        if room == 0 {
            return None;
        }
        room -= 1;
    }
    Some(room)
}

// How many of the flags a message lacks.
fn count_lacked(tables: &Tables, mailbox: u32, uid: u32, flags: &[Flag]) -> usize
    ensures { result ≡ length (filter (λ flag. not (has_row tables.now mailbox uid flag)) flags.now) }
{
    flags
        .iter()
        .filter(|flag| !has_row(tables, mailbox, uid, flag))
        .count()
}

// Whether a message would have more flags than a message may have, if it is there.
fn passes_limit(tables: &Tables, mailbox: u32, uid: u32, how: FlagChange, flags: &[Flag]) -> bool
    ensures { result ≡ passes_limit tables.now mailbox how flags.now uid }
{
    match how {
        FlagChange::Set => flags.len() > MOST_FLAGS,
        FlagChange::Add => match room_at(tables, mailbox, uid) {
            Some(room) => count_lacked(tables, mailbox, uid, flags) > room,
            None => true,
        },
        FlagChange::Remove => false,
    }
}

// Whether there is a message that would have more flags than a message may have.
fn has_too_many(tables: &Tables, mailbox: u32, uid: u32, how: FlagChange, flags: &[Flag]) -> bool
    ensures { result ≡ has_too_many tables.now mailbox how flags.now uid }
{
    has_message(tables, mailbox, uid) && passes_limit(tables, mailbox, uid, how, flags)
}

// Whether flags of some message change.
pub(crate) fn any_changed(
    tables: &Tables,
    mailbox: u32,
    uids: &[u32],
    how: FlagChange,
    flags: &[Flag],
) -> bool
    ensures { result ≡ list_any (is_changed tables.now mailbox how flags.now) uids.now }
{
    uids.iter()
        .any(|uid| is_changed(tables, mailbox, *uid, how, flags))
}

// Whether some message would have more flags than a message may have.
pub(crate) fn any_has_too_many(
    tables: &Tables,
    mailbox: u32,
    uids: &[u32],
    how: FlagChange,
    flags: &[Flag],
) -> bool
    ensures { result ≡ list_any (has_too_many tables.now mailbox how flags.now) uids.now }
{
    uids.iter()
        .any(|uid| has_too_many(tables, mailbox, *uid, how, flags))
}

//! Commands that put messages into mailboxes and change their flags.
ghost use Rattle.imap_grammar.specs.Messages as spec;
ghost use Rattle.imap_grammar.specs.Words.{keyword as keyword_of};
ghost use Rattle.imap_grammar.specs.Readings.{Reads};

use crate::classes::Class;
use crate::commands::Command;
use crate::flags::{Flag, FlagChange, any_flags, flag_list};
use crate::reader::{Fault, Reader};
use crate::sets::seq_set;
use crate::strings::{literal, modseq, quoted, string_or};
use crate::words::{keyword, word};
use date_grammar::{Stamp, read_internal};
use sqlite_items::Items;
use std::alloc::Global;

/// The flags of a message that is put in.
#[tactic(auto, unfolding(crate::specs::Messages::flags_before))]
fn flags_before(alloc: Global, reader: &mut Reader<'_>) -> Result<Items<Flag>, Fault>
    ensures { Reads (spec.flags_before reader.old) result reader.new }
{
    if !reader.sees(b'(') {
        return Ok(Items::new(alloc));
    }
    let all = flag_list(alloc, reader)?;
    reader.byte(b' ')?;
    Ok(all)
}

/// A date in quotes.
#[tactic(auto, unfolding(crate::specs::Messages::date))]
fn date(alloc: Global, reader: &mut Reader<'_>) -> Result<Stamp, Fault>
    ensures { Reads (spec.date reader.old) result reader.new }
{
    let text = quoted(reader)?;
    let text = text.to_octets(alloc)?;
    match read_internal(text.as_slice()) {
        Some(stamp) => Ok(stamp),
        None => Err(Fault::NoReading),
    }
}

/// The date that a message is put in with.
#[tactic(auto, unfolding(crate::specs::Messages::date_before))]
fn date_before(alloc: Global, reader: &mut Reader<'_>) -> Result<Option<Stamp>, Fault>
    ensures { Reads (spec.date_before reader.old) result reader.new }
{
    if !reader.sees(b'"') {
        return Ok(None);
    }
    let stamp = date(alloc, reader)?;
    reader.byte(b' ')?;
    Ok(Some(stamp))
}

#[tactic(auto, unfolding(crate::specs::Messages::append))]
pub(crate) fn append(alloc: Global, reader: &mut Reader<'_>) -> Result<Command, Fault>
    ensures { Reads (spec.append reader.old) result reader.new }
{
    reader.byte(b' ')?;
    let name = string_or(reader, Class::Astring)?;
    reader.byte(b' ')?;
    let flags = flags_before(alloc, reader)?;
    let stamp = date_before(alloc, reader)?;
    let text = literal(reader)?;
    reader.end()?;
    Ok(Command::Append {
        name: name.to_octets(alloc)?,
        flags,
        stamp,
        text: text.to_octets(alloc)?,
    })
}

static CHANGES: [(&[u8], (FlagChange, bool)); 6] = [
    (b"FLAGS", (FlagChange::Set, false)),
    (b"FLAGS.SILENT", (FlagChange::Set, true)),
    (b"+FLAGS", (FlagChange::Add, false)),
    (b"+FLAGS.SILENT", (FlagChange::Add, true)),
    (b"-FLAGS", (FlagChange::Remove, false)),
    (b"-FLAGS.SILENT", (FlagChange::Remove, true)),
];

fn change(reader: &mut Reader<'_>) -> Result<(FlagChange, bool), Fault>
    ensures { Reads (keyword_of spec.changes reader.old) result reader.new }
{
    keyword(reader, &CHANGES)
}

/// The condition that no message has changed since.
#[tactic(auto, unfolding(crate::specs::Messages::unchanged_before))]
fn unchanged_before(reader: &mut Reader<'_>) -> Result<Option<u64>, Fault>
    ensures { Reads (spec.unchanged_before reader.old) result reader.new }
{
    if !reader.sees(b'(') {
        return Ok(None);
    }
    reader.byte(b'(')?;
    word(reader, b"UNCHANGEDSINCE")?;
    reader.byte(b' ')?;
    let since = modseq(reader, 0)?;
    reader.byte(b')')?;
    reader.byte(b' ')?;
    Ok(Some(since))
}

#[tactic(auto, unfolding(crate::specs::Messages::store))]
pub(crate) fn store(alloc: Global, reader: &mut Reader<'_>, by_uid: bool) -> Result<Command, Fault>
    ensures { Reads (spec.store by_uid reader.old) result reader.new }
{
    reader.byte(b' ')?;
    let set = seq_set(alloc, reader)?;
    reader.byte(b' ')?;
    let unchanged_since = unchanged_before(reader)?;
    let (how, silent) = change(reader)?;
    reader.byte(b' ')?;
    let flags = any_flags(alloc, reader)?;
    reader.end()?;
    Ok(Command::Store {
        by_uid,
        set,
        unchanged_since,
        how,
        silent,
        flags,
    })
}

#[tactic(auto, unfolding(crate::specs::Messages::copy))]
pub(crate) fn copy(alloc: Global, reader: &mut Reader<'_>, by_uid: bool) -> Result<Command, Fault>
    ensures { Reads (spec.copy by_uid reader.old) result reader.new }
{
    reader.byte(b' ')?;
    let set = seq_set(alloc, reader)?;
    reader.byte(b' ')?;
    let name = string_or(reader, Class::Astring)?;
    reader.end()?;
    Ok(Command::Copy {
        by_uid,
        set,
        name: name.to_octets(alloc)?,
    })
}

#[tactic(auto, unfolding(crate::specs::Messages::uid_expunge))]
pub(crate) fn uid_expunge(alloc: Global, reader: &mut Reader<'_>) -> Result<Command, Fault>
    ensures { Reads (spec.uid_expunge reader.old) result reader.new }
{
    reader.byte(b' ')?;
    let set = seq_set(alloc, reader)?;
    reader.end()?;
    Ok(Command::UidExpunge(set))
}

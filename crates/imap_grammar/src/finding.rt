//! SEARCH, SORT and THREAD.
ghost use Rattle.imap_grammar.specs.Finding as spec;
ghost use Rattle.imap_grammar.specs.Words.{keyword as keyword_of};
ghost use Rattle.imap_grammar.specs.Readings.{Reads};

use crate::classes::Class;
use crate::commands::Command;
use crate::lists::{Rule, read_listed};
use crate::reader::{Fault, Reader};
use crate::searching::all_keys;
use crate::strings::string_or;
use crate::words::{comes, keyword, word};
use octets::Octets;
use std::alloc::Global;

/// What messages are sorted by (RFC 5256 §3).
#[derive(Clone, Copy, Debug, PartialEq, Eq)]
pub enum SortBy {
    /// When the message came.
    Arrival,
    Cc,
    /// When it was sent.
    Date,
    From,
    Size,
    Subject,
    To,
}

/// A key of SORT. Where `reverse`, the greatest comes first.
#[derive(Clone, Copy, Debug, PartialEq, Eq)]
pub struct SortKey {
    pub by: SortBy,
    pub reverse: bool,
}

/// The charset, and a space.
#[tactic(auto, unfolding(crate::specs::Finding::named_charset))]
fn named_charset(alloc: Global, reader: &mut Reader<'_>) -> Result<Option<Octets>, Fault>
    ensures { Reads (spec.named_charset reader.old) result reader.new }
{
    word(reader, b"CHARSET")?;
    reader.byte(b' ')?;
    let name = string_or(reader, Class::Astring)?;
    reader.byte(b' ')?;
    Ok(Some(name.to_octets(alloc)?))
}

/// The charset of the texts, where it is told.
#[tactic(auto, unfolding(crate::specs::Finding::charset))]
fn charset(alloc: Global, reader: &mut Reader<'_>) -> Result<Option<Octets>, Fault>
    ensures { Reads (spec.charset reader.old) result reader.new }
{
    if comes(reader, b"CHARSET") {
        named_charset(alloc, reader)
    } else {
        Ok(None)
    }
}

#[tactic(auto, unfolding(crate::specs::Finding::search))]
pub(crate) fn search(alloc: Global, reader: &mut Reader<'_>, by_uid: bool) -> Result<Command, Fault>
    ensures { Reads (spec.search by_uid reader.old) result reader.new }
{
    reader.byte(b' ')?;
    let charset = charset(alloc, reader)?;
    let key = all_keys(alloc, reader)?;
    reader.end()?;
    Ok(Command::Search {
        by_uid,
        charset,
        key,
    })
}

static SORT_NAMES: [(&[u8], SortBy); 7] = [
    (b"ARRIVAL", SortBy::Arrival),
    (b"CC", SortBy::Cc),
    (b"DATE", SortBy::Date),
    (b"FROM", SortBy::From),
    (b"SIZE", SortBy::Size),
    (b"SUBJECT", SortBy::Subject),
    (b"TO", SortBy::To),
];

fn sort_name(reader: &mut Reader<'_>) -> Result<SortBy, Fault>
    ensures { Reads (keyword_of spec.sort_names reader.old) result reader.new }
{
    keyword(reader, &SORT_NAMES)
}

#[tactic(auto, unfolding(crate::specs::Finding::sorted_by))]
fn sorted_by(reader: &mut Reader<'_>, reverse: bool) -> Result<SortKey, Fault>
    ensures { Reads (spec.sorted_by reverse reader.old) result reader.new }
{
    Ok(SortKey {
        by: sort_name(reader)?,
        reverse,
    })
}

#[tactic(auto, unfolding(crate::specs::Finding::reversed))]
fn reversed(reader: &mut Reader<'_>) -> Result<SortKey, Fault>
    ensures { Reads (spec.reversed reader.old) result reader.new }
{
    word(reader, b"REVERSE")?;
    reader.byte(b' ')?;
    sorted_by(reader, true)
}

#[tactic(auto, unfolding(crate::specs::Finding::sort_key))]
fn sort_key(reader: &mut Reader<'_>) -> Result<SortKey, Fault>
    ensures { Reads (spec.sort_key reader.old) result reader.new }
{
    if comes(reader, b"REVERSE") {
        reversed(reader)
    } else {
        sorted_by(reader, false)
    }
}

/// A key of SORT.
struct SortRule;

impl Rule for SortRule {
    type Value = SortKey;

    ghost use Rattle.imap_grammar.specs.Finding.{sort_key};

    ghost reading = { λ _. sort_key };

    fn read(&self, _alloc: Global, reader: &mut Reader<'_>) -> Result<SortKey, Fault> {
        sort_key(reader)
    }
}

#[tactic(auto, unfolding(crate::specs::Finding::sort))]
pub(crate) fn sort(alloc: Global, reader: &mut Reader<'_>, by_uid: bool) -> Result<Command, Fault>
    ensures { Reads (spec.sort by_uid reader.old) result reader.new }
{
    reader.byte(b' ')?;
    let keys = read_listed(alloc, reader, &SortRule)?;
    reader.byte(b' ')?;
    let charset = string_or(reader, Class::Astring)?;
    reader.byte(b' ')?;
    let key = all_keys(alloc, reader)?;
    reader.end()?;
    Ok(Command::Sort {
        by_uid,
        keys,
        charset: charset.to_octets(alloc)?,
        key,
    })
}

/// The one way of threading that is known.
#[tactic(auto, unfolding(crate::specs::Finding::threading))]
fn threading(reader: &mut Reader<'_>) -> Result<(), Fault>
    ensures { Reads (spec.threading reader.old) result reader.new }
{
    reader.byte(b' ')?;
    word(reader, b"ORDEREDSUBJECT")
}

#[tactic(auto, unfolding(crate::specs::Finding::thread))]
pub(crate) fn thread(alloc: Global, reader: &mut Reader<'_>, by_uid: bool) -> Result<Command, Fault>
    ensures { Reads (spec.thread by_uid reader.old) result reader.new }
{
    threading(reader)?;
    reader.byte(b' ')?;
    let charset = string_or(reader, Class::Astring)?;
    reader.byte(b' ')?;
    let key = all_keys(alloc, reader)?;
    reader.end()?;
    Ok(Command::Thread {
        by_uid,
        charset: charset.to_octets(alloc)?,
        key,
    })
}

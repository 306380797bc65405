//! The keys of searches that have no keys within.
ghost use Rattle.std.specs.Prelude.{◌≡◌, ◌≤◌, OnSome, length};
ghost use Rattle.imap_grammar.specs.Keys as spec;
ghost use Rattle.imap_grammar.specs.Words.{keyword as keyword_of};
ghost use Rattle.imap_grammar.specs.Readings.{Reads};

use crate::classes::Class;
use crate::flags::{Flag, keyword_flag};
use crate::reader::{Fault, Reader};
use crate::searching::SearchKey;
use crate::sets::seq_set;
use crate::strings::{modseq, number32, quoted, string, string_or};
use crate::words::keyword;
use date_grammar::read_day;
use octets::Octets;
use std::alloc::Global;

/// A flag that has a key of its own.
#[derive(Clone, Copy, Debug, PartialEq, Eq)]
pub(crate) enum Mark {
    Answered,
    Deleted,
    Draft,
    Flagged,
    Seen,
}

/// The name of a key that has no keys within.
#[derive(Clone, Copy, Debug, PartialEq, Eq)]
pub(crate) enum LeafWord {
    All,
    Recent,
    New,
    Old,
    Has(Mark),
    Lacks(Mark),
    Keyword,
    Unkeyword,
    Bcc,
    Cc,
    From,
    Subject,
    To,
    Header,
    Body,
    Text,
    /// By the day that the message was sent, or else came.
    Before(bool),
    On(bool),
    Since(bool),
    Larger,
    Smaller,
    Uid,
    Modseq,
}

/// The name of a key.
#[derive(Clone, Copy, Debug, PartialEq, Eq)]
pub(crate) enum KeyWord {
    Leaf(LeafWord),
    Not,
    Or,
}

/// The type of an entry that a mod-sequence is of.
#[derive(Clone, Copy, Debug, PartialEq, Eq)]
pub(crate) enum EntryType {
    Private,
    Shared,
    Any,
}

fn flag_of(mark: Mark) -> Flag
    ensures { result ≡ spec.flag_of mark }
{
    match mark {
        Mark::Answered => Flag::Answered,
        Mark::Deleted => Flag::Deleted,
        Mark::Draft => Flag::Draft,
        Mark::Flagged => Flag::Flagged,
        Mark::Seen => Flag::Seen,
    }
}

/// A text behind a space.
#[tactic(auto, unfolding(crate::specs::Keys::argument))]
fn argument(alloc: Global, reader: &mut Reader<'_>) -> Result<Octets, Fault>
    ensures { Reads (spec.argument reader.old) result reader.new }
{
    reader.byte(b' ')?;
    let text = string_or(reader, Class::Astring)?;
    Ok(text.to_octets(alloc)?)
}

#[tactic(auto, unfolding(crate::specs::Keys::day_in))]
fn day_in(n: usize, text: &[u8]) -> Option<i64>
    ensures value { result ≡ spec.day_in n text.now }
    ensures within { OnSome result (n ≤ length text.now) }
{
    if n > text.len() {
        return None;
    }
    read_day(&text[..n])
}

/// A day without quotes.
#[tactic(auto, unfolding(crate::specs::Keys::bare_day))]
fn bare_day(reader: &mut Reader<'_>) -> Result<i64, Fault>
    ensures { Reads (spec.bare_day reader.old) result reader.new }
{
    let text = reader.rest();
    if let Some(day) = day_in(11, text) {
        reader.skip(11);
        return Ok(day);
    }
    if let Some(day) = day_in(10, text) {
        reader.skip(10);
        return Ok(day);
    }
    Err(Fault::NoReading)
}

/// A day in quotes.
#[tactic(auto, unfolding(crate::specs::Keys::quoted_day))]
fn quoted_day(alloc: Global, reader: &mut Reader<'_>) -> Result<i64, Fault>
    ensures { Reads (spec.quoted_day reader.old) result reader.new }
{
    let text = quoted(reader)?;
    let text = text.to_octets(alloc)?;
    match read_day(text.as_slice()) {
        Some(day) => Ok(day),
        None => Err(Fault::NoReading),
    }
}

/// A day behind a space.
#[tactic(auto, unfolding(crate::specs::Keys::day))]
fn day(alloc: Global, reader: &mut Reader<'_>) -> Result<i64, Fault>
    ensures { Reads (spec.day reader.old) result reader.new }
{
    reader.byte(b' ')?;
    if reader.sees(b'"') {
        quoted_day(alloc, reader)
    } else {
        bare_day(reader)
    }
}

static ENTRY_TYPES: [(&[u8], EntryType); 3] = [
    (b"priv", EntryType::Private),
    (b"shared", EntryType::Shared),
    (b"all", EntryType::Any),
];

fn entry_type(reader: &mut Reader<'_>) -> Result<EntryType, Fault>
    ensures { Reads (keyword_of spec.entry_types reader.old) result reader.new }
{
    keyword(reader, &ENTRY_TYPES)
}

/// The name of an entry and its type.
#[tactic(auto, unfolding(crate::specs::Keys::entry))]
fn entry(reader: &mut Reader<'_>) -> Result<(), Fault>
    ensures { Reads (spec.entry reader.old) result reader.new }
{
    string(reader)?;
    reader.byte(b' ')?;
    entry_type(reader)?;
    reader.byte(b' ')?;
    Ok(())
}

#[tactic(auto, unfolding(crate::specs::Keys::entry_or_none))]
fn entry_or_none(reader: &mut Reader<'_>) -> Result<(), Fault>
    ensures { Reads (spec.entry_or_none reader.old) result reader.new }
{
    if reader.sees(b'"') {
        entry(reader)
    } else if reader.sees(b'{') {
        entry(reader)
    } else {
        Ok(())
    }
}

#[tactic(auto, unfolding(crate::specs::Keys::modseq_key))]
fn modseq_key(reader: &mut Reader<'_>) -> Result<SearchKey, Fault>
    ensures { Reads (spec.modseq_key reader.old) result reader.new }
{
    reader.byte(b' ')?;
    entry_or_none(reader)?;
    Ok(SearchKey::Modseq(modseq(reader, 0)?))
}

/// A field that has the text.
#[tactic(auto, unfolding(crate::specs::Keys::field_key))]
fn field_key(alloc: Global, reader: &mut Reader<'_>, name: &[u8]) -> Result<SearchKey, Fault>
    ensures { Reads (spec.field_key name.now reader.old) result reader.new }
{
    let text = argument(alloc, reader)?;
    let name = Octets::new(Vec::from_slice(alloc, name)?);
    Ok(SearchKey::Header { name, text })
}

#[tactic(auto, unfolding(crate::specs::Keys::header_key))]
fn header_key(alloc: Global, reader: &mut Reader<'_>) -> Result<SearchKey, Fault>
    ensures { Reads (spec.header_key reader.old) result reader.new }
{
    let name = argument(alloc, reader)?;
    let text = argument(alloc, reader)?;
    Ok(SearchKey::Header { name, text })
}

#[tactic(auto, unfolding(crate::specs::Keys::keyword_key))]
fn keyword_key(alloc: Global, reader: &mut Reader<'_>) -> Result<Flag, Fault>
    ensures { Reads (spec.keyword_key reader.old) result reader.new }
{
    reader.byte(b' ')?;
    keyword_flag(alloc, reader)
}

#[tactic(auto, unfolding(crate::specs::Keys::size_key))]
fn size_key(reader: &mut Reader<'_>) -> Result<u32, Fault>
    ensures { Reads (spec.size_key reader.old) result reader.new }
{
    reader.byte(b' ')?;
    number32(reader, 0)
}

#[tactic(auto, unfolding(crate::specs::Keys::uid_key))]
fn uid_key(alloc: Global, reader: &mut Reader<'_>) -> Result<SearchKey, Fault>
    ensures { Reads (spec.uid_key reader.old) result reader.new }
{
    reader.byte(b' ')?;
    Ok(SearchKey::Set {
        set: seq_set(alloc, reader)?,
        by_uid: true,
    })
}

/// What stands behind the name of a key.
#[tactic(auto, unfolding(crate::specs::Keys::leaf_by))]
pub(crate) fn leaf_by(
    alloc: Global,
    reader: &mut Reader<'_>,
    name: LeafWord,
) -> Result<SearchKey, Fault>
    ensures { Reads (spec.leaf_by name reader.old) result reader.new }
{
    match name {
        LeafWord::All => Ok(SearchKey::All),
        LeafWord::Recent => Ok(SearchKey::Recent),
        LeafWord::New => Ok(SearchKey::New),
        LeafWord::Old => Ok(SearchKey::Old),
        LeafWord::Has(mark) => Ok(SearchKey::Has(flag_of(mark))),
        LeafWord::Lacks(mark) => Ok(SearchKey::Lacks(flag_of(mark))),
        LeafWord::Keyword => Ok(SearchKey::Has(keyword_key(alloc, reader)?)),
        LeafWord::Unkeyword => Ok(SearchKey::Lacks(keyword_key(alloc, reader)?)),
        LeafWord::Bcc => field_key(alloc, reader, b"BCC"),
        LeafWord::Cc => field_key(alloc, reader, b"CC"),
        LeafWord::From => field_key(alloc, reader, b"FROM"),
        LeafWord::Subject => field_key(alloc, reader, b"SUBJECT"),
        LeafWord::To => field_key(alloc, reader, b"TO"),
        LeafWord::Header => header_key(alloc, reader),
        LeafWord::Body => Ok(SearchKey::Body(argument(alloc, reader)?)),
        LeafWord::Text => Ok(SearchKey::Text(argument(alloc, reader)?)),
        LeafWord::Before(sent) => Ok(SearchKey::Before {
            day: day(alloc, reader)?,
            sent,
        }),
        LeafWord::On(sent) => Ok(SearchKey::On {
            day: day(alloc, reader)?,
            sent,
        }),
        LeafWord::Since(sent) => Ok(SearchKey::Since {
            day: day(alloc, reader)?,
            sent,
        }),
        LeafWord::Larger => Ok(SearchKey::Larger(size_key(reader)?)),
        LeafWord::Smaller => Ok(SearchKey::Smaller(size_key(reader)?)),
        LeafWord::Uid => uid_key(alloc, reader),
        LeafWord::Modseq => modseq_key(reader),
    }
}

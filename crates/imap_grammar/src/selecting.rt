//! Commands that select a mailbox.
ghost use Rattle.std.specs.Prelude.{◌≡◌, ◌||◌};
ghost use Rattle.imap_grammar.specs.Selecting as spec;
ghost use Rattle.imap_grammar.specs.Words.{keyword as keyword_of};
ghost use Rattle.imap_grammar.specs.Readings.{Reads};

use crate::classes::Class;
use crate::commands::Command;
use crate::lists::{Rule, read_listed};
use crate::reader::{Fault, Reader};
use crate::sets::{SeqSet, seq_set};
use crate::strings::{modseq, number32, string_or};
use crate::words::keyword;
use sqlite_items::Items;
use std::alloc::Global;

/// What the client knows of a mailbox that it selects (RFC 5162 §3.1).
#[derive(Debug, Drop)]
pub struct Resync {
    pub validity: u32,
    /// The mod-sequence up to which it knows the changes.
    pub since: u64,
    /// The UIDs that it knows, where it says so.
    pub known: Option<SeqSet>,
}

/// What SELECT asks for beside the mailbox.
#[derive(Debug, Drop)]
pub(crate) enum Opening {
    Condstore,
    Qresync(Resync),
}

#[derive(Clone, Copy, Debug, PartialEq, Eq)]
pub(crate) enum OpeningWord {
    Condstore,
    Qresync,
}

/// Numbers of messages and their UIDs.
#[tactic(auto, unfolding(crate::specs::Selecting::matched))]
fn matched(alloc: Global, reader: &mut Reader<'_>) -> Result<(), Fault>
    ensures { Reads (spec.matched reader.old) result reader.new }
{
    reader.byte(b'(')?;
    seq_set(alloc, reader)?;
    reader.byte(b' ')?;
    seq_set(alloc, reader)?;
    reader.byte(b')')
}

#[tactic(auto, unfolding(crate::specs::Selecting::matched_behind))]
fn matched_behind(alloc: Global, reader: &mut Reader<'_>) -> Result<(), Fault>
    ensures { Reads (spec.matched_behind reader.old) result reader.new }
{
    if !reader.sees(b' ') {
        return Ok(());
    }
    reader.byte(b' ')?;
    matched(alloc, reader)
}

/// The UIDs that the client knows.
#[tactic(auto, unfolding(crate::specs::Selecting::known))]
fn known(alloc: Global, reader: &mut Reader<'_>) -> Result<Option<SeqSet>, Fault>
    ensures { Reads (spec.known reader.old) result reader.new }
{
    if !reader.sees(b' ') {
        return Ok(None);
    }
    reader.byte(b' ')?;
    if reader.sees(b'(') {
        matched(alloc, reader)?;
        return Ok(None);
    }
    let set = seq_set(alloc, reader)?;
    matched_behind(alloc, reader)?;
    Ok(Some(set))
}

#[tactic(auto, unfolding(crate::specs::Selecting::resync))]
fn read_resync(alloc: Global, reader: &mut Reader<'_>) -> Result<Resync, Fault>
    ensures { Reads (spec.resync reader.old) result reader.new }
{
    reader.byte(b'(')?;
    let validity = number32(reader, 0)?;
    reader.byte(b' ')?;
    let since = modseq(reader, 1)?;
    let known = known(alloc, reader)?;
    reader.byte(b')')?;
    Ok(Resync {
        validity,
        since,
        known,
    })
}

static OPENING_WORDS: [(&[u8], OpeningWord); 2] = [
    (b"CONDSTORE", OpeningWord::Condstore),
    (b"QRESYNC", OpeningWord::Qresync),
];

fn opening_word(reader: &mut Reader<'_>) -> Result<OpeningWord, Fault>
    ensures { Reads (keyword_of spec.opening_words reader.old) result reader.new }
{
    keyword(reader, &OPENING_WORDS)
}

#[tactic(auto, unfolding(crate::specs::Selecting::opening_by))]
fn opening_by(alloc: Global, reader: &mut Reader<'_>, word: OpeningWord) -> Result<Opening, Fault>
    ensures { Reads (spec.opening_by word reader.old) result reader.new }
{
    match word {
        OpeningWord::Condstore => Ok(Opening::Condstore),
        OpeningWord::Qresync => {
            reader.byte(b' ')?;
            Ok(Opening::Qresync(read_resync(alloc, reader)?))
        }
    }
}

#[tactic(auto, unfolding(crate::specs::Selecting::opening))]
fn read_opening(alloc: Global, reader: &mut Reader<'_>) -> Result<Opening, Fault>
    ensures { Reads (spec.opening reader.old) result reader.new }
{
    let word = opening_word(reader)?;
    opening_by(alloc, reader, word)
}

/// What SELECT asks for.
struct OpeningRule;

impl Rule for OpeningRule {
    type Value = Opening;

    ghost use Rattle.imap_grammar.specs.Selecting.{opening};

    ghost reading = { λ _. opening };

    fn read(&self, alloc: Global, reader: &mut Reader<'_>) -> Result<Opening, Fault> {
        read_opening(alloc, reader)
    }
}

#[tactic(auto, unfolding(crate::specs::Selecting::openings))]
fn openings(alloc: Global, reader: &mut Reader<'_>) -> Result<Items<Opening>, Fault>
    ensures { Reads (spec.openings reader.old) result reader.new }
{
    if !reader.sees(b' ') {
        return Ok(Items::new(alloc));
    }
    reader.byte(b' ')?;
    read_listed(alloc, reader, &OpeningRule)
}

/// Whether CONDSTORE is asked for, and the last QRESYNC.
fn asked(mut all: Items<Opening>) -> (bool, Option<Resync>)
    ensures condstore { result.0 ≡ spec.some_condstore all }
    ensures resync { result.1 ≡ spec.last_resync all }
{
    let mut condstore = false;
    let mut resync = None;
    'words: while let Some(last) = all.pop() {
        condstore = asks_condstore(&last, condstore);
        resync = unless_found(resync, last);
    }
    (condstore, resync)
}

/// Whether a word or one behind it is CONDSTORE.
fn asks_condstore(word: &Opening, found: bool) -> bool
    ensures { result ≡ (spec.is_condstore word.now || found) }
{
    match word {
        Opening::Condstore => true,
        Opening::Qresync(_) => found,
    }
}

/// What was found behind a word, or else what the word asks.
fn unless_found(found: Option<Resync>, word: Opening) -> Option<Resync>
    ensures { result ≡ spec.unless_later found word }
{
    match (found, word) {
        (Some(found), _) => Some(found),
        (None, Opening::Condstore) => None,
        (None, Opening::Qresync(what)) => Some(what),
    }
}

/// SELECT, or EXAMINE.
#[tactic(auto, unfolding(crate::specs::Selecting::select))]
pub(crate) fn select(
    alloc: Global,
    reader: &mut Reader<'_>,
    examine: bool,
) -> Result<Command, Fault>
    ensures { Reads (spec.select examine reader.old) result reader.new }
{
    reader.byte(b' ')?;
    let name = string_or(reader, Class::Astring)?;
    let all = openings(alloc, reader)?;
    reader.end()?;
    let (condstore, resync) = asked(all);
    Ok(Command::Select {
        name: name.to_octets(alloc)?,
        examine,
        condstore,
        resync,
    })
}

//! Keys of searches, and keys within keys.
ghost use Rattle.std.specs.Prelude.{◌≡◌, IfOk};
ghost use Rattle.imap_grammar.specs.Searching as spec;
ghost use Rattle.imap_grammar.specs.Lists.{separated};
ghost use Rattle.imap_grammar.specs.Words.{keyword as keyword_of, named as named_of};
ghost use Rattle.imap_grammar.specs.Readings.{Reads};

use crate::classes::Class;
use crate::flags::Flag;
use crate::keys::{KeyWord, LeafWord, Mark, leaf_by};
use crate::reader::{Fault, Reader};
use crate::sets::{SeqSet, seq_set};
use crate::words::named;
use mail_text::lower;
use octets::Octets;
use sqlite_items::{Boxed, Items};
use std::alloc::{AllocError, Global};

/// What is asked of messages (RFC 3501 §6.4.4, RFC 4551 §3.4). Days are counted from 1970-01-01.
#[derive(Debug, Drop)]
pub enum SearchKey {
    All,
    Has(Flag),
    Lacks(Flag),
    Recent,
    New,
    Old,
    /// By numbers of messages, or by UIDs.
    Set { set: SeqSet, by_uid: bool },
    /// A field of that name whose value has the text. The keys for single fields have the field's name in capitals.
    Header { name: Octets, text: Octets },
    Body(Octets),
    Text(Octets),
    /// The day that the message came before, or was sent before.
    Before { day: i64, sent: bool },
    On { day: i64, sent: bool },
    Since { day: i64, sent: bool },
    /// More bytes than these.
    Larger(u32),
    Smaller(u32),
    /// A mod-sequence from this one on.
    Modseq(u64),
    Not(Boxed<SearchKey>),
    Or(Boxed<SearchKey>, Boxed<SearchKey>),
    /// All of them, in their order.
    And(Items<SearchKey>),
}

/// How many levels keys have at most: a key stands within 100.
const LEVELS: u8 = 101;

static KEY_WORDS: [(&[u8], KeyWord); 36] = [
    (b"ALL", KeyWord::Leaf(LeafWord::All)),
    (b"ANSWERED", KeyWord::Leaf(LeafWord::Has(Mark::Answered))),
    (b"BCC", KeyWord::Leaf(LeafWord::Bcc)),
    (b"BEFORE", KeyWord::Leaf(LeafWord::Before(false))),
    (b"BODY", KeyWord::Leaf(LeafWord::Body)),
    (b"CC", KeyWord::Leaf(LeafWord::Cc)),
    (b"DELETED", KeyWord::Leaf(LeafWord::Has(Mark::Deleted))),
    (b"DRAFT", KeyWord::Leaf(LeafWord::Has(Mark::Draft))),
    (b"FLAGGED", KeyWord::Leaf(LeafWord::Has(Mark::Flagged))),
    (b"FROM", KeyWord::Leaf(LeafWord::From)),
    (b"HEADER", KeyWord::Leaf(LeafWord::Header)),
    (b"KEYWORD", KeyWord::Leaf(LeafWord::Keyword)),
    (b"LARGER", KeyWord::Leaf(LeafWord::Larger)),
    (b"MODSEQ", KeyWord::Leaf(LeafWord::Modseq)),
    (b"NEW", KeyWord::Leaf(LeafWord::New)),
    (b"NOT", KeyWord::Not),
    (b"OLD", KeyWord::Leaf(LeafWord::Old)),
    (b"ON", KeyWord::Leaf(LeafWord::On(false))),
    (b"OR", KeyWord::Or),
    (b"RECENT", KeyWord::Leaf(LeafWord::Recent)),
    (b"SEEN", KeyWord::Leaf(LeafWord::Has(Mark::Seen))),
    (b"SENTBEFORE", KeyWord::Leaf(LeafWord::Before(true))),
    (b"SENTON", KeyWord::Leaf(LeafWord::On(true))),
    (b"SENTSINCE", KeyWord::Leaf(LeafWord::Since(true))),
    (b"SINCE", KeyWord::Leaf(LeafWord::Since(false))),
    (b"SMALLER", KeyWord::Leaf(LeafWord::Smaller)),
    (b"SUBJECT", KeyWord::Leaf(LeafWord::Subject)),
    (b"TEXT", KeyWord::Leaf(LeafWord::Text)),
    (b"TO", KeyWord::Leaf(LeafWord::To)),
    (b"UID", KeyWord::Leaf(LeafWord::Uid)),
    (
        b"UNANSWERED",
        KeyWord::Leaf(LeafWord::Lacks(Mark::Answered)),
    ),
    (b"UNDELETED", KeyWord::Leaf(LeafWord::Lacks(Mark::Deleted))),
    (b"UNDRAFT", KeyWord::Leaf(LeafWord::Lacks(Mark::Draft))),
    (b"UNFLAGGED", KeyWord::Leaf(LeafWord::Lacks(Mark::Flagged))),
    (b"UNKEYWORD", KeyWord::Leaf(LeafWord::Unkeyword)),
    (b"UNSEEN", KeyWord::Leaf(LeafWord::Lacks(Mark::Seen))),
];

#[tactic(auto, unfolding(crate::specs::Words::keyword))]
fn key_word(reader: &mut Reader<'_>) -> Result<KeyWord, Fault>
    ensures { Reads (keyword_of spec.key_words reader.old) result reader.new }
{
    match key_named(reader.front(Class::Word)) {
        Some(name) => Ok(name),
        None => Err(Fault::NoReading),
    }
}

/// The key that has the name, in any case. Those of one letter stand together in the table.
fn key_named(word: &[u8]) -> Option<KeyWord>
    ensures { result ≡ named_of spec.key_words word.now }
{
    let [first, ..] = word else {
        return None;
    };
    match lower(*first) {
        b'a' => named(&KEY_WORDS[..2], word),
        b'b' => named(&KEY_WORDS[2..5], word),
        b'c' => named(&KEY_WORDS[5..6], word),
        b'd' => named(&KEY_WORDS[6..8], word),
        b'f' => named(&KEY_WORDS[8..10], word),
        b'h' => named(&KEY_WORDS[10..11], word),
        b'k' => named(&KEY_WORDS[11..12], word),
        b'l' => named(&KEY_WORDS[12..13], word),
        b'm' => named(&KEY_WORDS[13..14], word),
        b'n' => named(&KEY_WORDS[14..16], word),
        b'o' => named(&KEY_WORDS[16..19], word),
        b'r' => named(&KEY_WORDS[19..20], word),
        b's' => named(&KEY_WORDS[20..27], word),
        b't' => named(&KEY_WORDS[27..29], word),
        b'u' => named(&KEY_WORDS[29..], word),
        _ => None,
    }
}

/// Messages by their numbers.
#[tactic(auto, unfolding(crate::specs::Searching::set_key))]
fn set_key(alloc: Global, reader: &mut Reader<'_>) -> Result<SearchKey, Fault>
    ensures { Reads (spec.set_key reader.old) result reader.new }
{
    Ok(SearchKey::Set {
        set: seq_set(alloc, reader)?,
        by_uid: false,
    })
}

fn negation(alloc: Global, key: SearchKey) -> Result<SearchKey, AllocError>
    ensures { IfOk result (λ k. k ≡ SearchKey.Not key) }
{
    Ok(SearchKey::Not(Boxed::new(alloc, key)?))
}

fn either(alloc: Global, a: SearchKey, b: SearchKey) -> Result<SearchKey, AllocError>
    ensures { IfOk result (λ k. k ≡ SearchKey.Or a b) }
{
    Ok(SearchKey::Or(Boxed::new(alloc, a)?, Boxed::new(alloc, b)?))
}

/// A key that has so many levels at most.
#[cycle(keys)]
fn key(alloc: Global, reader: &mut Reader<'_>, levels: u8) -> Result<SearchKey, Fault>
    ensures { Reads (spec.within levels reader.old) result reader.new }
{
    if levels == 0 {
        return Err(Fault::NoReading);
    }
    level(alloc, reader, levels - 1)
}

/// A key whose keys within have so many levels at most.
#[cycle(keys)]
#[tactic(auto, unfolding(crate::specs::Searching::level))]
fn level(alloc: Global, reader: &mut Reader<'_>, levels: u8) -> Result<SearchKey, Fault>
    ensures { Reads (spec.level (spec.within levels) reader.old) result reader.new }
{
    if reader.sees(b'(') {
        group(alloc, reader, levels)
    } else if reader.sees(b'*') {
        set_key(alloc, reader)
    } else if reader.begins(Class::Digit) {
        set_key(alloc, reader)
    } else {
        named_key(alloc, reader, levels)
    }
}

/// Keys in parentheses.
#[cycle(keys)]
#[tactic(auto, unfolding(crate::specs::Searching::group))]
fn group(alloc: Global, reader: &mut Reader<'_>, levels: u8) -> Result<SearchKey, Fault>
    ensures { Reads (spec.group (spec.within levels) reader.old) result reader.new }
{
    reader.byte(b'(')?;
    let keys = row(alloc, reader, levels)?;
    reader.byte(b')')?;
    Ok(SearchKey::And(keys))
}

/// Keys in a row.
#[cycle(keys)]
fn row(alloc: Global, reader: &mut Reader<'_>, levels: u8) -> Result<Items<SearchKey>, Fault>
    ensures { Reads (separated 32 (spec.within levels) reader.old) result reader.new }
{
    let mut found = Items::new(alloc);
    for _turn in 0..reader.rest().len() {
        found.push(key(alloc, reader, levels)?)?;
        if !reader.eat(b' ') {
            return Ok(found);
        }
    }
    Err(Fault::NoReading)
}

/// A key by its name.
#[cycle(keys)]
#[tactic(auto, unfolding(crate::specs::Searching::named_key))]
fn named_key(alloc: Global, reader: &mut Reader<'_>, levels: u8) -> Result<SearchKey, Fault>
    ensures { Reads (spec.named_key (spec.within levels) reader.old) result reader.new }
{
    match key_word(reader)? {
        KeyWord::Leaf(name) => leaf_by(alloc, reader, name),
        KeyWord::Not => not_key(alloc, reader, levels),
        KeyWord::Or => or_key(alloc, reader, levels),
    }
}

#[cycle(keys)]
#[tactic(auto, unfolding(crate::specs::Searching::not_key))]
fn not_key(alloc: Global, reader: &mut Reader<'_>, levels: u8) -> Result<SearchKey, Fault>
    ensures { Reads (spec.not_key (spec.within levels) reader.old) result reader.new }
{
    reader.byte(b' ')?;
    let inner = key(alloc, reader, levels)?;
    Ok(negation(alloc, inner)?)
}

#[cycle(keys)]
#[tactic(auto, unfolding(crate::specs::Searching::or_key))]
fn or_key(alloc: Global, reader: &mut Reader<'_>, levels: u8) -> Result<SearchKey, Fault>
    ensures { Reads (spec.or_key (spec.within levels) reader.old) result reader.new }
{
    reader.byte(b' ')?;
    let a = key(alloc, reader, levels)?;
    reader.byte(b' ')?;
    let b = key(alloc, reader, levels)?;
    Ok(either(alloc, a, b)?)
}

/// Keys in a row, as one key.
#[tactic(auto, unfolding(crate::specs::Searching::all_keys))]
pub(crate) fn all_keys(alloc: Global, reader: &mut Reader<'_>) -> Result<SearchKey, Fault>
    ensures { Reads (spec.all_keys reader.old) result reader.new }
{
    let keys = row(alloc, reader, LEVELS)?;
    Ok(SearchKey::And(keys))
}

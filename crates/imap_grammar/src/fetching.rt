//! FETCH and its items.
ghost use Rattle.std.specs.Prelude.{◌≡◌, IfOk};
ghost use Rattle.imap_grammar.specs.Fetching as spec;
ghost use Rattle.imap_grammar.specs.Words.{keyword as keyword_of};
ghost use Rattle.imap_grammar.specs.Readings.{Reads};

use crate::classes::Class;
use crate::commands::Command;
use crate::items::{FetchItem, Section, SectionPart};
use crate::lists::{Rule, read_listed};
use crate::reader::{Fault, Reader};
use crate::sets::seq_set;
use crate::strings::{modseq, number32, string_or};
use crate::words::{keyword, word};
use octets::Octets;
use sqlite_items::Items;
use std::alloc::{AllocError, Global};

/// What is asked of a part, by its word.
#[derive(Clone, Copy, Debug, PartialEq, Eq)]
pub(crate) enum PartWord {
    Header,
    Fields,
    OtherFields,
    Text,
    Mime,
}

static PART_WORDS: [(&[u8], PartWord); 5] = [
    (b"HEADER", PartWord::Header),
    (b"HEADER.FIELDS", PartWord::Fields),
    (b"HEADER.FIELDS.NOT", PartWord::OtherFields),
    (b"TEXT", PartWord::Text),
    (b"MIME", PartWord::Mime),
];

fn part_word(reader: &mut Reader<'_>) -> Result<PartWord, Fault>
    ensures { Reads (keyword_of spec.part_words reader.old) result reader.new }
{
    keyword(reader, &PART_WORDS)
}

/// A string or an atom.
struct NameRule;

impl Rule for NameRule {
    type Value = Octets;

    ghost use Rattle.imap_grammar.specs.Strings.{astring};

    ghost reading = { λ _. astring };

    fn read(&self, alloc: Global, reader: &mut Reader<'_>) -> Result<Octets, Fault> {
        let name = string_or(reader, Class::Astring)?;
        Ok(name.to_octets(alloc)?)
    }
}

#[tactic(auto, unfolding(crate::specs::Fetching::field_names))]
fn field_names(alloc: Global, reader: &mut Reader<'_>) -> Result<Items<Octets>, Fault>
    ensures { Reads (spec.field_names reader.old) result reader.new }
{
    reader.byte(b' ')?;
    read_listed(alloc, reader, &NameRule)
}

#[tactic(auto, unfolding(crate::specs::Fetching::part_by))]
fn part_by(
    alloc: Global,
    reader: &mut Reader<'_>,
    numbered: bool,
    name: PartWord,
) -> Result<SectionPart, Fault>
    ensures { Reads (spec.part_by numbered name reader.old) result reader.new }
{
    match name {
        PartWord::Header => Ok(SectionPart::Header),
        PartWord::Fields => Ok(SectionPart::Fields {
            names: field_names(alloc, reader)?,
            except: false,
        }),
        PartWord::OtherFields => Ok(SectionPart::Fields {
            names: field_names(alloc, reader)?,
            except: true,
        }),
        PartWord::Text => Ok(SectionPart::Text),
        PartWord::Mime => {
            if numbered {
                Ok(SectionPart::Mime)
            } else {
                Err(Fault::NoReading)
            }
        }
    }
}

#[tactic(auto, unfolding(crate::specs::Fetching::section_part))]
fn section_part(
    alloc: Global,
    reader: &mut Reader<'_>,
    numbered: bool,
) -> Result<SectionPart, Fault>
    ensures { Reads (spec.section_part numbered reader.old) result reader.new }
{
    let name = part_word(reader)?;
    part_by(alloc, reader, numbered, name)
}

/// What is asked of the part with these numbers.
#[tactic(auto, unfolding(crate::specs::Fetching::part_at))]
fn part_at(alloc: Global, reader: &mut Reader<'_>, path: Items<u32>) -> Result<Section, Fault>
    ensures { Reads (spec.part_at path reader.old) result reader.new }
{
    Ok(Section {
        path,
        part: section_part(alloc, reader, true)?,
    })
}

/// The numbers of a part, and what is asked of it.
fn numbered(alloc: Global, reader: &mut Reader<'_>) -> Result<Section, Fault>
    ensures { Reads (spec.numbered reader.old) result reader.new }
{
    let mut path = Items::new(alloc);
    for _turn in 0..reader.rest().len() {
        path.push(number32(reader, 1)?)?;
        if !reader.sees(b'.') {
            return Ok(Section {
                path,
                part: SectionPart::Whole,
            });
        }
        reader.byte(b'.')?;
        if !reader.begins(Class::Digit) {
            return part_at(alloc, reader, path);
        }
    }
    Err(Fault::NoReading)
}

/// What stands between the brackets of a part.
#[tactic(auto, unfolding(crate::specs::Fetching::section))]
fn read_section(alloc: Global, reader: &mut Reader<'_>) -> Result<Section, Fault>
    ensures { Reads (spec.section reader.old) result reader.new }
{
    if reader.begins(Class::Digit) {
        return numbered(alloc, reader);
    }
    let part = if reader.sees(b']') {
        SectionPart::Whole
    } else {
        section_part(alloc, reader, false)?
    };
    Ok(Section {
        path: Items::new(alloc),
        part,
    })
}

/// Where the bytes asked for start, and how many there are.
#[tactic(auto, unfolding(crate::specs::Fetching::partial))]
fn partial(reader: &mut Reader<'_>) -> Result<Option<(u32, u32)>, Fault>
    ensures { Reads (spec.partial reader.old) result reader.new }
{
    if !reader.sees(b'<') {
        return Ok(None);
    }
    reader.byte(b'<')?;
    let start = number32(reader, 0)?;
    reader.byte(b'.')?;
    let count = number32(reader, 1)?;
    reader.byte(b'>')?;
    Ok(Some((start, count)))
}

/// A section in brackets.
#[tactic(auto, unfolding(crate::specs::Fetching::bracketed))]
fn bracketed(alloc: Global, reader: &mut Reader<'_>, peek: bool) -> Result<FetchItem, Fault>
    ensures { Reads (spec.bracketed peek reader.old) result reader.new }
{
    reader.byte(b'[')?;
    let section = read_section(alloc, reader)?;
    reader.byte(b']')?;
    let partial = partial(reader)?;
    Ok(FetchItem::Part {
        section,
        peek,
        partial,
    })
}

/// An item, or several, by the word.
#[derive(Clone, Copy, Debug, PartialEq, Eq)]
pub(crate) enum ItemWord {
    All,
    Fast,
    Full,
    Body,
    Peek,
    BodyStructure,
    Envelope,
    Flags,
    InternalDate,
    Modseq,
    Rfc822,
    Rfc822Header,
    Rfc822Size,
    Rfc822Text,
    Uid,
}

static ITEM_WORDS: [(&[u8], ItemWord); 15] = [
    (b"ALL", ItemWord::All),
    (b"FAST", ItemWord::Fast),
    (b"FULL", ItemWord::Full),
    (b"BODY", ItemWord::Body),
    (b"BODY.PEEK", ItemWord::Peek),
    (b"BODYSTRUCTURE", ItemWord::BodyStructure),
    (b"ENVELOPE", ItemWord::Envelope),
    (b"FLAGS", ItemWord::Flags),
    (b"INTERNALDATE", ItemWord::InternalDate),
    (b"MODSEQ", ItemWord::Modseq),
    (b"RFC822", ItemWord::Rfc822),
    (b"RFC822.HEADER", ItemWord::Rfc822Header),
    (b"RFC822.SIZE", ItemWord::Rfc822Size),
    (b"RFC822.TEXT", ItemWord::Rfc822Text),
    (b"UID", ItemWord::Uid),
];

fn item_word(reader: &mut Reader<'_>) -> Result<ItemWord, Fault>
    ensures { Reads (keyword_of spec.item_words reader.old) result reader.new }
{
    keyword(reader, &ITEM_WORDS)
}

/// An item by its word. The words for several are none.
#[tactic(auto, unfolding(crate::specs::Fetching::item_by))]
fn item_by(alloc: Global, reader: &mut Reader<'_>, name: ItemWord) -> Result<FetchItem, Fault>
    ensures { Reads (spec.item_by name reader.old) result reader.new }
{
    match name {
        ItemWord::All => Err(Fault::NoReading),
        ItemWord::Fast => Err(Fault::NoReading),
        ItemWord::Full => Err(Fault::NoReading),
        ItemWord::Body => {
            if reader.sees(b'[') {
                bracketed(alloc, reader, false)
            } else {
                Ok(FetchItem::Body)
            }
        }
        ItemWord::Peek => bracketed(alloc, reader, true),
        ItemWord::BodyStructure => Ok(FetchItem::BodyStructure),
        ItemWord::Envelope => Ok(FetchItem::Envelope),
        ItemWord::Flags => Ok(FetchItem::Flags),
        ItemWord::InternalDate => Ok(FetchItem::InternalDate),
        ItemWord::Modseq => Ok(FetchItem::Modseq),
        ItemWord::Rfc822 => Ok(FetchItem::Rfc822),
        ItemWord::Rfc822Header => Ok(FetchItem::Rfc822Header),
        ItemWord::Rfc822Size => Ok(FetchItem::Rfc822Size),
        ItemWord::Rfc822Text => Ok(FetchItem::Rfc822Text),
        ItemWord::Uid => Ok(FetchItem::Uid),
    }
}

/// An item.
struct ItemRule;

impl Rule for ItemRule {
    type Value = FetchItem;

    ghost use Rattle.imap_grammar.specs.Fetching.{fetch_item};

    ghost reading = { λ _. fetch_item };

    fn read(&self, alloc: Global, reader: &mut Reader<'_>) -> Result<FetchItem, Fault> {
        fetch_item(alloc, reader)
    }
}

#[tactic(auto, unfolding(crate::specs::Fetching::fetch_item))]
fn fetch_item(alloc: Global, reader: &mut Reader<'_>) -> Result<FetchItem, Fault>
    ensures { Reads (spec.fetch_item reader.old) result reader.new }
{
    let name = item_word(reader)?;
    item_by(alloc, reader, name)
}

fn fast(alloc: Global) -> Result<Items<FetchItem>, AllocError>
    ensures { IfOk result (λ items. items ≡ spec.fast) }
{
    let mut items = Items::new(alloc);
    items.push(FetchItem::Flags)?;
    items.push(FetchItem::InternalDate)?;
    items.push(FetchItem::Rfc822Size)?;
    Ok(items)
}

fn all(alloc: Global) -> Result<Items<FetchItem>, AllocError>
    ensures { IfOk result (λ items. items ≡ spec.all) }
{
    let mut items = fast(alloc)?;
    items.push(FetchItem::Envelope)?;
    Ok(items)
}

fn full(alloc: Global) -> Result<Items<FetchItem>, AllocError>
    ensures { IfOk result (λ items. items ≡ spec.full) }
{
    let mut items = all(alloc)?;
    items.push(FetchItem::Body)?;
    Ok(items)
}

/// An item alone, or a word for several.
#[tactic(auto, unfolding(crate::specs::Fetching::items_by))]
fn items_by(
    alloc: Global,
    reader: &mut Reader<'_>,
    name: ItemWord,
) -> Result<Items<FetchItem>, Fault>
    ensures { Reads (spec.items_by name reader.old) result reader.new }
{
    match name {
        ItemWord::All => Ok(all(alloc)?),
        ItemWord::Fast => Ok(fast(alloc)?),
        ItemWord::Full => Ok(full(alloc)?),
        _ => one_item(alloc, reader, name),
    }
}

#[tactic(auto, unfolding(crate::specs::Fetching::one_item))]
fn one_item(
    alloc: Global,
    reader: &mut Reader<'_>,
    name: ItemWord,
) -> Result<Items<FetchItem>, Fault>
    ensures { Reads (spec.one_item name reader.old) result reader.new }
{
    let mut items = Items::new(alloc);
    items.push(item_by(alloc, reader, name)?)?;
    Ok(items)
}

/// Items in parentheses, or one alone, or a word for several.
#[tactic(auto, unfolding(crate::specs::Fetching::fetch_items))]
fn fetch_items(alloc: Global, reader: &mut Reader<'_>) -> Result<Items<FetchItem>, Fault>
    ensures { Reads (spec.fetch_items reader.old) result reader.new }
{
    if reader.sees(b'(') {
        return read_listed(alloc, reader, &ItemRule);
    }
    let name = item_word(reader)?;
    items_by(alloc, reader, name)
}

/// Whether gone messages are asked for.
#[tactic(auto, unfolding(crate::specs::Fetching::vanished))]
fn vanished(reader: &mut Reader<'_>, by_uid: bool) -> Result<bool, Fault>
    ensures { Reads (spec.vanished by_uid reader.old) result reader.new }
{
    if !reader.sees(b' ') {
        return Ok(false);
    }
    reader.byte(b' ')?;
    word(reader, b"VANISHED")?;
    for_uids(reader, by_uid)
}

/// What stands behind UID alone.
#[tactic(auto, unfolding(crate::specs::Fetching::for_uids))]
fn for_uids(reader: &mut Reader<'_>, by_uid: bool) -> Result<bool, Fault>
    ensures { Reads (spec.for_uids by_uid reader.old) result reader.new }
{
    if by_uid {
        Ok(true)
    } else {
        Err(Fault::NoReading)
    }
}

/// What has to have changed.
#[tactic(auto, unfolding(crate::specs::Fetching::changed))]
fn changed(reader: &mut Reader<'_>, by_uid: bool) -> Result<(Option<u64>, bool), Fault>
    ensures { Reads (spec.changed by_uid reader.old) result reader.new }
{
    if !reader.sees(b' ') {
        return Ok((None, false));
    }
    reader.byte(b' ')?;
    reader.byte(b'(')?;
    word(reader, b"CHANGEDSINCE")?;
    reader.byte(b' ')?;
    let since = modseq(reader, 1)?;
    let gone = vanished(reader, by_uid)?;
    reader.byte(b')')?;
    Ok((Some(since), gone))
}

#[tactic(auto, unfolding(crate::specs::Fetching::fetch))]
pub(crate) fn fetch(alloc: Global, reader: &mut Reader<'_>, by_uid: bool) -> Result<Command, Fault>
    ensures { Reads (spec.fetch by_uid reader.old) result reader.new }
{
    reader.byte(b' ')?;
    let set = seq_set(alloc, reader)?;
    reader.byte(b' ')?;
    let items = fetch_items(alloc, reader)?;
    let (changed_since, vanished) = changed(reader, by_uid)?;
    reader.end()?;
    Ok(Command::Fetch {
        by_uid,
        set,
        items,
        changed_since,
        vanished,
    })
}

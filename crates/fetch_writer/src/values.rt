//! The values of items.
ghost use Rattle.std.specs.Prelude.{◌≡◌, ◌++◌, [], OnOk, codes, decimal, drop, take};
ghost use Rattle.std.specs.Option.{option_map};
ghost use Rattle.date_grammar.specs.Stamps.{HasPrint};
ghost use Rattle.imap_writer.specs.Texts.{literal};
ghost use Rattle.envelope_view.specs.Sections.{section_of};
ghost use Rattle.fetch_writer.specs.Items.{literal_or_nil, value_of, within as within_of};

use crate::dates::push_date;
use crate::facts::MessageFacts;
use envelope_view::{push_envelope, push_structure, section as text_of_section};
use imap_grammar::{FetchItem, Section, SectionPart};
use imap_writer::{push_flags, push_number};
use mime_tree::Message;
use sqlite_items::Items;
use std::alloc::{AllocError, Global};

fn push_literal(out: &mut Vec<u8>, bytes: &[u8]) -> Result<(), AllocError>
    ensures { OnOk result (out.new.items ≡ out.old.items ++ literal bytes.now) }
{
    out.extend_from_slice(b"{")?;
    push_number(out, bytes.len() as u64)?;
    out.extend_from_slice(b"}\r\n")?;
    out.extend_from_slice(bytes)
}

fn behind(text: &[u8], start: usize) -> &[u8]
    ensures { result.now ≡ drop start text.now }
{
    if start < text.len() {
        &text[start..]
    } else {
        &[]
    }
}

fn first(text: &[u8], count: usize) -> &[u8]
    ensures { result.now ≡ take count text.now }
{
    if count < text.len() {
        &text[..count]
    } else {
        text
    }
}

/// The bytes from a place on, and so many at most.
fn within(text: &[u8], bounds: Option<(u32, u32)>) -> &[u8]
    ensures { result.now ≡ within_of bounds text.now }
{
    match bounds {
        Some((start, count)) => first(behind(text, start as usize), count as usize),
        None => text,
    }
}

/// The text of a section, or some of its bytes; NIL where there is no such section.
fn push_section(
    alloc: Global,
    out: &mut Vec<u8>,
    message: &Message,
    section: &Section,
    bounds: Option<(u32, u32)>,
) -> Result<(), AllocError>
    ensures { OnOk result (out.new.items ≡ out.old.items ++ literal_or_nil (option_map (within_of bounds) (section_of section.now message.now))) }
{
    match text_of_section(alloc, message, section)? {
        Some(text) => push_literal(out, within(text.as_slice(), bounds)),
        None => out.extend_from_slice(b"NIL"),
    }
}

/// A section of the message itself, as a literal.
fn push_own(
    alloc: Global,
    out: &mut Vec<u8>,
    message: &Message,
    part: SectionPart,
) -> Result<(), AllocError>
    ensures { OnOk result (out.new.items ≡ out.old.items ++ literal_or_nil (option_map (within_of None) (section_of (record { path = []; part = part }) message.now))) }
{
    let path = Items::new(alloc);
    push_section(alloc, out, message, &Section { path, part }, None)
}

fn push_modseq(out: &mut Vec<u8>, modseq: u64) -> Result<(), AllocError>
    ensures { OnOk result (out.new.items ≡ out.old.items ++ (codes "(" ++ decimal modseq ++ codes ")")) }
{
    out.extend_from_slice(b"(")?;
    push_number(out, modseq)?;
    out.extend_from_slice(b")")
}

/// The value of an item. Texts of the message are made by themselves, and then copied into the answer once.
#[tactic(auto, unfolding(envelope_view::specs::Sections::section_of))]
pub(crate) fn push_value(
    alloc: Global,
    out: &mut Vec<u8>,
    facts: &MessageFacts,
    message: &Message,
    item: &FetchItem,
) -> Result<(), AllocError>
    requires { HasPrint facts.now.date }
    ensures { OnOk result (out.new.items ≡ out.old.items ++ value_of facts.now message.now item.now) }
{
    match item {
        FetchItem::Body => push_structure(alloc, out, message, false),
        FetchItem::BodyStructure => push_structure(alloc, out, message, true),
        FetchItem::Envelope => push_envelope(alloc, out, &message.fields),
        FetchItem::Flags => push_flags(out, facts.flags.as_slice(), facts.recent),
        FetchItem::InternalDate => push_date(out, facts.date),
        FetchItem::Modseq => push_modseq(out, facts.modseq),
        FetchItem::Rfc822 => push_own(alloc, out, message, SectionPart::Whole),
        FetchItem::Rfc822Header => push_own(alloc, out, message, SectionPart::Header),
        FetchItem::Rfc822Size => push_number(out, facts.size),
        FetchItem::Rfc822Text => push_own(alloc, out, message, SectionPart::Text),
        FetchItem::Uid => push_number(out, u64::from(facts.uid)),
        FetchItem::Part {
            section,
            partial,
            ..
        } => push_section(alloc, out, message, section, *partial),
    }
}

//! The names that items have in answers.
ghost use Rattle.std.specs.Prelude.{◌≡◌, ◌++◌, ◌&&◌, ◌||◌, ◌==◌, nat_lt, OnOk, flat_map, length, map, codes};
ghost use Rattle.std.specs.List.{list_all, list_any};
ghost use Rattle.imap_grammar.specs.Classes.{is_atom_byte};
ghost use Rattle.imap_writer.specs.Spaced.{behind_space, spaced};
ghost use Rattle.fetch_writer.specs.Names.{field_name, is_bare_byte as is_bare_byte_of, is_whole as is_whole_of, item_name, number_behind, part_behind, part_name, section_name, start_text};

use imap_grammar::{FetchItem, Section, SectionPart};
use imap_writer::{push_number, push_text};
use octets::Octets;
use std::alloc::AllocError;

fn is_special(b: u8) -> bool
    ensures { result ≡ list_any (λ special. special == b) (codes "(){%*\"\\]") }
{
    matches!(b, b'(' | b')' | b'{' | b'%' | b'*' | b'"' | b'\\' | b']')
}

#[tactic(auto, unfolding(imap_grammar::specs::Classes::is_atom_byte))]
fn is_atom(b: u8) -> bool
    ensures { result ≡ is_atom_byte b }
{
    b >= 0x21 && b <= 0x7E && !is_special(b)
}

fn is_bare_byte(b: u8) -> bool
    ensures { result ≡ is_bare_byte_of b }
{
    is_atom(b) || b == b']'
}

fn are_bare_bytes(name: &[u8]) -> bool
    ensures { result ≡ list_all is_bare_byte_of name.now }
{
    name.iter().all(|b| is_bare_byte(*b))
}

fn is_bare(name: &[u8]) -> bool
    ensures { result ≡ (nat_lt 0 (length name.now) && list_all is_bare_byte_of name.now) }
{
    !name.is_empty() && are_bare_bytes(name)
}

#[tactic(auto, unfolding(crate::specs::Names::field_name))]
fn push_field_name(out: &mut Vec<u8>, name: &[u8]) -> Result<(), AllocError>
    ensures { OnOk result (out.new.items ≡ out.old.items ++ field_name name.now) }
{
    if is_bare(name) {
        out.extend_from_slice(name)
    } else {
        push_text(out, name)
    }
}

/// Names of fields, each behind a space.
fn push_names_behind(out: &mut Vec<u8>, names: &[Octets]) -> Result<(), AllocError>
    ensures { OnOk result (out.new.items ≡ out.old.items ++ flat_map behind_space (map field_name names.now)) }
{
    for name in names {
        out.extend_from_slice(b" ")?;
        push_field_name(out, name.as_slice())?;
    }
    Ok(())
}

fn push_names(out: &mut Vec<u8>, names: &[Octets]) -> Result<(), AllocError>
    ensures { OnOk result (out.new.items ≡ out.old.items ++ spaced (map field_name names.now)) }
{
    let Some((first, others)) = names.split_first() else {
        return Ok(());
    };
    push_field_name(out, first.as_slice())?;
    push_names_behind(out, others)
}

/// Some of the fields, or all others.
fn push_fields(out: &mut Vec<u8>, names: &[Octets], except: bool) -> Result<(), AllocError>
    ensures { OnOk result (out.new.items ≡ out.old.items ++ part_name (SectionPart.Fields names.now except)) }
{
    let word = if except {
        b"HEADER.FIELDS.NOT (".as_slice()
    } else {
        b"HEADER.FIELDS (".as_slice()
    };
    out.extend_from_slice(word)?;
    push_names(out, names)?;
    out.extend_from_slice(b")")
}

/// What is asked of the message or the part.
fn push_part_name(out: &mut Vec<u8>, part: &SectionPart) -> Result<(), AllocError>
    ensures { OnOk result (out.new.items ≡ out.old.items ++ part_name part.now) }
{
    match part {
        SectionPart::Whole => Ok(()),
        SectionPart::Mime => out.extend_from_slice(b"MIME"),
        SectionPart::Header => out.extend_from_slice(b"HEADER"),
        SectionPart::Fields { names, except } => push_fields(out, names.as_slice(), *except),
        SectionPart::Text => out.extend_from_slice(b"TEXT"),
    }
}

fn is_whole(part: &SectionPart) -> bool
    ensures { result ≡ is_whole_of part.now }
{
    matches!(part, SectionPart::Whole)
}

/// The same behind the numbers of a part.
fn push_part_behind(out: &mut Vec<u8>, part: &SectionPart) -> Result<(), AllocError>
    ensures { OnOk result (out.new.items ≡ out.old.items ++ part_behind part.now) }
{
    if is_whole(part) {
        return Ok(());
    }
    out.extend_from_slice(b".")?;
    push_part_name(out, part)
}

/// Further numbers, each behind a dot.
fn push_numbers_behind(out: &mut Vec<u8>, numbers: &[u32]) -> Result<(), AllocError>
    ensures { OnOk result (out.new.items ≡ out.old.items ++ flat_map number_behind numbers.now) }
{
    for n in numbers {
        out.extend_from_slice(b".")?;
        push_number(out, u64::from(*n))?;
    }
    Ok(())
}

fn push_section_name(out: &mut Vec<u8>, path: &[u32], part: &SectionPart) -> Result<(), AllocError>
    ensures { OnOk result (out.new.items ≡ out.old.items ++ section_name path.now part.now) }
{
    let Some((first, others)) = path.split_first() else {
        return push_part_name(out, part);
    };
    push_number(out, u64::from(*first))?;
    push_numbers_behind(out, others)?;
    push_part_behind(out, part)
}

/// Where the bytes start, if not all were asked for.
fn push_start(out: &mut Vec<u8>, bounds: Option<(u32, u32)>) -> Result<(), AllocError>
    ensures { OnOk result (out.new.items ≡ out.old.items ++ start_text bounds) }
{
    let Some((start, _)) = bounds else {
        return Ok(());
    };
    out.extend_from_slice(b"<")?;
    push_number(out, u64::from(start))?;
    out.extend_from_slice(b">")
}

#[tactic(auto, unfolding(crate::specs::Names::item_name))]
fn push_bytes_name(
    out: &mut Vec<u8>,
    section: &Section,
    peek: bool,
    bounds: Option<(u32, u32)>,
) -> Result<(), AllocError>
    ensures { OnOk result (out.new.items ≡ out.old.items ++ item_name (FetchItem.Part section.now peek bounds)) }
{
    out.extend_from_slice(b"BODY[")?;
    push_section_name(out, section.path.as_slice(), &section.part)?;
    out.extend_from_slice(b"]")?;
    push_start(out, bounds)
}

/// The name that an item has in an answer. A peek is told by the same name.
#[tactic(auto, unfolding(crate::specs::Names::item_name))]
pub(crate) fn push_item_name(out: &mut Vec<u8>, item: &FetchItem) -> Result<(), AllocError>
    ensures { OnOk result (out.new.items ≡ out.old.items ++ item_name item.now) }
{
    match item {
        FetchItem::Body => out.extend_from_slice(b"BODY"),
        FetchItem::BodyStructure => out.extend_from_slice(b"BODYSTRUCTURE"),
        FetchItem::Envelope => out.extend_from_slice(b"ENVELOPE"),
        FetchItem::Flags => out.extend_from_slice(b"FLAGS"),
        FetchItem::InternalDate => out.extend_from_slice(b"INTERNALDATE"),
        FetchItem::Modseq => out.extend_from_slice(b"MODSEQ"),
        FetchItem::Rfc822 => out.extend_from_slice(b"RFC822"),
        FetchItem::Rfc822Header => out.extend_from_slice(b"RFC822.HEADER"),
        FetchItem::Rfc822Size => out.extend_from_slice(b"RFC822.SIZE"),
        FetchItem::Rfc822Text => out.extend_from_slice(b"RFC822.TEXT"),
        FetchItem::Uid => out.extend_from_slice(b"UID"),
        FetchItem::Part {
            section,
            peek,
            partial,
        } => push_bytes_name(out, section, *peek, *partial),
    }
}

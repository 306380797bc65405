//! Which items are one.
ghost use Rattle.std.specs.Prelude.{◌≡◌};
ghost use Rattle.std.specs.List.{list_any};
ghost use Rattle.fetch_writer.specs.Asked.{has_item as has_item_of, same_bounds as same_bounds_of, same_item as same_item_of, same_names as same_names_of, same_part as same_part_of, same_section as same_section_of};

use imap_grammar::{FetchItem, Section, SectionPart};
use octets::Octets;

fn same_names(names: &[Octets], others: &[Octets]) -> bool
    ensures { result ≡ same_names_of names.now others.now }
{
    if names.len() != others.len() {
        return false;
    }
    for (at, name) in names.iter().enumerate() {
        if name.as_slice() != others[at].as_slice() {
            return false;
        }
    }
    true
}

fn same_part(part: &SectionPart, other: &SectionPart) -> bool
    ensures { result ≡ same_part_of part.now other.now }
{
    match (part, other) {
        (SectionPart::Whole, SectionPart::Whole)
        | (SectionPart::Mime, SectionPart::Mime)
        | (SectionPart::Header, SectionPart::Header)
        | (SectionPart::Text, SectionPart::Text) => true,
        (
            SectionPart::Fields { names, except },
            SectionPart::Fields {
                names: others,
                except: but,
            },
        ) => same_names(names.as_slice(), others.as_slice()) && *except == *but,
        _ => false,
    }
}

fn same_section(section: &Section, other: &Section) -> bool
    ensures { result ≡ same_section_of section.now other.now }
{
    section.path.as_slice() == other.path.as_slice() && same_part(&section.part, &other.part)
}

fn same_bounds(bounds: Option<(u32, u32)>, others: Option<(u32, u32)>) -> bool
    ensures { result ≡ same_bounds_of bounds others }
{
    match (bounds, others) {
        (None, None) => true,
        (Some((start, count)), Some((other, limit))) => start == other && count == limit,
        _ => false,
    }
}

fn same_item(item: &FetchItem, other: &FetchItem) -> bool
    ensures { result ≡ same_item_of item.now other.now }
{
    match (item, other) {
        (FetchItem::Body, FetchItem::Body)
        | (FetchItem::BodyStructure, FetchItem::BodyStructure)
        | (FetchItem::Envelope, FetchItem::Envelope)
        | (FetchItem::Flags, FetchItem::Flags)
        | (FetchItem::InternalDate, FetchItem::InternalDate)
        | (FetchItem::Modseq, FetchItem::Modseq)
        | (FetchItem::Rfc822, FetchItem::Rfc822)
        | (FetchItem::Rfc822Header, FetchItem::Rfc822Header)
        | (FetchItem::Rfc822Size, FetchItem::Rfc822Size)
        | (FetchItem::Rfc822Text, FetchItem::Rfc822Text)
        | (FetchItem::Uid, FetchItem::Uid) => true,
        (
            FetchItem::Part {
                section,
                peek,
                partial,
            },
            FetchItem::Part {
                section: other,
                peek: peeked,
                partial: limits,
            },
        ) => same_section(section, other) && *peek == *peeked && same_bounds(*partial, *limits),
        _ => false,
    }
}

/// Whether an item is one of these.
pub(crate) fn has_item(items: &[FetchItem], item: &FetchItem) -> bool
    ensures { result ≡ has_item_of item.now items.now }
{
    items.iter().any(|other| same_item(other, item))
}

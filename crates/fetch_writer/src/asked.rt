//! What FETCH is asked for.
ghost use Rattle.std.specs.Prelude.{◌≡◌, ◌++◌, ◌∷◌, [], if◌then◌else◌, IfOk, OnOk, map};
ghost use Rattle.std.specs.List.{list_any};
ghost use Rattle.fetch_writer.specs.Told.{item_told};
ghost use Rattle.fetch_writer.specs.Asked.{distinct_items, has_item as has_item_of, is_of_fields as is_of_fields_of, is_of_header as is_of_header_of, marks_seen as marks_seen_of, reads_body as reads_body_of, reads_header as reads_header_of, told_items as told_items_of};

use crate::same::has_item;
use imap_grammar::{FetchItem, SectionPart};
use std::alloc::{AllocError, Global};

/// An item that is told of a message.
#[derive(Clone, Copy)]
pub enum ToldItem<'a> {
    /// The UID, though it wasn't asked for.
    Uid,
    /// The flags, though they weren't asked for.
    Flags,
    Asked(&'a FetchItem),
}

fn push<'a>(told: &mut Vec<ToldItem<'a>>, item: ToldItem<'a>) -> Result<(), AllocError>
    ensures { OnOk result (map item_told told.new.items ≡ map item_told told.old.items ++ item_told item.entry ∷ []) }
{
    told.push(item)?;
    Ok(())
}

/// An item, unless it is one of those before it.
fn push_new<'a>(
    told: &mut Vec<ToldItem<'a>>,
    before: &[FetchItem],
    item: &'a FetchItem,
) -> Result<(), AllocError>
    ensures { OnOk result (map item_told told.new.items ≡ map item_told told.old.items ++ (if has_item_of item.now before.now then [] else item.now ∷ [])) }
{
    if has_item(before, item) {
        return Ok(());
    }
    push(told, ToldItem::Asked(item))
}

/// Each item once, where it was asked for first.
fn push_distinct<'a>(told: &mut Vec<ToldItem<'a>>, items: &'a [FetchItem]) -> Result<(), AllocError>
    ensures { OnOk result (map item_told told.new.items ≡ map item_told told.old.items ++ distinct_items items.now) }
{
    for (at, item) in items.iter().enumerate() {
        push_new(told, &items[..at], item)?;
    }
    Ok(())
}

/// The items that are told of a message, each once, in the order asked. The UID stands first where messages are named by it, and
/// the flags stand last where the command changed them.
#[tactic(auto, unfolding(crate::specs::Asked::told_items))]
pub fn told_items<'a>(
    alloc: Global,
    by_uid: bool,
    items: &'a [FetchItem],
    changed: bool,
) -> Result<Vec<ToldItem<'a>>, AllocError>
    ensures { IfOk result (λ told. map item_told told.items ≡ told_items_of by_uid items.now changed) }
{
    let mut told = Vec::new(alloc);
    if by_uid && !has_item(items, &FetchItem::Uid) {
        push(&mut told, ToldItem::Uid)?;
    }
    push_distinct(&mut told, items)?;
    if changed && !has_item(items, &FetchItem::Flags) {
        push(&mut told, ToldItem::Flags)?;
    }
    Ok(told)
}

fn marks(item: &FetchItem) -> bool
    ensures { result ≡ marks_seen_of item.now }
{
    match item {
        FetchItem::Rfc822 | FetchItem::Rfc822Text => true,
        FetchItem::Part { peek, .. } => !*peek,
        _ => false,
    }
}

/// Whether messages of which these items are told are seen thereby.
pub fn marks_seen(items: &[FetchItem]) -> bool
    ensures { result ≡ list_any marks_seen_of items.now }
{
    items.iter().any(|item| marks(item))
}

fn is_of_fields(part: &SectionPart) -> bool
    ensures { result ≡ is_of_fields_of part.now }
{
    matches!(part, SectionPart::Header | SectionPart::Fields { .. })
}

fn is_of_header(path: &[u32], part: &SectionPart) -> bool
    ensures { result ≡ is_of_header_of path.now part.now }
{
    path.is_empty() && is_of_fields(part)
}

fn tells_header(item: &FetchItem) -> bool
    ensures { result ≡ reads_header_of item.now }
{
    match item {
        FetchItem::Envelope | FetchItem::Rfc822Header => true,
        FetchItem::Part { section, .. } => is_of_header(section.path.as_slice(), &section.part),
        _ => false,
    }
}

/// Whether some item tells of the message's own header alone: then its fields are wanted.
pub fn reads_header(items: &[FetchItem]) -> bool
    ensures { result ≡ list_any reads_header_of items.now }
{
    items.iter().any(|item| tells_header(item))
}

fn tells_body(item: &FetchItem) -> bool
    ensures { result ≡ reads_body_of item.now }
{
    match item {
        FetchItem::Body | FetchItem::BodyStructure | FetchItem::Rfc822 | FetchItem::Rfc822Text =>
            true,
        FetchItem::Part { section, .. } => !is_of_header(section.path.as_slice(), &section.part),
        _ => false,
    }
}

/// Whether some item tells of what the message has beside its header: then the whole message is wanted.
pub fn reads_body(items: &[FetchItem]) -> bool
    ensures { result ≡ list_any reads_body_of items.now }
{
    items.iter().any(|item| tells_body(item))
}

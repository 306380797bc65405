//! The items of a value, place by place.
ghost use Rattle.std.specs.Prelude.{◌≡◌, ◌∷◌, [], false, None, Some, IfOk, option_map};
ghost use Rattle.address_grammar.specs.Places.{places};
ghost use Rattle.address_grammar.specs.Lists.{address_or_none, group_begun, list, then_items};
ghost use Rattle.address_grammar.specs.Steps.{Appends, IsStep, given, is_nothing, next_of};
ghost use Rattle.mime_tree.specs.declared.values.Item.TheVariants.{GroupEnd};

use crate::addresses::{address, are_gaps, is_phrase, name};
use crate::pieces::Piece;
use crate::places::{Ending, first_place};
use mime_tree::Item;
use octets::Octets;
use std::alloc::{AllocError, Global};

/// What a place stands in.
#[derive(Clone, Copy, Debug, PartialEq, Eq)]
pub(crate) enum Within {
    /// In no group.
    NoGroup,
    /// In a group.
    InGroup,
    /// Right behind a group.
    BehindGroup,
    /// Behind the value's end.
    Nothing,
}

/// The items of pieces, or None where they have no reading.
pub(crate) fn items(alloc: Global, pieces: &[Piece]) -> Result<Option<Vec<Item>>, AllocError>
    ensures { IfOk result (λ r. option_map (λ v. v.items) r ≡ list (places false pieces.now)) }
{
    let mut out = Vec::new(alloc);
    let mut within = Within::NoGroup;
    let mut rest = pieces;
    'places: loop {
        let cut = first_place(rest);
        let Some(next) = append_place(alloc, &mut out, within, cut.inner, cut.ending)? else {
            return Ok(None);
        };
        if next == Within::Nothing {
            return Ok(Some(out));
        }
        within = next;
        rest = cut.rest;
    }
}

/// Appends what a place gives, and tells what the next one stands in. None where there is no reading.
fn append_place(
    alloc: Global,
    out: &mut Vec<Item>,
    within: Within,
    place: &[Piece],
    ending: Ending,
) -> Result<Option<Within>, AllocError>
    requires { is_nothing within ≡ false }
    ensures { IfOk result (IsStep out.old.items out.new.items within place.now ending) }
{
    let Some(next) = next_within(within, ending) else {
        return Ok(None);
    };
    let fits = append_inner(alloc, out, within, place, ending)?;
    if fits { Ok(Some(next)) } else { Ok(None) }
}

/// Appends what a place gives that may stand there. False where it gives nothing that may.
fn append_inner(
    alloc: Global,
    out: &mut Vec<Item>,
    within: Within,
    place: &[Piece],
    ending: Ending,
) -> Result<bool, AllocError>
    ensures { IfOk result (Appends out.old.items out.new.items (given within ending place.now)) }
{
    if within == Within::BehindGroup {
        return Ok(are_gaps(place));
    }
    if within == Within::NoGroup && ending == Ending::AtColon {
        let fits = append_group(alloc, out, place)?;
        return Ok(fits);
    }
    if within == Within::InGroup && ending == Ending::AtSemicolon {
        let fits = append_last(alloc, out, place)?;
        return Ok(fits);
    }
    let fits = append_address(alloc, out, place)?;
    Ok(fits)
}

/// What the place behind one stands in. None where a place may not end so.
fn next_within(within: Within, ending: Ending) -> Option<Within>
    ensures { result ≡ next_of within ending }
{
    match within {
        Within::NoGroup => match ending {
            Ending::AtComma => Some(Within::NoGroup),
            Ending::AtColon => Some(Within::InGroup),
            Ending::AtSemicolon => None,
            Ending::AtEnd => Some(Within::Nothing),
        },
        Within::InGroup => match ending {
            Ending::AtComma => Some(Within::InGroup),
            Ending::AtSemicolon => Some(Within::BehindGroup),
            _ => None,
        },
        Within::BehindGroup => match ending {
            Ending::AtComma => Some(Within::NoGroup),
            Ending::AtEnd => Some(Within::Nothing),
            _ => None,
        },
        Within::Nothing => None,
    }
}

/// Appends the address that a place is, or nothing where it is empty. False where it is neither.
fn append_address(alloc: Global, out: &mut Vec<Item>, place: &[Piece]) -> Result<bool, AllocError>
    ensures { IfOk result (Appends out.old.items out.new.items (address_or_none place.now)) }
{
    if are_gaps(place) {
        return Ok(true);
    }
    let Some(found) = address(alloc, place)? else {
        return Ok(false);
    };
    out.push(found)?;
    Ok(true)
}

/// Appends the last address of a group, or nothing, and the group's end.
fn append_last(alloc: Global, out: &mut Vec<Item>, place: &[Piece]) -> Result<bool, AllocError>
    ensures { IfOk result (Appends out.old.items out.new.items (then_items (address_or_none place.now) (Some (GroupEnd ∷ [])))) }
{
    if !append_address(alloc, out, place)? {
        return Ok(false);
    }
    out.push(Item::GroupEnd)?;
    Ok(true)
}

/// Appends the beginning of a group whose name a place is. False where it is none.
fn append_group(alloc: Global, out: &mut Vec<Item>, place: &[Piece]) -> Result<bool, AllocError>
    ensures { IfOk result (Appends out.old.items out.new.items (group_begun place.now)) }
{
    if !is_phrase(place) || are_gaps(place) {
        return Ok(false);
    }
    let name = name(alloc, place)?;
    out.push(Item::Group(Octets::new(name)))?;
    Ok(true)
}

//! What LIST and LSUB tell of names.

ghost use Rattle.std.specs.Prelude.{◌≡◌, ◌<◌, ◌==◌, ◌+◌, ◌&&◌, ◌||◌, ℕ, List, length, map, take, not, false, slice_index, IfOk, OnOk};
ghost use Rattle.std.specs.List.{list_any};
ghost use Rattle.std.specs.Char.{to_ascii_uppercase};
ghost use Rattle.mailbox_names.specs.Names.{same_name, has_name, inbox, mailbox_name, separator};
ghost use Rattle.mailbox_names.specs.Patterns.{matches};
ghost use Rattle.mailbox_names.specs.Listing.{candidates, finds, listed, wants_levels};
ghost use Rattle.mailbox_names.specs.Finding.{Adds, AreFound, found_if, gives, is_level_of};
ghost use Rattle.mailbox_names.specs.Fronts.{AreFronts};

use crate::fronts::matched_fronts;
use crate::listed::Listed;
use crate::names::mailbox_name;
use octets::Octets;
use std::alloc::{AllocError, Global};
use std::collections::BTreeSet;

/// What is told of names, which stand in any order, where LIST is asked for a pattern: the names that it finds, and the levels of names
/// where it ends with `%`, by their bytes.
pub fn list(alloc: Global, pattern: &[u8], names: &[&[u8]]) -> Result<Vec<Listed>, AllocError>
    ensures { IfOk result (λ all. all.items ≡ listed pattern.now (map (λ name. name.now) names.now)) }
{
    let there = set_of(alloc, names)?;
    let finds_inbox = finds_inbox(alloc, pattern)?;
    let found = found_texts(alloc, pattern, finds_inbox, names)?;
    told(alloc, found, &there)
}

// Names as a set.
fn set_of<'a>(alloc: Global, names: &[&'a [u8]]) -> Result<BTreeSet<&'a [u8]>, AllocError>
    ensures { IfOk result (λ there. (text : List ℕ) → has_name text (map (λ name. name.now) there.keys) ≡ has_name text (map (λ name. name.now) names.now)) }
{
    let mut there = BTreeSet::new(alloc);
    'names: for name in names {
        add(&mut there, *name)?;
    }
    Ok(there)
}

fn add<'a>(found: &mut BTreeSet<&'a [u8]>, text: &'a [u8]) -> Result<(), AllocError>
    ensures { OnOk result (Adds (same_name text.now) (map (λ name. name.now) found.old.keys) (map (λ name. name.now) found.new.keys)) }
{
    found.insert(text)?;
    Ok(())
}

// Whether a pattern finds INBOX, in any case.
pub(crate) fn finds_inbox(alloc: Global, pattern: &[u8]) -> Result<bool, AllocError>
    ensures { IfOk result (λ found. found ≡ finds pattern.now inbox) }
{
    let pattern = uppercase(alloc, pattern)?;
    let fronts = matched_fronts(alloc, &pattern, b"INBOX")?;
    Ok(fronts[5])
}

fn uppercase(alloc: Global, text: &[u8]) -> Result<Vec<u8>, AllocError>
    ensures { IfOk result (λ upper. upper.items ≡ map to_ascii_uppercase text.now) }
{
    text.iter().map(|b| b.to_ascii_uppercase()).collect(alloc)
}

pub(crate) fn wants_levels(pattern: &[u8]) -> bool
    ensures { result ≡ wants_levels pattern.now }
{
    pattern.ends_with(b"%")
}

// What a pattern finds among names and their levels.
fn found_texts<'a>(
    alloc: Global,
    pattern: &[u8],
    finds_inbox: bool,
    names: &[&'a [u8]],
) -> Result<BTreeSet<&'a [u8]>, AllocError>
    requires { finds_inbox ≡ finds pattern.now inbox }
    ensures { IfOk result (λ found. AreFound pattern.now (map (λ name. name.now) names.now) (map (λ name. name.now) found.keys)) }
{
    let levels = wants_levels(pattern);
    let mut found = BTreeSet::new(alloc);
    'names: for name in names {
        add_found(alloc, &mut found, pattern, finds_inbox, levels, *name)?;
    }
    // A set says of itself that it is in order where it is counted.
    let _ = found.len();
    Ok(found)
}

// Adds what a pattern finds of a name.
fn add_found<'a>(
    alloc: Global,
    found: &mut BTreeSet<&'a [u8]>,
    pattern: &[u8],
    finds_inbox: bool,
    levels: bool,
    name: &'a [u8],
) -> Result<(), AllocError>
    requires inbox { finds_inbox ≡ finds pattern.now inbox }
    requires levels { levels ≡ wants_levels pattern.now }
    ensures { OnOk result (Adds (λ text. gives pattern.now text name.now) (map (λ name. name.now) found.old.keys) (map (λ name. name.now) found.new.keys)) }
{
    let fronts = matched_fronts(alloc, pattern, name)?;
    let fronts = fronts.as_slice();
    add_levels_if(levels, found, finds_inbox, name, fronts)?;
    add_if(found, finds_inbox, fronts[name.len()], name)
}

// Adds the levels of a name that are found, where levels are wanted.
fn add_levels_if<'a>(
    levels: bool,
    found: &mut BTreeSet<&'a [u8]>,
    finds_inbox: bool,
    name: &'a [u8],
    fronts: &[bool],
) -> Result<(), AllocError>
    requires { length fronts.now ≡ length name.now + 1 }
    ensures { (pattern : List ℕ) → finds_inbox ≡ finds pattern inbox → AreFronts pattern name.now fronts.now
        → OnOk result (Adds (λ text. levels && (finds pattern text && is_level_of name.now text)) (map (λ name. name.now) found.old.keys) (map (λ name. name.now) found.new.keys)) }
{
    if levels {
        add_levels(found, finds_inbox, name, fronts)
    } else {
        Ok(())
    }
}

// Adds them, where it is known which fronts of the name are matched.
fn add_levels<'a>(
    found: &mut BTreeSet<&'a [u8]>,
    finds_inbox: bool,
    name: &'a [u8],
    fronts: &[bool],
) -> Result<(), AllocError>
    requires { length fronts.now ≡ length name.now + 1 }
    ensures { (pattern : List ℕ) → finds_inbox ≡ finds pattern inbox → AreFronts pattern name.now fronts.now
        → OnOk result (Adds (λ text. finds pattern text && is_level_of name.now text) (map (λ name. name.now) found.old.keys) (map (λ name. name.now) found.new.keys)) }
{
    'levels: for i in 0..name.len() {
        add_level(found, finds_inbox, fronts[i], name, i)?;
    }
    Ok(())
}

// Adds the first bytes of a name, if they are a level that is found.
fn add_level<'a>(
    found: &mut BTreeSet<&'a [u8]>,
    finds_inbox: bool,
    matched: bool,
    name: &'a [u8],
    size: usize,
) -> Result<(), AllocError>
    requires { size < length name.now }
    ensures { OnOk result (Adds (λ text. (slice_index name.now size == separator) && (found_if matched finds_inbox (mailbox_name (take size name.now)) && same_name (mailbox_name (take size name.now)) text))
        (map (λ name. name.now) found.old.keys) (map (λ name. name.now) found.new.keys)) }
{
    if name[size] == b'/' {
        add_if(found, finds_inbox, matched, mailbox_name(&name[..size]))
    } else {
        Ok(())
    }
}

// Adds a text if it is found.
fn add_if<'a>(
    found: &mut BTreeSet<&'a [u8]>,
    finds_inbox: bool,
    matched: bool,
    text: &'a [u8],
) -> Result<(), AllocError>
    ensures { OnOk result (Adds (λ other. found_if matched finds_inbox text.now && same_name text.now other) (map (λ name. name.now) found.old.keys) (map (λ name. name.now) found.new.keys)) }
{
    let is_found = if text == b"INBOX".as_slice() {
        finds_inbox
    } else {
        matched
    };
    if is_found { add(found, text) } else { Ok(()) }
}

// Tells of texts, in memory of their own, of which each that is no name can't be selected.
fn told(
    alloc: Global,
    found: BTreeSet<&[u8]>,
    there: &BTreeSet<&[u8]>,
) -> Result<Vec<Listed>, AllocError>
    ensures { IfOk result (λ all. all.items ≡ map (λ text. record { name = text.now; noselect = not (has_name text.now (map (λ name. name.now) there.now.keys)) }) found.entry.keys) }
{
    let mut all = Vec::with_capacity(alloc, found.len())?;
    let mut found = found;
    'found: while let Some(text) = found.pop_first() {
        all.push(one(alloc, text, there)?)?;
    }
    Ok(all)
}

fn one(alloc: Global, text: &[u8], there: &BTreeSet<&[u8]>) -> Result<Listed, AllocError>
    ensures { IfOk result (λ its. its ≡ record { name = text.now; noselect = not (has_name text.now (map (λ name. name.now) there.now.keys)) }) }
{
    let noselect = !there.contains(text);
    let name = owned(alloc, text)?;
    Ok(Listed { name, noselect })
}

fn owned(alloc: Global, text: &[u8]) -> Result<Octets, AllocError>
    ensures { IfOk result (λ own. own ≡ text.now) }
{
    Ok(Octets::new(text.to_vec(alloc)?))
}

//! Items of a message, and its line.
ghost use Rattle.std.specs.Prelude.{◌≡◌, ◌++◌, OnOk, flat_map, map};
ghost use Rattle.date_grammar.specs.Stamps.{HasPrint};
ghost use Rattle.imap_writer.specs.Spaced.{behind_space, spaced};
ghost use Rattle.fetch_writer.specs.Told.{item_told};
ghost use Rattle.fetch_writer.specs.Items.{item_text, items_line};

use crate::asked::ToldItem;
use crate::facts::MessageFacts;
use crate::names::push_item_name;
use crate::values::push_value;
use imap_grammar::FetchItem;
use imap_writer::push_number;
use mime_tree::Message;
use std::alloc::{AllocError, Global};

#[tactic(auto, unfolding(crate::specs::Items::item_text))]
fn push_item(
    alloc: Global,
    out: &mut Vec<u8>,
    facts: &MessageFacts,
    message: &Message,
    item: &FetchItem,
) -> Result<(), AllocError>
    requires { HasPrint facts.now.date }
    ensures { OnOk result (out.new.items ≡ out.old.items ++ item_text facts.now message.now item.now) }
{
    push_item_name(out, item)?;
    out.extend_from_slice(b" ")?;
    push_value(alloc, out, facts, message, item)
}

fn push_told(
    alloc: Global,
    out: &mut Vec<u8>,
    facts: &MessageFacts,
    message: &Message,
    item: &ToldItem<'_>,
) -> Result<(), AllocError>
    requires { HasPrint facts.now.date }
    ensures { OnOk result (out.new.items ≡ out.old.items ++ item_text facts.now message.now (item_told item.now)) }
{
    match item {
        ToldItem::Uid => push_item(alloc, out, facts, message, &FetchItem::Uid),
        ToldItem::Flags => push_item(alloc, out, facts, message, &FetchItem::Flags),
        ToldItem::Asked(item) => push_item(alloc, out, facts, message, item),
    }
}

/// Items, each behind a space.
fn push_behind(
    alloc: Global,
    out: &mut Vec<u8>,
    facts: &MessageFacts,
    message: &Message,
    items: &[ToldItem<'_>],
) -> Result<(), AllocError>
    requires { HasPrint facts.now.date }
    ensures { OnOk result (out.new.items ≡ out.old.items ++ flat_map behind_space (map (item_text facts.now message.now) (map item_told items.now))) }
{
    for item in items {
        out.extend_from_slice(b" ")?;
        push_told(alloc, out, facts, message, item)?;
    }
    Ok(())
}

fn push_items(
    alloc: Global,
    out: &mut Vec<u8>,
    facts: &MessageFacts,
    message: &Message,
    items: &[ToldItem<'_>],
) -> Result<(), AllocError>
    requires { HasPrint facts.now.date }
    ensures { OnOk result (out.new.items ≡ out.old.items ++ spaced (map (item_text facts.now message.now) (map item_told items.now))) }
{
    let Some((first, others)) = items.split_first() else {
        return Ok(());
    };
    push_told(alloc, out, facts, message, first)?;
    push_behind(alloc, out, facts, message, others)
}

/// Adds the line of a message: `* n FETCH (..)`, with these items in their order (RFC 3501 §7.4.2). Of the message itself it reads no
/// more than the items ask for (`reads_header`, `reads_body`): a message with its header's fields alone, or with nothing, stands
/// for one of which no more is read (`law_reading`).
#[tactic(auto, unfolding(crate::specs::Items::items_line))]
pub fn push_message(
    alloc: Global,
    out: &mut Vec<u8>,
    number: u32,
    facts: &MessageFacts,
    message: &Message,
    items: &[ToldItem<'_>],
) -> Result<(), AllocError>
    requires { HasPrint facts.now.date }
    ensures { OnOk result (out.new.items ≡ out.old.items ++ items_line number facts.now message.now (map item_told items.now)) }
{
    out.extend_from_slice(b"* ")?;
    push_number(out, u64::from(number))?;
    out.extend_from_slice(b" FETCH (")?;
    push_items(alloc, out, facts, message, items)?;
    out.extend_from_slice(b")\r\n")
}

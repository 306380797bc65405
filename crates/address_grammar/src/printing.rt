//! Addresses and groups as text (RFC 5322 §3.4).
ghost use Rattle.std.specs.Prelude.{◌≡◌, ◌++◌, IfOk, OnOk};
ghost use Rattle.address_grammar.specs.Printing.{address_text, addr_text, bare_or_quoted, behind_of, between, escaped, escaped_byte, is_bare as is_bare_of, item_text, printed};

use crate::bytes::is_atom;
use mime_tree::Item;
use std::alloc::{AllocError, Global};

/// Items as the value of an address field: `name <local@domain>` or `local@domain`, a group as `name: a, b;` or `name:;`,
/// and `, ` between items. It is unfolded.
pub fn print(alloc: Global, items: &[Item]) -> Result<Vec<u8>, AllocError>
    ensures { IfOk result (λ v. v.items ≡ printed items.now) }
{
    let mut out = Vec::new(alloc);
    let mut before = Before::TheStart;
    for item in items {
        append_item(&mut out, before, item)?;
        before = behind(item);
    }
    Ok(out)
}

/// What stands before an item.
#[derive(Clone, Copy)]
enum Before {
    TheStart,
    AnItem,
    AGroupName,
}

fn behind(item: &Item) -> Before
    ensures { result ≡ behind_of item.now }
{
    match item {
        Item::Group(_) => Before::AGroupName,
        _ => Before::AnItem,
    }
}

/// Appends an item, and what is written between it and what stands before it.
fn append_item(out: &mut Vec<u8>, before: Before, item: &Item) -> Result<(), AllocError>
    ensures { OnOk result (out.new.items ≡ out.old.items ++ item_text before item.now) }
{
    match item {
        Item::Address {
            name,
            local,
            domain,
        } => {
            append_between(out, before)?;
            append_address(out, name.as_slice(), local.as_slice(), domain.as_slice())?;
        }
        Item::Group(name) => {
            append_between(out, before)?;
            append_bare_or_quoted(out, b' ', name.as_slice())?;
            out.push(b':')?;
        }
        Item::GroupEnd => out.push(b';')?,
    }
    Ok(())
}

fn append_between(out: &mut Vec<u8>, before: Before) -> Result<(), AllocError>
    ensures { OnOk result (out.new.items ≡ out.old.items ++ between before) }
{
    match before {
        Before::TheStart => {}
        Before::AnItem => out.extend_from_slice(b", ")?,
        Before::AGroupName => out.push(b' ')?,
    }
    Ok(())
}

/// Appends `name <local@domain>`, or without a name `local@domain`.
fn append_address(
    out: &mut Vec<u8>,
    name: &[u8],
    local: &[u8],
    domain: &[u8],
) -> Result<(), AllocError>
    ensures { OnOk result (out.new.items ≡ out.old.items ++ address_text name.now local.now domain.now) }
{
    if name.is_empty() {
        append_addr(out, local, domain)?;
        return Ok(());
    }
    append_bare_or_quoted(out, b' ', name)?;
    out.extend_from_slice(b" <")?;
    append_addr(out, local, domain)?;
    out.push(b'>')?;
    Ok(())
}

/// Appends `local@domain`.
fn append_addr(out: &mut Vec<u8>, local: &[u8], domain: &[u8]) -> Result<(), AllocError>
    ensures { OnOk result (out.new.items ≡ out.old.items ++ addr_text local.now domain.now) }
{
    append_bare_or_quoted(out, b'.', local)?;
    out.push(b'@')?;
    out.extend_from_slice(domain)?;
    Ok(())
}

/// Appends a text as it stands where it is atoms with single bytes of this kind between, else in quotes.
fn append_bare_or_quoted(out: &mut Vec<u8>, between: u8, text: &[u8]) -> Result<(), AllocError>
    ensures { OnOk result (out.new.items ≡ out.old.items ++ bare_or_quoted between text.now) }
{
    if is_bare(between, text) {
        out.extend_from_slice(text)?;
        return Ok(());
    }
    out.push(b'"')?;
    append_escaped(out, text)?;
    out.push(b'"')?;
    Ok(())
}

/// Appends a text with `\` before each `"` and each `\`.
fn append_escaped(out: &mut Vec<u8>, text: &[u8]) -> Result<(), AllocError>
    ensures { OnOk result (out.new.items ≡ out.old.items ++ escaped text.now) }
{
    for b in text {
        append_escaped_byte(out, *b)?;
    }
    Ok(())
}

fn append_escaped_byte(out: &mut Vec<u8>, b: u8) -> Result<(), AllocError>
    ensures { OnOk result (out.new.items ≡ out.old.items ++ escaped_byte b) }
{
    if b == b'"' || b == b'\\' {
        out.push(b'\\')?;
    }
    out.push(b)?;
    Ok(())
}

/// Whether a text is atoms with single bytes of this kind between: it is printed as it stands, and any other in quotes.
pub fn is_bare(between: u8, text: &[u8]) -> bool
    ensures { result ≡ is_bare_of between text.now }
{
    let mut begun = false;
    for b in text {
        if *b == between {
            if !begun {
                return false;
            }
            begun = false;
            continue;
        }
        if !is_atom(*b) {
            return false;
        }
        begun = true;
    }
    begun
}

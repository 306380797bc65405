//! The values of fields, counted piece by piece from where they stand.
ghost use Rattle.std.specs.Prelude.{◌≡◌, ◌++◌};
ghost use Rattle.address_grammar.specs.Printing.{address_text, addr_text, bare_or_quoted, escaped, escaped_byte};
ghost use Rattle.canon_writer.specs.Counting.{between_behind as between_behind_of, ids_behind, item_behind, items_behind, with_bytes as with_bytes_of};
ghost use Rattle.canon_writer.specs.Printing.{value_text};

use crate::counting::{FieldSize, with_bytes};
use address_grammar::is_bare;
use mime_tree::{Item, Value};
use octets::Octets;

/// A field with its value.
pub(crate) fn with_value(field: FieldSize, value: &Value) -> FieldSize
    ensures { result ≡ with_bytes_of field (value_text value.now) }
{
    match value {
        Value::Text(text) => with_bytes(field, text.as_slice()),
        Value::Addresses(items) => with_items(field, items.as_slice()),
        Value::Date(date) => with_bytes(field, &date.text),
        Value::Ids(ids) => with_ids(field, ids.as_slice()),
    }
}

fn with_ids(field: FieldSize, ids: &[Octets]) -> FieldSize
    ensures { result ≡ with_bytes_of field (value_text (Value.Ids ids.now)) }
{
    let mut counted = field;
    let mut between = b"".as_slice();
    for id in ids {
        counted = with_bytes(with_bytes(counted, between), id.as_slice());
        between = b" ";
    }
    counted
}

fn with_items(field: FieldSize, items: &[Item]) -> FieldSize
    ensures { result ≡ with_bytes_of field (value_text (Value.Addresses items.now)) }
{
    let mut counted = field;
    let mut between = b"".as_slice();
    for item in items {
        counted = with_item(counted, between, item);
        between = between_behind(item);
    }
    counted
}

/// What is written between an item and the next.
fn between_behind(item: &Item) -> &'static [u8]
    ensures { result.now ≡ between_behind_of item.now }
{
    match item {
        Item::Group(_) => b" ",
        _ => b", ",
    }
}

/// An item behind what is written between it and the one before it.
fn with_item(field: FieldSize, between: &[u8], item: &Item) -> FieldSize
    ensures { result ≡ with_bytes_of field (item_behind between.now item.now) }
{
    match item {
        Item::Address {
            name,
            local,
            domain,
        } => with_address(
            with_bytes(field, between),
            name.as_slice(),
            local.as_slice(),
            domain.as_slice(),
        ),
        Item::Group(name) => {
            let named = with_bare_or_quoted(with_bytes(field, between), b' ', name.as_slice());
            with_bytes(named, b":")
        }
        Item::GroupEnd => with_bytes(field, b";"),
    }
}

/// `name <local@domain>`, or without a name `local@domain`.
fn with_address(field: FieldSize, name: &[u8], local: &[u8], domain: &[u8]) -> FieldSize
    ensures { result ≡ with_bytes_of field (address_text name.now local.now domain.now) }
{
    if name.is_empty() {
        return with_addr(field, local, domain);
    }
    let named = with_bytes(with_bare_or_quoted(field, b' ', name), b" <");
    with_bytes(with_addr(named, local, domain), b">")
}

/// `local@domain`
fn with_addr(field: FieldSize, local: &[u8], domain: &[u8]) -> FieldSize
    ensures { result ≡ with_bytes_of field (addr_text local.now domain.now) }
{
    let begun = with_bytes(with_bare_or_quoted(field, b'.', local), b"@");
    with_bytes(begun, domain)
}

/// A text as it stands where it is atoms with single bytes of this kind between, else in quotes.
fn with_bare_or_quoted(field: FieldSize, between: u8, text: &[u8]) -> FieldSize
    ensures { result ≡ with_bytes_of field (bare_or_quoted between text.now) }
{
    if is_bare(between, text) {
        return with_bytes(field, text);
    }
    with_bytes(with_escaped(with_bytes(field, b"\""), text), b"\"")
}

/// A text with `\` before each `"` and each `\`.
fn with_escaped(field: FieldSize, text: &[u8]) -> FieldSize
    ensures { result ≡ with_bytes_of field (escaped text.now) }
{
    let mut counted = field;
    for b in text {
        counted = with_escaped_byte(counted, *b);
    }
    counted
}

/// A byte with `\` before it where it is `"` or `\`.
fn with_escaped_byte(field: FieldSize, b: u8) -> FieldSize
    ensures { result ≡ with_bytes_of field (escaped_byte b) }
{
    if b == b'"' || b == b'\\' {
        return with_bytes(field, &[b'\\', b]);
    }
    with_bytes(field, &[b])
}

//! Which fronts of a name a pattern matches.

ghost use Rattle.std.specs.Prelude.{◌≡◌, ◌+◌, ◌==◌, ◌&&◌, ◌||◌, ◌∷◌, length, not, true, false, replicate, IfOk};
ghost use Rattle.std.specs.List.{list_any};
ghost use Rattle.std.specs.Str.{byte};
ghost use Rattle.mailbox_names.specs.Patterns.{is_wildcard, takes};
ghost use Rattle.mailbox_names.specs.Fronts.{AreFronts};
ghost use Rattle.mailbox_names.specs.Rows.{carried, entered, stepped};

use crate::patterns::is_wildcard;
use std::alloc::{AllocError, Global};

/// For each front of a name, from the empty one on, whether a pattern matches it: at place `i` that of `i` bytes. Goes over the name
/// at most once for each byte of the pattern.
pub fn matched_fronts(alloc: Global, pattern: &[u8], name: &[u8]) -> Result<Vec<bool>, AllocError>
    ensures { IfOk result (λ fronts. AreFronts pattern.now name.now fronts.items) }
{
    let mut row = first_row(alloc, name)?;
    steps(&mut row, pattern, name);
    Ok(row)
}

// Turns the row of the empty pattern into that of a pattern.
fn steps(row: &mut [bool], pattern: &[u8], name: &[u8])
    requires { row.old ≡ true ∷ replicate (length name.now) false }
    ensures { AreFronts pattern.now name.now row.new }
{
    'pattern: for p in pattern {
        step(row, *p, name);
        if !is_live(row) {
            return;
        }
    }
}

// Whether a front is matched: no longer pattern matches any other.
fn is_live(row: &[bool]) -> bool
    ensures { result ≡ list_any (λ was. was) row.now }
{
    row.iter().any(|was| *was)
}

// The row of the empty pattern, which matches the empty front alone.
fn first_row(alloc: Global, name: &[u8]) -> Result<Vec<bool>, AllocError>
    ensures { IfOk result (λ row. row.items ≡ true ∷ replicate (length name.now) false) }
{
    let mut row = Vec::with_capacity(alloc, name.len() + 1)?;
    row.push(true)?;
    row.resize(name.len() + 1, false)?;
    Ok(row)
}

// Turns the row of a pattern into that of the pattern with one byte more.
fn step(row: &mut [bool], p: u8, name: &[u8])
    requires { length row.old ≡ length name.now + 1 }
    ensures { row.new ≡ stepped p false row.old name.now }
{
    let mut carry = false;
    'fronts: for i in 0..row.len() {
        let was = row[i];
        row[i] = entered(p, carry, was);
        if i < name.len() {
            carry = carried(p, carry, was, name[i]);
        }
    }
}

fn entered(p: u8, carry: bool, was: bool) -> bool
    ensures { result ≡ entered p carry was }
{
    carry || is_wildcard(p) && was
}

fn carried(p: u8, carry: bool, was: bool, b: u8) -> bool
    ensures { result ≡ carried p carry was b }
{
    if is_wildcard(p) {
        entered(p, carry, was) && takes(p, b)
    } else {
        was && b == p
    }
}

fn takes(p: u8, b: u8) -> bool
    ensures { result ≡ takes p b }
{
    p == b'*' || b != b'/'
}

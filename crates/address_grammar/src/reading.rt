//! The value of an address field, read.
ghost use Rattle.std.specs.Prelude.{◌≡◌, IfOk, option_map};
ghost use Rattle.address_grammar.specs.Grammar.{IsReadingOf};
ghost use Rattle.address_grammar.specs.Lists.{reading};

use crate::items::items;
use crate::lexing::pieces;
use mime_tree::Item;
use std::alloc::{AllocError, Global};

/// The addresses and groups that the value of an address field is (RFC 5322 §3.4), or None where it is no such list. The
/// value is unfolded. Time and memory go with its length.
pub fn read(alloc: Global, value: &[u8]) -> Result<Option<Vec<Item>>, AllocError>
    ensures grammar { IfOk result (λ r. IsReadingOf value.now (option_map (λ v. v.items) r)) }
    ensures exact { IfOk result (λ r. option_map (λ v. v.items) r ≡ reading value.now) }
{
    let found = items_of(alloc, value)?;
    Ok(found)
}

fn items_of(alloc: Global, value: &[u8]) -> Result<Option<Vec<Item>>, AllocError>
    ensures { IfOk result (λ r. option_map (λ v. v.items) r ≡ reading value.now) }
{
    let Some(pieces) = pieces(alloc, value)? else {
        return Ok(None);
    };
    let Some(found) = items(alloc, &pieces)? else {
        return Ok(None);
    };
    if found.is_empty() {
        return Ok(None);
    }
    Ok(Some(found))
}

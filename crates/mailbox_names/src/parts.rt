//! Which names LIST and LSUB have to look at.

ghost use Rattle.std.specs.Prelude.{◌≡◌, ℕ, List, IfOk};
ghost use Rattle.mailbox_names.specs.Listing.{listed};
ghost use Rattle.mailbox_names.specs.Fronts.{IsPart};
ghost use Rattle.mailbox_names.specs.Finding.{front_of, plain_front};

use crate::listing::{finds_inbox, wants_levels};
use crate::patterns::is_wildcard;
use std::alloc::{AllocError, Global};

/// The front with which names have to begin where LIST is asked for a pattern: of all others INBOX alone is to be looked at.
pub fn needed_front<'a>(alloc: Global, pattern: &'a [u8]) -> Result<&'a [u8], AllocError>
    ensures { IfOk result (λ front. (names part : List (List ℕ)) → IsPart front.now names part → listed pattern.now part ≡ listed pattern.now names) }
{
    let front = front_of(alloc, pattern)?;
    Ok(front)
}

fn front_of<'a>(alloc: Global, pattern: &'a [u8]) -> Result<&'a [u8], AllocError>
    ensures { IfOk result (λ front. front.now ≡ front_of pattern.now) }
{
    let finds_inbox = finds_inbox(alloc, pattern)?;
    if wants_levels(pattern) && finds_inbox {
        Ok(b"")
    } else {
        Ok(plain_front(pattern))
    }
}

// What is in front of the first wildcard.
fn plain_front(pattern: &[u8]) -> &[u8]
    ensures { result.now ≡ plain_front pattern.now }
{
    'plain: for i in 0..pattern.len() {
        if is_wildcard(pattern[i]) {
            return &pattern[..i];
        }
    }
    pattern
}

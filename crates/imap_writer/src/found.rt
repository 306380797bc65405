//! The answers to SEARCH and SORT.
ghost use Rattle.std.specs.Prelude.{◌≡◌, ◌++◌, OnOk, decimal};
ghost use Rattle.imap_writer.specs.Found.{found, greatest_text, search_line, sort_line};

use crate::spaced::{Shown, print_behind};
use crate::texts::push_number;
use std::alloc::AllocError;

impl Shown for u32 {
    ghost text_of = { decimal };

    fn print(&self, out: &mut Vec<u8>) -> Result<(), AllocError> {
        push_number(out, u64::from(*self))
    }
}

fn push_greatest(out: &mut Vec<u8>, greatest: Option<u64>) -> Result<(), AllocError>
    ensures { OnOk result (out.new.items ≡ out.old.items ++ greatest_text greatest) }
{
    let Some(modseq) = greatest else {
        return Ok(());
    };
    out.extend_from_slice(b" (MODSEQ ")?;
    push_number(out, modseq)?;
    out.extend_from_slice(b")")
}

fn push_found(
    out: &mut Vec<u8>,
    word: &[u8],
    numbers: &[u32],
    greatest: Option<u64>,
) -> Result<(), AllocError>
    ensures { OnOk result (out.new.items ≡ out.old.items ++ found word.now numbers.now greatest) }
{
    out.extend_from_slice(b"* ")?;
    out.extend_from_slice(word)?;
    print_behind(out, numbers)?;
    push_greatest(out, greatest)?;
    out.extend_from_slice(b"\r\n")
}

/// `* SEARCH ..`: the numbers or UIDs that were found, in the order given, and the greatest mod-sequence of these messages where it
/// is told (RFC 4551 §3.4).
#[tactic(auto, unfolding(crate::specs::Found::search_line))]
pub fn push_search(
    out: &mut Vec<u8>,
    numbers: &[u32],
    greatest: Option<u64>,
) -> Result<(), AllocError>
    ensures { OnOk result (out.new.items ≡ out.old.items ++ search_line numbers.now greatest) }
{
    push_found(out, b"SEARCH", numbers, greatest)
}

/// `* SORT ..`: the same in the order that was asked for (RFC 5256 §4).
#[tactic(auto, unfolding(crate::specs::Found::sort_line))]
pub fn push_sort(
    out: &mut Vec<u8>,
    numbers: &[u32],
    greatest: Option<u64>,
) -> Result<(), AllocError>
    ensures { OnOk result (out.new.items ≡ out.old.items ++ sort_line numbers.now greatest) }
{
    push_found(out, b"SORT", numbers, greatest)
}

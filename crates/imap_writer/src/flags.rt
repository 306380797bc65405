//! Lists of flags.
ghost use Rattle.std.specs.Prelude.{◌≡◌, ◌++◌, ◌∷◌, [], IfOk, OnOk, map, codes};
ghost use Rattle.imap_grammar.specs.Flags.{flag_text};
ghost use Rattle.imap_writer.specs.Spaced.{spaced};
ghost use Rattle.imap_writer.specs.Flags.{flag_list_of, recent_flag};

use crate::spaced::{Shown, print_spaced};
use imap_grammar::Flag;
use std::alloc::{AllocError, Global};

impl Shown for Flag {
    ghost text_of = { flag_text };

    fn print(&self, out: &mut Vec<u8>) -> Result<(), AllocError> {
        match self {
            Flag::Answered => out.extend_from_slice(b"\\Answered"),
            Flag::Flagged => out.extend_from_slice(b"\\Flagged"),
            Flag::Deleted => out.extend_from_slice(b"\\Deleted"),
            Flag::Seen => out.extend_from_slice(b"\\Seen"),
            Flag::Draft => out.extend_from_slice(b"\\Draft"),
            Flag::Keyword(name) => out.extend_from_slice(name.as_slice()),
        }
    }
}

/// The flags of a message in parentheses, with `\Recent` last where it is recent: `(\Seen draft \Recent)`. They stand in the order
/// that they are given in.
pub fn flag_list(alloc: Global, flags: &[Flag], recent: bool) -> Result<Vec<u8>, AllocError>
    ensures { IfOk result (λ text. text.items ≡ flag_list_of flags.now recent) }
{
    let mut out = Vec::new(alloc);
    push_flags(&mut out, flags, recent)?;
    Ok(out)
}

/// Writes the flags of a message behind what is there.
#[tactic(auto, unfolding(crate::specs::Flags::flag_list_of))]
pub fn push_flags(out: &mut Vec<u8>, flags: &[Flag], recent: bool) -> Result<(), AllocError>
    ensures { OnOk result (out.new.items ≡ out.old.items ++ flag_list_of flags.now recent) }
{
    out.extend_from_slice(b"(")?;
    if recent {
        print_with(out, flags, b"\\Recent")?;
    } else {
        print_spaced(out, flags)?;
    }
    out.extend_from_slice(b")")
}

/// Flags, and one more name.
pub(crate) fn print_with(out: &mut Vec<u8>, flags: &[Flag], last: &[u8]) -> Result<(), AllocError>
    ensures { OnOk result (out.new.items ≡ out.old.items ++ spaced (map flag_text flags.now ++ last.now ∷ [])) }
{
    print_spaced(out, flags)?;
    if !flags.is_empty() {
        out.extend_from_slice(b" ")?;
    }
    out.extend_from_slice(last)
}

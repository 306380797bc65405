//! The answer to ENABLE.
ghost use Rattle.std.specs.Prelude.{◌≡◌, ◌++◌, OnOk};
ghost use Rattle.imap_writer.specs.Enabled.{enabled_line, extension_text};

use crate::spaced::{Shown, print_behind};
use std::alloc::AllocError;

/// An extension that a session can turn on.
#[derive(Clone, Copy, Debug, PartialEq, Eq)]
pub enum Extension {
    /// RFC 4551.
    Condstore,
    /// RFC 5162.
    Qresync,
}

impl Shown for Extension {
    ghost text_of = { extension_text };

    fn print(&self, out: &mut Vec<u8>) -> Result<(), AllocError> {
        match self {
            Extension::Condstore => out.extend_from_slice(b"CONDSTORE"),
            Extension::Qresync => out.extend_from_slice(b"QRESYNC"),
        }
    }
}

/// `* ENABLED ..`: the extensions that are on from now, in the order given.
#[tactic(auto, unfolding(crate::specs::Enabled::enabled_line))]
pub fn push_enabled(out: &mut Vec<u8>, extensions: &[Extension]) -> Result<(), AllocError>
    ensures { OnOk result (out.new.items ≡ out.old.items ++ enabled_line extensions.now) }
{
    out.extend_from_slice(b"* ENABLED")?;
    print_behind(out, extensions)?;
    out.extend_from_slice(b"\r\n")
}

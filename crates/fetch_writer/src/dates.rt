//! Internal dates.
ghost use Rattle.std.specs.Prelude.{◌≡◌, ◌++◌, OnOk, codes};
ghost use Rattle.date_grammar.specs.Stamps.{HasPrint};
ghost use Rattle.fetch_writer.specs.InternalDates.{internal_text};

use date_grammar::{Stamp, law_one_print, law_values, print_internal};
use std::alloc::AllocError;

/// The text of an internal date.
fn text_of(stamp: Stamp) -> [u8; 26]
    requires { HasPrint stamp }
    ensures { result ≡ internal_text stamp }
{
    law_values();
    law_one_print();
    print_internal(stamp)
}

/// An internal date in quotes.
pub(crate) fn push_date(out: &mut Vec<u8>, stamp: Stamp) -> Result<(), AllocError>
    requires { HasPrint stamp }
    ensures { OnOk result (out.new.items ≡ out.old.items ++ (codes "\"" ++ internal_text stamp ++ codes "\"")) }
{
    let text = text_of(stamp);
    out.extend_from_slice(b"\"")?;
    out.extend_from_slice(text.as_slice())?;
    out.extend_from_slice(b"\"")
}

// Rows as lines.
ghost use Rattle.std.specs.Prelude.{◌≡◌, ◌++◌, ℕ, List, OnOk, flat_map};

use ordered_rows::{Keyed, Rows};
use std::alloc::AllocError;

/// A row that is listed as a line.
pub(crate) trait Lined: Keyed {
    ghost line_of: { Self → List ℕ };

    fn print(&self, out: &mut Vec<u8>) -> Result<(), AllocError>
        ensures { OnOk result (out.new.items ≡ out.old.items ++ line_of self.now) };
}

pub(crate) fn print_rows<R: Lined>(
    out: &mut Vec<u8>,
    mut rows: Rows<'_, R>,
) -> Result<(), AllocError>
    ensures { OnOk result (out.new.items ≡ out.old.items ++ flat_map R.line_of rows.entry) }
{
    'rows: while let Some(row) = rows.next() {
        row.print(out)?;
    }
    Ok(())
}

// Where parts stand.
ghost use Rattle.std.specs.Prelude.{◌≡◌, IfOk};
ghost use Rattle.std.specs.Option.{option_copied};
ghost use Rattle.shredder.specs.MessageRows.{part_at};
ghost use Rattle.shredder.specs.Paths.{child_path};

use row_tables::{PartNumber, Tables};
use shredder::path_of_child;
use std::alloc::{AllocError, Global};

// The part with a number in a part, if there is one.
pub(crate) fn child_of<'a>(
    alloc: Global,
    tables: &'a Tables,
    part: &PartNumber,
    number: u64,
) -> Result<Option<&'a PartNumber>, AllocError>
    ensures { IfOk result (λ child. option_copied child ≡ part_at tables.now part.now.message (child_path part.now.path number)) }
{
    let path = path_of_child(alloc, part.path.as_slice(), number)?;
    Ok(tables.part_numbers_row((part.message, path.as_slice())))
}

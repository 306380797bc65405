//! Texts with spaces between.
ghost use Rattle.std.specs.Prelude.{◌≡◌, ◌++◌, ℕ, List, OnOk, flat_map, map};
ghost use Rattle.imap_writer.specs.Spaced.{behind_space, spaced};

use std::alloc::AllocError;

/// What has a text.
pub(crate) trait Shown {
    ghost text_of: { Self → List ℕ };

    fn print(&self, out: &mut Vec<u8>) -> Result<(), AllocError>
        ensures { OnOk result (out.new.items ≡ out.old.items ++ text_of self.now) };
}

pub(crate) fn print_spaced<T: Shown>(out: &mut Vec<u8>, all: &[T]) -> Result<(), AllocError>
    ensures { OnOk result (out.new.items ≡ out.old.items ++ spaced (map T.text_of all.now)) }
{
    let Some((first, others)) = all.split_first() else {
        return Ok(());
    };
    first.print(out)?;
    print_behind(out, others)
}

/// Each behind a space.
pub(crate) fn print_behind<T: Shown>(out: &mut Vec<u8>, all: &[T]) -> Result<(), AllocError>
    ensures { OnOk result (out.new.items ≡ out.old.items ++ flat_map behind_space (map T.text_of all.now)) }
{
    for one in all {
        out.extend_from_slice(b" ")?;
        one.print(out)?;
    }
    Ok(())
}

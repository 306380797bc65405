// The paths of parts.
ghost use Rattle.std.specs.Prelude.{◌≡◌, IfOk};
ghost use Rattle.shredder.specs.Paths.{child_path};

use itoa::Buffer;
use std::alloc::{AllocError, Global};

/// The path of the part with a number in the part at a path: parts of a multipart are numbered from 1, and the message in a nested
/// part has the number 0.
pub fn path_of_child(alloc: Global, path: &[u8], number: u64) -> Result<Vec<u8>, AllocError>
    ensures { IfOk result (λ v. v.items ≡ child_path path.now number) }
{
    let mut digits = Buffer::new();
    let digits = digits.format(number).as_bytes();
    if path.is_empty() {
        return digits.to_vec(alloc);
    }
    let mut child = path.to_vec(alloc)?;
    child.push(b'.')?;
    child.extend_from_slice(digits)?;
    Ok(child)
}

//! The boundary of a multipart.
ghost use Rattle.std.specs.Prelude.{◌≡◌, IfOk};
ghost use Rattle.mime_reader.specs.Kinds.{boundary_of as boundary_of_fields};

use mime_reader::{parameter_value, type_of};
use mime_tree::Field;
use std::alloc::{AllocError, Global};

/// The boundary that fields name; empty where they name none.
#[tactic(auto, unfolding(mime_reader::specs::Kinds::boundary_of))]
pub(crate) fn boundary_of(alloc: Global, fields: &[Field]) -> Result<Vec<u8>, AllocError>
    ensures { IfOk result (λ v. v.items ≡ boundary_of_fields fields.now) }
{
    let named = type_of(alloc, false, fields)?;
    match parameter_value(b"boundary", named.parameters.as_slice()) {
        Some(value) => value.to_vec(alloc),
        None => Ok(Vec::new(alloc)),
    }
}

//! A token with parameters, as the value of a field (RFC 2183 §2).
ghost use Rattle.std.specs.Prelude.{◌≡◌, IfOk};
ghost use Rattle.mime_reader.specs.Parameters.{token_with_parameters_of};

use crate::content_types::{Parameter, parameters};
use crate::tokens::token_len;
use octets::Octets;
use sqlite_items::Items;
use std::alloc::{AllocError, Global};

/// A token with parameters: `attachment; filename=a.png`. The case of the token's letters doesn't matter.
#[derive(Debug, Drop)]
pub struct TokenWithParameters {
    pub token: Octets,
    /// All parameters, in their order, those with a name that stood before too.
    pub parameters: Items<Parameter>,
}

/// The token at the front of the value of a field, with the parameters behind it, which are those of content types; None where no
/// token stands there. What stands behind the last parameter is not looked at. Time and memory go with the value's length.
pub fn token_with_parameters(
    alloc: Global,
    value: &[u8],
) -> Result<Option<TokenWithParameters>, AllocError>
    ensures { IfOk result (λ found. found ≡ token_with_parameters_of value.now) }
{
    let end = token_len(value);
    if end == 0 {
        return Ok(None);
    }
    let token = Octets::new(value[..end].to_vec(alloc)?);
    let parameters = parameters(alloc, &value[end..])?;
    Ok(Some(TokenWithParameters { token, parameters }))
}

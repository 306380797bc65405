//! Texts compared without regard to case.
ghost use Rattle.std.specs.Prelude.{◌≡◌, IfOk, chars, encode_utf8_all, string_bytes};
ghost use Rattle.caseless.specs.Caseless.{default_case_fold};

use caseless::{Caseless, default_case_fold_str};
use std::alloc::{AllocError, Global};

/// A text after Unicode's full default case folding (The Unicode Standard §3.13): two texts that differ in case alone fold to
/// one, as `Straße` and `STRASSE` to `strasse`.
pub fn folded(alloc: Global, text: &str) -> Result<String, AllocError>
    ensures { IfOk result (λ t. string_bytes t ≡ encode_utf8_all (default_case_fold (chars text.now))) }
{
    default_case_fold_str(alloc, text)
}

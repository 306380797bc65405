//! The engine of standard base64 (RFC 4648 §4), over an alphabet that is handed in here.
ghost use Rattle.std.specs.Prelude.{◌≡◌, IfOk};
ghost use Rattle.std.specs.Option.{option_map};
ghost use Rattle.transfer_codec.specs.Base64.{decoded};
ghost use Rattle.transfer_codec.specs.Engines.{IsStandard};

use base64::DecodeAllocError;
use base64::alphabet::Alphabet;
use base64::engine::{GeneralPurpose, GeneralPurposeConfig};
use std::alloc::{AllocError, Global};

/// The engine of the letters `A` to `Z`, `a` to `z`, `0` to `9`, `+` and `/`. It takes canonical base64 alone: with its padding,
/// and with zeros for the bits of no byte. It has tables of 320 bytes, so whoever decodes many texts makes it once.
pub fn standard_engine() -> GeneralPurpose
    ensures { IsStandard result }
{
    let Ok(alphabet) = Alphabet::new(
        "ABCDEFGHIJKLMNOPQRSTUVWXYZabcdefghijklmnopqrstuvwxyz0123456789+/",
    ) else {
        unreachable!();
    };
    GeneralPurpose::new(&alphabet, GeneralPurposeConfig::new())
}

/// The bytes that a text is the base64 of; None where it is that of none. No white space may stand in it.
pub fn decode_letters(
    alloc: Global,
    engine: &GeneralPurpose,
    text: &[u8],
) -> Result<Option<Vec<u8>>, AllocError>
    requires { IsStandard engine.now }
    ensures { IfOk result (λ found. option_map (λ v. v.items) found ≡ decoded text.now) }
{
    match engine.decode(alloc, text) {
        Ok(bytes) => Ok(Some(bytes)),
        Err(DecodeAllocError::OutOfMemory) => Err(AllocError),
        Err(DecodeAllocError::DecodeError(_)) => Ok(None),
    }
}

//! Bytes read as UTF-8, whatever they are.
ghost use Rattle.std.specs.Prelude.{◌≡◌, ◌++◌, IsUtf8, OnOk, string_bytes};
ghost use Rattle.word_codec.specs.Utf8.{utf8_text};

use std::alloc::AllocError;
use std::str;

/// Appends bytes as UTF-8. U+FFFD stands for each byte that begins no character.
pub(crate) fn push_utf8(out: &mut String, bytes: &[u8]) -> Result<(), AllocError>
    ensures { OnOk result (string_bytes out.new ≡ string_bytes out.old ++ utf8_text bytes.now) }
{
    let mut rest = bytes;
    'bytes: loop {
        match str::from_utf8(rest) {
            Ok(text) => {
                out.push_str(text)?;
                return Ok(());
            }
            Err(error) => {
                let (valid, behind) = rest.split_at(error.valid_up_to());
                push_valid(out, valid)?;
                out.push('\u{FFFD}')?;
                rest = &behind[1..];
            }
        }
    }
}

fn push_valid(out: &mut String, bytes: &[u8]) -> Result<(), AllocError>
    requires { IsUtf8 bytes.now }
    ensures { OnOk result (string_bytes out.new ≡ string_bytes out.old ++ bytes.now) }
{
    let Ok(text) = str::from_utf8(bytes) else {
        unreachable!();
    };
    out.push_str(text)
}

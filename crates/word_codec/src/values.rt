//! The texts of header fields' values.
ghost use Rattle.std.specs.Prelude.{◌≡◌, ◌++◌, IfOk, OnOk, if◌then◌else◌, [], string_bytes, ◌&&◌};
ghost use Rattle.transfer_codec.specs.Engines.{IsStandard};
ghost use Rattle.word_codec.specs.Texts.{are_blanks as are_blanks_of, value_text};
ghost use Rattle.word_codec.specs.Utf8.{utf8_text};

use crate::charsets::push_by;
use crate::contents::content_bytes;
use crate::unicode::push_utf8;
use crate::words::first_word;
use base64::engine::GeneralPurpose;
use mail_text::trim_start;
use std::alloc::{AllocError, Global};
use transfer_codec::standard_engine;

/// The text of a header field's value. Its encoded words are found from the left, wherever they stand, and decoded; blanks
/// between two of them are dropped; the rest is read as UTF-8. A word whose content doesn't decode stays as it is. Its time
/// goes with the value's length.
pub fn decoded_text(alloc: Global, value: &[u8]) -> Result<String, AllocError>
    ensures { IfOk result (λ t. string_bytes t ≡ value_text value.now) }
{
    let mut out = String::with_capacity(alloc, value.len())?;
    if first_word(value).is_none() {
        push_utf8(&mut out, value)?;
    } else {
        push_decoded(alloc, &standard_engine(), &mut out, value)?;
    }
    Ok(out)
}

fn are_blanks(bytes: &[u8]) -> bool
    ensures { result ≡ are_blanks_of bytes.now }
{
    trim_start(bytes).is_empty()
}

/// Appends the bytes in front of a word's text; between two words blanks alone are dropped.
fn push_before_word(out: &mut String, bytes: &[u8], behind_word: bool) -> Result<(), AllocError>
    ensures { OnOk result (string_bytes out.new ≡ string_bytes out.old ++ (if behind_word && are_blanks_of bytes.now then [] else utf8_text bytes.now)) }
{
    if behind_word && are_blanks(bytes) {
        return Ok(());
    }
    push_utf8(out, bytes)?;
    Ok(())
}

fn push_decoded(
    alloc: Global,
    engine: &GeneralPurpose,
    out: &mut String,
    value: &[u8],
) -> Result<(), AllocError>
    requires { IsStandard engine.now }
    ensures { OnOk result (string_bytes out.new ≡ string_bytes out.old ++ value_text value.now) }
{
    let mut shown = 0;
    let mut at = 0;
    let mut behind_word = false;
    'words: while let Some(found) = first_word(&value[at..]) {
        let start = at + found.start;
        at += found.end;
        let Some(bytes) = content_bytes(alloc, engine, &found.word)? else {
            continue;
        };
        push_before_word(out, &value[shown..start], behind_word)?;
        push_by(out, found.word.charset, &bytes)?;
        behind_word = true;
        shown = at;
    }
    push_utf8(out, &value[shown..])?;
    Ok(())
}

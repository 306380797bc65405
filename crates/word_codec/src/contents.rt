//! What the content of an encoded word stands for (RFC 2047 §4).
ghost use Rattle.std.specs.Prelude.{◌≡◌, IfOk};
ghost use Rattle.std.specs.Option.{option_map};
ghost use Rattle.transfer_codec.specs.Engines.{IsStandard};
ghost use Rattle.word_codec.specs.Contents.{content_bytes as content_bytes_of, single as single_of};
ghost use Rattle.word_codec.specs.declared.words.Encoding.TheVariants.{Quoted};

use crate::words::{EncodedWord, Encoding};
use base64::engine::GeneralPurpose;
use std::alloc::{AllocError, Global};
use transfer_codec::{decode_letters, escape};

/// The bytes that the content of an encoded word stands for; None where it has no meaning.
#[tactic(auto, unfolding(crate::specs::Contents::content_bytes))]
pub(crate) fn content_bytes(
    alloc: Global,
    engine: &GeneralPurpose,
    word: &EncodedWord<'_>,
) -> Result<Option<Vec<u8>>, AllocError>
    requires { IsStandard engine.now }
    ensures { IfOk result (λ found. option_map (λ v. v.items) found ≡ content_bytes_of word.now.encoding word.now.content.now) }
{
    match word.encoding {
        Encoding::Quoted => quoted_bytes(alloc, word.content),
        Encoding::Base64 => decode_letters(alloc, engine, word.content),
    }
}

fn single(b: u8) -> Option<u8>
    ensures { result ≡ single_of b }
{
    match b {
        b'=' => None,
        b'_' => Some(b' '),
        _ => Some(b),
    }
}

fn quoted_bytes(alloc: Global, content: &[u8]) -> Result<Option<Vec<u8>>, AllocError>
    ensures { IfOk result (λ found. option_map (λ v. v.items) found ≡ content_bytes_of Quoted content.now) }
{
    let mut out = Vec::with_capacity(alloc, content.len())?;
    let mut at = 0;
    while at < content.len() {
        if let Some(b) = escape(&content[at..]) {
            out.push(b)?;
            at += 3;
            continue;
        }
        let Some(b) = single(content[at]) else {
            return Ok(None);
        };
        out.push(b)?;
        at += 1;
    }
    Ok(Some(out))
}

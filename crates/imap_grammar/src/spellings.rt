//! Strings as they stand in a command.
ghost use Rattle.std.specs.Prelude.{◌≡◌, false, IfOk};
ghost use Rattle.imap_grammar.specs.Spellings.{content, unescaped};

use mail_text::has_byte;
use octets::Octets;
use std::alloc::{AllocError, Global};
use std::marker::Model;

/// The content of a string, where it stands. Contracts see the content.
#[derive(Drop)]
pub(crate) struct Spelling<'a> {
    bytes: &'a [u8],
    escaped: bool,
}

impl<'a> Model for Spelling<'a> {
    ghost use Rattle.std.specs.Prelude.{ℕ, List};
    ghost use Rattle.imap_grammar.specs.Spellings.{content};

    ghost Value = { List ℕ };

    ghost view = { λ spelling. content spelling.escaped spelling.bytes.now };
}

impl<'a> Spelling<'a> {
    /// Bytes that stand for themselves.
    pub(crate) fn plain(bytes: &'a [u8]) -> Spelling<'a>
        ensures { result ≡ bytes.now }
    {
        Spelling {
            bytes,
            escaped: false,
        }
    }

    /// What stands between quotes.
    pub(crate) fn quoted(bytes: &'a [u8]) -> Spelling<'a>
        ensures { result ≡ unescaped bytes.now }
    {
        Spelling {
            bytes,
            escaped: true,
        }
    }

    /// The content, copied.
    pub(crate) fn to_octets(&self, alloc: Global) -> Result<Octets, AllocError>
        ensures { IfOk result (λ octets. octets ≡ self.now) }
    {
        if self.escaped {
            Ok(Octets::new(unescape(alloc, self.bytes)?))
        } else {
            Ok(Octets::new(Vec::from_slice(alloc, self.bytes)?))
        }
    }
}

#[tactic(auto, using(crate::proofs::SpellingLemmas::plain_text))]
fn unescape(alloc: Global, bytes: &[u8]) -> Result<Vec<u8>, AllocError>
    ensures { IfOk result (λ v. v.items ≡ unescaped bytes.now) }
{
    if !has_byte(bytes, b'\\') {
        return Vec::from_slice(alloc, bytes);
    }
    let mut out = Vec::with_capacity(alloc, bytes.len())?;
    let mut behind = false;
    for b in bytes {
        if *b == b'\\' && !behind {
            behind = true;
        } else {
            out.push(*b)?;
            behind = false;
        }
    }
    Ok(out)
}

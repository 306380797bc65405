//! Tokens and quoted strings, of which content types are made (RFC 2045 §5.1).
ghost use Rattle.std.specs.Prelude.{◌≡◌, ◌≤◌, nat_lt, IfOk, MatchOption, length, take, drop, None, Some};
ghost use Rattle.mail_text.specs.Texts.{begins, behind, front};
ghost use Rattle.mime_reader.specs.ContentTypes.{behind_mark, is_token as is_token_of, quoted_content, value_front as value_front_of};
ghost use Rattle.mime_reader.specs.Found.{IsFront};

use mail_text::{ByteClass, front_len, trim_start};
use octets::Octets;
use std::alloc::{AllocError, Global};

fn is_token(b: u8) -> bool
    ensures { result ≡ is_token_of b }
{
    33 <= b
        && b <= 126
        && !matches!(
            b,
            b'(' | b')'
                | b'<'
                | b'>'
                | b'@'
                | b','
                | b';'
                | b':'
                | b'\\'
                | b'"'
                | b'/'
                | b'['..=b']' | b'?' | b'='
        )
}

/// The bytes of tokens.
struct TokenByte;

impl ByteClass for TokenByte {
    ghost test = { is_token_of };

    fn contains(b: u8) -> bool {
        is_token(b)
    }
}

/// How long the token at the front of a text is; 0 where there is none.
pub(crate) fn token_len(text: &[u8]) -> usize
    ensures token { front is_token_of text.now ≡ take result text.now }
    ensures after { behind is_token_of text.now ≡ drop result text.now }
    ensures within { result ≤ length text.now }
    ensures some { begins is_token_of text.now ≡ nat_lt 0 result }
{
    front_len::<TokenByte>(text)
}

/// How long a byte at the front of a text is with the blanks around it; None where another byte stands there.
pub(crate) fn mark_len(mark: u8, text: &[u8]) -> Option<usize>
    ensures { MatchOption result (behind_mark mark text.now ≡ None) (λ size. (1 ≤ size) × (size ≤ length text.now) × (behind_mark mark text.now ≡ Some (drop size text.now))) }
{
    let after = trim_start(text);
    if after.is_empty() || after[0] != mark {
        return None;
    }
    let rest = trim_start(&after[1..]);
    Some(text.len() - rest.len())
}

/// The value of a parameter at the front of a text, and how many bytes it has there.
pub(crate) fn value_front(alloc: Global, text: &[u8]) -> Result<Option<(Octets, usize)>, AllocError>
    ensures { IfOk result (λ found. IsFront text.now found (value_front_of text.now)) }
{
    if !text.is_empty() && text[0] == b'"' {
        return match quoted(alloc, &text[1..])? {
            Some((content, size)) => Ok(Some((content, size + 1))),
            None => Ok(None),
        };
    }
    let end = token_len(text);
    if end == 0 {
        return Ok(None);
    }
    let value = Octets::new(text[..end].to_vec(alloc)?);
    Ok(Some((value, end)))
}

/// The content of a quoted string whose first quote stands in front of the text, and how many bytes it has with its last quote.
fn quoted(alloc: Global, text: &[u8]) -> Result<Option<(Octets, usize)>, AllocError>
    ensures { IfOk result (λ found. IsFront text.now found (quoted_content text.now)) }
{
    let mut content = Vec::new(alloc);
    let mut escaped = false;
    for at in 0..text.len() {
        let b = text[at];
        if !escaped && b == b'"' {
            return Ok(Some((Octets::new(content), at + 1)));
        }
        if !escaped && b == b'\\' {
            escaped = true;
            continue;
        }
        content.push(b)?;
        escaped = false;
    }
    Ok(None)
}

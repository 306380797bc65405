//! Lines and line ends. A line ends with CRLF in mail (RFC 5322 §2.1); where a text comes from elsewhere, a LF alone does too.
ghost use Rattle.std.specs.Prelude.{◌≡◌, ◌↔◌, ◌∷◌, [], IfOk, IsTrue, MatchOption, map};
ghost use Rattle.mail_text.specs.Lines.{IsCrlf, IsFirstLine, IsWithoutReturn, LineLaws, joined, lines as lines_of, pieces};

use memchr::memchr;
use std::alloc::{AllocError, Global};

/// The first line of a text without its line end, and what stands behind the line end, which is LF or CRLF. None where the
/// text has no line end, and so is one line.
pub fn split_line(text: &[u8]) -> Option<(&[u8], &[u8])>
    ensures { MatchOption result (lines_of text.now ≡ text.now ∷ []) (λ r. IsFirstLine text.now r.0.now r.1.now) }
{
    match memchr(b'\n', text) {
        Some(end) => Some((without_return(&text[..end]), &text[end + 1..])),
        None => None,
    }
}

fn without_return(line: &[u8]) -> &[u8]
    ensures { IsWithoutReturn line.now result.now }
{
    let n = line.len();
    if n > 0 && line[n - 1] == b'\r' {
        &line[..n - 1]
    } else {
        line
    }
}

/// The text up to its first CRLF, and what stands behind that. None where there is no CRLF.
pub fn split_crlf(text: &[u8]) -> Option<(&[u8], &[u8])>
    ensures { MatchOption result (pieces text.now ≡ text.now ∷ []) (λ r. pieces text.now ≡ r.0.now ∷ pieces r.1.now) }
{
    for at in 0..text.len().saturating_sub(1) {
        if text[at] == b'\r' && text[at + 1] == b'\n' {
            return Some((&text[..at], &text[at + 2..]));
        }
    }
    None
}

/// Whether each LF of a text stands behind a CR, so that `crlf` would give the text as it is.
pub fn is_crlf(text: &[u8]) -> bool
    ensures { IsTrue result ↔ IsCrlf text.now }
{
    let mut rest = text;
    while let Some((line, behind)) = split_line(rest) {
        if rest.len() - behind.len() < line.len() + 2 {
            return false;
        }
        rest = behind;
    }
    true
}

/// A text with each LF that has no CR before it made a CRLF.
pub fn crlf(alloc: Global, text: &[u8]) -> Result<Vec<u8>, AllocError>
    ensures { IfOk result (λ v. v.items ≡ joined (lines_of text.now)) }
{
    let mut out = Vec::with_capacity(alloc, text.len())?;
    let mut rest = text;
    while let Some((line, behind)) = split_line(rest) {
        out.extend_from_slice(line)?;
        out.extend_from_slice(b"\r\n")?;
        rest = behind;
    }
    out.extend_from_slice(rest)?;
    Ok(out)
}

/// The pieces of a text between its CRLFs, one more than there are CRLFs.
pub fn lines<'a>(alloc: Global, text: &'a [u8]) -> Result<Vec<&'a [u8]>, AllocError>
    ensures { IfOk result (λ v. map (λ x. x.now) v.items ≡ pieces text.now) }
{
    let mut out = Vec::new(alloc);
    let mut rest = text;
    while let Some((line, behind)) = split_crlf(rest) {
        out.push(line)?;
        rest = behind;
    }
    out.push(rest)?;
    Ok(out)
}

/// How the lines of texts go together, for the proofs of the crates above.
pub fn law_lines()
    ensures { LineLaws }
{}

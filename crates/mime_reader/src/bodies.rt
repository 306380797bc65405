//! The body of a multipart, cut into its parts (RFC 2046 §5.1.1).
ghost use Rattle.std.specs.Prelude.{◌≡◌, ◌∷◌, ◌++◌, ◌≤◌, ◌-◌, [], MatchOption, length, take};
ghost use Rattle.std.specs.List.{list_all, list_any};
ghost use Rattle.std.specs.Option.{option_map};
ghost use Rattle.std.specs.Str.{bytes_eq};
ghost use Rattle.mail_text.specs.Lines.{IsCrlf};
ghost use Rattle.mime_reader.specs.Bodies.{closing, delimiter, is_boundary as is_boundary_of, is_closing, is_delimiter, is_printing as is_printing_of, is_usable as is_usable_of, parts as parts_of};
ghost use Rattle.mime_reader.specs.Cutting.{IsPiece, closes, delimits, texts};

use mail_text::{law_lines, split_line, trim_end};
use octets::Octets;

/// What a line is between the parts of a multipart.
#[derive(Clone, Copy)]
pub(crate) enum LineKind {
    /// The line behind the last part.
    Closing,
    /// The line before a part.
    Delimiter,
    Other,
}

/// Whether a text is a boundary with `--` behind it.
fn is_closed(text: &[u8], boundary: &[u8]) -> bool
    ensures { result ≡ bytes_eq text.now (boundary.now ++ 45 ∷ 45 ∷ []) }
{
    match text.strip_suffix(b"--") {
        Some(front) => front == boundary,
        None => false,
    }
}

fn line_kind(boundary: &[u8], line: &[u8]) -> LineKind
    ensures closing { is_closing boundary.now line.now ≡ closes result }
    ensures delimiter { is_delimiter boundary.now line.now ≡ delimits result }
{
    match trim_end(line).strip_prefix(b"--") {
        Some(name) => name_kind(boundary, name),
        None => LineKind::Other,
    }
}

/// What a line is by what stands behind its `--`.
fn name_kind(boundary: &[u8], name: &[u8]) -> LineKind
    ensures closing { bytes_eq name.now (boundary.now ++ 45 ∷ 45 ∷ []) ≡ closes result }
    ensures delimiter { bytes_eq name.now boundary.now ≡ delimits result }
{
    if name == boundary {
        LineKind::Delimiter
    } else if is_closed(name, boundary) {
        LineKind::Closing
    } else {
        LineKind::Other
    }
}

/// The lines before a place where a line begins, without the last line end.
fn before(text: &[u8], at: usize) -> &[u8]
    requires { at ≤ length text.now }
    ensures { result.now ≡ take (at - 2) text.now }
{
    &text[..at.saturating_sub(2)]
}

/// The text before the first delimiter, and what stands behind that line; nothing where the text ends or is closed first.
pub(crate) fn first_piece<'a>(boundary: &[u8], text: &'a [u8]) -> (&'a [u8], Option<&'a [u8]>)
    requires { IsCrlf text.now }
    ensures { IsPiece boundary.now text.now result.0.now (option_map (λ rest. rest.now) result.1) }
{
    law_lines();
    let mut rest = text;
    while let Some((line, behind)) = split_line(rest) {
        match line_kind(boundary, line) {
            LineKind::Closing => return (before(text, text.len() - rest.len()), None),
            LineKind::Delimiter => return (before(text, text.len() - rest.len()), Some(behind)),
            LineKind::Other => rest = behind,
        }
    }
    match line_kind(boundary, rest) {
        LineKind::Closing => (before(text, text.len() - rest.len()), None),
        LineKind::Delimiter => (
            before(text, text.len() - rest.len()),
            Some(&rest[rest.len()..]),
        ),
        LineKind::Other => (text, None),
    }
}

/// What stands behind the first delimiter of a body whose line ends are CRLFs; None where it has no part.
pub(crate) fn behind_delimiter<'a>(boundary: &[u8], text: &'a [u8]) -> Option<&'a [u8]>
    requires { IsCrlf text.now }
    ensures { MatchOption result (parts_of boundary.now text.now ≡ []) (λ rest. (parts_of boundary.now text.now ≡ texts boundary.now rest.now) × IsCrlf rest.now) }
{
    let (_, left) = first_piece(boundary, text);
    left
}

fn are_printing(text: &[u8]) -> bool
    ensures { result ≡ list_all is_printing_of text.now }
{
    for b in text {
        if *b < 32 || *b > 126 {
            return false;
        }
    }
    true
}

fn is_boundary(boundary: &[u8]) -> bool
    ensures { result ≡ is_boundary_of boundary.now }
{
    boundary.len() >= 1
        && boundary.len() <= 70
        && are_printing(boundary)
        && trim_end(boundary) == boundary
}

/// Whether a boundary can be used within multiparts with these boundaries.
pub(crate) fn is_usable(enclosing: &[Octets], boundary: &[u8]) -> bool
    ensures { result ≡ is_usable_of enclosing.now boundary.now }
{
    is_boundary(boundary) && !closes_one(enclosing, boundary)
}

/// Whether the closing line of a boundary is the delimiter of a multipart around it.
fn closes_one(enclosing: &[Octets], boundary: &[u8]) -> bool
    ensures { result ≡ list_any (λ outer. bytes_eq (closing boundary.now) (delimiter outer)) enclosing.now }
{
    for outer in enclosing {
        if is_closed(outer.as_slice(), boundary) {
            return true;
        }
    }
    false
}

//! How many lines texts have.
ghost use Rattle.std.specs.Prelude.{◌≡◌, ◌+◌};
ghost use Rattle.canon_writer.specs.Counting.{capped};
ghost use Rattle.canon_writer.specs.Printing.{print_leaf};
ghost use Rattle.envelope_view.specs.Lines.{ended_lines as ended_lines_of, line_count as line_count_of};

use mail_text::{law_lines, split_crlf};
use mime_tree::Encoding;
use transfer_codec::law_base64;

/// One for each CRLF, and one for what stands behind the last.
#[tactic(auto, unfolding(crate::specs::Lines::line_count))]
pub(crate) fn line_count(text: &[u8]) -> usize
    ensures { result ≡ capped (line_count_of text.now) }
{
    let mut rest = text;
    let mut count: usize = 0;
    while let Some((_, behind)) = split_crlf(rest) {
        rest = behind;
        count = count.saturating_add(1);
    }
    count.saturating_add(if rest.is_empty() { 0 } else { 1 })
}

/// How many lines a text has where a CRLF stands behind it.
#[tactic(auto, unfolding(crate::specs::Lines::ended_lines))]
pub(crate) fn ended_lines(text: &[u8]) -> usize
    ensures { result ≡ capped (ended_lines_of text.now) }
{
    let mut rest = text;
    let mut count: usize = 0;
    while let Some((_, behind)) = split_crlf(rest) {
        rest = behind;
        count = count.saturating_add(1);
    }
    count.saturating_add(1)
}

/// How many lines the base64 of bytes has: 57 of them are in each, and the last is ended too (RFC 2045 §6.8).
fn base64_lines(bytes: &[u8]) -> usize
    ensures lines { result ≡ capped (line_count_of (print_leaf Encoding.Base64 bytes.now)) }
    ensures ended { capped (result + 1) ≡ capped (ended_lines_of (print_leaf Encoding.Base64 bytes.now)) }
{
    law_lines();
    law_base64();
    bytes.len().div_ceil(57)
}

/// How many lines the body of a leaf has.
pub(crate) fn leaf_lines(encoding: Encoding, bytes: &[u8]) -> usize
    ensures { result ≡ capped (line_count_of (print_leaf encoding bytes.now)) }
{
    match encoding {
        Encoding::Plain => line_count(bytes),
        Encoding::Base64 => base64_lines(bytes),
    }
}

/// The same where a CRLF stands behind it.
pub(crate) fn ended_leaf_lines(encoding: Encoding, bytes: &[u8]) -> usize
    ensures { result ≡ capped (ended_lines_of (print_leaf encoding bytes.now)) }
{
    match encoding {
        Encoding::Plain => ended_lines(bytes),
        Encoding::Base64 => base64_lines(bytes).saturating_add(1),
    }
}

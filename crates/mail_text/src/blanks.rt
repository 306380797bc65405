//! Blanks: spaces and tabs, the white space that stands within a line.
ghost use Rattle.std.specs.Prelude.{◌≡◌};
ghost use Rattle.mail_text.specs.Texts.{behind, is_blank as is_blank_of, trimmed, without_blank_end};

use crate::fronts::{ByteClass, front_len};

/// Whether a byte is a space or a tab.
pub fn is_blank(b: u8) -> bool
    ensures { result ≡ is_blank_of b }
{
    b == b' ' || b == b'\t'
}

/// Spaces and tabs.
struct Blank;

impl ByteClass for Blank {
    ghost test = { is_blank_of };

    fn contains(b: u8) -> bool {
        is_blank(b)
    }
}

/// A text without blanks at both ends.
pub fn trim(text: &[u8]) -> &[u8]
    ensures { result.now ≡ trimmed text.now }
{
    trim_end(trim_start(text))
}

/// A text without the blanks at its front.
pub fn trim_start(text: &[u8]) -> &[u8]
    ensures { result.now ≡ behind is_blank_of text.now }
{
    &text[front_len::<Blank>(text)..]
}

/// A text without the blanks at its end.
pub fn trim_end(text: &[u8]) -> &[u8]
    ensures { result.now ≡ without_blank_end text.now }
{
    let mut end = text.len();
    while end > 0 && is_blank(text[end - 1]) {
        end -= 1;
    }
    &text[..end]
}

//! The bytes at the front of a text that are of one kind.
ghost use Rattle.std.specs.Prelude.{◌≡◌, ◌≤◌, ℕ, Bool, length, take, drop, nat_lt};
ghost use Rattle.mail_text.specs.Texts.{begins, behind, front};
ghost use Rattle.mail_text.specs.Lines.{has};

use memchr::memchr;

/// A class of bytes, as those that a token may have.
pub trait ByteClass {
    ghost test: { ℕ → Bool };

    /// Whether a byte is one of the class.
    fn contains(b: u8) -> bool
        ensures { result ≡ test b };
}

/// How many bytes there are at the front of a text before the first that is not of the class.
pub fn front_len<C: ByteClass>(text: &[u8]) -> usize
    ensures taken { front C.test text.now ≡ take result text.now }
    ensures left { behind C.test text.now ≡ drop result text.now }
    ensures within { result ≤ length text.now }
    ensures some { begins C.test text.now ≡ nat_lt 0 result }
{
    let mut end = 0;
    while end < text.len() && C::contains(text[end]) {
        end += 1;
    }
    end
}

/// Whether a text has a byte.
pub fn has_byte(text: &[u8], b: u8) -> bool
    ensures { result ≡ has b text.now }
{
    memchr(b, text).is_some()
}

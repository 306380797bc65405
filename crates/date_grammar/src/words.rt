//! The words of a value, one by one.
ghost use Rattle.std.specs.Prelude.{◌≡◌, ◌+◌, ◌<◌, ◌≤◌, ◌^◌, ◌↔◌, ◌∷◌, ℕ, List, [], length, take, drop, false, IsTrue, MatchOption, None, Some};
ghost use Rattle.mail_text.specs.Texts.{behind, front};
ghost use Rattle.date_grammar.specs.Words.{words};
ghost use Rattle.date_grammar.specs.Scanning.{HasNoWord, BeginsPlain, is_plain as is_plain_of, outer_of, words_after, words_at};

use mail_text::{ByteClass, front_len, is_blank};

/// The first word of a value, and what stands behind it. None where there is none, or where a comment before it doesn't end.
pub(crate) fn next_word(text: &[u8]) -> Option<(&[u8], &[u8])>
    ensures { MatchOption result (HasNoWord (words text.now)) (λ r. words text.now ≡ words_after r.0.now r.1.now) }
{
    let text = without_gap(text)?;
    if text.is_empty() {
        return None;
    }
    let end = front_len::<WordByte>(text);
    Some((&text[..end], &text[end..]))
}

/// Whether a text has no words: it is blanks and comments alone.
pub(crate) fn is_gap(text: &[u8]) -> bool
    ensures { IsTrue result ↔ (words text.now ≡ Some []) }
{
    match without_gap(text) {
        Some(rest) => rest.is_empty(),
        None => false,
    }
}

/// Where a byte stands.
#[derive(Clone, Copy)]
enum Place {
    Outside,
    /// In a comment, which so many comments are open around.
    Comment(usize),
    /// Behind a `\` in such a comment.
    Quoted(usize),
}

/// A text without the blanks and comments at its front. None where a comment doesn't end.
fn without_gap(text: &[u8]) -> Option<&[u8]>
    ensures { MatchOption result (words text.now ≡ None) (λ r. (words text.now ≡ words r.now) × BeginsPlain r.now) }
{
    let mut place = Place::Outside;
    for (at, b) in text.iter().enumerate() {
        if let Place::Outside = place
            && is_plain(*b)
        {
            return Some(&text[at..]);
        }
        place = place_behind(place, *b);
    }
    match place {
        Place::Outside => Some(&text[text.len()..]),
        Place::Comment(_) | Place::Quoted(_) => None,
    }
}

/// The place behind a byte that begins no word.
fn place_behind(place: Place, b: u8) -> Place
    requires no_word { place ≡ Place.Outside → is_plain_of b ≡ false }
    requires room { outer_of place + 1 < 2 ^ 64 }
    ensures same_words { (rest : List ℕ) → words_at result rest ≡ words_at place (b ∷ rest) }
    ensures outer { outer_of result ≤ outer_of place + 1 }
{
    match place {
        Place::Outside => {
            if b == b'(' {
                Place::Comment(0)
            } else {
                Place::Outside
            }
        }
        Place::Quoted(outer) => Place::Comment(outer),
        Place::Comment(outer) => match b {
            b'\\' => Place::Quoted(outer),
            b'(' => Place::Comment(outer + 1),
            b')' if outer > 0 => Place::Comment(outer - 1),
            b')' => Place::Outside,
            _ => place,
        },
    }
}

fn is_plain(b: u8) -> bool
    ensures { result ≡ is_plain_of b }
{
    !(is_blank(b) || b == b'(')
}

/// The bytes of words.
struct WordByte;

impl ByteClass for WordByte {
    ghost test = { is_plain_of };

    fn contains(b: u8) -> bool {
        is_plain(b)
    }
}

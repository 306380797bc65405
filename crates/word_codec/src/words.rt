//! Encoded words as they stand in a value (RFC 2047 §2).
ghost use Rattle.std.specs.Prelude.{◌≡◌, ◌≤◌, ◌+◌, IfSome, MatchOption, None, drop, length, take};
ghost use Rattle.std.specs.Option.{option_map};
ghost use Rattle.mail_text.specs.Texts.{behind, front};
ghost use Rattle.word_codec.specs.Found.{IsFirst, NoneBefore, parts};
ghost use Rattle.word_codec.specs.Words.{encoding_of, ended_word as ended_word_of, is_inner as is_inner_of, word_at as word_at_of, word_behind as word_behind_of, word_len};

use mail_text::{ByteClass, front_len, is_blank};

/// How the content of an encoded word is written.
#[derive(Clone, Copy, Debug, PartialEq, Eq)]
pub(crate) enum Encoding {
    /// `Q`, much as quoted-printable (RFC 2047 §4.2).
    Quoted,
    /// `B`, base64 (RFC 2047 §4.1).
    Base64,
}

/// The parts of an encoded word.
#[derive(Clone, Copy)]
pub(crate) struct EncodedWord<'a> {
    pub(crate) charset: &'a [u8],
    pub(crate) encoding: Encoding,
    pub(crate) content: &'a [u8],
}

/// The first encoded word of a text.
#[derive(Clone, Copy)]
pub(crate) struct FoundWord<'a> {
    /// Where it begins.
    pub(crate) start: usize,
    /// Where it ends.
    pub(crate) end: usize,
    pub(crate) word: EncodedWord<'a>,
}

fn is_inner(b: u8) -> bool
    ensures { result ≡ is_inner_of b }
{
    !is_blank(b) && b != b'?'
}

/// The bytes that a charset or a content may have.
struct InnerByte;

impl ByteClass for InnerByte {
    ghost test = { is_inner_of };

    fn contains(b: u8) -> bool {
        is_inner(b)
    }
}

fn letter_encoding(letter: u8) -> Option<Encoding>
    ensures { result ≡ encoding_of letter }
{
    match letter {
        b'Q' | b'q' => Some(Encoding::Quoted),
        b'B' | b'b' => Some(Encoding::Base64),
        _ => None,
    }
}

/// The encoded word at the front of a text, if one stands there. It looks as far as the third `?` behind the first two bytes:
/// so a text in which each place is tried is read four times at most.
#[tactic(auto, unfolding(crate::specs::Words::word_at))]
fn word_at(text: &[u8]) -> Option<EncodedWord<'_>>
    ensures { option_map parts result ≡ word_at_of text.now }
{
    if text.len() >= 2 && text[0] == b'=' && text[1] == b'?' {
        let inner = &text[2..];
        let (charset, rest) = inner.split_at(front_len::<InnerByte>(inner));
        word_behind(charset, rest)
    } else {
        None
    }
}

fn word_behind<'a>(charset: &'a [u8], rest: &'a [u8]) -> Option<EncodedWord<'a>>
    ensures { option_map parts result ≡ word_behind_of charset.now rest.now }
{
    if rest.len() >= 3 && rest[0] == b'?' && rest[2] == b'?' {
        let letter = rest[1];
        let inner = &rest[3..];
        let (content, rest) = inner.split_at(front_len::<InnerByte>(inner));
        ended_word(charset, letter_encoding(letter), content, rest)
    } else {
        None
    }
}

fn ended_word<'a>(
    charset: &'a [u8],
    encoding: Option<Encoding>,
    content: &'a [u8],
    rest: &[u8],
) -> Option<EncodedWord<'a>>
    ensures { option_map parts result ≡ ended_word_of charset.now encoding content.now rest.now }
{
    match encoding {
        Some(encoding) => {
            if rest.len() >= 2 && rest[0] == b'?' && rest[1] == b'=' {
                Some(EncodedWord {
                    charset,
                    encoding,
                    content,
                })
            } else {
                None
            }
        }
        None => None,
    }
}

/// The first encoded word of a text.
pub(crate) fn first_word(text: &[u8]) -> Option<FoundWord<'_>>
    ensures first { MatchOption result (NoneBefore text.now (length text.now)) (λ found. IsFirst text.now found.start (parts found.word)) }
    ensures end { IfSome result (λ found. found.end ≡ found.start + word_len (parts found.word)) }
{
    for start in 0..text.len() {
        if let Some(word) = word_at(&text[start..]) {
            let end = start + word.charset.len() + word.content.len() + 7;
            return Some(FoundWord { start, end, word });
        }
    }
    None
}

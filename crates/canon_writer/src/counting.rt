//! How long the lines of a field are, counted byte by byte, with no text made of them.
ghost use Rattle.std.specs.Prelude.{◌≡◌, ◌+◌, ◌^◌, ◌<◌, length};
ghost use Rattle.canon_writer.specs.Counting.{in_word as in_word_of, named as named_of, with_byte as with_byte_of, with_bytes as with_bytes_of, word_with as word_with_of};

use crate::folding::LINE_WIDTH;
use mail_text::is_blank;

/// The word that the bytes which were counted last stand in.
#[derive(Clone, Copy)]
pub(crate) enum Word {
    /// No byte of the value was counted.
    NoneYet,
    /// The first of its line, which stays there however long it is.
    First,
    /// A later one, and the room that its line has where it begins.
    Later(usize),
}

/// A field of which the name and some bytes of the value were counted.
#[derive(Clone, Copy)]
pub(crate) struct FieldSize {
    /// How long its lines are with their ends; at most `usize::MAX`.
    pub(crate) size: usize,
    /// How many bytes its last line has room for.
    left: usize,
    /// The word at its end.
    word: Word,
    /// Whether its last byte is a blank, or none was counted: no blank begins a word there.
    is_blank: bool,
}

/// A field with no value.
pub(crate) fn named(name: &[u8]) -> FieldSize
    ensures counted { result ≡ named_of (length name.now) }
    ensures short { length name.now < 2 ^ 63 }
{
    FieldSize {
        size: name.len() + 3,
        left: (LINE_WIDTH - 2).saturating_sub(name.len()),
        word: Word::NoneYet,
        is_blank: true,
    }
}

/// A field with more bytes of its value.
pub(crate) fn with_bytes(field: FieldSize, bytes: &[u8]) -> FieldSize
    ensures { result ≡ with_bytes_of field bytes.now }
{
    let mut counted = field;
    for b in bytes {
        counted = with_byte(counted, *b);
    }
    counted
}

fn with_byte(field: FieldSize, b: u8) -> FieldSize
    ensures { result ≡ with_byte_of field b }
{
    in_word(field.size, field.left, is_blank(b), word_with(field, b))
}

/// The word that a byte behind others stands in.
fn word_with(field: FieldSize, b: u8) -> Word
    ensures { result ≡ word_with_of field b }
{
    if !field.is_blank && is_blank(b) {
        return Word::Later(field.left);
    }
    field.word
}

/// One byte more, in this word.
fn in_word(size: usize, left: usize, is_blank: bool, word: Word) -> FieldSize
    ensures { result ≡ in_word_of size left is_blank word }
{
    match word {
        Word::NoneYet => FieldSize {
            size: size.saturating_add(2),
            left: left.saturating_sub(1),
            word: Word::First,
            is_blank,
        },
        Word::First => FieldSize {
            size: size.saturating_add(1),
            left: left.saturating_sub(1),
            word,
            is_blank,
        },
        Word::Later(room) => in_later_word(size, left, is_blank, room),
    }
}

/// One byte more, in a word that began where its line had some room. If the byte has none, the word goes into the next line.
fn in_later_word(size: usize, left: usize, is_blank: bool, room: usize) -> FieldSize
    ensures { result ≡ in_word_of size left is_blank (Word.Later room) }
{
    if left == 0 {
        return FieldSize {
            size: size.saturating_add(3),
            left: (LINE_WIDTH - 1).saturating_sub(room),
            word: Word::First,
            is_blank,
        };
    }
    FieldSize {
        size: size.saturating_add(1),
        left: left - 1,
        word: Word::Later(room),
        is_blank,
    }
}

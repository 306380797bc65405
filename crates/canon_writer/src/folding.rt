//! Fields in lines of 78 bytes.
ghost use Rattle.std.specs.Prelude.{◌≡◌, ℕ, List, [], ◌∷◌, ◌++◌, ◌<◌, length, IfOk, OnOk};
ghost use Rattle.canon_writer.specs.Folding.{field_lines, folded, words, words_behind};
ghost use Rattle.canon_writer.specs.Printing.{ended};

use mail_text::is_blank;
use std::alloc::AllocError;

/// How long a line may be before it is folded, in bytes (RFC 5322 §2.1.1).
pub(crate) const LINE_WIDTH: usize = 78;

/// The first word of a text, with the blanks before it, and what stands behind it.
fn split_word(text: &[u8]) -> (&[u8], &[u8])
    requires { 0 < length text.now }
    ensures words { words text.now ≡ result.0.now ∷ words result.1.now }
    ensures shorter { length result.1.now < length text.now }
{
    for at in 0..text.len().saturating_sub(1) {
        if !is_blank(text[at]) && is_blank(text[at + 1]) {
            return (&text[..at + 1], &text[at + 1..]);
        }
    }
    (text, &text[text.len()..])
}

/// Appends a field in its lines.
pub(crate) fn append_lines(out: &mut Vec<u8>, name: &[u8], value: &[u8]) -> Result<(), AllocError>
    ensures { OnOk result (out.new.items ≡ out.old.items ++ ended (field_lines name.now value.now)) }
{
    out.extend_from_slice(name)?;
    out.push(b':')?;
    if value.is_empty() {
        return out.extend_from_slice(b"\r\n");
    }
    out.push(b' ')?;
    let room = LINE_WIDTH.saturating_sub(name.len()).saturating_sub(2);
    append_words(out, room, value)?;
    out.extend_from_slice(b"\r\n")?;
    Ok(())
}

/// Appends a value to the line that `out` ends with, which has `room` bytes left.
fn append_words(out: &mut Vec<u8>, room: usize, value: &[u8]) -> Result<(), AllocError>
    requires { 0 < length value.now }
    ensures { OnOk result (out.new.items ++ 13 ∷ 10 ∷ [] ≡ out.old.items ++ ended (words_behind room (words value.now))) }
{
    let (first, mut rest) = split_word(value);
    out.extend_from_slice(first)?;
    let mut left = room.saturating_sub(first.len());
    while !rest.is_empty() {
        let (word, behind) = split_word(rest);
        left = append_word(out, left, word)?;
        rest = behind;
    }
    Ok(())
}

/// Appends a word to the line that `out` ends with, which has `room` bytes left, or to a line of its own. Gives the room
/// that is left in its line.
fn append_word(out: &mut Vec<u8>, room: usize, word: &[u8]) -> Result<usize, AllocError>
    ensures { IfOk result (λ left. (ws : List (List ℕ)) → out.new.items ++ ended (folded left ws) ≡ out.old.items ++ ended (folded room (word.now ∷ ws))) }
{
    if word.len() > room {
        out.extend_from_slice(b"\r\n")?;
        out.extend_from_slice(word)?;
        return Ok(LINE_WIDTH.saturating_sub(word.len()));
    }
    out.extend_from_slice(word)?;
    Ok(room - word.len())
}

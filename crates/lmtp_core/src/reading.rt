//! A reader of texts that is fed slices.
ghost use Rattle.std.specs.Prelude.{◌≡◌, ◌-◌, ◌<◌, ◌≤◌, false, length, IfOk, OnOk, OnErr, MatchOption};
ghost use Rattle.lmtp_core.specs.Reading.{HasRoom, Takes, ends_return, is_end, read_at, reads, room_for, taken, unread, within_line};

use crate::kept::Kept;
use memchr::memchr;
use std::alloc::{AllocError, Global};
use std::marker::Model;

/// Where a text stands.
#[derive(Clone, Copy, Debug, PartialEq, Eq)]
pub(crate) enum Place {
    /// At the start of a line.
    Start,
    /// Behind a dot with which a line begins.
    Dot,
    /// Behind a CR that stands behind such a dot.
    DotReturn,
    /// Within any other line.
    Inside,
    /// Behind a CR within such a line.
    Return,
    /// Behind the line that is a dot alone.
    End,
}

impl Place {
    fn is_end(self) -> bool
        ensures { result ≡ is_end self }
    {
        matches!(self, Place::End)
    }
}

/// How many bytes were taken, and where the text then stands.
#[derive(Clone, Copy)]
struct Step {
    count: usize,
    place: Place,
}

/// Whether a line ends with a CR behind these bytes.
fn ends_in_return(behind_return: bool, bytes: &[u8]) -> bool
    ensures { result ≡ ends_return behind_return bytes.now }
{
    match bytes {
        [.., last] => *last == b'\r',
        [] => behind_return,
    }
}

/// Takes bytes within a line, up to its end or that of the piece, in one copy.
fn take_line(kept: &mut Kept, behind_return: bool, rest: &[u8]) -> Step
    requires some { 0 < length rest.now }
    requires room { HasRoom kept.old (length rest.now) }
    ensures some { 0 < result.count }
    ensures takes { Takes (read_at (within_line behind_return) kept.old) (read_at result.place kept.new) rest.now result.count }
    ensures room { HasRoom kept.new (room_for result.place (length rest.now - result.count)) }
{
    match memchr(b'\n', rest) {
        Some(at) => {
            let ends = ends_in_return(behind_return, &rest[..at]);
            kept.keep(&rest[..at + 1]);
            Step {
                count: at + 1,
                place: if ends { Place::Start } else { Place::Inside },
            }
        }
        None => {
            let ends = ends_in_return(behind_return, rest);
            kept.keep(rest);
            Step {
                count: rest.len(),
                place: if ends { Place::Return } else { Place::Inside },
            }
        }
    }
}

/// Takes bytes of a text that isn't whole.
fn take_some(kept: &mut Kept, place: Place, rest: &[u8]) -> Step
    requires some { 0 < length rest.now }
    requires open { is_end place ≡ false }
    requires room { HasRoom kept.old (room_for place (length rest.now)) }
    ensures some { 0 < result.count }
    ensures takes { Takes (read_at place kept.old) (read_at result.place kept.new) rest.now result.count }
    ensures room { HasRoom kept.new (room_for result.place (length rest.now - result.count)) }
{
    match (place, rest[0]) {
        (Place::Start, b'.') => Step {
            count: 1,
            place: Place::Dot,
        },
        (Place::Dot, b'\r') => Step {
            count: 1,
            place: Place::DotReturn,
        },
        (Place::DotReturn, b'\n') => Step {
            count: 1,
            place: Place::End,
        },
        (Place::DotReturn, _) => {
            kept.keep(b"\r");
            take_line(kept, false, rest)
        }
        (Place::Return, _) => take_line(kept, true, rest),
        _ => take_line(kept, false, rest),
    }
}

/// Takes the bytes of a piece, as far as the text goes.
fn take_all(kept: &mut Kept, place: Place, piece: &[u8]) -> Step
    requires { HasRoom kept.old (room_for place (length piece.now)) }
    ensures within { result.count ≤ length piece.now }
    ensures count { result.count ≡ taken (read_at place kept.old) piece.now }
    ensures read { read_at result.place kept.new ≡ reads (read_at place kept.old) piece.now }
{
    let mut place = place;
    let mut count = 0;
    'steps: while count < piece.len() && !place.is_end() {
        let step = take_some(kept, place, &piece[count..]);
        place = step.place;
        count += step.count;
    }
    Step { count, place }
}

/// A reader of texts. Contracts see where the text stands, and its content so far.
#[derive(Drop, Debug)]
pub struct TextLexer {
    kept: Kept,
    place: Place,
}

impl Model for TextLexer {
    ghost use Rattle.lmtp_core.specs.Reading.{Read, read_at};

    ghost Value = { Read };

    ghost view = { λ lexer. read_at lexer.place lexer.kept };
}

impl TextLexer {
    /// Awaits a text. No memory is taken before its first byte.
    pub fn new(alloc: Global) -> TextLexer
        ensures { result ≡ unread }
    {
        TextLexer {
            kept: Kept::new(alloc),
            place: Place::Start,
        }
    }

    /// Takes the bytes of a piece up to the end of the text, and tells how many: all of them where the text goes on.
    ///
    /// What is read doesn't depend on how the bytes are cut into pieces. Bytes are copied line by line; the memory for
    /// them grows twofold, and is given back as soon as the content is too long. Where there is no memory, no byte is
    /// taken, and the piece may be fed again.
    pub fn feed(&mut self, piece: &[u8]) -> Result<usize, AllocError>
        ensures within { IfOk result (λ n. n ≤ length piece.now) }
        ensures taken { IfOk result (λ n. n ≡ taken self.old piece.now) }
        ensures read { OnOk result (self.new ≡ reads self.old piece.now) }
        ensures unchanged { OnErr result (self.new ≡ self.old) }
    {
        self.kept.reserve(piece.len())?;
        let step = take_all(&mut self.kept, self.place, piece);
        self.place = step.place;
        Ok(step.count)
    }

    /// Whether the text is whole: its last line was taken.
    pub fn is_whole(&self) -> bool
        ensures { result ≡ is_end self.now.place }
    {
        self.place.is_end()
    }

    /// The content so far: that of the text where it is whole. None where it is too long.
    pub fn content(&self) -> Option<&[u8]>
        ensures { MatchOption result (self.now.kept ≡ None) (λ bytes. self.now.kept ≡ Some bytes.now) }
    {
        if self.kept.too_long {
            return None;
        }
        Some(self.kept.bytes.as_slice())
    }

    /// Drops what was read, gives its memory back, and awaits a further text.
    pub fn clear(&mut self)
        ensures { self.new ≡ unread }
    {
        self.kept.clear();
        self.place = Place::Start;
    }
}

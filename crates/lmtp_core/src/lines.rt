//! A reader of lines that is fed slices.
ghost use Rattle.std.specs.Prelude.{◌≡◌, ◌<◌, ◌≤◌, [], length, vec_capacity, IfOk};
ghost use Rattle.lmtp_core.specs.declared.lines.LineShown.TheVariants.{More};
ghost use Rattle.lmtp_core.specs.Lines.{TakesLine, line_limit, line_shown};

use std::alloc::{AllocError, Global};
use std::marker::Model;

/// How many bytes a line may have, with its CRLF.
const LINE_LIMIT: usize = 8192;

/// Room for a line, and the byte that shows it to be too long.
const ROOM: usize = 8193;

/// What bytes show of a line.
#[derive(Clone, Copy, Debug, PartialEq, Eq)]
pub enum LineShown {
    /// It goes on.
    More,
    /// It is whole.
    Whole,
    /// It has more bytes than it may have.
    TooLong,
}

/// What bytes show of a line.
fn shown_by(bytes: &[u8]) -> LineShown
    ensures { result ≡ line_shown bytes.now }
{
    if bytes.len() > LINE_LIMIT {
        return LineShown::TooLong;
    }
    if bytes.ends_with(b"\r\n") {
        return LineShown::Whole;
    }
    LineShown::More
}

/// Takes the bytes of a piece up to the end of the line.
fn take_bytes(bytes: &mut Vec<u8>, piece: &[u8]) -> usize
    requires more { line_shown bytes.old.items ≡ More }
    requires room { line_limit < vec_capacity bytes.old }
    ensures takes { TakesLine bytes.old.items bytes.new.items piece.now result }
    ensures room { line_limit < vec_capacity bytes.new }
{
    let mut count = 0;
    'bytes: for byte in piece {
        match bytes.push(*byte) {
            Ok(()) => {}
            Err(_) => unreachable!(),
        }
        count += 1;
        match shown_by(bytes) {
            LineShown::More => {}
            LineShown::Whole | LineShown::TooLong => return count,
        }
    }
    count
}

/// A reader of lines. Contracts see the bytes of the line so far.
#[derive(Drop, Debug)]
pub struct LineLexer {
    bytes: Vec<u8>,
}

impl Model for LineLexer {
    ghost use Rattle.std.specs.Prelude.{ℕ, ◌<◌, List, vec_capacity};
    ghost use Rattle.lmtp_core.specs.Lines.{line_limit};

    ghost Value = { List ℕ };

    ghost view = { λ lexer. lexer.bytes.items };

    ghost invariant = { λ lexer. line_limit < vec_capacity lexer.bytes };
}

impl LineLexer {
    /// Awaits a line. The memory for lines is taken here, and kept for all that follow.
    pub fn new(alloc: Global) -> Result<LineLexer, AllocError>
        ensures { IfOk result (λ lexer. lexer ≡ []) }
    {
        Ok(LineLexer {
            bytes: Vec::with_capacity(alloc, ROOM)?,
        })
    }

    /// Takes the bytes of a piece up to the end of the line, or up to the one that shows it to be too long, and tells how
    /// many: all of them where the line goes on. What is read doesn't depend on how the bytes are cut into pieces.
    pub fn feed(&mut self, piece: &[u8]) -> usize
        requires { line_shown self.old ≡ More }
        ensures { TakesLine self.old self.new piece.now result }
    {
        take_bytes(&mut self.bytes, piece)
    }

    /// What the bytes so far show. Where they show anything, call `clear` before more bytes.
    pub fn shown(&self) -> LineShown
        ensures { result ≡ line_shown self.now }
    {
        shown_by(&self.bytes)
    }

    /// The bytes so far: the line with its CRLF where it is whole.
    pub fn line(&self) -> &[u8]
        ensures { result.now ≡ self.now }
    {
        self.bytes.as_slice()
    }

    /// Drops the line, and awaits a further one.
    pub fn clear(&mut self)
        ensures { self.new ≡ [] }
    {
        self.bytes.clear();
    }
}

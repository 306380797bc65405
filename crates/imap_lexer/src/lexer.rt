//! A reader of units that is fed byte by byte, and with slices within a literal.

ghost use Rattle.std.specs.Prelude.{◌≡◌, ◌++◌, ◌∷◌, [], IfOk, OnOk, OnErr, None, length, min, take, vec_capacity};
ghost use Rattle.imap_lexer.specs.declared.units.Form.TheVariants.{Command};
ghost use Rattle.imap_lexer.specs.Units.{ended, ending, first, reading, shown};
ghost use Rattle.imap_lexer.specs.Lexer.{GoesOn, IsInLiteral, IsPlaced, form_of};

use crate::literals::read_line;
use crate::units::Fed;
use std::alloc::{AllocError, Global};
use std::marker::Model;

/// The bytes of a unit as they come. Contracts see the form that is awaited and the bytes so far.
#[derive(Drop, Debug)]
pub struct Lexer {
    bytes: Vec<u8>,
    plain: bool,
    // how many bytes the lines before the line so far have together
    lines: usize,
    // how many bytes of literals were announced together
    literals: usize,
    ghost placed: { IsPlaced (form_of plain) bytes.items lines literals (vec_capacity bytes) },
}

/// Room for the lines of a unit, and the byte that shows them to be too long.
const ROOM: usize = 8193;

impl Model for Lexer {
    ghost use Rattle.imap_lexer.specs.Lexer.{Awaited, form_of};

    ghost Value = { Awaited };

    ghost view = { λ lexer. record { form = form_of lexer.plain; bytes = lexer.bytes.items } };
}

impl Lexer {
    /// Awaits a command. The memory for lines is taken here, and kept for all that follow.
    #[tactic(auto, unfolding(crate::specs::Units::first, crate::specs::Units::reading))]
    pub fn new(alloc: Global) -> Result<Lexer, AllocError>
        ensures empty { IfOk result (λ lexer. lexer ≡ record { form = Command; bytes = [] }) }
        ensures none { IfOk result (λ lexer. first lexer.form lexer.bytes ≡ None) }
    {
        Ok(Lexer {
            bytes: Vec::with_capacity(alloc, ROOM)?,
            plain: false,
            lines: 0,
            literals: 0,
        })
    }

    /// Takes one byte, and tells what the bytes since the last unit show.
    ///
    /// After `Fed::Unit`, `Fed::LineTooLong` and `Fed::LiteralTooLong`, call `next` before more bytes.
    ///
    /// Lines take no memory. The bytes of literals do; where there is none, the byte is not taken, and may be fed again.
    pub fn feed(&mut self, byte: u8) -> Result<Fed, AllocError>
        requires { first self.old.form self.old.bytes ≡ None }
        ensures fed { OnOk result (self.new ≡ record { form = self.old.form; bytes = self.old.bytes ++ byte ∷ [] }) }
        ensures shown { IfOk result (λ fed. fed ≡ shown self.new.form self.new.bytes) }

        // The unit is whole at its last byte, and not before.
        ensures cut { IfOk result (λ fed. first self.new.form self.new.bytes ≡ ended (ending fed) self.new.bytes) }
        ensures refused { OnErr result (IsInLiteral self.old) }
        ensures unchanged { OnErr result (self.new ≡ self.old) }
    {
        let begin = self.lines + self.literals;
        if self.bytes.len() < begin {
            self.bytes.reserve(ROOM + 1)?;
            self.bytes.push(byte)?;
            return Ok(Fed::More);
        }
        self.bytes.push(byte)?;
        let read = read_line(self.plain, &self.bytes[begin..], self.lines, self.literals);
        self.lines = read.lines;
        self.literals = read.literals;
        Ok(read.fed)
    }

    /// Takes bytes of a literal: as many of the piece as it lacks, and none where the bytes since the last unit don't end
    /// within a literal. Tells how many it took.
    ///
    /// This is feeding these bytes one by one: each would be told `Fed::More`. It costs no more than a copy. Where there is
    /// no memory, no byte is taken, and the piece may be fed again.
    pub fn feed_literal(&mut self, piece: &[u8]) -> Result<usize, AllocError>
        requires { first self.old.form self.old.bytes ≡ None }
        ensures taken { IfOk result (λ n. n ≡ min (reading self.old.form self.old.bytes).left (length piece.now)) }
        ensures fed { IfOk result (λ n. self.new ≡ record { form = self.old.form; bytes = self.old.bytes ++ take n piece.now }) }
        ensures each { IfOk result (λ n. GoesOn self.old.form self.old.bytes (take n piece.now)) }
        ensures none { first self.new.form self.new.bytes ≡ None }
        ensures refused { OnErr result (IsInLiteral self.old) }
        ensures unchanged { OnErr result (self.new ≡ self.old) }
    {
        let begin = self.lines + self.literals;
        if self.bytes.len() >= begin {
            return Ok(0);
        }
        let count = (begin - self.bytes.len()).min(piece.len());
        self.bytes.reserve(ROOM + count)?;
        self.bytes.extend_from_slice(&piece[..count])?;
        Ok(count)
    }

    /// The bytes since the last unit: after `Fed::Unit` the unit, with its CRLF; after `Fed::LineTooLong` and
    /// `Fed::LiteralTooLong` the bytes up to the one that showed it.
    pub fn unit(&self) -> &[u8]
        ensures { result.now ≡ self.now.bytes }
    {
        self.bytes.as_slice()
    }

    /// Whether the unit is a line without literals, and not a command.
    pub fn is_plain(&self) -> bool
        ensures { form_of result ≡ self.now.form }
    {
        self.plain
    }

    /// Drops the unit. The next one is a line without literals where `plain` is true, else a command.
    ///
    /// Memory that literals took is given back.
    #[tactic(auto, unfolding(crate::specs::Units::first, crate::specs::Units::reading))]
    pub fn next(&mut self, plain: bool)
        ensures dropped { self.new ≡ record { form = form_of plain; bytes = [] } }
        ensures none { first self.new.form self.new.bytes ≡ None }
    {
        self.bytes.clear();
        self.bytes.shrink_to(ROOM);
        self.plain = plain;
        self.lines = 0;
        self.literals = 0;
    }
}

#[cfg(test)]
mod tests {
    use super::*;
    use std::test::Fail;

    // Feeds bytes, of which only the last completes a command.
    fn is_one_command(rt: &HostRuntime, text: &[u8]) -> Result<bool, Fail> {
        let mut lexer = Lexer::new(rt.alloc())?;
        'bytes: for byte in text {
            match lexer.feed(*byte)? {
                Fed::More | Fed::Continue => {}
                Fed::Unit => return Ok(lexer.unit() == text),
                Fed::LineTooLong | Fed::LiteralTooLong => return Ok(false),
            }
        }
        Ok(false)
    }

    #[test]
    fn commands_end_with_crlf(rt: HostRuntime) -> Result<(), Fail> {
        for text in [
            b"\r\n".as_slice(),
            b"a NOOP\r\n",
            b"a\nb\r\n",
            b"a\rb\r\n",
            b"a\r\r\n",
            b"\0\xff{5+}\r\n",
            b"a {5}\r\n\r\nb\r\n\r\n",
        ] {
            assert!(rt; is_one_command(&rt, text)?);
        }
        for text in [
            b"".as_slice(),
            b"a",
            b"a\r",
            b"a\n",
            b"a\n\r",
            b"a\r\nb\r\n",
            b"\0\xff{5}\r\n",
            b"a {5}\r\n\r\nb\r\n",
        ] {
            assert!(rt; !is_one_command(&rt, text)?);
        }
        Ok(())
    }

    // Takes bytes, of which only the last completes a command, and those of literals together.
    fn is_taken_in_pieces(rt: &HostRuntime, text: &[u8]) -> Result<bool, Fail> {
        let mut lexer = Lexer::new(rt.alloc())?;
        let mut rest = text;
        'pieces: for _ in 0..text.len() {
            let taken = lexer.feed_literal(rest)?;
            let Some((byte, behind)) = rest[taken..].split_first() else {
                return Ok(false);
            };
            rest = behind;
            match lexer.feed(*byte)? {
                Fed::More | Fed::Continue => {}
                Fed::Unit => return Ok(rest.is_empty() && lexer.unit() == text),
                Fed::LineTooLong | Fed::LiteralTooLong => return Ok(false),
            }
        }
        Ok(false)
    }

    #[test]
    fn literals_come_in_pieces(rt: HostRuntime) -> Result<(), Fail> {
        assert!(rt; is_taken_in_pieces(&rt, b"a {5}\r\n\r\nb\r\n{0}\r\n {2}\r\nxy\r\n")?);
        assert!(rt; !is_taken_in_pieces(&rt, b"a {5}\r\n\r\nb\r")?);
        Ok(())
    }

    // What a line of so many letters shows with its last byte, or with the first byte that shows anything.
    fn letters_show(rt: &HostRuntime, letters: usize) -> Result<Fed, Fail> {
        let mut lexer = Lexer::new(rt.alloc())?;
        'bytes: for _ in 0..letters {
            if lexer.feed(b'x')? != Fed::More {
                return Ok(Fed::More);
            }
        }
        if lexer.feed(b'\r')? != Fed::More {
            return Ok(Fed::More);
        }
        Ok(lexer.feed(b'\n')?)
    }

    #[test]
    fn a_line_has_8192_bytes_at_most(rt: HostRuntime) -> Result<(), Fail> {
        assert_eq!(rt; letters_show(&rt, 8190)?, Fed::Unit);
        assert_eq!(rt; letters_show(&rt, 8191)?, Fed::LineTooLong);
        Ok(())
    }
}

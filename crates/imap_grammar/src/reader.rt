//! A text that is read from its front.
ghost use Rattle.std.specs.Prelude.{◌≡◌, ◌≤◌, ◌<◌, ◌+◌, length, take, drop};
ghost use Rattle.mail_text.specs.Texts.{begins as begins_of, front, behind};
ghost use Rattle.imap_grammar.specs.Classes.{is_in as is_in_of};
ghost use Rattle.imap_grammar.specs.Readings as spec;
ghost use Rattle.imap_grammar.specs.Readings.{Reads};

use crate::classes::{Class, is_in};
use crate::spellings::Spelling;
use std::alloc::{AllocError, AllocFailed};
use std::marker::Model;

/// Why nothing was read.
#[derive(Clone, Copy, Debug, PartialEq, Eq)]
pub(crate) enum Fault {
    NoMemory,
    /// The text has no such form.
    NoReading,
}

impl From<AllocError> for Fault {
    ghost use Rattle.std.specs.Prelude.{◌≡◌};
    ghost use Rattle.imap_grammar.specs.declared.reader.Fault.TheVariants.{NoMemory};

    ghost from_gives = { λ _ fault. fault ≡ NoMemory };

    fn from(_: AllocError) -> Fault
        ensures { result ≡ NoMemory }
    {
        Fault::NoMemory
    }
}

/// The text from the next byte on.
#[derive(Drop)]
pub(crate) struct Reader<'a> {
    rest: &'a [u8],
}

impl<'a> Model for Reader<'a> {
    ghost use Rattle.std.specs.Prelude.{ℕ, List};

    ghost Value = { List ℕ };

    ghost view = { λ reader. reader.rest.now };
}

impl<'a> Reader<'a> {
    pub(crate) fn new(rest: &'a [u8]) -> Reader<'a>
        ensures { result ≡ rest.now }
    {
        Reader { rest }
    }

    /// Whether the next byte is this one.
    pub(crate) fn sees(&self, b: u8) -> bool
        ensures { result ≡ spec.sees b self.now }
    {
        match self.rest {
            [first, ..] => *first == b,
            [] => false,
        }
    }

    /// Whether the next byte is of the class.
    pub(crate) fn begins(&self, class: Class) -> bool
        ensures { result ≡ begins_of (is_in_of class) self.now }
    {
        match self.rest {
            [first, ..] => is_in(class, *first),
            [] => false,
        }
    }

    /// Takes the byte if it comes next.
    #[tactic(auto, unfolding(crate::specs::Readings::after))]
    pub(crate) fn eat(&mut self, b: u8) -> bool
        ensures found { result ≡ spec.sees b self.old }
        ensures rest { self.new ≡ spec.after b self.old }
    {
        let found = self.sees(b);
        if found {
            self.rest = &self.rest[1..];
        }
        found
    }

    /// Takes the byte, which must come next.
    #[tactic(auto, unfolding(crate::specs::Readings::byte))]
    pub(crate) fn byte(&mut self, b: u8) -> Result<(), Fault>
        ensures { Reads (spec.byte b self.old) result self.new }
    {
        if !self.sees(b) {
            return Err(Fault::NoReading);
        }
        self.rest = &self.rest[1..];
        Ok(())
    }

    /// Takes the bytes of the class, as many as come next.
    pub(crate) fn front(&mut self, class: Class) -> &'a [u8]
        ensures front { result.now ≡ front (is_in_of class) self.old }
        ensures rest { self.new ≡ behind (is_in_of class) self.old }
    {
        let (bytes, rest) = self.rest.split_at(front_len(self.rest, class));
        self.rest = rest;
        bytes
    }

    /// The text that was not read yet.
    pub(crate) fn rest(&self) -> &'a [u8]
        ensures { result.now ≡ self.now }
    {
        self.rest
    }

    /// Goes over so many bytes.
    pub(crate) fn skip(&mut self, len: usize)
        requires { len ≤ length self.old }
        ensures { self.new ≡ drop len self.old }
    {
        self.rest = &self.rest[len..];
    }

    /// The next so many bytes, and the byte behind them dropped.
    pub(crate) fn split(&mut self, len: usize) -> &'a [u8]
        requires { len < length self.old }
        ensures front { result.now ≡ take len self.old }
        ensures rest { self.new ≡ drop (len + 1) self.old }
    {
        let bytes = &self.rest[..len];
        self.rest = &self.rest[len + 1..];
        bytes
    }

    /// The next so many bytes.
    #[tactic(auto, unfolding(crate::specs::Readings::counted))]
    pub(crate) fn counted(&mut self, n: u64) -> Result<Spelling<'a>, Fault>
        ensures { Reads (spec.counted n self.old) result self.new }
    {
        if n > self.rest.len() as u64 {
            return Err(Fault::NoReading);
        }
        let (bytes, rest) = self.rest.split_at(n as usize);
        self.rest = rest;
        Ok(Spelling::plain(bytes))
    }

    /// The end of a command.
    #[tactic(auto, unfolding(crate::specs::Readings::end))]
    pub(crate) fn end(&mut self) -> Result<(), Fault>
        ensures { Reads (spec.end self.old) result self.new }
    {
        self.byte(b'\r')?;
        self.byte(b'\n')?;
        if self.rest.is_empty() {
            Ok(())
        } else {
            Err(Fault::NoReading)
        }
    }
}

/// How many bytes of the class a text begins with.
fn front_len(text: &[u8], class: Class) -> usize
    ensures front { front (is_in_of class) text.now ≡ take result text.now }
    ensures behind { behind (is_in_of class) text.now ≡ drop result text.now }
    ensures within { result ≤ length text.now }
{
    for (at, b) in text.iter().enumerate() {
        if !is_in(class, *b) {
            return at;
        }
    }
    text.len()
}

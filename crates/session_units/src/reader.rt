//! A reader of units, which is fed byte by byte, and with slices within a literal or a line of a text.

ghost use Rattle.std.specs.Prelude.{ℕ, ◌≡◌, ◌≤◌, ◌<◌, ◌∷◌, [], IfOk, OnOk, OnErr, None, eqb, get_or, length, take, true};
ghost use Rattle.imap_lexer.specs.Lexer.{form_of};
ghost use Rattle.session_units.specs.declared.forms.Awaits.TheVariants.{Command};
ghost use Rattle.session_units.specs.Awaited.{Imap, Line, TakesMemory, Text, awaits_of, begun, form_for, is_prompting, source_for, with_more};
ghost use Rattle.session_units.specs.Units.{GoesOn, ended, ending, first, is_prompted, unit_of};

use crate::forms::{Awaits, Fed, Shown, Source};
use imap_lexer::{Fed as ImapFed, Lexer};
use lmtp_core::{LineLexer, LineShown, TextLexer, lines_end_where_they_end};
use memchr::memchr;
use std::alloc::{AllocError, Global};
use std::marker::Model;

/// The bytes of a unit as they come. Contracts see what is awaited and what came of it so far.
#[derive(Drop, Debug)]
pub struct Reader {
    imap: Lexer,
    line: LineLexer,
    text: TextLexer,
    source: Source,
}

impl Model for Reader {
    ghost use Rattle.session_units.specs.Awaited.{Awaited, held_by};

    ghost Value = { Awaited };

    ghost view = { λ reader. held_by reader.source reader.imap reader.line reader.text };
}

/// Feeds a byte of a command or a plain line.
fn feed_imap(imap: &mut Lexer, byte: u8) -> Result<Fed, AllocError>
    requires { first (Imap imap.old.form imap.old.bytes) [] ≡ None }
    ensures fed { OnOk result (Imap imap.new.form imap.new.bytes ≡ with_more (Imap imap.old.form imap.old.bytes) (byte ∷ [])) }
    ensures prompted { IfOk result (λ fed. is_prompted fed ≡ is_prompting (Imap imap.new.form imap.new.bytes)) }
    ensures cut { IfOk result (λ fed. first (Imap imap.old.form imap.old.bytes) (byte ∷ []) ≡ ended (ending fed) (Imap imap.new.form imap.new.bytes)) }
    ensures refused { OnErr result (TakesMemory (Imap imap.old.form imap.old.bytes)) }
    ensures unchanged { OnErr result (imap.new ≡ imap.old) }
{
    Ok(match imap.feed(byte)? {
        ImapFed::More => Fed::More,
        ImapFed::Continue => Fed::Continue,
        ImapFed::Unit => Fed::Ended(Shown::Unit),
        ImapFed::LineTooLong => Fed::Ended(Shown::LineTooLong),
        ImapFed::LiteralTooLong => Fed::Ended(Shown::LiteralTooLong),
    })
}

/// Feeds a byte of a line of LMTP.
fn feed_line(line: &mut LineLexer, byte: u8) -> Fed
    requires { first (Line line.old) [] ≡ None }
    ensures fed { Line line.new ≡ with_more (Line line.old) (byte ∷ []) }
    ensures prompted { is_prompted result ≡ is_prompting (Line line.new) }
    ensures cut { first (Line line.old) (byte ∷ []) ≡ ended (ending result) (Line line.new) }
{
    lines_end_where_they_end();
    let _ = line.feed(&[byte]);
    match line.shown() {
        LineShown::More => Fed::More,
        LineShown::Whole => Fed::Ended(Shown::Unit),
        LineShown::TooLong => Fed::Ended(Shown::LineTooLong),
    }
}

/// Feeds a byte of a text of LMTP.
fn feed_text(text: &mut TextLexer, byte: u8) -> Result<Fed, AllocError>
    requires { first (Text text.old) [] ≡ None }
    ensures fed { OnOk result (Text text.new ≡ with_more (Text text.old) (byte ∷ [])) }
    ensures prompted { IfOk result (λ fed. is_prompted fed ≡ is_prompting (Text text.new)) }
    ensures cut { IfOk result (λ fed. first (Text text.old) (byte ∷ []) ≡ ended (ending fed) (Text text.new)) }
    ensures refused { OnErr result (TakesMemory (Text text.old)) }
    ensures unchanged { OnErr result (text.new ≡ text.old) }
{
    let _ = text.feed(&[byte])?;
    if !text.is_whole() {
        return Ok(Fed::More);
    }
    match text.content() {
        Some(_) => Ok(Fed::Ended(Shown::Unit)),
        None => Ok(Fed::Ended(Shown::TextTooLong)),
    }
}

/// How many bytes stand before the first LF.
fn line_len(piece: &[u8]) -> usize
    ensures within { result ≤ length piece.now }
    ensures none { (k : ℕ) → k < result → eqb (get_or piece.now k 0) 10 ≡ true → ⊥ }
{
    match memchr(b'\n', piece) {
        Some(end) => end,
        None => piece.len(),
    }
}

/// Feeds the bytes of a text of LMTP that stand before the end of a line.
fn feed_text_line(text: &mut TextLexer, piece: &[u8]) -> Result<usize, AllocError>
    requires { first (Text text.old) [] ≡ None }
    ensures within { IfOk result (λ n. n ≤ length piece.now) }
    ensures fed { IfOk result (λ n. Text text.new ≡ with_more (Text text.old) (take n piece.now)) }
    ensures each { IfOk result (λ n. GoesOn (Text text.old) (take n piece.now)) }
    ensures none { OnOk result (first (Text text.new) [] ≡ None) }
    ensures refused { OnErr result (TakesMemory (Text text.old)) }
    ensures unchanged { OnErr result (text.new ≡ text.old) }
{
    let end = line_len(piece);
    let count = text.feed(&piece[..end])?;
    Ok(count)
}

/// Feeds the bytes of a literal.
fn feed_literal(imap: &mut Lexer, piece: &[u8]) -> Result<usize, AllocError>
    requires { first (Imap imap.old.form imap.old.bytes) [] ≡ None }
    ensures within { IfOk result (λ n. n ≤ length piece.now) }
    ensures fed { IfOk result (λ n. Imap imap.new.form imap.new.bytes ≡ with_more (Imap imap.old.form imap.old.bytes) (take n piece.now)) }
    ensures each { IfOk result (λ n. GoesOn (Imap imap.old.form imap.old.bytes) (take n piece.now)) }
    ensures none { OnOk result (first (Imap imap.new.form imap.new.bytes) [] ≡ None) }
    ensures refused { OnErr result (TakesMemory (Imap imap.old.form imap.old.bytes)) }
    ensures unchanged { OnErr result (imap.new ≡ imap.old) }
{
    let count = imap.feed_literal(piece)?;
    Ok(count)
}

/// The content of a text, or no byte where it is too long.
fn content_of(text: &TextLexer) -> &[u8]
    ensures { result.now ≡ unit_of (Text text.now) }
{
    match text.content() {
        Some(bytes) => bytes,
        None => &[],
    }
}

/// Whether units of a form are lines without literals, as far as `imap_lexer` reads them.
fn is_plain(awaits: Awaits) -> bool
    ensures { form_of result ≡ form_for awaits }
{
    match awaits {
        Awaits::PlainLine => true,
        Awaits::Command | Awaits::LmtpLine | Awaits::LmtpText => false,
    }
}

/// The lexer that reads units of a form.
fn source_of(awaits: Awaits) -> Source
    ensures { result ≡ source_for awaits }
{
    match awaits {
        Awaits::Command | Awaits::PlainLine => Source::Imap,
        Awaits::LmtpLine => Source::Line,
        Awaits::LmtpText => Source::Text,
    }
}

impl Reader {
    /// Awaits a command. The memory for lines is taken here, and kept for all that follow.
    pub fn new(alloc: Global) -> Result<Reader, AllocError>
        ensures begun { IfOk result (λ reader. reader ≡ begun Command) }
        ensures none { IfOk result (λ reader. first reader [] ≡ None) }
    {
        Ok(Reader {
            imap: Lexer::new(alloc)?,
            line: LineLexer::new(alloc)?,
            text: TextLexer::new(alloc),
            source: Source::Imap,
        })
    }

    /// Takes one byte, and tells what the bytes since the last unit show. After `Fed::Ended`, call `next` before more bytes.
    ///
    /// Lines take no memory. The bytes of literals and of texts do; where there is none, the byte is not taken, and may be
    /// fed again.
    pub fn feed(&mut self, byte: u8) -> Result<Fed, AllocError>
        requires { first self.old [] ≡ None }
        ensures fed { OnOk result (self.new ≡ with_more self.old (byte ∷ [])) }
        ensures prompted { IfOk result (λ fed. is_prompted fed ≡ is_prompting self.new) }

        // The unit is whole at its last byte, and not before.
        ensures cut { IfOk result (λ fed. first self.old (byte ∷ []) ≡ ended (ending fed) self.new) }
        ensures refused { OnErr result (TakesMemory self.old) }
        ensures unchanged { OnErr result (self.new ≡ self.old) }
    {
        match self.source {
            Source::Imap => feed_imap(&mut self.imap, byte),
            Source::Line => Ok(feed_line(&mut self.line, byte)),
            Source::Text => feed_text(&mut self.text, byte),
        }
    }

    /// Takes bytes that end nothing: those of a literal, and in a text of LMTP those before the end of a line. Tells how
    /// many it took.
    ///
    /// This is feeding these bytes one by one: each would be told `Fed::More`. It costs no more than a search and a copy.
    /// Where there is no memory, no byte is taken, and the piece may be fed again.
    pub fn feed_inside(&mut self, piece: &[u8]) -> Result<usize, AllocError>
        requires { first self.old [] ≡ None }
        ensures within { IfOk result (λ n. n ≤ length piece.now) }
        ensures fed { IfOk result (λ n. self.new ≡ with_more self.old (take n piece.now)) }
        ensures each { IfOk result (λ n. GoesOn self.old (take n piece.now)) }
        ensures none { first self.new [] ≡ None }
        ensures refused { OnErr result (TakesMemory self.old) }
        ensures unchanged { OnErr result (self.new ≡ self.old) }
    {
        match self.source {
            Source::Imap => feed_literal(&mut self.imap, piece),
            Source::Line => Ok(0),
            Source::Text => feed_text_line(&mut self.text, piece),
        }
    }

    /// The form that is awaited.
    pub fn awaits(&self) -> Awaits
        ensures { result ≡ awaits_of self.now }
    {
        match self.source {
            Source::Imap if self.imap.is_plain() => Awaits::PlainLine,
            Source::Imap => Awaits::Command,
            Source::Line => Awaits::LmtpLine,
            Source::Text => Awaits::LmtpText,
        }
    }

    /// The bytes since the last unit: after `Fed::Ended` the unit, with its CRLF. Of a text of LMTP the content, without
    /// dots that were put in front of lines, and no byte where it is too long.
    pub fn unit(&self) -> &[u8]
        ensures { result.now ≡ unit_of self.now }
    {
        match self.source {
            Source::Imap => self.imap.unit(),
            Source::Line => self.line.line(),
            Source::Text => content_of(&self.text),
        }
    }

    /// Drops the unit, and awaits one of a form. Memory that literals and texts took is given back.
    pub fn next(&mut self, awaits: Awaits)
        ensures dropped { self.new ≡ begun awaits }
        ensures none { first self.new [] ≡ None }
    {
        self.imap.next(is_plain(awaits));
        self.line.clear();
        self.text.clear();
        self.source = source_of(awaits);
    }
}

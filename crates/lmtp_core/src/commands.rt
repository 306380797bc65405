//! Lines as commands (RFC 2033 §4.1, RFC 5321 §4.1.1).
ghost use Rattle.std.specs.Prelude.{◌≡◌, true, false, drop, length, IfOk, MatchOption};
ghost use Rattle.lmtp_core.specs.Commands.{asked as asked_of, begins_with, closes as closes_of, command as command_of, ends_path as ends_path_of, is_domain_byte, is_form as is_form_of, is_local_byte, is_path as is_path_of, isnt_space, local_part as local_part_of, named as named_of, tail_of, without_end as without_end_of, word_of, words};
ghost use Rattle.lmtp_core.specs.declared.commands.Command.TheVariants.{Mail, Rcpt};

use mail_text::{ByteClass, front_len, has_byte, is_blank, lower, same};
use octets::Octets;
use std::alloc::{AllocError, Global};

/// What a line asks for: a known word in its form, or neither.
#[derive(Clone, Copy, Debug, PartialEq, Eq)]
pub enum Command {
    Lhlo,
    Mail,
    Rcpt,
    Data,
    Rset,
    Noop,
    Vrfy,
    Quit,
    /// A word that is known, with another tail than it asks for.
    OtherForm,
    /// Any other line.
    Unknown,
}

/// How a sender and a recipient begin, behind their words.
const SENDER: &[u8] = b" FROM:<";

const RECIPIENT: &[u8] = b" TO:<";

/// Bytes of a word.
struct WordByte;

impl ByteClass for WordByte {
    ghost test = { isnt_space };

    fn contains(b: u8) -> bool {
        b != b' '
    }
}

/// Bytes of a recipient's domain.
struct DomainByte;

impl ByteClass for DomainByte {
    ghost test = { is_domain_byte };

    fn contains(b: u8) -> bool {
        !(b == b'<' || b == b'>' || is_blank(b))
    }
}

/// Bytes of a recipient's local part.
struct LocalByte;

impl ByteClass for LocalByte {
    ghost test = { is_local_byte };

    fn contains(b: u8) -> bool {
        DomainByte::contains(b) && b != b'@'
    }
}

/// A line without its CRLF.
fn without_end(line: &[u8]) -> &[u8]
    ensures { result.now ≡ without_end_of line.now }
{
    &line[..line.len().saturating_sub(2)]
}

/// The first space of a line and what stands behind that.
fn tail(line: &[u8]) -> &[u8]
    ensures { result.now ≡ tail_of line.now }
{
    let text = without_end(line);
    &text[front_len::<WordByte>(text)..]
}

/// What stands before the first space of a line.
fn word(line: &[u8]) -> &[u8]
    ensures { result.now ≡ word_of line.now }
{
    let text = without_end(line);
    &text[..front_len::<WordByte>(text)]
}

/// The command of a word, in any case.
fn named(word: &[u8]) -> Command
    ensures { result ≡ named_of words word.now }
{
    if same(word, b"LHLO") {
        return Command::Lhlo;
    }
    if same(word, b"MAIL") {
        return Command::Mail;
    }
    if same(word, b"RCPT") {
        return Command::Rcpt;
    }
    if same(word, b"DATA") {
        return Command::Data;
    }
    if same(word, b"RSET") {
        return Command::Rset;
    }
    if same(word, b"NOOP") {
        return Command::Noop;
    }
    if same(word, b"VRFY") {
        return Command::Vrfy;
    }
    if same(word, b"QUIT") {
        return Command::Quit;
    }
    Command::Unknown
}

/// What stands behind these letters, in any case, where the text begins with them.
fn behind_letters<'a>(letters: &[u8], text: &'a [u8]) -> Option<&'a [u8]>
    ensures { MatchOption result (begins_with letters.now text.now ≡ false) (λ r. (begins_with letters.now text.now ≡ true) × (r.now ≡ drop (length letters.now) text.now)) }
{
    let len = letters.len().min(text.len());
    if same(&text[..len], letters) {
        Some(&text[len..])
    } else {
        None
    }
}

/// Whether a text is `>` alone.
fn closes(text: &[u8]) -> bool
    ensures { result ≡ closes_of text.now }
{
    match text {
        [b'>'] => true,
        _ => false,
    }
}

/// Whether a text is `>`, or `@`, a domain and `>`.
fn ends_path(text: &[u8]) -> bool
    ensures { result ≡ ends_path_of text.now }
{
    match text {
        [b'@', domain @ ..] => closes(&domain[front_len::<DomainByte>(domain)..]),
        _ => closes(text),
    }
}

/// Whether a text is a recipient behind its `<`.
fn is_path(text: &[u8]) -> bool
    ensures { result ≡ is_path_of text.now }
{
    let len = front_len::<LocalByte>(text);
    len > 0 && ends_path(&text[len..])
}

/// Whether a tail is what MAIL asks for.
fn is_sender(tail: &[u8]) -> bool
    ensures { result ≡ is_form_of Mail tail.now }
{
    match behind_letters(SENDER, tail) {
        Some(text) => has_byte(text, b'>'),
        None => false,
    }
}

/// Whether a tail is what RCPT asks for.
fn is_recipient(tail: &[u8]) -> bool
    ensures { result ≡ is_form_of Rcpt tail.now }
{
    match behind_letters(RECIPIENT, tail) {
        Some(text) => is_path(text),
        None => false,
    }
}

/// Whether a tail is what the word asks for.
fn is_form(word: Command, tail: &[u8]) -> bool
    ensures { result ≡ is_form_of word tail.now }
{
    match word {
        Command::Lhlo | Command::Vrfy => tail.len() > 1,
        Command::Mail => is_sender(tail),
        Command::Rcpt => is_recipient(tail),
        Command::Data | Command::Rset | Command::Noop | Command::Quit => tail.len() < 1,
        Command::OtherForm | Command::Unknown => true,
    }
}

/// The command that a line is, with its CRLF.
#[tactic(auto, unfolding(crate::specs::Commands::command))]
pub fn read_command(line: &[u8]) -> Command
    ensures { result ≡ command_of line.now }
{
    let word = named(word(line));
    if is_form(word, tail(line)) {
        word
    } else {
        Command::OtherForm
    }
}

/// The local part of a recipient, its letters small.
fn local_part(alloc: Global, tail: &[u8]) -> Result<Octets, AllocError>
    ensures { IfOk result (λ octets. octets ≡ local_part_of tail.now) }
{
    let text = &tail[tail.len().min(RECIPIENT.len())..];
    let local = &text[..front_len::<LocalByte>(text)];
    Ok(Octets::new(local.iter().map(|b| lower(*b)).collect(alloc)?))
}

/// The local part of the recipient that a line names, in small letters, for the user's look-up. None where the line is no
/// RCPT, or RCPT in another form.
pub fn asked(alloc: Global, line: &[u8]) -> Result<Option<Octets>, AllocError>
    ensures { IfOk result (λ local. local ≡ asked_of line.now) }
{
    match read_command(line) {
        Command::Rcpt => Ok(Some(local_part(alloc, tail(line))?)),
        _ => Ok(None),
    }
}

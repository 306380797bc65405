//! The words of the program.

ghost use Rattle.std.specs.Prelude.{◌≡◌, ◌<◌, ◌^◌, map, string_bytes};
ghost use Rattle.std.specs.Option.{option_map};
ghost use Rattle.mail_server.specs.Commands.{meaning};
ghost use Rattle.mail_server.specs.Words.{asked_by, asked_by_three, asked_by_word};
ghost use Rattle.mail_server.specs.Run.{limit_of};

use crate::serve_numbers::ServeWords;
use crate::serve_words::read_four;
use crate::{canonical, scripted};

/// What the words ask for, which what is borrowed belongs to.
#[derive(Clone, Copy, Debug, PartialEq, Eq)]
pub(crate) enum Command<'a> {
    /// To read a text from the source, and to write what it gives.
    OfText(Task),
    /// To make an empty store in the files.
    Init,
    /// To list the rows that the files hold.
    Tables,
    /// To add a user with a name and a password.
    AddUser(&'a [u8], &'a [u8]),
    /// To serve the sessions of links.
    Serve(ServeWords),
}

/// What is done with a text.
#[derive(Clone, Copy, Debug, PartialEq, Eq)]
pub(crate) enum Task {
    /// To run a script.
    Script,
    /// To write the canonical text of a message.
    Canon,
}

/// Reads a single word.
fn read_word<'a>(word: &[u8]) -> Option<Command<'a>>
    ensures { option_map meaning result ≡ asked_by_word word.now }
{
    if word == b"script".as_slice() {
        Some(Command::OfText(Task::Script))
    } else if word == b"canon".as_slice() {
        Some(Command::OfText(Task::Canon))
    } else if word == b"init".as_slice() {
        Some(Command::Init)
    } else if word == b"tables".as_slice() {
        Some(Command::Tables)
    } else {
        None
    }
}

/// Reads a word with two more.
fn read_three<'a>(word: &[u8], name: &'a [u8], password: &'a [u8]) -> Option<Command<'a>>
    ensures { option_map meaning result ≡ asked_by_three word.now name.now password.now }
{
    if word == b"adduser".as_slice() {
        Some(Command::AddUser(name, password))
    } else {
        None
    }
}

/// Reads the words; none where they are outside the grammar.
#[tactic(auto, using(crate::proofs::WordLists::no_words, crate::proofs::WordLists::two_words, crate::proofs::WordLists::many_words))]
pub(crate) fn read_words(words: &[String]) -> Option<Command<'_>>
    ensures { option_map meaning result ≡ asked_by (map (λ word. string_bytes word) words.now) }
{
    match words {
        [word] => read_word(word.as_bytes()),
        [word, name, password] => {
            read_three(word.as_bytes(), name.as_bytes(), password.as_bytes())
        }
        [word, rounds, imap, lmtp] => read_four(
            word.as_bytes(),
            rounds.as_bytes(),
            imap.as_bytes(),
            lmtp.as_bytes(),
        ),
        _ => None,
    }
}

impl Task {
    /// How many bytes its text may have.
    pub(crate) fn limit(self) -> usize
        ensures limit { result ≡ limit_of self }
        ensures bound { result < 2 ^ 32 }
    {
        match self {
            Task::Script => scripted::MOST_BYTES,
            Task::Canon => canonical::MOST_BYTES,
        }
    }
}

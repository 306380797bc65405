//! Flags of messages.
ghost use Rattle.std.specs.Prelude.{◌≡◌, ◌∷◌, [], IfOk, map};
ghost use Rattle.std.specs.Char.{to_ascii_lowercase};
ghost use Rattle.imap_grammar.specs.Flags as spec;
ghost use Rattle.imap_grammar.specs.Lists.{separated};
ghost use Rattle.imap_grammar.specs.Words.{keyword, named};
ghost use Rattle.imap_grammar.specs.Readings.{Reads};

use crate::classes::Class;
use crate::lists::{Rule, read_separated};
use crate::reader::{Fault, Reader};
use mail_text::same;
use octets::Octets;
use sqlite_items::Items;
use std::alloc::{AllocError, Global};

/// A flag that a message can have (RFC 3501 §2.3.2). `\Recent` is none: no command sets it.
#[derive(Debug, Drop)]
pub enum Flag {
    Answered,
    Flagged,
    Deleted,
    Seen,
    Draft,
    /// One or more atom characters, the letters small.
    Keyword(Octets),
}

/// What STORE does with the flags that it names (RFC 3501 §6.4.6).
#[derive(Clone, Copy, Debug, PartialEq, Eq)]
pub enum FlagChange {
    Set,
    Add,
    Remove,
}

/// A flag by its name behind the `\`.
fn flag_named(name: &[u8]) -> Option<Flag>
    ensures { result ≡ named spec.system_flags name.now }
{
    if same(name, b"Answered") {
        Some(Flag::Answered)
    } else if same(name, b"Flagged") {
        Some(Flag::Flagged)
    } else if same(name, b"Deleted") {
        Some(Flag::Deleted)
    } else if same(name, b"Seen") {
        Some(Flag::Seen)
    } else if same(name, b"Draft") {
        Some(Flag::Draft)
    } else {
        None
    }
}

#[tactic(auto, unfolding(crate::specs::Words::keyword))]
fn system_flag(reader: &mut Reader<'_>) -> Result<Flag, Fault>
    ensures { Reads (keyword spec.system_flags reader.old) result reader.new }
{
    match flag_named(reader.front(Class::Word)) {
        Some(flag) => Ok(flag),
        None => Err(Fault::NoReading),
    }
}

/// A keyword.
#[tactic(auto, unfolding(crate::specs::Flags::keyword_flag, crate::specs::Strings::some))]
pub(crate) fn keyword_flag(alloc: Global, reader: &mut Reader<'_>) -> Result<Flag, Fault>
    ensures { Reads (spec.keyword_flag reader.old) result reader.new }
{
    let name = reader.front(Class::Atom);
    if name.is_empty() {
        return Err(Fault::NoReading);
    }
    Ok(Flag::Keyword(Octets::new(lowered(alloc, name)?)))
}

fn lowered(alloc: Global, bytes: &[u8]) -> Result<Vec<u8>, AllocError>
    ensures { IfOk result (λ v. v.items ≡ map to_ascii_lowercase bytes.now) }
{
    let mut name = Vec::from_slice(alloc, bytes)?;
    name.make_ascii_lowercase();
    Ok(name)
}

#[tactic(auto, unfolding(crate::specs::Flags::flag))]
fn read_flag(alloc: Global, reader: &mut Reader<'_>) -> Result<Flag, Fault>
    ensures { Reads (spec.flag reader.old) result reader.new }
{
    if !reader.sees(b'\\') {
        return keyword_flag(alloc, reader);
    }
    reader.byte(b'\\')?;
    system_flag(reader)
}

/// A flag.
struct FlagRule;

impl Rule for FlagRule {
    type Value = Flag;

    ghost use Rattle.imap_grammar.specs.Flags.{flag};

    ghost reading = { λ _. flag };

    fn read(&self, alloc: Global, reader: &mut Reader<'_>) -> Result<Flag, Fault> {
        read_flag(alloc, reader)
    }
}

/// Flags in parentheses, or none.
#[tactic(auto, unfolding(crate::specs::Flags::flag_list))]
pub(crate) fn flag_list(alloc: Global, reader: &mut Reader<'_>) -> Result<Items<Flag>, Fault>
    ensures { Reads (spec.flag_list reader.old) result reader.new }
{
    reader.byte(b'(')?;
    if reader.sees(b')') {
        reader.byte(b')')?;
        return Ok(Items::new(alloc));
    }
    let flags = read_separated(alloc, reader, b' ', &FlagRule)?;
    reader.byte(b')')?;
    Ok(flags)
}

/// Flags in parentheses, or one or more without these.
#[tactic(auto, unfolding(crate::specs::Flags::flags))]
pub(crate) fn any_flags(alloc: Global, reader: &mut Reader<'_>) -> Result<Items<Flag>, Fault>
    ensures { Reads (spec.flags reader.old) result reader.new }
{
    if reader.sees(b'(') {
        flag_list(alloc, reader)
    } else {
        read_separated(alloc, reader, b' ', &FlagRule)
    }
}

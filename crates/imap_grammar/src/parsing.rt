//! Units as commands.
ghost use Rattle.imap_grammar.specs.Commands as spec;
ghost use Rattle.imap_grammar.specs.Commands.{Tells};
ghost use Rattle.imap_grammar.specs.Readings.{Reads};

use crate::classes::Class;
use crate::commands::{Bad, Command, ParseFault, Tagged};
use crate::fetching::fetch;
use crate::finding::{search, sort, thread};
use crate::mailboxes::{listing, one_name, rename, status};
use crate::messages::{append, copy, store, uid_expunge};
use crate::reader::{Fault, Reader};
use crate::selecting::select;
use crate::session::{alone, authenticate, enable, login};
use crate::spellings::Spelling;
use crate::strings::some;
use crate::verbs::{UidVerb, Verb, read_uid_verb, read_verb};
use std::alloc::Global;

/// Reads a unit as a command with its tag. A unit is a line with its CRLF, or lines with literals between them, each of which
/// `{n}` and CRLF announce (RFC 3501 §2.2, §4.3); it is the unit of a command as `imap_lexer` cuts it.
#[tactic(auto, unfolding(crate::specs::Commands::meaning))]
pub fn parse(alloc: Global, unit: &[u8]) -> Result<Tagged, ParseFault>
    ensures { Tells (spec.meaning unit.now) result }
{
    let mut reader = Reader::new(unit);
    match tag(&mut reader) {
        Ok(name) => tagged(alloc, &mut reader, &name),
        Err(Fault::NoReading) => Err(ParseFault::Bad(Bad::NoTag)),
        Err(Fault::NoMemory) => Err(ParseFault::NoMemory),
    }
}

/// A tag, and the space behind it.
#[tactic(auto, unfolding(crate::specs::Commands::tag))]
fn tag<'a>(reader: &mut Reader<'a>) -> Result<Spelling<'a>, Fault>
    ensures { Reads (spec.tag reader.old) result reader.new }
{
    let name = some(reader, Class::Tag)?;
    reader.byte(b' ')?;
    Ok(name)
}

/// A command behind its tag.
fn tagged(alloc: Global, reader: &mut Reader<'_>, name: &Spelling<'_>) -> Result<Tagged, ParseFault>
    ensures { Tells (spec.tagged name.now (spec.command reader.old)) result }
{
    match command(alloc, reader) {
        Ok(command) => Ok(Tagged {
            tag: name.to_octets(alloc)?,
            command,
        }),
        Err(Fault::NoReading) => Err(ParseFault::Bad(Bad::WithTag(name.to_octets(alloc)?))),
        Err(Fault::NoMemory) => Err(ParseFault::NoMemory),
    }
}

/// A command without its tag.
#[tactic(auto, unfolding(crate::specs::Commands::command))]
fn command(alloc: Global, reader: &mut Reader<'_>) -> Result<Command, Fault>
    ensures { Reads (spec.command reader.old) result reader.new }
{
    let name = read_verb(reader)?;
    arguments(alloc, reader, name)
}

/// What stands behind the name of a command.
fn arguments(alloc: Global, reader: &mut Reader<'_>, name: Verb) -> Result<Command, Fault>
    ensures { Reads (spec.arguments name reader.old) result reader.new }
{
    match name {
        Verb::Capability => alone(reader, Command::Capability),
        Verb::Noop => alone(reader, Command::Noop),
        Verb::Logout => alone(reader, Command::Logout),
        Verb::Check => alone(reader, Command::Check),
        Verb::Close => alone(reader, Command::Close),
        Verb::Expunge => alone(reader, Command::Expunge),
        Verb::Login => login(alloc, reader),
        Verb::Authenticate => authenticate(alloc, reader),
        Verb::Create => Ok(Command::Create(one_name(alloc, reader)?)),
        Verb::Delete => Ok(Command::Delete(one_name(alloc, reader)?)),
        Verb::Subscribe => Ok(Command::Subscribe(one_name(alloc, reader)?)),
        Verb::Unsubscribe => Ok(Command::Unsubscribe(one_name(alloc, reader)?)),
        Verb::Rename => rename(alloc, reader),
        Verb::List => listing(alloc, reader, false),
        Verb::Lsub => listing(alloc, reader, true),
        Verb::Status => status(alloc, reader),
        Verb::Append => append(alloc, reader),
        Verb::Select => select(alloc, reader, false),
        Verb::Examine => select(alloc, reader, true),
        Verb::Store => store(alloc, reader, false),
        Verb::Copy => copy(alloc, reader, false),
        Verb::Fetch => fetch(alloc, reader, false),
        Verb::Search => search(alloc, reader, false),
        Verb::Sort => sort(alloc, reader, false),
        Verb::Thread => thread(alloc, reader, false),
        Verb::Enable => enable(alloc, reader),
        Verb::Uid => by_uids(alloc, reader),
    }
}

/// A command behind UID.
#[tactic(auto, unfolding(crate::specs::Commands::by_uids))]
fn by_uids(alloc: Global, reader: &mut Reader<'_>) -> Result<Command, Fault>
    ensures { Reads (spec.by_uids reader.old) result reader.new }
{
    reader.byte(b' ')?;
    let name = read_uid_verb(reader)?;
    uid_arguments(alloc, reader, name)
}

fn uid_arguments(alloc: Global, reader: &mut Reader<'_>, name: UidVerb) -> Result<Command, Fault>
    ensures { Reads (spec.uid_arguments name reader.old) result reader.new }
{
    match name {
        UidVerb::Fetch => fetch(alloc, reader, true),
        UidVerb::Search => search(alloc, reader, true),
        UidVerb::Sort => sort(alloc, reader, true),
        UidVerb::Thread => thread(alloc, reader, true),
        UidVerb::Store => store(alloc, reader, true),
        UidVerb::Copy => copy(alloc, reader, true),
        UidVerb::Expunge => uid_expunge(alloc, reader),
    }
}

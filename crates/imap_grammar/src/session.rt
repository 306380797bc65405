//! Commands of the session.
ghost use Rattle.imap_grammar.specs.Session as spec;
ghost use Rattle.imap_grammar.specs.Readings.{Reads};

use crate::classes::Class;
use crate::commands::Command;
use crate::lists::{Rule, read_separated};
use crate::reader::{Fault, Reader};
use crate::strings::{some, string_or};
use octets::Octets;
use std::alloc::Global;

/// A command that ends here.
#[tactic(auto, unfolding(crate::specs::Session::alone))]
pub(crate) fn alone(reader: &mut Reader<'_>, command: Command) -> Result<Command, Fault>
    ensures { Reads (spec.alone command reader.old) result reader.new }
{
    reader.end()?;
    Ok(command)
}

#[tactic(auto, unfolding(crate::specs::Session::login))]
pub(crate) fn login(alloc: Global, reader: &mut Reader<'_>) -> Result<Command, Fault>
    ensures { Reads (spec.login reader.old) result reader.new }
{
    reader.byte(b' ')?;
    let name = string_or(reader, Class::Astring)?;
    reader.byte(b' ')?;
    let password = string_or(reader, Class::Astring)?;
    reader.end()?;
    Ok(Command::Login {
        name: name.to_octets(alloc)?,
        password: password.to_octets(alloc)?,
    })
}

#[tactic(auto, unfolding(crate::specs::Session::authenticate))]
pub(crate) fn authenticate(alloc: Global, reader: &mut Reader<'_>) -> Result<Command, Fault>
    ensures { Reads (spec.authenticate reader.old) result reader.new }
{
    reader.byte(b' ')?;
    let mechanism = some(reader, Class::Atom)?;
    reader.end()?;
    Ok(Command::Authenticate(mechanism.to_octets(alloc)?))
}

/// An atom.
struct AtomRule;

impl Rule for AtomRule {
    type Value = Octets;

    ghost use Rattle.imap_grammar.specs.declared.classes.Class.TheVariants.{Atom};
    ghost use Rattle.imap_grammar.specs.Strings.{some};

    ghost reading = { λ _. some Atom };

    fn read(&self, alloc: Global, reader: &mut Reader<'_>) -> Result<Octets, Fault> {
        let name = some(reader, Class::Atom)?;
        Ok(name.to_octets(alloc)?)
    }
}

#[tactic(auto, unfolding(crate::specs::Session::enable))]
pub(crate) fn enable(alloc: Global, reader: &mut Reader<'_>) -> Result<Command, Fault>
    ensures { Reads (spec.enable reader.old) result reader.new }
{
    reader.byte(b' ')?;
    let names = read_separated(alloc, reader, b' ', &AtomRule)?;
    reader.end()?;
    Ok(Command::Enable(names))
}

//! Lists of what one rule reads.
ghost use Rattle.std.specs.Prelude.{ℕ, List, Option};
ghost use Rattle.imap_grammar.specs.Lists.{listed, separated};
ghost use Rattle.imap_grammar.specs.Readings.{Reads};

use crate::reader::{Fault, Reader};
use sqlite_items::Items;
use std::alloc::Global;

/// What reads the members of a list.
pub(crate) trait Rule {
    type Value;

    ghost reading: { Self → List ℕ → Option (Self.Value × List ℕ) };

    fn read(&self, alloc: Global, reader: &mut Reader<'_>) -> Result<Self::Value, Fault>
        ensures { Reads (reading self.now reader.old) result reader.new };
}

/// One or more, each two with the byte between.
pub(crate) fn read_separated<R: Rule>(
    alloc: Global,
    reader: &mut Reader<'_>,
    between: u8,
    rule: &R,
) -> Result<Items<R::Value>, Fault>
where
    R::Value: Drop,
    ensures { Reads (separated between (R.reading rule.now) reader.old) result reader.new }
{
    let mut found = Items::new(alloc);
    for _turn in 0..reader.rest().len() {
        found.push(rule.read(alloc, reader)?)?;
        if !reader.eat(between) {
            return Ok(found);
        }
    }
    Err(Fault::NoReading)
}

/// One or more in parentheses, with spaces between.
#[tactic(auto, unfolding(crate::specs::Lists::listed))]
pub(crate) fn read_listed<R: Rule>(
    alloc: Global,
    reader: &mut Reader<'_>,
    rule: &R,
) -> Result<Items<R::Value>, Fault>
where
    R::Value: Drop,
    ensures { Reads (listed (R.reading rule.now) reader.old) result reader.new }
{
    reader.byte(b'(')?;
    let found = read_separated(alloc, reader, b' ', rule)?;
    reader.byte(b')')?;
    Ok(found)
}

//! Sets of numbers.
ghost use Rattle.imap_grammar.specs.Sets as spec;
ghost use Rattle.imap_grammar.specs.Readings.{Reads};

use crate::lists::{Rule, read_separated};
use crate::reader::{Fault, Reader};
use crate::strings::number32;
use sqlite_items::Items;
use std::alloc::Global;

/// Numbers of messages, or UIDs (RFC 3501 §9, sequence-set): what lies between the ends of its ranges, in either order.
#[derive(Debug, Drop)]
pub struct SeqSet {
    /// The two ends of each range, both from 1. None stands for `*`, the greatest number there is.
    pub ranges: Items<(Option<u32>, Option<u32>)>,
}

/// A number from 1, or `*`.
#[tactic(auto, unfolding(crate::specs::Sets::bound))]
fn bound(reader: &mut Reader<'_>) -> Result<Option<u32>, Fault>
    ensures { Reads (spec.bound reader.old) result reader.new }
{
    if reader.sees(b'*') {
        reader.byte(b'*')?;
        return Ok(None);
    }
    Ok(Some(number32(reader, 1)?))
}

/// A range, or a number alone.
struct RangeRule;

impl Rule for RangeRule {
    type Value = (Option<u32>, Option<u32>);

    ghost use Rattle.imap_grammar.specs.Sets.{range};

    ghost reading = { λ _. range };

    fn read(
        &self,
        _alloc: Global,
        reader: &mut Reader<'_>,
    ) -> Result<(Option<u32>, Option<u32>), Fault> {
        read_range(reader)
    }
}

#[tactic(auto, unfolding(crate::specs::Sets::range))]
fn read_range(reader: &mut Reader<'_>) -> Result<(Option<u32>, Option<u32>), Fault>
    ensures { Reads (spec.range reader.old) result reader.new }
{
    let first = bound(reader)?;
    if !reader.sees(b':') {
        return Ok((first, first));
    }
    reader.byte(b':')?;
    Ok((first, bound(reader)?))
}

/// A set of numbers.
#[tactic(auto, unfolding(crate::specs::Sets::seq_set))]
pub(crate) fn seq_set(alloc: Global, reader: &mut Reader<'_>) -> Result<SeqSet, Fault>
    ensures { Reads (spec.seq_set reader.old) result reader.new }
{
    Ok(SeqSet {
        ranges: read_separated(alloc, reader, b',', &RangeRule)?,
    })
}

//! Flags, each of them once.

ghost use Rattle.std.specs.Prelude.{◌≡◌, ◌∷◌, not, filter, IfOk, OnOk};
ghost use Rattle.mail_world.specs.Flags.{distinct, same_flag};

use imap_grammar::Flag;
use octets::Octets;
use std::alloc::{AllocError, Global};

// Flags, each of them once, where it stands first.
pub(crate) fn distinct_flags(alloc: Global, flags: &[Flag]) -> Result<Vec<Flag>, AllocError>
    ensures { IfOk result (λ found. found.items ≡ distinct flags.now) }
{
    let mut found = Vec::new(alloc);
    let mut left = flags.len();
    'flags: while left > 0 {
        left -= 1;
        put_first(alloc, &mut found, &flags[left])?;
    }
    Ok(found)
}

// Puts a flag in front of those flags that are others.
fn put_first(alloc: Global, flags: &mut Vec<Flag>, flag: &Flag) -> Result<(), AllocError>
    ensures { OnOk result (flags.new.items ≡ flag.now ∷ filter (λ other. not (same_flag flag.now other)) flags.old.items) }
{
    let copy = copy_of(alloc, flag)?;
    take_out(flags, flag);
    flags.insert(0, copy)?;
    Ok(())
}

fn take_out(flags: &mut Vec<Flag>, flag: &Flag)
    ensures { flags.new.items ≡ filter (λ other. not (same_flag flag.now other)) flags.old.items }
{
    flags.retain(|other| !is_same(flag, other));
}

fn is_same(one: &Flag, other: &Flag) -> bool
    ensures { result ≡ same_flag one.now other.now }
{
    match (one, other) {
        (Flag::Answered, Flag::Answered)
        | (Flag::Flagged, Flag::Flagged)
        | (Flag::Deleted, Flag::Deleted)
        | (Flag::Seen, Flag::Seen)
        | (Flag::Draft, Flag::Draft) => true,
        (Flag::Keyword(one), Flag::Keyword(other)) => one.as_slice() == other.as_slice(),
        _ => false,
    }
}

// A flag, in memory of its own.
fn copy_of(alloc: Global, flag: &Flag) -> Result<Flag, AllocError>
    ensures { IfOk result (λ copy. copy ≡ flag.now) }
{
    match flag {
        Flag::Answered => Ok(Flag::Answered),
        Flag::Flagged => Ok(Flag::Flagged),
        Flag::Deleted => Ok(Flag::Deleted),
        Flag::Seen => Ok(Flag::Seen),
        Flag::Draft => Ok(Flag::Draft),
        Flag::Keyword(name) => Ok(Flag::Keyword(Octets::new(name.as_slice().to_vec(alloc)?))),
    }
}

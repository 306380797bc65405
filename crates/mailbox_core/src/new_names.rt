//! The names of mailboxes that are renamed.

ghost use Rattle.std.specs.Prelude.{◌≡◌, ◌+◌, ◌≤◌, ◌++◌, true, false, length, take, drop, is_some, MatchOption};
ghost use Rattle.std.specs.Option.{option_copied};
ghost use Rattle.row_tables.specs.Names.{mailbox_named};
ghost use Rattle.mail_world.specs.Names.{is_renamed};
ghost use Rattle.mailbox_core.specs.Renaming.{IsNextUnder, ends_name};

use row_tables::{Mailbox, Tables};

// What comes behind a name in it, or in a name that is inferior to it.
pub(crate) fn rest_of<'a>(from: &[u8], name: &'a [u8]) -> Option<&'a [u8]>
    ensures { MatchOption result (is_renamed from.now name.now ≡ false) (λ rest. (is_renamed from.now name.now ≡ true) × (rest.now ≡ drop (length from.now) name.now)) }
{
    match name.strip_prefix(from) {
        Some(rest) if ends_name(rest) => Some(rest),
        _ => None,
    }
}

// Whether a name ends in front of these bytes, or a level of it does.
fn ends_name(rest: &[u8]) -> bool
    ensures { result ≡ ends_name rest.now }
{
    rest.is_empty() || rest[0] == b'/'
}

// The mailbox of a user that comes next after one of a name, by the bytes of names, if its own name begins with a front: once one
// doesn't, none after it does.
pub(crate) fn next_under<'a>(
    tables: &'a Tables,
    owner: u32,
    front: &[u8],
    name: &[u8],
) -> Option<&'a Mailbox>
    ensures { IsNextUnder owner front.now name.now tables.now.heads.mailboxes (option_copied result) }
{
    match tables.mailbox_after(owner, name) {
        Some(row) if row.name.as_slice().starts_with(front) => Some(row),
        _ => None,
    }
}

// Whether a user has a mailbox of a name in two parts. Takes no memory.
pub(crate) fn has_mailbox(tables: &Tables, owner: u32, front: &[u8], rest: &[u8]) -> bool
    requires { length front.now + length rest.now ≤ 255 }
    ensures { result ≡ is_some (mailbox_named owner (front.now ++ rest.now) tables.now.heads.mailboxes) }
{
    let mut name = [0u8; 255];
    let end = join(&mut name, front, rest);
    tables.mailbox_named(owner, &name[..end]).is_some()
}

// Writes a name in two parts, and answers its length.
fn join(name: &mut [u8], front: &[u8], rest: &[u8]) -> usize
    requires { length front.now + length rest.now ≤ length name.old }
    ensures end { result ≡ length front.now + length rest.now }
    ensures kept { length name.new ≡ length name.old }
    ensures joined { take result name.new ≡ front.now ++ rest.now }
{
    let middle = front.len();
    let end = middle + rest.len();
    name[..middle].copy_from_slice(front);
    name[middle..end].copy_from_slice(rest);
    end
}

//! What LIST and LSUB tell of a user's names.

ghost use Rattle.std.specs.Prelude.{◌≡◌, ◌&&◌, ◌++◌, ◌∷◌, [], ℕ, List, map, filter, nat_eq, true, false, MatchOption, IfOk, OnOk};
ghost use Rattle.std.specs.List.{starts_with};
ghost use Rattle.row_store.specs.Kept.{IfContents};
ghost use Rattle.mailbox_names.specs.Names.{has_name};
ghost use Rattle.mailbox_names.specs.Fronts.{IsPart, is_wanted};
ghost use Rattle.mailbox_names.specs.Listing.{listed};
ghost use Rattle.mail_world.specs.Worlds.{World};
ghost use Rattle.mail_world.specs.Listing.{names_of};
ghost use Rattle.mail_stands.specs.Stands.{Stands};
ghost use Rattle.mailbox_core.specs.Listing.{IsNextName, NoneAfter, Walked, names_in};

use disk_model::Disk;
use mailbox_names::{Listed, needed_front};
use row_store::RowStore;
use row_tables::Tables;
use std::alloc::{AllocError, Global};

/// What LIST tells of a user's mailboxes where it is asked for a pattern, or LSUB of the user's subscriptions (RFC 3501 §6.3.8,
/// §6.3.9). Calls no disk. Looks up each mailbox that begins with what the pattern has before its first wildcard, each of all of the
/// user's where it ends with `%` and a level may be INBOX.
pub fn list<D: Disk>(
    alloc: Global,
    store: &RowStore<D>,
    user: u32,
    pattern: &[u8],
    subscribed: bool,
) -> Result<Vec<Listed>, AllocError>
    requires usable { store.now.spent ≡ false }
    ensures world { IfContents D.told store.now (λ content. (w : World) → Stands content store.now.tables w
        → IfOk result (λ all. all.items ≡ listed pattern.now (names_of subscribed user w))) }
    ensures rows { IfOk result (λ all. all.items ≡ listed pattern.now (names_in subscribed user store.now.tables)) }
{
    list_rows(alloc, store.tables(), user, pattern, subscribed)
}

// The same of the rows of tables.
fn list_rows(
    alloc: Global,
    tables: &Tables,
    user: u32,
    pattern: &[u8],
    subscribed: bool,
) -> Result<Vec<Listed>, AllocError>
    ensures { IfOk result (λ all. all.items ≡ listed pattern.now (names_in subscribed user tables.now)) }
{
    let front = needed_front(alloc, pattern)?;
    let names = wanted_names(alloc, tables, user, subscribed, front)?;
    let names = names.as_slice();
    let all = mailbox_names::list(alloc, pattern, names)?;
    Ok(all)
}

// The names that are INBOX or begin with a front.
fn wanted_names<'a>(
    alloc: Global,
    tables: &'a Tables,
    user: u32,
    subscribed: bool,
    front: &'a [u8],
) -> Result<Vec<&'a [u8]>, AllocError>
    ensures { IfOk result (λ names. IsPart front.now (names_in subscribed user tables.now) (map (λ name. name.now) names.items)) }
{
    if subscribed {
        let names = wanted_subscriptions(alloc, tables, user, front)?;
        Ok(names)
    } else {
        wanted_mailboxes(alloc, tables, user, front)
    }
}

// The names of subscriptions among them. Goes over all that the user has.
fn wanted_subscriptions<'a>(
    alloc: Global,
    tables: &'a Tables,
    user: u32,
    front: &[u8],
) -> Result<Vec<&'a [u8]>, AllocError>
    ensures { IfOk result (λ names. map (λ name. name.now) names.items ≡ filter (is_wanted front.now) (names_in true user tables.now)) }
{
    let mut names = Vec::new(alloc);
    let mut rows = tables.subscriptions_of(user);
    'rows: while let Some(row) = rows.next() {
        add_wanted(&mut names, front, row.name.as_slice())?;
    }
    Ok(names)
}

fn add_wanted<'a>(names: &mut Vec<&'a [u8]>, front: &[u8], name: &'a [u8]) -> Result<(), AllocError>
    ensures { OnOk result (map (λ n. n.now) names.new.items ≡ map (λ n. n.now) names.old.items ++ filter (is_wanted front.now) (name.now ∷ [])) }
{
    if is_wanted(front, name) {
        names.push(name)?;
        Ok(())
    } else {
        Ok(())
    }
}

fn is_wanted(front: &[u8], name: &[u8]) -> bool
    ensures { result ≡ is_wanted front.now name.now }
{
    let is_inbox = name == b"INBOX".as_slice();
    is_inbox || name.starts_with(front)
}

// The names of mailboxes among them.
fn wanted_mailboxes<'a>(
    alloc: Global,
    tables: &'a Tables,
    user: u32,
    front: &'a [u8],
) -> Result<Vec<&'a [u8]>, AllocError>
    ensures { IfOk result (λ names. IsPart front.now (names_in false user tables.now) (map (λ name. name.now) names.items)) }
{
    let mut names = mailboxes_from(alloc, tables, user, front)?;
    if has_mailbox(tables, user, b"INBOX") {
        names.push(b"INBOX")?;
        Ok(names)
    } else {
        Ok(names)
    }
}

// The names of mailboxes that begin with a front, found one after another.
fn mailboxes_from<'a>(
    alloc: Global,
    tables: &'a Tables,
    user: u32,
    front: &'a [u8],
) -> Result<Vec<&'a [u8]>, AllocError>
    ensures { IfOk result (λ names. (name : List ℕ) → has_name name (map (λ n. n.now) names.items) ≡ (starts_with nat_eq name front.now && has_name name (names_in false user tables.now))) }
{
    let mut names = first_mailbox(alloc, tables, user, front)?;
    let mut last = front;
    'names: while let Some(name) = mailbox_after(tables, user, last) {
        if !name.starts_with(front) {
            return Ok(names);
        }
        names.push(name)?;
        last = name;
    }
    Ok(names)
}

// The name that is a front itself, if a mailbox has it.
fn first_mailbox<'a>(
    alloc: Global,
    tables: &Tables,
    user: u32,
    front: &'a [u8],
) -> Result<Vec<&'a [u8]>, AllocError>
    ensures { IfOk result (λ names. Walked front.now (names_in false user tables.now) front.now (map (λ n. n.now) names.items)) }
{
    let mut names = Vec::new(alloc);
    if has_mailbox(tables, user, front) {
        names.push(front)?;
        Ok(names)
    } else {
        Ok(names)
    }
}

fn has_mailbox(tables: &Tables, user: u32, name: &[u8]) -> bool
    ensures { result ≡ has_name name.now (names_in false user tables.now) }
{
    tables.mailbox_named(user, name).is_some()
}

// The name of the mailbox that comes next.
fn mailbox_after<'a>(tables: &'a Tables, user: u32, name: &[u8]) -> Option<&'a [u8]>
    ensures { MatchOption result (NoneAfter name.now (names_in false user tables.now)) (λ next. IsNextName name.now next.now (names_in false user tables.now)) }
{
    match tables.mailbox_after(user, name) {
        Some(row) => Some(row.name.as_slice()),
        None => None,
    }
}

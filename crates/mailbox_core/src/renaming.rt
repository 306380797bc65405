//! Mailboxes other than INBOX that get other names.

ghost use Rattle.std.specs.Prelude.{◌≡◌, ◌++◌, ◌∷◌, [], if◌then◌else◌, Some, false, true, MatchResult, IfOk, IfErr, OnOk};
ghost use Rattle.row_tables.specs.Names.{mailbox_named};
ghost use Rattle.row_tables.specs.declared.change.RowChange.TheVariants.{UpdateMailbox};
ghost use Rattle.row_store.specs.Kept.{IfContents};
ghost use Rattle.mail_world.specs.Worlds.{World};
ghost use Rattle.mail_world.specs.Names.{is_inbox, is_mailbox_name, is_renamed};
ghost use Rattle.mail_world.specs.Changes.{Absent, BadName, Exists, Rename};
ghost use Rattle.mail_stands.specs.Stands.{Stands};
ghost use Rattle.mail_stands.specs.Renaming.{is_long, with_new_name};
ghost use Rattle.mailbox_core.specs.Calls.{Behaves, Makes};
ghost use Rattle.mailbox_core.specs.Faults.{RefusesFor};
ghost use Rattle.mailbox_core.specs.Renaming.{ChecksRename, IsTested, PlansNoRename, PlansRename, Renames};

use crate::MailFault;
use crate::finishing::finish;
use crate::names::{canonical_name, is_mailbox_name};
use crate::new_names::{has_mailbox, next_under, rest_of};
use disk_model::Disk;
use octets::Octets;
use row_store::RowStore;
use row_tables::{Mailbox, RowChange, Tables};
use std::alloc::{AllocError, Global};

// How many bytes a name may have.
const LONGEST_NAME: usize = 255;

// Renames a mailbox of a user other than INBOX, with all that are inferior to it: they keep their messages, their UIDs and their ids
// (RFC 3501 §6.3.5). A new name that is INBOX in any case is `INBOX`.
//
// Refused with `BadName` where no mailbox can have the new name, or that of one that is renamed would be too long, with `Absent`
// where the user has no such mailbox, and with `Exists` where the user has a mailbox of a new name. Looks at the user's mailboxes whose
// names begin with the name, once or twice, and costs one commit.
pub(crate) fn rename_other<D: Disk>(
    alloc: Global,
    store: &mut RowStore<D>,
    user: u32,
    from: &[u8],
    to: &[u8],
) -> Result<(), MailFault>
    requires usable { store.old.spent ≡ false }
    requires other { is_inbox from.now ≡ false }
    ensures makes { IfContents D.told store.old (λ content. (w : World) → Stands content store.old.tables w
        → Makes D.told result store.old store.new w (Rename user from.now to.now) tt) }
    ensures behaves { Behaves D.told result store.old store.new }
    ensures refuses { RefusesFor (BadName ∷ Absent ∷ Exists ∷ []) result }
{
    mail_stands::rename();
    store.is_settled();
    store.tables().are_whole();
    match plan_rename(alloc, store.tables(), user, from, canonical_name(to)) {
        Ok(changes) => finish(store, changes, ()),
        Err(fault) => Err(fault),
    }
}

// Gives all mailboxes that are renamed their new names, if none of them is too long or taken.
fn plan_rename(
    alloc: Global,
    tables: &Tables,
    owner: u32,
    from: &[u8],
    to: &[u8],
) -> Result<Vec<RowChange>, MailFault>
    ensures plan { IfOk result (λ changes. PlansRename tables.now owner from.now to.now changes.items) }
    ensures none { IfErr result (PlansNoRename tables.now owner from.now to.now) }
{
    if !is_mailbox_name(to) {
        return Err(MailFault::BadName);
    }
    match tables.mailbox_named(owner, from) {
        Some(first) => plan_from(alloc, tables, owner, from, to, first),
        None => Err(MailFault::Absent),
    }
}

// The same where the new name is one, and the user has the mailbox. Takes no memory before nothing is refused.
fn plan_from(
    alloc: Global,
    tables: &Tables,
    owner: u32,
    from: &[u8],
    to: &[u8],
    first: &Mailbox,
) -> Result<Vec<RowChange>, MailFault>
    requires proper { is_mailbox_name to.now ≡ true }
    requires first { mailbox_named owner from.now tables.now.heads.mailboxes ≡ Some first.now }
    ensures plan { IfOk result (λ changes. PlansRename tables.now owner from.now to.now changes.items) }
    ensures none { IfErr result (PlansNoRename tables.now owner from.now to.now) }
{
    check(tables, owner, from, to, first)?;
    let changes = renamings(alloc, tables, owner, from, to, first)?;
    Ok(changes)
}

// Whether a new name is too long or taken.
fn check(
    tables: &Tables,
    owner: u32,
    from: &[u8],
    to: &[u8],
    first: &Mailbox,
) -> Result<(), MailFault>
    requires proper { is_mailbox_name to.now ≡ true }
    requires first { mailbox_named owner from.now tables.now.heads.mailboxes ≡ Some first.now }
    ensures { ChecksRename tables.now owner from.now to.now result }
{
    let mut are_taken = false;
    let mut next = Some(first);
    'rows: while let Some(row) = next {
        let is_taken = takes_name(tables, owner, from, to, row)?;
        are_taken = are_taken || is_taken;
        next = next_under(tables, owner, from, row.name.as_slice());
    }
    if are_taken {
        Err(MailFault::Exists)
    } else {
        Ok(())
    }
}

// Whether a mailbox is renamed to a name that its user has. Fails where the new name would be too long.
fn takes_name(
    tables: &Tables,
    owner: u32,
    from: &[u8],
    to: &[u8],
    row: &Mailbox,
) -> Result<bool, MailFault>
    requires { is_mailbox_name to.now ≡ true }
    ensures { MatchResult result (IsTested tables.now owner from.now to.now row.now)
        (λ fault. (fault ≡ MailFault.BadName) × (is_renamed from.now row.now.name ≡ true) × (is_long from.now to.now row.now ≡ true)) }
{
    let Some(rest) = rest_of(from, row.name.as_slice()) else {
        return Ok(false);
    };
    if rest.len() > LONGEST_NAME - to.len() {
        return Err(MailFault::BadName);
    }
    Ok(has_mailbox(tables, owner, to, rest))
}

// The changes that give all mailboxes that are renamed their new names.
fn renamings(
    alloc: Global,
    tables: &Tables,
    owner: u32,
    from: &[u8],
    to: &[u8],
    first: &Mailbox,
) -> Result<Vec<RowChange>, AllocError>
    requires { mailbox_named owner from.now tables.now.heads.mailboxes ≡ Some first.now }
    ensures { IfOk result (λ changes. Renames tables.now owner from.now to.now changes.items) }
{
    let mut changes = Vec::new(alloc);
    let mut next = Some(first);
    'rows: while let Some(row) = next {
        push_renaming(alloc, &mut changes, from, to, row)?;
        next = next_under(tables, owner, from, row.name.as_slice());
    }
    Ok(changes)
}

// Adds the change that gives a mailbox its new name, if it is renamed.
fn push_renaming(
    alloc: Global,
    changes: &mut Vec<RowChange>,
    from: &[u8],
    to: &[u8],
    row: &Mailbox,
) -> Result<(), AllocError>
    ensures { OnOk result (changes.new.items ≡ changes.old.items ++ (if is_renamed from.now row.now.name then UpdateMailbox (with_new_name from.now to.now row.now) ∷ [] else [])) }
{
    match rest_of(from, row.name.as_slice()) {
        Some(rest) => {
            let new = with_name(alloc, row, to, rest)?;
            changes.push(RowChange::UpdateMailbox(new))?;
            Ok(())
        }
        None => Ok(()),
    }
}

// A mailbox with a new name, in two parts.
fn with_name(alloc: Global, row: &Mailbox, front: &[u8], rest: &[u8]) -> Result<Mailbox, AllocError>
    ensures { IfOk result (λ new. new ≡ record row.now { name = front.now ++ rest.now }) }
{
    let mut name = front.to_vec(alloc)?;
    name.extend_from_slice(rest)?;
    Ok(Mailbox {
        id: row.id,
        owner: row.owner,
        name: Octets::new(name),
        uidnext: row.uidnext,
        first_recent: row.first_recent,
        highest: row.highest,
    })
}

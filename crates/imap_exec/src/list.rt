//! LIST and LSUB (RFC 3501 §6.3.8, §6.3.9).

ghost use Rattle.std.specs.Prelude.{◌≡◌, ◌++◌, ◌∷◌, [], List, false, true, IfOk, OnOk};
ghost use Rattle.row_store.specs.Kept.{IfContents};
ghost use Rattle.session_view.specs.Parts.{state_of};
ghost use Rattle.mail_world.specs.Worlds.{World};
ghost use Rattle.mail_world.specs.Listing.{names_of};
ghost use Rattle.mail_stands.specs.Stands.{Stands};
ghost use Rattle.imap_steps.specs.Listing.{list, list_lines, list_name, told_names};
ghost use Rattle.imap_steps.specs.Executing.{of_user};
ghost use Rattle.imap_exec.specs.Ready.{IsReady};
ghost use Rattle.imap_exec.specs.Does.{Executes};

use crate::lines::{complete, refuse};
use crate::users::user_of;
use disk_model::Disk;
use imap_steps::Outcome;
use imap_writer::{Refusal, push_list};
use mailbox_core::Listed;
use octets::Octets;
use row_store::{RowStore, StoreFault};
use session_view::Sessions;
use std::alloc::{AllocError, Global};

// LIST, or LSUB where `subscribed`, of a session that is authenticated.
pub(crate) fn list<D: Disk>(
    alloc: Global,
    store: &RowStore<D>,
    sessions: &Sessions,
    number: u32,
    answer: &mut Vec<u8>,
    tag: &[u8],
    reference: &Octets,
    name: &Octets,
    subscribed: bool,
) -> Result<Outcome, StoreFault>
    requires ready { IsReady store.now sessions.now }
    ensures { Executes D.told result store.now store.now sessions.now sessions.now answer.old.items answer.new.items
        (λ shared. of_user shared tag.now (state_of number shared.parts) (λ user. list shared user tag.now reference.now name.now subscribed)) }
{
    match user_of(sessions, number) {
        Some(user) => list_for(
            alloc, store, sessions, answer, tag, reference, name, subscribed, user,
        ),
        None => refuse(alloc, answer, tag, Refusal::State),
    }
}

// The same of a user.
fn list_for<D: Disk>(
    alloc: Global,
    store: &RowStore<D>,
    sessions: &Sessions,
    answer: &mut Vec<u8>,
    tag: &[u8],
    reference: &Octets,
    name: &Octets,
    subscribed: bool,
    user: u32,
) -> Result<Outcome, StoreFault>
    requires ready { IsReady store.now sessions.now }
    ensures { Executes D.told result store.now store.now sessions.now sessions.now answer.old.items answer.new.items
        (λ shared. list shared user tag.now reference.now name.now subscribed) }
{
    tell_names(
        alloc,
        store,
        answer,
        reference.as_slice(),
        name.as_slice(),
        subscribed,
        user,
    )?;
    complete(alloc, answer, tag, list_name(subscribed))
}

fn list_name(subscribed: bool) -> &'static [u8]
    ensures { result.now ≡ list_name subscribed }
{
    if subscribed { b"LSUB" } else { b"LIST" }
}

// The lines of a user's names, or that of what stands between levels where the name is empty.
fn tell_names<D: Disk>(
    alloc: Global,
    store: &RowStore<D>,
    answer: &mut Vec<u8>,
    reference: &[u8],
    name: &[u8],
    subscribed: bool,
    user: u32,
) -> Result<(), AllocError>
    requires usable { store.now.spent ≡ false }
    ensures { IfContents D.told store.now (λ content. (w : World) → Stands content store.now.tables w
        → OnOk result (answer.new.items ≡ answer.old.items ++ list_lines subscribed (told_names reference.now name.now (names_of subscribed user w)))) }
{
    if name.is_empty() {
        tell_separator(answer, subscribed)
    } else {
        let pattern = joined(alloc, reference, name)?;
        let all = mailbox_core::list(alloc, store, user, &pattern, subscribed)?;
        tell_all(answer, subscribed, &all)
    }
}

// The line that tells what stands between levels.
fn tell_separator(answer: &mut Vec<u8>, subscribed: bool) -> Result<(), AllocError>
    ensures { OnOk result (answer.new.items ≡ answer.old.items ++ list_lines subscribed (record { name = []; noselect = true } ∷ [])) }
{
    push_list(answer, subscribed, false, b"")
}

fn joined(alloc: Global, reference: &[u8], name: &[u8]) -> Result<Vec<u8>, AllocError>
    ensures { IfOk result (λ pattern. pattern.items ≡ reference.now ++ name.now) }
{
    let mut pattern = Vec::with_capacity(alloc, reference.len().saturating_add(name.len()))?;
    pattern.extend_from_slice(reference)?;
    pattern.extend_from_slice(name)?;
    Ok(pattern)
}

fn tell_all(answer: &mut Vec<u8>, subscribed: bool, all: &[Listed]) -> Result<(), AllocError>
    ensures { OnOk result (answer.new.items ≡ answer.old.items ++ list_lines subscribed all.now) }
{
    'all: for its in all {
        push_list(answer, subscribed, !its.noselect, its.name.as_slice())?;
    }
    Ok(())
}

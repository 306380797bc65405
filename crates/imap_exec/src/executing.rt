//! What a command does.

ghost use Rattle.std.specs.Prelude.{Ok};
ghost use Rattle.session_view.specs.Parts.{state_of};
ghost use Rattle.imap_steps.specs.Executing.{commanded, executed};
ghost use Rattle.imap_exec.specs.Ready.{IsReady};
ghost use Rattle.imap_exec.specs.Does.{Executes};

use crate::append::append;
use crate::authenticate::authenticate;
use crate::create::create;
use crate::delete::delete;
use crate::fetch::fetch;
use crate::lines::complete;
use crate::list::list;
use crate::login::login;
use crate::rename::rename;
use crate::select::select;
use crate::simple::{capability, check, logout, unserved};
use crate::status::status;
use crate::store::store_flags;
use crate::subscribe::{subscribe, unsubscribe};
use disk_model::Disk;
use imap_grammar::{Command, Tagged};
use imap_steps::Outcome;
use row_store::{RowStore, StoreFault};
use session_view::Sessions;
use std::alloc::Global;

/// Carries out a command of the session of a number, whose last byte came so many seconds after 1970, and adds its answer.
pub fn execute<D: Disk>(
    alloc: Global,
    store: &mut RowStore<D>,
    sessions: &mut Sessions,
    number: u32,
    tagged: &Tagged,
    now: u64,
    answer: &mut Vec<u8>,
) -> Result<Outcome, StoreFault>
    requires ready { IsReady store.old sessions.old }
    ensures { Executes D.told result store.old store.new sessions.old sessions.new answer.old.items answer.new.items
        (λ shared. executed shared number (Ok tagged.now) now) }
{
    execute_tagged(
        alloc,
        store,
        sessions,
        number,
        tagged.tag.as_slice(),
        &tagged.command,
        now,
        answer,
    )
}

// The same with the tag and the command apart.
fn execute_tagged<D: Disk>(
    alloc: Global,
    store: &mut RowStore<D>,
    sessions: &mut Sessions,
    number: u32,
    tag: &[u8],
    command: &Command,
    now: u64,
    answer: &mut Vec<u8>,
) -> Result<Outcome, StoreFault>
    requires ready { IsReady store.old sessions.old }
    ensures { Executes D.told result store.old store.new sessions.old sessions.new answer.old.items answer.new.items
        (λ shared. commanded shared number (state_of number shared.parts) tag.now command.now now) }
{
    match command {
        Command::Capability => capability(alloc, answer, tag),
        Command::Noop => complete(alloc, answer, tag, b"NOOP"),
        Command::Logout => logout(alloc, answer, tag),
        Command::Check => check(alloc, sessions, number, answer, tag),
        Command::Login { name, password } => login(
            alloc,
            store,
            sessions,
            number,
            answer,
            tag,
            name.as_slice(),
            password.as_slice(),
        ),
        Command::Authenticate(mechanism) => {
            authenticate(alloc, sessions, number, answer, tag, mechanism)
        }
        Command::Create(name) => create(alloc, store, sessions, number, answer, tag, name),
        Command::Delete(name) => delete(alloc, store, sessions, number, answer, tag, name),
        Command::Subscribe(name) => subscribe(alloc, store, sessions, number, answer, tag, name),
        Command::Unsubscribe(name) => {
            unsubscribe(alloc, store, sessions, number, answer, tag, name)
        }
        Command::Status { name, items } => {
            status(alloc, store, sessions, number, answer, tag, name, items)
        }
        Command::Rename { from, to } => {
            rename(alloc, store, sessions, number, answer, tag, from, to)
        }
        Command::List {
            reference,
            name,
            subscribed,
        } => list(
            alloc,
            store,
            sessions,
            number,
            answer,
            tag,
            reference,
            name,
            *subscribed,
        ),
        Command::Select {
            name,
            examine,
            condstore,
            resync,
        } => select(
            alloc, store, sessions, number, answer, tag, name, *examine, *condstore, resync,
        ),
        Command::Append {
            name,
            flags,
            stamp,
            text,
        } => append(
            alloc, store, sessions, number, answer, tag, name, flags, stamp, text, now,
        ),
        Command::Fetch {
            by_uid,
            set,
            items,
            changed_since,
            vanished,
        } => fetch(
            alloc,
            store,
            sessions,
            number,
            answer,
            tag,
            *by_uid,
            set,
            items,
            *changed_since,
            *vanished,
        ),
        Command::Store {
            by_uid,
            set,
            unchanged_since,
            how,
            silent,
            flags,
        } => store_flags(
            alloc,
            store,
            sessions,
            number,
            answer,
            tag,
            *by_uid,
            set,
            *unchanged_since,
            *how,
            *silent,
            flags,
        ),
        _ => unserved(alloc, answer, tag),
    }
}

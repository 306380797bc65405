//! The numbers of a mailbox that isn't selected.

ghost use Rattle.std.specs.Prelude.{◌≡◌, ◌<◌, ◌≤◌, ◌+◌, ◌^◌, nat_le, is_some, length, filter, count_by, if◌then◌else◌, false, Some};
ghost use Rattle.std.specs.List.{AllByRecursion, range_with_len};
ghost use Rattle.ordered_rows.specs.Listed.{row_at};
ghost use Rattle.row_tables.specs.Keys.{mailbox_message_key, uid_key};
ghost use Rattle.row_tables.specs.References.{HasMailbox, uids_of};
ghost use Rattle.row_store.specs.Kept.{IfContents};
ghost use Rattle.mail_world.specs.Worlds.{World, Mailbox as WorldMailbox, mailbox_at};
ghost use Rattle.mail_stands.specs.Stands.{Stands};
ghost use Rattle.mailbox_core.specs.Statuses.{IsRowStatus, IsStatus, told, unseen_uids};
ghost use Rattle.mailbox_core.specs.SummaryRows.{flagged_uids};

use crate::numbers::Status;
use crate::unseen::next_flagged;
use disk_model::Disk;
use mail_stands::{mailbox_rows, message_uids};
use ordered_rows::Numbered;
use ordered_rows::laws::{insertion, keys, rows_at_keys};
use row_store::RowStore;
use row_tables::{FlagName, FlagRow, Mailbox, RowCount, Tables};

/// The numbers of a mailbox, which is there. Changes nothing, and calls no disk. Costs a look-up, and one for each UID that was given
/// since a session took the recent messages; where it has fewer messages than these, a walk over its UIDs. Where the unseen messages are
/// to be counted, the rows of its messages' flags are walked over too.
pub fn status<D: Disk>(store: &RowStore<D>, mailbox: u32, with_unseen: bool) -> Status
    requires usable { store.now.spent ≡ false }
    requires there { HasMailbox store.now.tables mailbox }
    ensures { IfContents D.told store.now (λ content. (w : World) → Stands content store.now.tables w
        → (m : WorldMailbox) → mailbox_at mailbox w.mailboxes ≡ Some m → IsStatus with_unseen result m) }
{
    mailbox_rows();
    message_uids();
    keys();
    insertion::<FlagName>();
    rows_at_keys::<FlagRow>();
    let tables = store.tables();
    tables.are_whole();
    status_in(tables, mailbox, with_unseen)
}

// The same of the rows of tables.
fn status_in(tables: &Tables, mailbox: u32, with_unseen: bool) -> Status
    requires { HasMailbox tables.now mailbox }
    ensures { IsRowStatus tables.now mailbox with_unseen result }
{
    let Some(row) = tables.mailboxes_row(mailbox) else {
        unreachable!()
    };
    let messages = told(tables.entry_count(mailbox));
    let recent = told(recent_count(tables, mailbox, row));
    let unseen = told(unseen_if(tables, mailbox, with_unseen));
    Status {
        messages,
        recent,
        uidnext: row.uidnext,
        uidvalidity: mailbox,
        unseen,
        highest: row.highest,
    }
}

// A count as it is told.
fn told(count: u64) -> u32
    ensures { result ≡ told count }
{
    u32::try_from(count).unwrap_or(u32::MAX)
}

// How many messages of a mailbox no session was told of as recent, where all UIDs are below the next one. Those that were given since
// are looked up, unless there are more of them than messages.
fn recent_count(tables: &Tables, mailbox: u32, row: &Mailbox) -> u64
    ensures { AllByRecursion (λ uid. uid < row.now.uidnext) (uids_of mailbox tables.now.marks.mailbox_messages)
        → result ≡ length (filter (λ uid. nat_le row.now.first_recent uid) (uids_of mailbox tables.now.marks.mailbox_messages)) }
{
    let _ = tables.uids(mailbox);
    let given = row.uidnext.saturating_sub(row.first_recent);
    if u64::from(given) <= tables.entry_count(mailbox) {
        count_within(tables, mailbox, row.first_recent, given)
    } else {
        count_from(tables, mailbox, row.first_recent)
    }
}

// How many of so many UIDs from one on are those of messages.
fn count_within(tables: &Tables, mailbox: u32, first: u32, given: u32) -> u64
    requires { first + given < 2 ^ 32 }
    ensures { result ≡ count_by (λ uid. is_some (row_at mailbox_message_key (uid_key mailbox uid) tables.now.marks.mailbox_messages)) (range_with_len first given) }
{
    let mut rows = RowCount::new();
    let mut count = 0;
    let mut passed = 0;
    'uids: while passed < given {
        count += found_at(tables, mailbox, first + passed, &mut rows);
        passed += 1;
    }
    count
}

// 1 where a UID is that of a message, else 0.
fn found_at(tables: &Tables, mailbox: u32, uid: u32, rows: &mut RowCount) -> u64
    ensures { result ≡ (if is_some (row_at mailbox_message_key (uid_key mailbox uid) tables.now.marks.mailbox_messages) then 1 else 0) }
{
    match tables.mailbox_row(mailbox, uid, rows) {
        Some(_) => 1,
        None => 0,
    }
}

// How many messages of a mailbox have UIDs from one on.
fn count_from(tables: &Tables, mailbox: u32, first: u32) -> u64
    ensures { result ≡ length (filter (λ uid. nat_le first uid) (uids_of mailbox tables.now.marks.mailbox_messages)) }
{
    let _ = tables.entry_count(mailbox);
    let mut count = 0;
    let mut left = tables.uids(mailbox);
    'left: while let Some(uid) = left.next() {
        if first <= uid {
            count += 1;
        }
    }
    count
}

// How many messages of a mailbox have no row with `\Seen`, if that is asked for.
fn unseen_if(tables: &Tables, mailbox: u32, with_unseen: bool) -> u64
    ensures { result ≡ (if with_unseen then length (unseen_uids tables.now mailbox) else 0) }
{
    if with_unseen {
        unseen_count(tables, mailbox)
    } else {
        0
    }
}

// How many messages of a mailbox have no row with `\Seen`: all but those that have one.
fn unseen_count(tables: &Tables, mailbox: u32) -> u64
    ensures { result ≡ length (unseen_uids tables.now mailbox) }
{
    keys();
    tables.are_whole();
    let _ = tables.uids(mailbox);
    let all = tables.entry_count(mailbox);
    match tables.flag_name_id(b"\\Seen") {
        Some(seen) => all_but(all, tables.flags_of(mailbox), seen),
        None => all,
    }
}

// A number less that of the rows with a flag.
fn all_but(all: u64, flags: Numbered<'_, FlagRow>, flag: u64) -> u64
    requires { length (flagged_uids flag flags) ≤ all }
    ensures { result + length (flagged_uids flag flags.entry) ≡ all }
{
    let mut flags = flags;
    let mut left = all;
    'flags: while let Some(_uid) = next_flagged(&mut flags, flag) {
        left -= 1;
    }
    left
}

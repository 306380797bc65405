//! Messages that are appended to mailboxes.

ghost use Rattle.std.specs.Prelude.{◌≡◌, ◌∷◌, [], ℕ, true, false, List, IfErr};
ghost use Rattle.std.specs.List.{list_all};
ghost use Rattle.date_grammar.specs.Stamps.{HasPrint};
ghost use Rattle.imap_grammar.specs.declared.flags.Flag.{Flag};
ghost use Rattle.row_tables.specs.References.{HasMailbox};
ghost use Rattle.row_tables.specs.declared.heads.Mailbox.{Mailbox as Head};
ghost use Rattle.ordered_rows.specs.RowKey.{number_key};
ghost use Rattle.ordered_rows.specs.Listed.{row_at};
ghost use Rattle.row_tables.specs.Keys.{mailbox_key};
ghost use Rattle.row_store.specs.Kept.{IfContents};
ghost use Rattle.mail_world.specs.Worlds.{World};
ghost use Rattle.mail_world.specs.Changes.{Append, Full, NoUid};
ghost use Rattle.mail_world.specs.Applying.{apply};
ghost use Rattle.mail_stands.specs.Stands.{Stands};
ghost use Rattle.mailbox_core.specs.Calls.{Behaves, IsMade, Makes};
ghost use Rattle.mailbox_core.specs.Faults.{IsOutage, RefusesFor};
ghost use Rattle.mailbox_core.specs.Messages.{AreProper, IsMail, next_uid};
ghost use Rattle.mailbox_core.specs.Appending.{PlansArrival};

use crate::MailFault;
use crate::arrivals::{Arrival, arrival_changes, plan_arrival};
use crate::finishing::{finish, told_as};
use date_grammar::Stamp;
use disk_model::Disk;
use imap_grammar::Flag;
use mime_tree::Mail;
use ordered_rows::laws::new_number;
use row_store::RowStore;
use row_store::laws::placed_bodies_stay_placed;
use row_tables::MessageRow;
use std::alloc::{AllocError, Global};

/// Appends a message to a mailbox, which is there, with flags, of which each counts once, and a date, and answers its UID (RFC 3501
/// §6.3.11). Where it is `taken`, a session is told of it as recent, and no other is (RFC 3501 §2.3.2).
///
/// Each flag is one that a message may have, the date has a print, and the mail was read or stands for a text that can't be.
///
/// Refused with `Full` where the mailbox has 100,000 messages or no mod-sequence is left, or where there are more than 30 flags, and
/// with `NoUid` where it has given its last UID. Costs O(log n) over n rows, what the rows of the mail cost, a step for each pair of
/// flags that are named, and one commit.
pub fn append<D: Disk>(
    alloc: Global,
    store: &mut RowStore<D>,
    mailbox: u32,
    flags: &[Flag],
    stamp: Stamp,
    mail: &Mail,
    taken: bool,
) -> Result<u32, MailFault>
    requires usable { store.old.spent ≡ false }
    requires fresh { store.old.placed ≡ [] }
    requires there { HasMailbox store.old.tables mailbox }
    requires flags { AreProper flags.now }
    requires date { HasPrint stamp }
    requires mail { IsMail mail.now }
    ensures makes { IfContents D.told store.old (λ content. (w : World) → Stands content store.old.tables w
        → Makes D.told result store.old store.new w (Append mailbox flags.now stamp mail.now taken) (next_uid w mailbox)) }
    ensures behaves { Behaves D.told result store.old store.new }
    ensures refuses { RefusesFor (Full ∷ NoUid ∷ []) result }
{
    mail_stands::append();
    mail_stands::mailbox_rows();
    store.is_settled();
    store.tables().are_whole();
    match plan_arrival(alloc, store.tables(), mailbox, flags) {
        Ok(arrival) => append_planned(alloc, store, arrival, stamp, mail, taken),
        Err(fault) => Err(fault),
    }
}

// Appends a message that is planned, and answers its UID.
fn append_planned<D: Disk>(
    alloc: Global,
    store: &mut RowStore<D>,
    arrival: Arrival,
    stamp: Stamp,
    mail: &Mail,
    taken: bool,
) -> Result<u32, MailFault>
    requires usable { store.old.spent ≡ false }
    requires fresh { store.old.placed ≡ [] }
    requires planned { (id : ℕ) × (flags : List Flag) × PlansArrival store.old.tables id flags arrival.row arrival.ids.items arrival.names.items }
    requires date { HasPrint stamp }
    requires mail { IsMail mail.now }
    ensures behaves { Behaves D.told result store.old store.new }
    ensures made { IfContents D.told store.old (λ content. (w : World) (id : ℕ) (flags : List Flag) → Stands content store.old.tables w
        → PlansArrival store.old.tables id flags arrival.row arrival.ids.items arrival.names.items
        → IsMade D.told result store.old store.new w (apply w (Append id flags stamp mail.now taken)) arrival.row.uidnext) }
    ensures outage { IfErr result IsOutage }
{
    mail_stands::append();
    placed_bodies_stay_placed();
    new_number::<MessageRow>();
    store.is_settled();
    store.tables().are_whole();
    let uid = arrival.row.uidnext;
    match shredder::rows_of(alloc, mail, store) {
        Ok((message, rows)) => match arrival_changes(alloc, rows, arrival, message, stamp, taken) {
            Ok(changes) => finish(store, changes, uid),
            Err(AllocError) => Err(MailFault::NoMemory),
        },
        Err(fault) => Err(told_as(fault)),
    }
}

//! Laws of a mail that comes into several INBOXes at once, each the contract of a function that does nothing.

ghost use Rattle.std.specs.Prelude.{◌≡◌, ℕ, List, [], Some, None};
ghost use Rattle.std.specs.Option.{option_map};
ghost use Rattle.date_grammar.specs.declared.parts.Stamp.{Stamp};
ghost use Rattle.date_grammar.specs.Stamps.{HasPrint};
ghost use Rattle.mime_tree.specs.declared.reasons.Mail.{Mail};
ghost use Rattle.ordered_rows.specs.RowKey.{number_key};
ghost use Rattle.ordered_rows.specs.Listed.{row_at};
ghost use Rattle.row_tables.specs.Keys.{mailbox_key, mailbox_message_key, uid_key};
ghost use Rattle.row_tables.specs.Names.{mailbox_named};
ghost use Rattle.row_tables.specs.TableRows.{TableRows};
ghost use Rattle.row_tables.specs.Fits.{CanRun, IsText, Runs};
ghost use Rattle.row_tables.specs.declared.heads.Mailbox.{Mailbox as Head};
ghost use Rattle.row_tables.specs.declared.contents.BodyPart.{BodyPart};
ghost use Rattle.row_tables.specs.declared.change.RowChange.{RowChange};
ghost use Rattle.mail_world.specs.Names.{inbox};
ghost use Rattle.mail_world.specs.Worlds.{World};
ghost use Rattle.mail_world.specs.Changes.{Deliver};
ghost use Rattle.mail_world.specs.Applying.{apply};
ghost use Rattle.mail_stands.specs.Stands.{AreWhole, Stands};
ghost use Rattle.mail_stands.specs.Leading.{KeepsOwners, Leads};
ghost use Rattle.mail_stands.specs.Delivering.{AreAll, AreReceivers, BringsMail, deliver_changes, open_inbox, uid_for};

use mail_world::stores_stay_legal;
use ordered_rows::laws::{insertion, keys, row_after_replace};
use row_tables::laws::changes_have_one_end;
use row_tables::{FlagName, FlagRow, Mailbox, MailboxMessage};

/// A mail that is delivered to users. Over any tables the changes can be made where no INBOX that gets it has a message with its next
/// UID, as is so of all that stand for a world; and no mailbox goes to another owner.
pub fn deliver()
    ensures uids { (content : BodyPart → List ℕ) (t : TableRows) (world : World) (user : ℕ) → AreWhole t → Stands content t world
        → option_map (λ row. row.uidnext) (open_inbox t user) ≡ uid_for world user }
    ensures free { (content : BodyPart → List ℕ) (t : TableRows) (world : World) (user : ℕ) (row : Head) → AreWhole t → Stands content t world
        → mailbox_named user inbox t.heads.mailboxes ≡ Some row
        → IsText row.name × (row_at mailbox_message_key (uid_key row.id row.uidnext) t.marks.mailbox_messages ≡ None) }
    ensures leads { (content : BodyPart → List ℕ) (t : TableRows) (world : World) (users : List ℕ) (date : Stamp) (mail : Mail) (taken : List ℕ)
        (message : ℕ) (rows : List RowChange) (heads : List Head) → AreWhole t → Stands content t world → HasPrint date → AreReceivers t users heads → AreAll t users heads
        → BringsMail content t mail message rows → Leads content t (deliver_changes rows heads message date taken) (apply world (Deliver users mail date taken)) }
    ensures stays { (content : BodyPart → List ℕ) (t : TableRows) (world : World) (users : List ℕ) (date : Stamp) (mail : Mail) (taken : List ℕ)
        → AreWhole t → Stands content t world → AreAll t users [] → apply world (Deliver users mail date taken) ≡ world }
    ensures fit { (content : BodyPart → List ℕ) (t : TableRows) (users : List ℕ) (date : Stamp) (mail : Mail) (taken : List ℕ) (message : ℕ) (rows : List RowChange)
        (heads : List Head) → AreWhole t → AreReceivers t users heads → BringsMail content t mail message rows
        → CanRun t (deliver_changes rows heads message date taken) }
    ensures owners { (content : BodyPart → List ℕ) (t after : TableRows) (users : List ℕ) (date : Stamp) (mail : Mail) (taken : List ℕ) (message : ℕ)
        (rows : List RowChange) (heads : List Head) → AreWhole t → AreReceivers t users heads → BringsMail content t mail message rows
        → Runs t (deliver_changes rows heads message date taken) after → KeepsOwners t after }
{
    keys();
    insertion::<Mailbox>();
    insertion::<MailboxMessage>();
    insertion::<FlagRow>();
    insertion::<FlagName>();
    row_after_replace::<Mailbox>();
    changes_have_one_end();
    stores_stay_legal();
}

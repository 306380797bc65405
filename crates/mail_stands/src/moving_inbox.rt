//! Laws of messages that INBOX hands to a new mailbox.

ghost use Rattle.std.specs.Prelude.{◌≡◌, ℕ, List, None, Some, true};
ghost use Rattle.row_tables.specs.Names.{mailbox_named};
ghost use Rattle.row_tables.specs.TableRows.{TableRows};
ghost use Rattle.row_tables.specs.Fits.{CanRun, Runs};
ghost use Rattle.row_tables.specs.declared.contents.BodyPart.{BodyPart};
ghost use Rattle.row_tables.specs.declared.heads.Mailbox.{Mailbox as Head};
ghost use Rattle.mail_world.specs.Worlds.{World};
ghost use Rattle.mail_world.specs.Names.{inbox, is_inbox, mailbox_name};
ghost use Rattle.mail_world.specs.Changes.{Rename};
ghost use Rattle.mail_world.specs.Applying.{apply, refused};
ghost use Rattle.mail_stands.specs.Stands.{AreWhole, Stands};
ghost use Rattle.mail_stands.specs.Leading.{KeepsOwners, Leads};
ghost use Rattle.mail_stands.specs.MovingInbox.{CanMove, rename_inbox_changes, rename_inbox_refused};

use mail_world::stores_stay_legal;
use ordered_rows::laws::{insertion, keys, row_after_remove, row_after_replace, rows_at_keys};
use row_tables::laws::changes_have_one_end;
use row_tables::{DeletedMessage, FlagRow, Mailbox, MailboxMessage};

/// INBOX, which its user renames: its messages go to a new mailbox (RFC 3501 §6.3.5). Over any tables the changes can be made where
/// what they ask is so, as it is of all that stand for a world, and no mailbox goes to another owner.
pub fn rename_inbox()
    ensures refusal { (content : BodyPart → List ℕ) (t : TableRows) (world : World) (owner : ℕ) (from to : List ℕ) → AreWhole t → Stands content t world
        → is_inbox from ≡ true → rename_inbox_refused t owner (mailbox_name to) ≡ refused world (Rename owner from to) }
    ensures can { (content : BodyPart → List ℕ) (t : TableRows) (world : World) (owner : ℕ) (to : List ℕ) (row : Head) → AreWhole t → Stands content t world
        → mailbox_named owner inbox t.heads.mailboxes ≡ Some row → rename_inbox_refused t owner to ≡ None → CanMove t to row }
    ensures leads { (content : BodyPart → List ℕ) (t : TableRows) (world : World) (owner : ℕ) (from to : List ℕ) (row : Head) → AreWhole t → Stands content t world
        → is_inbox from ≡ true → mailbox_named owner inbox t.heads.mailboxes ≡ Some row → rename_inbox_refused t owner (mailbox_name to) ≡ None
        → Leads content t (rename_inbox_changes t (mailbox_name to) row) (apply world (Rename owner from to)) }
    ensures fit { (t : TableRows) (to : List ℕ) (row : Head) → AreWhole t → CanMove t to row → CanRun t (rename_inbox_changes t to row) }
    ensures owners { (t after : TableRows) (to : List ℕ) (row : Head) → AreWhole t → CanMove t to row
        → Runs t (rename_inbox_changes t to row) after → KeepsOwners t after }
{
    keys();
    insertion::<Mailbox>();
    insertion::<MailboxMessage>();
    insertion::<FlagRow>();
    insertion::<DeletedMessage>();
    row_after_remove::<MailboxMessage>();
    row_after_remove::<FlagRow>();
    row_after_replace::<Mailbox>();
    rows_at_keys::<MailboxMessage>();
    rows_at_keys::<FlagRow>();
    changes_have_one_end();
    stores_stay_legal();
}

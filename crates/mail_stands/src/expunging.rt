//! Laws of messages that are expunged, each the contract of a function that does nothing.

ghost use Rattle.std.specs.Prelude.{◌≡◌, ℕ, true, false, List, None, Some};
ghost use Rattle.std.specs.List.{list_any};
ghost use Rattle.std.specs.List.Sorted.{IsStrictlySortedBy};
ghost use Rattle.std.specs.Ordering.{nat_cmp};
ghost use Rattle.ordered_rows.specs.RowKey.{number_key};
ghost use Rattle.ordered_rows.specs.Listed.{row_at};
ghost use Rattle.row_tables.specs.Keys.{mailbox_key};
ghost use Rattle.row_tables.specs.TableRows.{TableRows};
ghost use Rattle.row_tables.specs.Fits.{CanRun, IsText, Runs};
ghost use Rattle.row_tables.specs.declared.heads.Mailbox.{Mailbox as Head};
ghost use Rattle.row_tables.specs.declared.contents.BodyPart.{BodyPart};
ghost use Rattle.mail_world.specs.Worlds.{World};
ghost use Rattle.mail_world.specs.Changes.{Expunge};
ghost use Rattle.mail_world.specs.Applying.{apply, refused};
ghost use Rattle.mail_stands.specs.Stands.{AreWhole, Stands};
ghost use Rattle.mail_stands.specs.Leading.{KeepsOwners, Leads};
ghost use Rattle.mail_stands.specs.Storing.{is_there};
ghost use Rattle.mail_stands.specs.Expunging.{AreNotGone, expunge_changes, expunge_refused, there_of};

use mail_world::stores_stay_legal;
use ordered_rows::laws::{insertion, keys, row_after_remove, row_after_replace, rows_at_keys};
use row_tables::laws::changes_have_one_end;
use row_tables::{DeletedMessage, FlagRow, Mailbox, MailboxMessage};

/// Messages of a mailbox that are expunged by their UIDs, of which those are passed over that no message has; the world stays where
/// none has one. Over any tables the changes can be made where none of the messages is a gone one too, as is so of all tables that
/// stand for a world; and no mailbox goes to another owner.
pub fn expunge()
    ensures refusal { (content : BodyPart → List ℕ) (t : TableRows) (world : World) (id : ℕ) (uids : List ℕ)
        → AreWhole t → Stands content t world → expunge_refused t id uids ≡ refused world (Expunge id uids) }
    ensures apart { (content : BodyPart → List ℕ) (t : TableRows) (world : World) (id : ℕ) (row : Head) (uids : List ℕ) → Stands content t world
        → row_at mailbox_key (number_key id) t.heads.mailboxes ≡ Some row → AreNotGone t id (there_of t id uids) }
    ensures leads { (content : BodyPart → List ℕ) (t : TableRows) (world : World) (id : ℕ) (row : Head) (uids : List ℕ) → AreWhole t → Stands content t world
        → row_at mailbox_key (number_key id) t.heads.mailboxes ≡ Some row → IsStrictlySortedBy nat_cmp uids → list_any (is_there t id) uids ≡ true
        → expunge_refused t id uids ≡ None → Leads content t (expunge_changes t row (there_of t id uids)) (apply world (Expunge id uids)) }
    ensures stays { (content : BodyPart → List ℕ) (t : TableRows) (world : World) (id : ℕ) (uids : List ℕ)
        → AreWhole t → Stands content t world → list_any (is_there t id) uids ≡ false → apply world (Expunge id uids) ≡ world }
    ensures fit { (t : TableRows) (id : ℕ) (row : Head) (uids : List ℕ) → AreWhole t → IsText row.name → row_at mailbox_key (number_key id) t.heads.mailboxes ≡ Some row
        → IsStrictlySortedBy nat_cmp uids → AreNotGone t id (there_of t id uids) → CanRun t (expunge_changes t row (there_of t id uids)) }
    ensures owners { (t after : TableRows) (id : ℕ) (row : Head) (uids : List ℕ) → AreWhole t → IsText row.name → row_at mailbox_key (number_key id) t.heads.mailboxes ≡ Some row
        → IsStrictlySortedBy nat_cmp uids → AreNotGone t id (there_of t id uids) → Runs t (expunge_changes t row (there_of t id uids)) after → KeepsOwners t after }
{
    keys();
    insertion::<DeletedMessage>();
    row_after_remove::<MailboxMessage>();
    row_after_remove::<FlagRow>();
    row_after_replace::<Mailbox>();
    rows_at_keys::<FlagRow>();
    changes_have_one_end();
    stores_stay_legal();
}

//! Laws of flags that are stored, each the contract of a function that does nothing.

ghost use Rattle.std.specs.Prelude.{◌≡◌, ℕ, true, false, List, None, Some};
ghost use Rattle.std.specs.List.{list_any};
ghost use Rattle.imap_grammar.specs.declared.flags.Flag.{Flag};
ghost use Rattle.imap_grammar.specs.declared.flags.FlagChange.{FlagChange};
ghost use Rattle.ordered_rows.specs.RowKey.{number_key};
ghost use Rattle.ordered_rows.specs.Listed.{row_at};
ghost use Rattle.row_tables.specs.Keys.{mailbox_key};
ghost use Rattle.row_tables.specs.TableRows.{TableRows};
ghost use Rattle.row_tables.specs.Fits.{CanRun, IsText, Runs};
ghost use Rattle.row_tables.specs.declared.heads.Mailbox.{Mailbox as Head};
ghost use Rattle.row_tables.specs.declared.contents.BodyPart.{BodyPart};
ghost use Rattle.row_tables.specs.declared.change.RowChange.{RowChange};
ghost use Rattle.mail_world.specs.Worlds.{World};
ghost use Rattle.mail_world.specs.Changes.{StoreFlags};
ghost use Rattle.mail_world.specs.Applying.{apply, refused};
ghost use Rattle.mail_stands.specs.Stands.{AreWhole, Stands};
ghost use Rattle.mail_stands.specs.Leading.{KeepsOwners, Leads};
ghost use Rattle.mail_stands.specs.Flagging.{NamesFlags};
ghost use Rattle.mail_stands.specs.Storing.{AreStorable, given, is_changed, store_changes, store_refused};

use mail_world::stores_stay_legal;
use ordered_rows::laws::{insertion, keys, row_after_remove, row_after_replace};
use row_tables::laws::{changes_have_one_end, changes_keep_references};
use row_tables::{FlagName, FlagRow, Mailbox, MailboxMessage};

/// Flags that are stored for messages of a mailbox; the world stays where no message's flags change. Over any tables the changes can
/// be made where the mailbox is there, and no mailbox goes to another owner.
pub fn store_flags()
    ensures refusal { (content : BodyPart → List ℕ) (t : TableRows) (world : World) (id : ℕ) (uids : List ℕ) (how : FlagChange) (flags : List Flag)
        → AreWhole t → Stands content t world → AreStorable uids flags → store_refused t id uids how flags ≡ refused world (StoreFlags id uids how flags) }
    ensures leads { (content : BodyPart → List ℕ) (t : TableRows) (world : World) (id : ℕ) (row : Head) (uids : List ℕ) (how : FlagChange) (flags : List Flag)
        (ids : List ℕ) (names : List RowChange) → AreWhole t → Stands content t world → row_at mailbox_key (number_key id) t.heads.mailboxes ≡ Some row
        → AreStorable uids flags → NamesFlags t.marks (given how flags) ids names → list_any (is_changed t id how flags) uids ≡ true
        → store_refused t id uids how flags ≡ None
        → Leads content t (store_changes t row uids how flags ids names) (apply world (StoreFlags id uids how flags)) }
    ensures stays { (content : BodyPart → List ℕ) (t : TableRows) (world : World) (id : ℕ) (uids : List ℕ) (how : FlagChange) (flags : List Flag)
        → AreWhole t → Stands content t world → AreStorable uids flags → list_any (is_changed t id how flags) uids ≡ false
        → apply world (StoreFlags id uids how flags) ≡ world }
    ensures fit { (t : TableRows) (id : ℕ) (row : Head) (uids : List ℕ) (how : FlagChange) (flags : List Flag) (ids : List ℕ) (names : List RowChange)
        → AreWhole t → IsText row.name → row_at mailbox_key (number_key id) t.heads.mailboxes ≡ Some row → AreStorable uids flags
        → NamesFlags t.marks (given how flags) ids names → CanRun t (store_changes t row uids how flags ids names) }
    ensures owners { (t after : TableRows) (id : ℕ) (row : Head) (uids : List ℕ) (how : FlagChange) (flags : List Flag) (ids : List ℕ) (names : List RowChange)
        → AreWhole t → IsText row.name → row_at mailbox_key (number_key id) t.heads.mailboxes ≡ Some row → AreStorable uids flags
        → NamesFlags t.marks (given how flags) ids names → Runs t (store_changes t row uids how flags ids names) after → KeepsOwners t after }
{
    keys();
    insertion::<FlagRow>();
    insertion::<FlagName>();
    row_after_remove::<FlagRow>();
    row_after_replace::<MailboxMessage>();
    row_after_replace::<Mailbox>();
    changes_keep_references();
    changes_have_one_end();
    stores_stay_legal();
}

//! Laws of what tables stand for, each the contract of a function that does nothing.

ghost use Rattle.std.specs.Prelude.{◌≡◌, ◌+◌, ℕ, List, None, Some, length};
ghost use Rattle.std.specs.Option.{option_map};
ghost use Rattle.ordered_rows.specs.RowKey.{number_key};
ghost use Rattle.ordered_rows.specs.Listed.{row_at};
ghost use Rattle.row_tables.specs.Keys.{mailbox_key, mailbox_message_key, uid_key, user_key};
ghost use Rattle.row_tables.specs.Names as names;
ghost use Rattle.row_tables.specs.TableRows.{TableRows, no_rows};
ghost use Rattle.row_tables.specs.References.{AreClosed, HasMailbox, HasSubscription, HasUser};
ghost use Rattle.row_tables.specs.declared.heads.Mailbox.{Mailbox as Head};
ghost use Rattle.row_tables.specs.Fits.{CanRun, IsText, Runs};
ghost use Rattle.row_tables.specs.declared.contents.BodyPart.{BodyPart};
ghost use Rattle.row_store.specs.Holding.{stored_by};
ghost use Rattle.mail_world.specs.Worlds.{World, mailbox_at, mailbox_named, no_world, user_at};
ghost use Rattle.mail_world.specs.Names.{created_name, mailbox_name};
ghost use Rattle.mail_world.specs.Changes.{AddUser, Create, Delete, Subscribe, TakeRecents, Unsubscribe};
ghost use Rattle.mail_world.specs.Applying.{apply, refused};
ghost use Rattle.mail_stands.specs.Facts.{IsEntryRow, Tied, entry_in};
ghost use Rattle.mail_stands.specs.Stands.{Stands};
ghost use Rattle.mail_stands.specs.Leading.{KeepsOthers, KeepsOwners, Leads};
ghost use Rattle.mail_stands.specs.Sameness.{IsSameWorld};
ghost use Rattle.mail_stands.specs.Refusals as refusals;
ghost use Rattle.mail_stands.specs.RowChanges.{add_user_changes, create_changes, delete_changes, recents_changes, subscribe_changes, unsubscribe_changes};

use mail_world::stores_stay_legal;
use ordered_rows::laws::{insertion, keys, row_after_remove, row_after_replace};
use rebuilder::law_one_mail;
use row_tables::{Mailbox, User};

/// Tables as they are made stand for the store as it is made.
pub fn no_rows_stand()
    ensures { (content : BodyPart → List ℕ) → Stands content no_rows no_world }
{
    stores_stay_legal();
}

/// The row of a user, by the id or by the name, is the user of the world.
pub fn user_rows()
    ensures at { (content : BodyPart → List ℕ) (t : TableRows) (world : World) (id : ℕ) → Stands content t world
        → row_at user_key (number_key id) t.heads.users ≡ user_at id world.users }
    ensures named { (content : BodyPart → List ℕ) (t : TableRows) (world : World) (name : List ℕ) → Stands content t world
        → names.user_named name t.heads.users ≡ names.user_named name world.users }
{}

/// The row of a mailbox, by the id or by owner and name, is the head of the mailbox of the world.
pub fn mailbox_rows()
    ensures at { (content : BodyPart → List ℕ) (t : TableRows) (world : World) (id : ℕ) → Stands content t world
        → row_at mailbox_key (number_key id) t.heads.mailboxes ≡ option_map (λ mailbox. mailbox.head) (mailbox_at id world.mailboxes) }
    ensures named { (content : BodyPart → List ℕ) (t : TableRows) (world : World) (owner : ℕ) (name : List ℕ) → Stands content t world
        → names.mailbox_named owner name t.heads.mailboxes ≡ option_map (λ mailbox. mailbox.head) (mailbox_named owner name world.mailboxes) }
{}

/// The row of a message, by the mailbox and the UID, is the entry of the world, and the rows of its mail are those that the store has.
pub fn entry_rows()
    ensures { (content : BodyPart → List ℕ) (t : TableRows) (world : World) (id uid : ℕ) → Stands content t world
        → Tied (IsEntryRow (stored_by content t)) (row_at mailbox_message_key (uid_key id uid) t.marks.mailbox_messages) (entry_in id uid world.mailboxes) }
{}

/// A user that is added, with the user's INBOX. Over any tables the rows can be inserted where their ids are new, and no mailbox goes
/// to another owner.
pub fn add_user()
    ensures refusal { (content : BodyPart → List ℕ) (t : TableRows) (world : World) (name verifier : List ℕ) → Stands content t world
        → refusals.add_user_refused t name ≡ refused world (AddUser name verifier) }
    ensures leads { (content : BodyPart → List ℕ) (t : TableRows) (world : World) (name verifier : List ℕ) → Stands content t world
        → refusals.add_user_refused t name ≡ None → Leads content t (add_user_changes t name verifier) (apply world (AddUser name verifier)) }
    ensures fit { (t : TableRows) (name verifier : List ℕ) → IsText name → row_at user_key (number_key (length t.heads.users + 1)) t.heads.users ≡ None
        → row_at mailbox_key (number_key t.heads.counters.next) t.heads.mailboxes ≡ None → CanRun t (add_user_changes t name verifier) }
    ensures owners { (t after : TableRows) (name verifier : List ℕ) → Runs t (add_user_changes t name verifier) after → KeepsOwners t after }
{
    keys();
    insertion::<User>();
    insertion::<Mailbox>();
    stores_stay_legal();
}

/// A mailbox that a user makes. Over any tables the rows can be inserted where the user is there and the id is new, and no mailbox
/// goes to another owner.
pub fn create()
    ensures refusal { (content : BodyPart → List ℕ) (t : TableRows) (world : World) (owner : ℕ) (name : List ℕ) → Stands content t world
        → refusals.create_refused t owner (created_name name) ≡ refused world (Create owner name) }
    ensures leads { (content : BodyPart → List ℕ) (t : TableRows) (world : World) (owner : ℕ) (name : List ℕ) → Stands content t world → HasUser t owner
        → refusals.create_refused t owner (created_name name) ≡ None → Leads content t (create_changes t owner (created_name name)) (apply world (Create owner name)) }
    ensures fit { (t : TableRows) (owner : ℕ) (name : List ℕ) → IsText name → HasUser t owner
        → row_at mailbox_key (number_key t.heads.counters.next) t.heads.mailboxes ≡ None → CanRun t (create_changes t owner name) }
    ensures owners { (t after : TableRows) (owner : ℕ) (name : List ℕ) → Runs t (create_changes t owner name) after → KeepsOwners t after }
{
    keys();
    insertion::<Mailbox>();
    stores_stay_legal();
}

/// The recent messages of a mailbox, which a session takes. Over any tables the row can be replaced, and its owner stays.
pub fn take_recents()
    ensures refusal { (content : BodyPart → List ℕ) (t : TableRows) (world : World) (id : ℕ) → Stands content t world
        → refusals.recents_refused t id ≡ refused world (TakeRecents id) }
    ensures leads { (content : BodyPart → List ℕ) (t : TableRows) (world : World) (id : ℕ) (row : Head) → AreClosed t → Stands content t world
        → row_at mailbox_key (number_key id) t.heads.mailboxes ≡ Some row → Leads content t (recents_changes row) (apply world (TakeRecents id)) }
    ensures fit { (t : TableRows) (id : ℕ) (row : Head) → AreClosed t → IsText row.name
        → row_at mailbox_key (number_key id) t.heads.mailboxes ≡ Some row → CanRun t (recents_changes row) }
    ensures owners { (t after : TableRows) (id : ℕ) (row : Head) → row_at mailbox_key (number_key id) t.heads.mailboxes ≡ Some row
        → Runs t (recents_changes row) after → KeepsOwners t after }
{
    keys();
    row_after_replace::<Mailbox>();
    stores_stay_legal();
}

/// A mailbox that its user deletes. Over any tables the row can be removed with all rows of the mailbox, and all users and all other
/// mailboxes stay.
pub fn delete()
    ensures refusal { (content : BodyPart → List ℕ) (t : TableRows) (world : World) (owner : ℕ) (name held : List ℕ) → Stands content t world
        → refusals.delete_refused t owner (mailbox_name name) held ≡ refused world (Delete owner name held) }
    ensures leads { (content : BodyPart → List ℕ) (t : TableRows) (world : World) (owner : ℕ) (name held : List ℕ) (row : Head) → Stands content t world
        → names.mailbox_named owner (mailbox_name name) t.heads.mailboxes ≡ Some row → refusals.delete_refused t owner (mailbox_name name) held ≡ None
        → Leads content t (delete_changes row) (apply world (Delete owner name held)) }
    ensures fit { (t : TableRows) (row : Head) → HasMailbox t row.id → CanRun t (delete_changes row) }
    ensures others { (t after : TableRows) (row : Head) → Runs t (delete_changes row) after → KeepsOthers row.id t after }
{
    keys();
    row_after_remove::<Mailbox>();
    stores_stay_legal();
}

/// A name of a mailbox that a user subscribes; nothing changes where it was subscribed. Over any tables the row can be inserted where
/// the user is there, and no mailbox goes to another owner.
pub fn subscribe()
    ensures refusal { (content : BodyPart → List ℕ) (t : TableRows) (world : World) (owner : ℕ) (name : List ℕ) → Stands content t world
        → refusals.subscribe_refused t owner (mailbox_name name) ≡ refused world (Subscribe owner name) }
    ensures leads { (content : BodyPart → List ℕ) (t : TableRows) (world : World) (owner : ℕ) (name : List ℕ) → AreClosed t → Stands content t world
        → refusals.subscribe_refused t owner (mailbox_name name) ≡ None
        → Leads content t (subscribe_changes t owner (mailbox_name name)) (apply world (Subscribe owner name)) }
    ensures fit { (t : TableRows) (owner : ℕ) (name : List ℕ) → IsText name → HasUser t owner → CanRun t (subscribe_changes t owner name) }
    ensures owners { (t after : TableRows) (owner : ℕ) (name : List ℕ) → Runs t (subscribe_changes t owner name) after → KeepsOwners t after }
{
    stores_stay_legal();
}

/// A name that a user unsubscribes. Over any tables the row can be removed where it is there, and no mailbox goes to another owner.
pub fn unsubscribe()
    ensures refusal { (content : BodyPart → List ℕ) (t : TableRows) (world : World) (owner : ℕ) (name : List ℕ) → Stands content t world
        → refusals.unsubscribe_refused t owner (mailbox_name name) ≡ refused world (Unsubscribe owner name) }
    ensures leads { (content : BodyPart → List ℕ) (t : TableRows) (world : World) (owner : ℕ) (name : List ℕ) → Stands content t world
        → refusals.unsubscribe_refused t owner (mailbox_name name) ≡ None
        → Leads content t (unsubscribe_changes owner (mailbox_name name)) (apply world (Unsubscribe owner name)) }
    ensures fit { (t : TableRows) (owner : ℕ) (name : List ℕ) → IsText name → HasSubscription t owner name → CanRun t (unsubscribe_changes owner name) }
    ensures owners { (t after : TableRows) (owner : ℕ) (name : List ℕ) → Runs t (unsubscribe_changes owner name) after → KeepsOwners t after }
{
    stores_stay_legal();
}

/// Tables stand for one world, up to the order of the flags of a message.
pub fn one_world()
    ensures { (content : BodyPart → List ℕ) (t : TableRows) (a b : World) → Stands content t a → Stands content t b → IsSameWorld a b }
{
    law_one_mail();
}

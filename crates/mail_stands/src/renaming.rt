//! Laws of mailboxes that get other names.

ghost use Rattle.std.specs.Prelude.{◌≡◌, ℕ, List, Option, false};
ghost use Rattle.row_tables.specs.TableRows.{TableRows};
ghost use Rattle.row_tables.specs.References.{AreClosed, AreOrdered};
ghost use Rattle.row_tables.specs.Fits.{CanRun, Runs};
ghost use Rattle.row_tables.specs.declared.contents.BodyPart.{BodyPart};
ghost use Rattle.row_tables.specs.declared.heads.Mailbox.{Mailbox as Head};
ghost use Rattle.mail_world.specs.Worlds.{World};
ghost use Rattle.mail_world.specs.Names.{is_inbox, mailbox_name};
ghost use Rattle.mail_world.specs.Changes.{Refusal, Rename};
ghost use Rattle.mail_world.specs.Applying.{apply, refused};
ghost use Rattle.mail_stands.specs.Stands.{Stands};
ghost use Rattle.mail_stands.specs.Leading.{KeepsOwners, Leads};
ghost use Rattle.mail_stands.specs.Renaming.{AreRenamed, CanRename, RefusesRename, rename_changes};

use mail_world::stores_stay_legal;
use ordered_rows::laws::{insertion, keys, row_after_replace};
use row_tables::Mailbox;

/// A mailbox other than INBOX that its user renames, with the mailboxes of inferior names. Over any tables the rows can be replaced,
/// in any order, and their owners stay.
pub fn rename()
    ensures refusal { (content : BodyPart → List ℕ) (t : TableRows) (world : World) (owner : ℕ) (from to : List ℕ) (refusal : Option Refusal) → Stands content t world
        → is_inbox from ≡ false → RefusesRename t owner from (mailbox_name to) refusal → refused world (Rename owner from to) ≡ refusal }
    ensures rows { (content : BodyPart → List ℕ) (t : TableRows) (world : World) (owner : ℕ) (from : List ℕ) → Stands content t world
        → (rows : List Head) × AreRenamed t owner from rows }
    ensures leads { (content : BodyPart → List ℕ) (t : TableRows) (world : World) (owner : ℕ) (from to : List ℕ) (rows : List Head) → AreOrdered t → AreClosed t → Stands content t world
        → is_inbox from ≡ false → CanRename t owner from (mailbox_name to) → AreRenamed t owner from rows
        → Leads content t (rename_changes from (mailbox_name to) rows) (apply world (Rename owner from to)) }
    ensures fit { (t : TableRows) (owner : ℕ) (from to : List ℕ) (rows : List Head) → AreOrdered t → AreClosed t → CanRename t owner from to → AreRenamed t owner from rows
        → CanRun t (rename_changes from to rows) }
    ensures owners { (t after : TableRows) (owner : ℕ) (from to : List ℕ) (rows : List Head) → AreOrdered t → AreRenamed t owner from rows
        → Runs t (rename_changes from to rows) after → KeepsOwners t after }
{
    keys();
    insertion::<Mailbox>();
    row_after_replace::<Mailbox>();
    stores_stay_legal();
}

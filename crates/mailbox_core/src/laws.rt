//! Laws of what a crash leaves, for the proofs of callers.

ghost use Rattle.std.specs.Prelude.{ℕ, List};
ghost use Rattle.disk_model.specs.declared.disk.Files.{Files};
ghost use Rattle.row_tables.specs.TableRows.{TableRows};
ghost use Rattle.row_tables.specs.declared.contents.BodyPart.{BodyPart};
ghost use Rattle.row_store.specs.ThreeFiles.{FileBytes, IfRead, IsJointImage, IsLeftSince, LogMoments};
ghost use Rattle.row_store.specs.Holding.{Holds, stored_by};
ghost use Rattle.mail_world.specs.Worlds.{World};
ghost use Rattle.mailbox_core.specs.Left.{HoldsWorld, Left, StandForOne};

use disk_model::Disk;
use row_store::laws::files_hold_one_thing;

/// What a crash leaves of a store, image by image.
pub fn images_stand<D: Disk>()
    ensures joint { (files : Files D) (since : LogMoments) (worlds : List World) → Left D.told files since worlds
        → IfRead D.told files (λ _. (image : FileBytes) → IsJointImage D.told files image → HoldsWorld image worlds) }
    ensures moments { (files : Files D) (since : LogMoments) (worlds : List World) → Left D.told files since worlds
        → IfRead D.told files (λ _. (image : FileBytes) → IsLeftSince D.told files since image → HoldsWorld image worlds) }
{}

/// Tables that are loaded from files stand for one of the worlds for which the files do.
pub fn loaded_tables_stand()
    ensures { (files : FileBytes) (worlds : List World) (content : BodyPart → List ℕ) (t : TableRows) → HoldsWorld files worlds
        → Holds files t (stored_by content t).contents → StandForOne content t worlds }
{
    files_hold_one_thing();
}

//! Laws of stores, for the proofs of callers.

ghost use Rattle.std.specs.Prelude.{◌≡◌, ◌++◌, ℕ, List, Option};
ghost use Rattle.disk_model.specs.declared.disk.Files.{Files};
ghost use Rattle.row_tables.specs.TableRows.{TableRows};
ghost use Rattle.row_tables.specs.declared.contents.BodyPart.{BodyPart};
ghost use Rattle.row_tables.specs.declared.change.RowChange.{RowChange};
ghost use Rattle.row_store.specs.ThreeFiles.{FileBytes, LogMoments, MakesAllSure};
ghost use Rattle.row_store.specs.Holding.{Stored, Holds};
ghost use Rattle.row_store.specs.Crashes.{Leaves};
ghost use Rattle.row_store.specs.Bodies.{ArePlaced};

use disk_model::Disk;
use redo_log::a_text_says_one_thing;
use row_codec::{encodings_differ, fitting_texts_have_lengths};
use row_tables::laws::changes_have_one_end;

/// What files hold is one thing: the tables and the contents are determined.
pub fn files_hold_one_thing()
    ensures tables { (files : FileBytes) (t u : TableRows) (c d : ℕ → Option (List ℕ)) → Holds files t c → Holds files u d → t ≡ u }
    ensures contents { (files : FileBytes) (t u : TableRows) (c d : ℕ → Option (List ℕ)) → Holds files t c → Holds files u d
        → (id : ℕ) → c id ≡ d id }
{
    a_text_says_one_thing();
    encodings_differ();
    fitting_texts_have_lengths();
    changes_have_one_end();
}

/// What is made sure of leaves no state that wasn't left before.
pub fn sure_files_leave_the_same<D: Disk>()
    ensures { (old new : Files D) (since : LogMoments) (states : List Stored) → MakesAllSure D.told old new
        → Leaves D.told old since states → Leaves D.told new since states }
{}

/// Bodies that were placed are placed beside others too, and for changes one list after the other.
pub fn placed_bodies_stay_placed()
    ensures more { (placed more : List BodyPart) (changes : List RowChange) → ArePlaced placed changes → ArePlaced (placed ++ more) changes }
    ensures both { (placed : List BodyPart) (changes others : List RowChange) → ArePlaced placed changes → ArePlaced placed others
        → ArePlaced placed (changes ++ others) }
{}

// Laws of rows, for the proofs of callers.
ghost use Rattle.std.specs.Prelude.{◌≢◌, ◌<◌, ◌≤◌, ◌^◌, ℕ, List, length};
ghost use Rattle.mime_tree.specs.declared.reasons.Mail.{Mail};
ghost use Rattle.mime_reader.specs.Weights.{weight};
ghost use Rattle.mime_reader.specs.Wrapping.{mail};
ghost use Rattle.mime_tree.specs.Trees.{Tree};
ghost use Rattle.row_tables.specs.TableRows.{TableRows};
ghost use Rattle.row_tables.specs.declared.contents.BodyPart.{BodyPart};
ghost use Rattle.row_tables.specs.declared.change.RowChange.{RowChange};
ghost use Rattle.row_store.specs.Holding.{stored_by};
ghost use Rattle.shredder.specs.Fitting.{TreeFits};
ghost use Rattle.shredder.specs.MessageRows.{HasRows};
ghost use Rattle.shredder.specs.Making.{RowLaws};
ghost use Rattle.shredder.specs.Shredding.{Shreds};

use mime_reader::{law_reading, law_sizes};
use ordered_rows::laws::{insertion, keys};
use row_tables::laws::changes_keep_references;
use row_tables::{
    AddressField, AddressRow, BodyPart, DateField, FieldName, HeaderField, MessageId, MessageRow,
    PartNumber, UnparsedMessage,
};

/// What was a message before the changes of another is the same message after them.
pub fn law_other_messages_stay()
    ensures { (content : BodyPart → List ℕ) (t : TableRows) (message : ℕ) (mail : Mail) (changes : List RowChange)
        (shreds : Shreds content t message mail changes) (other : ℕ) (its : Mail) → other ≢ message → HasRows (stored_by content t) other its
        → HasRows (stored_by content shreds.after) other its }
{}

/// A message has rows where all its bytes, fields, items, ids and parts together are fewer than 2^30; so what is kept of at most
/// 2^27 bytes has rows.
pub fn law_mails_fit()
    ensures light { (tree : Tree) → weight tree < 2 ^ 30 → TreeFits tree }
    ensures kept { (bytes : List ℕ) (now : ℕ) → length bytes ≤ 2 ^ 27 → TreeFits (mail bytes now).message }
{
    law_sizes();
    law_reading();
}

// The laws of all tables.
pub(crate) fn row_laws()
    ensures { RowLaws }
{
    keys();
    insertion::<MessageRow>();
    insertion::<PartNumber>();
    insertion::<HeaderField>();
    insertion::<AddressField>();
    insertion::<DateField>();
    insertion::<MessageId>();
    insertion::<UnparsedMessage>();
    insertion::<BodyPart>();
    insertion::<FieldName>();
    insertion::<AddressRow>();
    changes_keep_references();
}

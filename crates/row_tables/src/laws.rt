// Laws of changes, for the proofs of callers.
ghost use Rattle.std.specs.Prelude.{◌≡◌, ◌++◌, ◌∷◌, [], ℕ, List, None};
ghost use Rattle.std.specs.List.{AllByRecursion};
ghost use Rattle.ordered_rows.specs.RowKey.{number_key};
ghost use Rattle.ordered_rows.specs.Listed.{row_at};
ghost use Rattle.row_tables.specs.Keys.{message_key};
ghost use Rattle.row_tables.specs.Fits.{CanRun, Fits, Runs, applied};
ghost use Rattle.row_tables.specs.InTurn.{AreFlags, AreNewEntries, AreNewFlags, AreNewGone, ArePlainEntries, entry_insertions, entry_removals, flag_insertions, flag_removals, gone_insertions};
ghost use Rattle.row_tables.specs.declared.marks.MailboxMessage.{MailboxMessage};
ghost use Rattle.row_tables.specs.declared.marks.DeletedMessage.{DeletedMessage};
ghost use Rattle.row_tables.specs.References.{AreClosed, AreOrdered, HasFlagName, HasMailbox, HasMailboxMessage, IsUnknown};
ghost use Rattle.row_tables.specs.TableRows.{TableRows};
ghost use Rattle.row_tables.specs.declared.change.RowChange.{RowChange};

use crate::contents::{AddressRow, BodyPart, FieldName};
use crate::heads::{Mailbox, Subscription, User};
use crate::mails::{HeaderField, MessageRow, PartNumber, UnparsedMessage};
use crate::marks::{DeletedMessage, FlagName, FlagRow, MailboxMessage};
use crate::values::{AddressField, DateField, MessageId};
use ordered_rows::laws::{
    insertion, keys, order_after_replace, row_after_remove, row_after_replace,
};

/// A change that fits keeps the tables in order, and each row that a row refers to is there after it where it was so before.
pub fn changes_keep_references()
    ensures order { (t : TableRows) (change : RowChange) → AreOrdered t → Fits t change → AreOrdered (applied t change) }
    ensures closed { (t : TableRows) (change : RowChange) → AreClosed t → Fits t change → AreClosed (applied t change) }
{
    keys();
    insertion::<User>();
    insertion::<Mailbox>();
    insertion::<MessageRow>();
    insertion::<MailboxMessage>();
    insertion::<DeletedMessage>();
    insertion::<FlagName>();
    insertion::<FlagRow>();
    insertion::<BodyPart>();
    insertion::<PartNumber>();
    insertion::<FieldName>();
    insertion::<HeaderField>();
    insertion::<AddressRow>();
    insertion::<AddressField>();
    insertion::<DateField>();
    insertion::<MessageId>();
    insertion::<UnparsedMessage>();
    insertion::<Subscription>();
    row_after_replace::<Mailbox>();
    row_after_replace::<MailboxMessage>();
    order_after_replace::<Mailbox>();
    order_after_replace::<MailboxMessage>();
    row_after_remove::<Mailbox>();
    row_after_remove::<MailboxMessage>();
}

/// A message that isn't there has no row in the tables of its parts, fields and values.
pub fn message_is_unknown()
    ensures { (t : TableRows) (message : ℕ) → AreClosed t → row_at message_key (number_key message) t.mails.messages ≡ None
        → IsUnknown message t }
{}

/// Changes that fit one after another make the same tables whenever they are made.
pub fn changes_have_one_end()
    ensures { (t : TableRows) (changes : List RowChange) (after other : TableRows) → Runs t changes after → Runs t changes other
        → after ≡ other }
{}

/// Changes that run after others run with them as one list.
pub fn changes_in_turn()
    ensures { (t middle after : TableRows) (first rest : List RowChange) → Runs t first middle → Runs middle rest after
        → Runs t (first ++ rest) after }
{}

/// Flags for a message that a mailbox has can be inserted one after another, over any tables, where their names are there, the
/// message has none of them, and none comes twice.
pub fn flags_can_run()
    ensures { (t : TableRows) (mailbox uid : ℕ) (flags : List ℕ) → HasMailbox t mailbox → HasMailboxMessage t mailbox uid
        → AllByRecursion (HasFlagName t) flags → AreNewFlags t mailbox uid flags → CanRun t (flag_insertions mailbox uid flags) }
{
    insertion::<FlagRow>();
}

/// A change that fits runs alone.
pub fn change_runs_alone()
    ensures { (t : TableRows) (change : RowChange) → Fits t change → Runs t (change ∷ []) (applied t change) }
{}

/// Flags that a message of a mailbox has can be taken out one after another, over any tables, where none comes twice.
pub fn flag_removals_can_run()
    ensures { (t : TableRows) (mailbox uid : ℕ) (flags : List ℕ) → AreFlags t mailbox uid flags
        → CanRun t (flag_removals mailbox uid flags) }
{
    row_after_remove::<FlagRow>();
}

/// UIDs that are gone can be inserted one after another, over any tables, where their mailboxes are there, the rows aren't, and no
/// two are the same.
pub fn gone_can_run()
    ensures { (t : TableRows) (rows : List DeletedMessage) → AreNewGone t rows → CanRun t (gone_insertions rows) }
{
    insertion::<DeletedMessage>();
}

/// Messages can be put into mailboxes one after another, over any tables, where what their rows refer to is there, the rows aren't,
/// and no two are the same.
pub fn entries_can_run()
    ensures { (t : TableRows) (rows : List MailboxMessage) → AreNewEntries t rows → CanRun t (entry_insertions rows) }
{
    insertion::<MailboxMessage>();
}

/// Messages that a mailbox has, and that have no flags, can be taken from it one after another, over any tables, where none comes
/// twice.
pub fn entry_removals_can_run()
    ensures { (t : TableRows) (mailbox : ℕ) (uids : List ℕ) → ArePlainEntries t mailbox uids
        → CanRun t (entry_removals mailbox uids) }
{
    row_after_remove::<MailboxMessage>();
}

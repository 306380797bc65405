//! Laws of messages that come into mailboxes, each the contract of a function that does nothing.

ghost use Rattle.std.specs.Prelude.{◌≡◌, ◌≤◌, ℕ, Bool, true, List, [], map, None, Some};
ghost use Rattle.std.specs.List.{AllByRecursion, list_all};
ghost use Rattle.date_grammar.specs.declared.parts.Stamp.{Stamp};
ghost use Rattle.imap_grammar.specs.declared.flags.Flag.{Flag};
ghost use Rattle.imap_grammar.specs.Flags.{flag_text};
ghost use Rattle.mime_tree.specs.declared.reasons.Mail.{Mail};
ghost use Rattle.ordered_rows.specs.RowKey.{number_key};
ghost use Rattle.ordered_rows.specs.Listed.{IsInOrder, row_at, rows_from};
ghost use Rattle.row_tables.specs.Keys.{flag_name_key, mailbox_key, mailbox_message_key, uid_key};
ghost use Rattle.row_tables.specs.TableRows.{MarkRows, TableRows};
ghost use Rattle.row_tables.specs.References.{uids_of};
ghost use Rattle.row_tables.specs.Fits.{CanRun, IsText, Runs};
ghost use Rattle.row_tables.specs.declared.heads.Mailbox.{Mailbox as Head};
ghost use Rattle.row_tables.specs.declared.marks.FlagName.{FlagName as FlagNameRow};
ghost use Rattle.row_tables.specs.declared.contents.BodyPart.{BodyPart};
ghost use Rattle.row_tables.specs.declared.change.RowChange.{RowChange};
ghost use Rattle.mail_world.specs.Flags.{distinct, is_flag};
ghost use Rattle.mail_world.specs.Worlds.{Mailbox as WorldMailbox, World, mailbox_at};
ghost use Rattle.mail_world.specs.Changes.{Append};
ghost use Rattle.mail_world.specs.Applying.{apply, refused};
ghost use Rattle.mail_world.specs.Legal.{IsProper};
ghost use Rattle.mail_stands.specs.Stands.{AreWhole, Stands};
ghost use Rattle.mail_stands.specs.Leading.{KeepsOwners, Leads};
ghost use Rattle.mail_stands.specs.Flagging.{NamesFlags};
ghost use Rattle.mail_stands.specs.Naming.{Differ, flag_ids, flag_namings};
ghost use Rattle.mail_stands.specs.Arriving.{Brings, append_changes, append_refused};

use mail_world::stores_stay_legal;
use ordered_rows::laws::{insertion, keys, row_after_replace};
use row_tables::laws::{changes_have_one_end, changes_keep_references};
use row_tables::{FlagName, FlagRow, Mailbox, MailboxMessage};

/// The UIDs of the rows of a mailbox are those of its messages.
pub fn message_uids()
    ensures { (content : BodyPart → List ℕ) (t : TableRows) (world : World) (id : ℕ) (mailbox : WorldMailbox) → AreWhole t → Stands content t world
        → mailbox_at id world.mailboxes ≡ Some mailbox → uids_of id t.marks.mailbox_messages ≡ map (λ entry. entry.uid) mailbox.entries }
{
    keys();
}

/// Names that are added for flags which have none, under ids that are counted from one on which no row has, nor any above it.
/// Flags are written differently where each of them is named once.
pub fn names_grow()
    ensures named { (marks : MarkRows) (next : ℕ) (flags : List Flag) → IsInOrder flag_name_key marks.flag_names
        → ((id : ℕ) → next ≤ id → row_at flag_name_key (number_key id) marks.flag_names ≡ None)
        → Differ flags → AllByRecursion (λ flag. IsText (flag_text flag)) flags
        → NamesFlags marks flags (flag_ids next marks.flag_names flags) (flag_namings next marks.flag_names flags) }
    ensures free { (names : List FlagNameRow) (next id : ℕ) → rows_from flag_name_key (number_key next) names ≡ [] → next ≤ id
        → row_at flag_name_key (number_key id) names ≡ None }
    ensures differ { (flags : List Flag) → list_all is_flag flags ≡ true → Differ (distinct flags) }
{
    keys();
    insertion::<FlagName>();
}

/// A message that is appended to a mailbox. Over any tables the changes can be made where the mailbox has no message with its next
/// UID, as is so of all that stand for a world; and no mailbox goes to another owner.
pub fn append()
    ensures refusal { (content : BodyPart → List ℕ) (t : TableRows) (world : World) (id : ℕ) (flags : List Flag) (date : Stamp) (mail : Mail) (taken : Bool)
        → AreWhole t → Stands content t world → append_refused t id flags ≡ refused world (Append id flags date mail taken) }
    ensures next { (content : BodyPart → List ℕ) (t : TableRows) (world : World) (id : ℕ) (row : Head) → Stands content t world
        → row_at mailbox_key (number_key id) t.heads.mailboxes ≡ Some row → row_at mailbox_message_key (uid_key id row.uidnext) t.marks.mailbox_messages ≡ None }
    ensures leads { (content : BodyPart → List ℕ) (t : TableRows) (world : World) (id : ℕ) (row : Head) (flags : List Flag) (date : Stamp) (mail : Mail) (taken : Bool)
        (message : ℕ) (rows : List RowChange) (ids : List ℕ) (names : List RowChange) → AreWhole t → Stands content t world
        → row_at mailbox_key (number_key id) t.heads.mailboxes ≡ Some row → append_refused t id flags ≡ None → IsProper world (Append id flags date mail taken)
        → Brings content t mail flags message rows ids names
        → Leads content t (append_changes rows names row message date ids taken) (apply world (Append id flags date mail taken)) }
    ensures fit { (content : BodyPart → List ℕ) (t : TableRows) (id : ℕ) (row : Head) (flags : List Flag) (date : Stamp) (mail : Mail) (taken : Bool)
        (message : ℕ) (rows : List RowChange) (ids : List ℕ) (names : List RowChange) → AreWhole t → IsText row.name
        → row_at mailbox_key (number_key id) t.heads.mailboxes ≡ Some row → row_at mailbox_message_key (uid_key id row.uidnext) t.marks.mailbox_messages ≡ None
        → list_all is_flag flags ≡ true → Brings content t mail flags message rows ids names → CanRun t (append_changes rows names row message date ids taken) }
    ensures owners { (content : BodyPart → List ℕ) (t after : TableRows) (id : ℕ) (row : Head) (flags : List Flag) (date : Stamp) (mail : Mail) (taken : Bool)
        (message : ℕ) (rows : List RowChange) (ids : List ℕ) (names : List RowChange) → row_at mailbox_key (number_key id) t.heads.mailboxes ≡ Some row
        → Brings content t mail flags message rows ids names → Runs t (append_changes rows names row message date ids taken) after → KeepsOwners t after }
{
    keys();
    insertion::<MailboxMessage>();
    insertion::<FlagRow>();
    insertion::<FlagName>();
    row_after_replace::<Mailbox>();
    changes_keep_references();
    changes_have_one_end();
    stores_stay_legal();
}

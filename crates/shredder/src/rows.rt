// The rows of a mail.
ghost use Rattle.std.specs.Prelude.{◌≡◌, ◌++◌, ◌∷◌, [], false, length, IfOk, OnOk, IsOk, IsErrOf};
ghost use Rattle.canon_writer.specs.Printing.{print};
ghost use Rattle.ordered_rows.specs.Listed.{IsNewNumber};
ghost use Rattle.row_tables.specs.Keys.{message_key};
ghost use Rattle.row_tables.specs.Fits.{CanRun};
ghost use Rattle.row_tables.specs.declared.change.RowChange.TheVariants.{InsertMessageRow};
ghost use Rattle.row_store.specs.Kept.{IfContents, KeepsState};
ghost use Rattle.row_store.specs.Bodies.{ArePlaced};
ghost use Rattle.row_store.specs.declared.faults.StoreFault.{StoreFault};
ghost use Rattle.shredder.specs.Fitting.{TreeFits};
ghost use Rattle.shredder.specs.MessageRows.{reason_number};
ghost use Rattle.shredder.specs.Making.{reason_changes};
ghost use Rattle.shredder.specs.Shredding.{Shreds};

use crate::laws::row_laws;
use crate::new_rows::NewRows;
use crate::trees::add_node;
use canon_writer::printed_size;
use disk_model::Disk;
use mime_tree::{Mail, Message, Reason};
use ordered_rows::laws::new_number;
use row_store::{RowStore, StoreFault};
use row_tables::laws::message_is_unknown;
use row_tables::{MessageRow, RowChange, Tables, UnparsedMessage};
use std::alloc::{AllocError, Global};

/// The id of a new message, and the changes that add its rows, which the next commit can make. Equal field names, addresses and
/// bodies share one row, with those that are there too; the bodies that no row has are placed. The changes insert the message first
/// and, where it could not be read, the reason; then each part with its body before its fields, each field before the rows of its
/// value, and a part before the parts within it. A row that is shared is inserted before the first that refers to it.
///
/// Each text, each path and each list in the message has at most 4,294,967,295 elements. Takes O(n log r) time for n bytes, fields,
/// items and parts over r rows.
pub fn rows_of<D: Disk>(
    alloc: Global,
    mail: &Mail,
    store: &mut RowStore<D>,
) -> Result<(u64, Vec<RowChange>), StoreFault>
    requires fits { TreeFits mail.now.message }
    requires usable { store.old.spent ≡ false }
    requires fresh { store.old.placed ≡ [] }
    ensures id { IfOk result (λ made. IsNewNumber message_key store.old.tables.mails.messages made.0) }
    ensures rows { IfContents D.told store.new (λ content. IfOk result (λ made. Shreds content store.old.tables made.0 mail.now made.1.items)) }
    ensures fit { IfOk result (λ made. CanRun store.old.tables made.1.items) }
    ensures placed { IfOk result (λ made. ArePlaced store.new.placed made.1.items) }
    ensures keeps { KeepsState D.told (IsOk result) (IsErrOf result StoreFault.Failed) store.old store.new }
    ensures untouched { store.new.files ≡ store.old.files }
{
    row_laws();
    new_number::<MessageRow>();
    message_is_unknown();
    store.is_settled();
    store.tables().are_whole();
    let (id, mut changes) = own_rows(alloc, mail, store.tables())?;
    let mut shared = NewRows::new(alloc, store.tables());
    add_node(
        alloc,
        &mut changes,
        &mut shared,
        id,
        b"",
        &mail.message,
        store,
    )?;
    Ok((id, changes))
}

// The id of a new message, and the changes that add the message and its reason.
fn own_rows(
    alloc: Global,
    mail: &Mail,
    tables: &Tables,
) -> Result<(u64, Vec<RowChange>), AllocError>
    ensures id { IfOk result (λ made. IsNewNumber message_key tables.now.mails.messages made.0) }
    ensures rows { IfOk result (λ made. made.1.items
        ≡ InsertMessageRow (record { id = made.0; size = length (print mail.now.message) }) ∷ reason_changes made.0 mail.now.reason) }
{
    let size = text_size(&mail.message)?;
    let id = tables.new_message_id();
    let mut changes = Vec::new(alloc);
    changes.push(RowChange::InsertMessageRow(MessageRow { id, size }))?;
    push_reason(&mut changes, id, mail.reason)?;
    Ok((id, changes))
}

// How long the canonical text is. No memory could hold a text whose length is no number of 64 bits.
fn text_size(message: &Message) -> Result<u64, AllocError>
    ensures { IfOk result (λ size. size ≡ length (print message.now)) }
{
    let size = printed_size(message);
    if size == usize::MAX {
        return Err(AllocError);
    }
    Ok(size as u64)
}

// Adds the row of the reason, if the message could not be read.
fn push_reason(
    changes: &mut Vec<RowChange>,
    message: u64,
    reason: Option<Reason>,
) -> Result<(), AllocError>
    ensures { OnOk result (changes.new.items ≡ changes.old.items ++ reason_changes message reason) }
{
    if let Some(reason) = reason {
        let reason = number(reason);
        changes.push(RowChange::InsertUnparsedMessage(UnparsedMessage { message, reason }))?;
    }
    Ok(())
}

// The number of a reason in the table.
fn number(reason: Reason) -> u8
    ensures { result ≡ reason_number reason }
{
    match reason {
        Reason::ZeroByte => 1,
        Reason::LoneReturn => 2,
        Reason::NoField => 3,
        Reason::LongHeader => 4,
        Reason::NoBoundary => 5,
        Reason::NoDelimiter => 6,
        Reason::TooDeep => 7,
        Reason::TooMany => 8,
    }
}

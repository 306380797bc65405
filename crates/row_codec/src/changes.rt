// One change.
ghost use Rattle.std.specs.Prelude.{◌≡◌, ◌++◌, OnOk, IfOk};
ghost use Rattle.row_codec.specs.Codec.{Reads};
ghost use Rattle.row_codec.specs.Encoding.{HasTexts, HasWidths, encoding_of};
ghost use Rattle.row_codec.specs.Reading.{read_insert, read_update, read_removal, read_change};

use crate::column::Column;
use crate::row::{self, write};
use row_tables::{
    AddressField, AddressRow, BodyPart, Counters, DateField, DeletedMessage, FieldName, FlagName,
    FlagRow, HeaderField, Mailbox, MailboxMessage, MessageId, MessageRow, PartNumber, RowChange,
    Subscription, UnparsedMessage, User,
};
use std::alloc::{AllocError, Global};

// Writes a change behind what is there.
pub(crate) fn write_change(change: &RowChange, out: &mut Vec<u8>) -> Result<(), AllocError>
    requires { HasTexts change.now }
    ensures written { OnOk result (out.new.items ≡ out.old.items ++ encoding_of change.now) }
    ensures widths { OnOk result (HasWidths change.now) }
{
    match change {
        RowChange::InsertUser(row) => write(1, 0, row, out),
        RowChange::UpdateUser(row) => write(1, 1, row, out),
        RowChange::RemoveUser(key) => write(1, 2, key, out),
        RowChange::InsertMailbox(row) => write(2, 0, row, out),
        RowChange::UpdateMailbox(row) => write(2, 1, row, out),
        RowChange::RemoveMailbox(key) => write(2, 2, key, out),
        RowChange::InsertMessageRow(row) => write(3, 0, row, out),
        RowChange::UpdateMessageRow(row) => write(3, 1, row, out),
        RowChange::RemoveMessageRow(key) => write(3, 2, key, out),
        RowChange::InsertMailboxMessage(row) => write(4, 0, row, out),
        RowChange::UpdateMailboxMessage(row) => write(4, 1, row, out),
        RowChange::RemoveMailboxMessage(key) => write(4, 2, key, out),
        RowChange::InsertDeletedMessage(row) => write(5, 0, row, out),
        RowChange::UpdateDeletedMessage(row) => write(5, 1, row, out),
        RowChange::RemoveDeletedMessage(key) => write(5, 2, key, out),
        RowChange::InsertFlagName(row) => write(6, 0, row, out),
        RowChange::UpdateFlagName(row) => write(6, 1, row, out),
        RowChange::RemoveFlagName(key) => write(6, 2, key, out),
        RowChange::InsertFlagRow(row) => write(7, 0, row, out),
        RowChange::UpdateFlagRow(row) => write(7, 1, row, out),
        RowChange::RemoveFlagRow(key) => write(7, 2, key, out),
        RowChange::InsertBodyPart(row) => write(8, 0, row, out),
        RowChange::UpdateBodyPart(row) => write(8, 1, row, out),
        RowChange::RemoveBodyPart(key) => write(8, 2, key, out),
        RowChange::InsertPartNumber(row) => write(9, 0, row, out),
        RowChange::UpdatePartNumber(row) => write(9, 1, row, out),
        RowChange::RemovePartNumber(key) => write(9, 2, key, out),
        RowChange::InsertFieldName(row) => write(10, 0, row, out),
        RowChange::UpdateFieldName(row) => write(10, 1, row, out),
        RowChange::RemoveFieldName(key) => write(10, 2, key, out),
        RowChange::InsertHeaderField(row) => write(11, 0, row, out),
        RowChange::UpdateHeaderField(row) => write(11, 1, row, out),
        RowChange::RemoveHeaderField(key) => write(11, 2, key, out),
        RowChange::InsertAddressRow(row) => write(12, 0, row, out),
        RowChange::UpdateAddressRow(row) => write(12, 1, row, out),
        RowChange::RemoveAddressRow(key) => write(12, 2, key, out),
        RowChange::InsertAddressField(row) => write(13, 0, row, out),
        RowChange::UpdateAddressField(row) => write(13, 1, row, out),
        RowChange::RemoveAddressField(key) => write(13, 2, key, out),
        RowChange::InsertDateField(row) => write(14, 0, row, out),
        RowChange::UpdateDateField(row) => write(14, 1, row, out),
        RowChange::RemoveDateField(key) => write(14, 2, key, out),
        RowChange::InsertMessageId(row) => write(15, 0, row, out),
        RowChange::UpdateMessageId(row) => write(15, 1, row, out),
        RowChange::RemoveMessageId(key) => write(15, 2, key, out),
        RowChange::InsertUnparsedMessage(row) => write(16, 0, row, out),
        RowChange::UpdateUnparsedMessage(row) => write(16, 1, row, out),
        RowChange::RemoveUnparsedMessage(key) => write(16, 2, key, out),
        RowChange::InsertSubscription(row) => write(17, 0, row, out),
        RowChange::UpdateSubscription(row) => write(17, 1, row, out),
        RowChange::RemoveSubscription(key) => write(17, 2, key, out),
        RowChange::InsertCounters(row) => write(18, 0, row, out),
        RowChange::UpdateCounters(row) => write(18, 1, row, out),
        RowChange::RemoveCounters(key) => write(18, 2, key, out),
        RowChange::DropMailbox(mailbox) => write(2, 3, mailbox, out),
    }
}

// The change at the front, and what follows it.
#[tactic(auto, unfolding(crate::specs::Reading::read_change))]
pub(crate) fn read_change(
    alloc: Global,
    bytes: &[u8],
) -> Result<Option<(RowChange, &[u8])>, AllocError>
    ensures { IfOk result (λ found. Reads (λ p. (p.0, p.1.now)) found (read_change bytes.now)) }
{
    match bytes {
        [table, 0, rest @ ..] => read_insert(alloc, *table, rest),
        [table, 1, rest @ ..] => read_update(alloc, *table, rest),
        [table, 2, rest @ ..] => read_removal(alloc, *table, rest),
        [2, 3, rest @ ..] => match u32::read_from(alloc, rest)? {
            Some((mailbox, rest)) => Ok(Some((RowChange::DropMailbox(mailbox), rest))),
            None => Ok(None),
        },
        _ => Ok(None),
    }
}

// The insert of a row of a table.
#[tactic(auto, unfolding(crate::specs::Reading::read_insert))]
fn read_insert(
    alloc: Global,
    table: u8,
    bytes: &[u8],
) -> Result<Option<(RowChange, &[u8])>, AllocError>
    ensures { IfOk result (λ found. Reads (λ p. (p.0, p.1.now)) found (read_insert table bytes.now)) }
{
    match table {
        1 => row::read_insertion::<User>(alloc, bytes),
        2 => row::read_insertion::<Mailbox>(alloc, bytes),
        3 => row::read_insertion::<MessageRow>(alloc, bytes),
        4 => row::read_insertion::<MailboxMessage>(alloc, bytes),
        5 => row::read_insertion::<DeletedMessage>(alloc, bytes),
        6 => row::read_insertion::<FlagName>(alloc, bytes),
        7 => row::read_insertion::<FlagRow>(alloc, bytes),
        8 => row::read_insertion::<BodyPart>(alloc, bytes),
        9 => row::read_insertion::<PartNumber>(alloc, bytes),
        10 => row::read_insertion::<FieldName>(alloc, bytes),
        11 => row::read_insertion::<HeaderField>(alloc, bytes),
        12 => row::read_insertion::<AddressRow>(alloc, bytes),
        13 => row::read_insertion::<AddressField>(alloc, bytes),
        14 => row::read_insertion::<DateField>(alloc, bytes),
        15 => row::read_insertion::<MessageId>(alloc, bytes),
        16 => row::read_insertion::<UnparsedMessage>(alloc, bytes),
        17 => row::read_insertion::<Subscription>(alloc, bytes),
        18 => row::read_insertion::<Counters>(alloc, bytes),
        _ => Ok(None),
    }
}

// The update of a row of a table.
#[tactic(auto, unfolding(crate::specs::Reading::read_update))]
fn read_update(
    alloc: Global,
    table: u8,
    bytes: &[u8],
) -> Result<Option<(RowChange, &[u8])>, AllocError>
    ensures { IfOk result (λ found. Reads (λ p. (p.0, p.1.now)) found (read_update table bytes.now)) }
{
    match table {
        1 => row::read_update::<User>(alloc, bytes),
        2 => row::read_update::<Mailbox>(alloc, bytes),
        3 => row::read_update::<MessageRow>(alloc, bytes),
        4 => row::read_update::<MailboxMessage>(alloc, bytes),
        5 => row::read_update::<DeletedMessage>(alloc, bytes),
        6 => row::read_update::<FlagName>(alloc, bytes),
        7 => row::read_update::<FlagRow>(alloc, bytes),
        8 => row::read_update::<BodyPart>(alloc, bytes),
        9 => row::read_update::<PartNumber>(alloc, bytes),
        10 => row::read_update::<FieldName>(alloc, bytes),
        11 => row::read_update::<HeaderField>(alloc, bytes),
        12 => row::read_update::<AddressRow>(alloc, bytes),
        13 => row::read_update::<AddressField>(alloc, bytes),
        14 => row::read_update::<DateField>(alloc, bytes),
        15 => row::read_update::<MessageId>(alloc, bytes),
        16 => row::read_update::<UnparsedMessage>(alloc, bytes),
        17 => row::read_update::<Subscription>(alloc, bytes),
        18 => row::read_update::<Counters>(alloc, bytes),
        _ => Ok(None),
    }
}

// The removal of a row of a table.
#[tactic(auto, unfolding(crate::specs::Reading::read_removal))]
fn read_removal(
    alloc: Global,
    table: u8,
    bytes: &[u8],
) -> Result<Option<(RowChange, &[u8])>, AllocError>
    ensures { IfOk result (λ found. Reads (λ p. (p.0, p.1.now)) found (read_removal table bytes.now)) }
{
    match table {
        1 => row::read_removal::<User>(alloc, bytes),
        2 => row::read_removal::<Mailbox>(alloc, bytes),
        3 => row::read_removal::<MessageRow>(alloc, bytes),
        4 => row::read_removal::<MailboxMessage>(alloc, bytes),
        5 => row::read_removal::<DeletedMessage>(alloc, bytes),
        6 => row::read_removal::<FlagName>(alloc, bytes),
        7 => row::read_removal::<FlagRow>(alloc, bytes),
        8 => row::read_removal::<BodyPart>(alloc, bytes),
        9 => row::read_removal::<PartNumber>(alloc, bytes),
        10 => row::read_removal::<FieldName>(alloc, bytes),
        11 => row::read_removal::<HeaderField>(alloc, bytes),
        12 => row::read_removal::<AddressRow>(alloc, bytes),
        13 => row::read_removal::<AddressField>(alloc, bytes),
        14 => row::read_removal::<DateField>(alloc, bytes),
        15 => row::read_removal::<MessageId>(alloc, bytes),
        16 => row::read_removal::<UnparsedMessage>(alloc, bytes),
        17 => row::read_removal::<Subscription>(alloc, bytes),
        18 => row::read_removal::<Counters>(alloc, bytes),
        _ => Ok(None),
    }
}

// Changes of rows.
use crate::contents::{AddressRow, BodyPart, FieldName};
use crate::heads::{Counters, Mailbox, Subscription, User};
use crate::mails::{HeaderField, MessageRow, PartNumber, UnparsedMessage};
use crate::marks::{DeletedMessage, FlagName, FlagRow, MailboxMessage};
use crate::values::{AddressField, DateField, MessageId};
use octets::Octets;

/// A change of one row, or of all rows of a mailbox. Updates of `mailboxes`, `mailbox_messages` and `counters` and removals from
/// `mailbox_messages`, `flags` and `subscriptions` may fit; the other updates and removals never do. A removal has the key.
#[derive(Drop)]
pub enum RowChange {
    InsertUser(User),
    UpdateUser(User),
    RemoveUser(u32),
    InsertMailbox(Mailbox),
    UpdateMailbox(Mailbox),
    RemoveMailbox(u32),
    InsertMessageRow(MessageRow),
    UpdateMessageRow(MessageRow),
    RemoveMessageRow(u64),
    InsertMailboxMessage(MailboxMessage),
    UpdateMailboxMessage(MailboxMessage),
    RemoveMailboxMessage((u32, u32)),
    InsertDeletedMessage(DeletedMessage),
    UpdateDeletedMessage(DeletedMessage),
    RemoveDeletedMessage((u32, u32)),
    InsertFlagName(FlagName),
    UpdateFlagName(FlagName),
    RemoveFlagName(u64),
    InsertFlagRow(FlagRow),
    UpdateFlagRow(FlagRow),
    RemoveFlagRow((u32, u32, u64)),
    InsertBodyPart(BodyPart),
    UpdateBodyPart(BodyPart),
    RemoveBodyPart(u64),
    InsertPartNumber(PartNumber),
    UpdatePartNumber(PartNumber),
    RemovePartNumber((u64, Octets)),
    InsertFieldName(FieldName),
    UpdateFieldName(FieldName),
    RemoveFieldName(u64),
    InsertHeaderField(HeaderField),
    UpdateHeaderField(HeaderField),
    RemoveHeaderField((u64, Octets, u32)),
    InsertAddressRow(AddressRow),
    UpdateAddressRow(AddressRow),
    RemoveAddressRow(u64),
    InsertAddressField(AddressField),
    UpdateAddressField(AddressField),
    RemoveAddressField((u64, Octets, u32, u32)),
    InsertDateField(DateField),
    UpdateDateField(DateField),
    RemoveDateField((u64, Octets, u32)),
    InsertMessageId(MessageId),
    UpdateMessageId(MessageId),
    RemoveMessageId((u64, Octets, u32, u32)),
    InsertUnparsedMessage(UnparsedMessage),
    UpdateUnparsedMessage(UnparsedMessage),
    RemoveUnparsedMessage(u64),
    InsertSubscription(Subscription),
    UpdateSubscription(Subscription),
    RemoveSubscription((u32, Octets)),
    InsertCounters(Counters),
    UpdateCounters(Counters),
    RemoveCounters(()),
    /// The mailbox with this id, and its rows in `mailbox_messages`, `deleted_messages` and `flags`.
    DropMailbox(u32),
}

// Which changes fit.
ghost use Rattle.std.specs.Prelude.{◌≡◌, ◌↔◌, IsTrue, [], None};
ghost use Rattle.row_tables.specs.Fits.{Fits, IsText};
ghost use Rattle.row_tables.specs.References.{HasField, HasMailbox, HasMailboxMessage, HasMessage, MailboxMessageRefers, flags_at};
ghost use Rattle.row_tables.specs.declared.change.RowChange.TheVariants.{InsertMailbox, UpdateMailbox, InsertMailboxMessage, RemoveMailboxMessage, InsertFlagName, InsertFlagRow, InsertSubscription, InsertPartNumber, InsertFieldName, InsertHeaderField, InsertAddressRow, InsertAddressField, InsertDateField, InsertMessageId, InsertUnparsedMessage};

use crate::change::RowChange;
use crate::contents::{AddressRow, FieldName};
use crate::heads::{Mailbox, Subscription};
use crate::keys::of_uid;
use crate::mails::{HeaderField, PartNumber, UnparsedMessage};
use crate::marks::{FlagName, FlagRow, MailboxMessage};
use crate::tables::Tables;
use crate::values::{AddressField, DateField, MessageId};
use octets::Octets;

// Whether a row may hold a text.
fn is_text(text: &Octets) -> bool
    ensures { IsTrue result ↔ IsText text.now }
{
    text.len() <= u32::MAX as usize
}

impl Tables {
    /// Whether a change may be applied.
    pub fn fits(&self, change: &RowChange) -> bool
        ensures { IsTrue result ↔ Fits self.now change.now }
    {
        match change {
            RowChange::InsertUser(row) => is_text(&row.name) && self.users_row(row.id).is_none(),
            RowChange::InsertMailbox(row) => self.fits_mailbox(row),
            RowChange::UpdateMailbox(row) => self.fits_mailbox_update(row),
            RowChange::DropMailbox(mailbox) => self.mailboxes_row(*mailbox).is_some(),
            RowChange::InsertMessageRow(row) => self.messages_row(row.id).is_none(),
            RowChange::InsertMailboxMessage(row) => {
                !self.has_mailbox_message(row.mailbox, row.uid) && self.refers(row)
            }
            RowChange::UpdateMailboxMessage(row) => {
                self.has_mailbox_message(row.mailbox, row.uid) && self.refers(row)
            }
            RowChange::RemoveMailboxMessage(key) => self.fits_removal(key.0, key.1),
            RowChange::InsertDeletedMessage(row) => {
                self.deleted_messages_row((row.mailbox, row.uid)).is_none()
                    && self.mailboxes_row(row.mailbox).is_some()
            }
            RowChange::InsertFlagName(row) => self.fits_flag_name(row),
            RowChange::InsertFlagRow(row) => self.fits_flag(row),
            RowChange::RemoveFlagRow(key) => self.flags_row((key.0, key.1, key.2)).is_some(),
            RowChange::InsertBodyPart(row) => is_text(&row.content)
                && self.bodyparts_row(row.id).is_none(),
            RowChange::InsertPartNumber(row) => self.fits_part_number(row),
            RowChange::InsertFieldName(row) => self.fits_field_name(row),
            RowChange::InsertHeaderField(row) => self.fits_header_field(row),
            RowChange::InsertAddressRow(row) => self.fits_address(row),
            RowChange::InsertAddressField(row) => self.fits_address_field(row),
            RowChange::InsertDateField(row) => self.fits_date_field(row),
            RowChange::InsertMessageId(row) => self.fits_message_id(row),
            RowChange::InsertUnparsedMessage(row) => self.fits_unparsed(row),
            RowChange::InsertSubscription(row) => self.fits_subscription(row),
            RowChange::RemoveSubscription(key) => {
                is_text(&key.1) && self.subscriptions_row((key.0, key.1.as_slice())).is_some()
            }
            RowChange::UpdateCounters(_) => true,
            _ => false,
        }
    }

    fn fits_mailbox(&self, row: &Mailbox) -> bool
        ensures { IsTrue result ↔ Fits self.now (InsertMailbox row.now) }
    {
        is_text(&row.name)
            && self.mailboxes_row(row.id).is_none()
            && self.users_row(row.owner).is_some()
    }

    fn fits_mailbox_update(&self, row: &Mailbox) -> bool
        ensures { IsTrue result ↔ Fits self.now (UpdateMailbox row.now) }
    {
        is_text(&row.name)
            && self.mailboxes_row(row.id).is_some()
            && self.users_row(row.owner).is_some()
    }

    fn has_mailbox_message(&self, mailbox: u32, uid: u32) -> bool
        ensures { IsTrue result ↔ HasMailboxMessage self.now mailbox uid }
    {
        let marks = &self.marks;
        marks.mailbox_messages.get(of_uid(mailbox, uid)).is_some()
    }

    fn refers(&self, row: &MailboxMessage) -> bool
        ensures { IsTrue result ↔ MailboxMessageRefers self.now row.now }
    {
        self.mailboxes_row(row.mailbox).is_some() && self.messages_row(row.message).is_some()
    }

    fn fits_removal(&self, mailbox: u32, uid: u32) -> bool
        ensures { IsTrue result ↔ Fits self.now (RemoveMailboxMessage (mailbox, uid)) }
    {
        self.has_mailbox_message(mailbox, uid) && self.flags_at(mailbox, uid).next().is_none()
    }

    fn fits_flag_name(&self, row: &FlagName) -> bool
        ensures { IsTrue result ↔ Fits self.now (InsertFlagName row.now) }
    {
        is_text(&row.name)
            && self.flag_names_row(row.id).is_none()
            && self.flag_name_id(row.name.as_slice()).is_none()
    }

    fn fits_flag(&self, row: &FlagRow) -> bool
        ensures { IsTrue result ↔ Fits self.now (InsertFlagRow row.now) }
    {
        self.flags_row((row.mailbox, row.uid, row.flag)).is_none()
            && self.mailboxes_row(row.mailbox).is_some()
            && self.has_mailbox_message(row.mailbox, row.uid)
            && self.flag_names_row(row.flag).is_some()
    }

    fn fits_subscription(&self, row: &Subscription) -> bool
        ensures { IsTrue result ↔ Fits self.now (InsertSubscription row.now) }
    {
        is_text(&row.name)
            && self
                .subscriptions_row((row.owner, row.name.as_slice()))
                .is_none()
            && self.users_row(row.owner).is_some()
    }

    fn fits_field_name(&self, row: &FieldName) -> bool
        ensures { IsTrue result ↔ Fits self.now (InsertFieldName row.now) }
    {
        is_text(&row.name)
            && self.field_names_row(row.id).is_none()
            && self.field_name_id(row.name.as_slice()).is_none()
    }

    fn fits_unparsed(&self, row: &UnparsedMessage) -> bool
        ensures { IsTrue result ↔ Fits self.now (InsertUnparsedMessage row.now) }
    {
        self.unparsed_messages_row(row.message).is_none()
            && self.messages_row(row.message).is_some()
    }

    fn fits_part_number(&self, row: &PartNumber) -> bool
        ensures { IsTrue result ↔ Fits self.now (InsertPartNumber row.now) }
    {
        is_text(&row.path)
            && self
                .part_numbers_row((row.message, row.path.as_slice()))
                .is_none()
            && self.messages_row(row.message).is_some()
            && (row.kind >= 2 || self.bodyparts_row(row.body).is_some())
    }

    fn fits_header_field(&self, row: &HeaderField) -> bool
        ensures { IsTrue result ↔ Fits self.now (InsertHeaderField row.now) }
    {
        let path = row.path.as_slice();
        is_text(&row.path)
            && is_text(&row.value)
            && self
                .header_fields_row((row.message, path, row.place))
                .is_none()
            && self.messages_row(row.message).is_some()
            && self.part_numbers_row((row.message, path)).is_some()
            && self.field_names_row(row.name).is_some()
    }

    fn fits_address(&self, row: &AddressRow) -> bool
        ensures { IsTrue result ↔ Fits self.now (InsertAddressRow row.now) }
    {
        is_text(&row.name)
            && is_text(&row.local)
            && is_text(&row.domain)
            && self.addresses_row(row.id).is_none()
            && self
                .address_id(
                    row.name.as_slice(),
                    row.local.as_slice(),
                    row.domain.as_slice(),
                )
                .is_none()
    }

    fn has_field(&self, message: u64, path: &[u8], place: u32) -> bool
        ensures { IsTrue result ↔ HasMessage self.now message × HasField self.now message path.now place }
    {
        self.messages_row(message).is_some()
            && self.header_fields_row((message, path, place)).is_some()
    }

    fn fits_address_field(&self, row: &AddressField) -> bool
        ensures { IsTrue result ↔ Fits self.now (InsertAddressField row.now) }
    {
        let path = row.path.as_slice();
        is_text(&row.path)
            && self
                .address_fields_row((row.message, path, row.place, row.item))
                .is_none()
            && self.has_field(row.message, path, row.place)
            && (row.kind >= 2 || self.addresses_row(row.address).is_some())
    }

    fn fits_date_field(&self, row: &DateField) -> bool
        ensures { IsTrue result ↔ Fits self.now (InsertDateField row.now) }
    {
        let path = row.path.as_slice();
        is_text(&row.path)
            && is_text(&row.value)
            && self
                .date_fields_row((row.message, path, row.place))
                .is_none()
            && self.has_field(row.message, path, row.place)
    }

    fn fits_message_id(&self, row: &MessageId) -> bool
        ensures { IsTrue result ↔ Fits self.now (InsertMessageId row.now) }
    {
        let path = row.path.as_slice();
        is_text(&row.path)
            && is_text(&row.value)
            && self
                .message_ids_row((row.message, path, row.place, row.item))
                .is_none()
            && self.has_field(row.message, path, row.place)
    }
}

//! The tables of the store: their rows, which changes of rows fit, and the rows that are there. Contracts see the tables as a
//! record of lists, one for each table, in the order of the keys.
#![tactic(auto)]

mod body_ids;
mod change;
mod contents;
mod fitting;
mod head_rows;
mod head_tables;
mod heads;
mod indexes;
mod keys;
pub mod laws;
mod mail_rows;
mod mail_tables;
mod mails;
mod mark_rows;
mod mark_tables;
mod marks;
mod named;
mod row_count;
mod shared;
mod shared_rows;
mod shared_tables;
mod tables;
mod uids;
mod values;

pub use body_ids::BodyIds;
pub use change::RowChange;
pub use contents::{AddressRow, BodyPart, FieldName};
pub use heads::{Counters, Mailbox, Subscription, User};
pub use mails::{HeaderField, MessageRow, PartNumber, UnparsedMessage};
pub use marks::{DeletedMessage, FlagName, FlagRow, MailboxMessage};
pub use row_count::RowCount;
pub use tables::Tables;
pub use uids::Uids;
pub use values::{AddressField, DateField, MessageId};

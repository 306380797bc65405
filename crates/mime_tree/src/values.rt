//! Header fields and what their values are read as.
use octets::Octets;
use sqlite_items::Items;

/// One thing in the value of an address field (RFC 5322 §3.4).
#[derive(Debug, Drop)]
pub enum Item {
    /// A mailbox: the display name, empty where there is none, and the address on both sides of its `@`. Quotes, comments
    /// and routes are taken off.
    Address {
        name: Octets,
        local: Octets,
        domain: Octets,
    },
    /// The beginning of a group, with its name.
    Group(Octets),
    /// The end of the group that began last.
    GroupEnd,
}

/// The value of a date field (RFC 5322 §3.3).
#[derive(Clone, Copy, Debug)]
pub struct SentDate {
    /// The date as it is printed, with all its parts: `Tue, 01 Jul 2003 10:52:37 +0200`.
    pub text: [u8; 31],
    /// The moment in seconds since 1970-01-01 00:00:00 +0000.
    pub seconds: i64,
    /// The day as it is written, counted from 1970-01-01, whatever the zone.
    pub day: i64,
}

/// What the value of a field is read as. The field's name decides what is tried, and a value that can't be read so is text.
#[derive(Debug, Drop)]
pub enum Value {
    /// The unfolded value, without blanks at its ends.
    Text(Octets),
    /// The addresses and groups, in their order.
    Addresses(Items<Item>),
    /// A date.
    Date(SentDate),
    /// Message ids, each with its `<` and `>` (RFC 5322 §3.6.4).
    Ids(Items<Octets>),
}

/// A header field (RFC 5322 §2.2).
#[derive(Debug, Drop)]
pub struct Field {
    /// The name as it is written, without the colon.
    pub name: Octets,
    pub value: Value,
}

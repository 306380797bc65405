//! Fields as they stand in a header.
use octets::Octets;

/// A field of a header (RFC 5322 §2.2), before its value is looked into.
#[derive(Debug, Drop)]
pub struct RawField {
    /// The name as it is written.
    pub name: Octets,
    /// The value, unfolded, without blanks at its ends.
    pub value: Octets,
}

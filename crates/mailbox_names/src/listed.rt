//! What LIST and LSUB tell of a name.

use octets::Octets;

/// A name that LIST or LSUB tells of (RFC 3501 §7.2.2, §7.2.3).
#[derive(Drop, Debug)]
pub struct Listed {
    /// The name, of any bytes.
    pub name: Octets,
    /// Whether it is a level of names that is itself no mailbox, or for LSUB no subscription.
    pub noselect: bool,
}

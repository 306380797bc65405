//! What a script has happen on its sessions.

use crate::calls::Kind;
use octets::Octets;

/// An event of a script. Sessions have the numbers from 1, in the order in which they open.
#[derive(Drop, Debug)]
pub enum Event {
    /// A session opens.
    Opens(Kind),
    /// A session's peer sends bytes, at a moment in seconds since 1970.
    Piece {
        number: u32,
        bytes: Octets,
        moment: u64,
    },
    /// A session's peer closes its side.
    Ends(u32),
    /// A session's link is lost.
    Loses(u32),
}

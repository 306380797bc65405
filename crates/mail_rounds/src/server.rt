//! The server and its core.

ghost use Rattle.std.specs.Prelude.{◌≡◌, length};

use crate::link::Link;
use session_units::Reader;
use std::alloc::Global;

/// A server over a core.
///
/// A server on which a call answered a fault is given up: its core can still be taken back.
#[derive(Drop)]
pub struct Server<C> {
    pub(crate) core: C,
    pub(crate) alloc: Global,
    /// The links that aren't closed, in the order of their numbers.
    pub(crate) links: Vec<Link>,
    /// The number of the latest link, 0 before the first.
    pub(crate) last: u32,
    /// Where links are read into.
    pub(crate) buffer: Vec<u8>,
    /// Readers for links that are to come, each with its memory.
    pub(crate) spare: Vec<Reader>,
    /// Whether the server is given up.
    pub(crate) spent: bool,
    ghost room: { length buffer.items ≡ 65536 },
}

/// A core that could not be served, since memory was refused, handed back.
#[derive(Drop)]
pub struct Unserved<C> {
    /// The core as it was.
    pub core: C,
}

//! A link as the server has it.

ghost use Rattle.std.specs.Prelude.{◌≡◌, [], None};
ghost use Rattle.session_units.specs.Units.{first};

use mail_model::Standing;
use session_units::Reader;

/// A link with its session, and the answers that aren't sent yet.
#[derive(Drop)]
pub(crate) struct Link {
    /// The session's number, from 1.
    pub(crate) number: u32,
    /// How the link stands.
    pub(crate) standing: Standing,
    /// The unit that is awaited, as far as it came.
    pub(crate) reader: Reader,
    /// The answers that are still to be sent.
    pub(crate) queue: Vec<u8>,
    ghost awaiting: { first reader [] ≡ None },
}

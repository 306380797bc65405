//! Bytes of atoms.
ghost use Rattle.std.specs.Prelude.{◌≡◌};
ghost use Rattle.address_grammar.specs.Pieces.{is_atom as is_atom_of, is_plain as is_plain_of};

use mail_text::ByteClass;

/// Whether a byte stands in an atom (RFC 5322 §3.2.3). Those that are not ASCII do.
pub(crate) fn is_atom(b: u8) -> bool
    ensures { result ≡ is_atom_of b }
{
    b.is_ascii_alphanumeric()
        || b > 127
        || matches!(
            b,
            b'!' | b'#'..=b'\'' | b'*' | b'+' | b'-' | b'/' | b'=' | b'?' | b'^'..=b'`' | b'{'..=b'~'
        )
}

/// Whether a byte stands in a run of atoms and dots.
pub(crate) fn is_plain(b: u8) -> bool
    ensures { result ≡ is_plain_of b }
{
    is_atom(b) || b == b'.'
}

/// The bytes of a run.
pub(crate) struct RunByte;

impl ByteClass for RunByte {
    ghost test = { is_plain_of };

    fn contains(b: u8) -> bool {
        is_plain(b)
    }
}

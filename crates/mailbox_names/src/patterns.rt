//! Wildcards.

ghost use Rattle.std.specs.Prelude.{◌≡◌};
ghost use Rattle.mailbox_names.specs.Patterns.{is_wildcard};

pub(crate) fn is_wildcard(p: u8) -> bool
    ensures { result ≡ is_wildcard p }
{
    p == b'*' || p == b'%'
}

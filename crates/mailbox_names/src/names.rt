//! Names that mean one mailbox.

ghost use Rattle.std.specs.Prelude.{◌≡◌};
ghost use Rattle.mailbox_names.specs.Names.{mailbox_name};

/// The name of the mailbox that a text names: INBOX is written in any case (RFC 3501 §5.1), every other name as it is.
pub fn mailbox_name(text: &[u8]) -> &[u8]
    ensures { result.now ≡ mailbox_name text.now }
{
    if text.eq_ignore_ascii_case(b"INBOX") {
        b"INBOX"
    } else {
        text
    }
}

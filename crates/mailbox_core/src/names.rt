//! Names of users and of mailboxes.

ghost use Rattle.std.specs.Prelude.{◌≡◌, ◌==◌};
ghost use Rattle.std.specs.List.{list_all, slice_split};
ghost use Rattle.mail_world.specs.Names.{created_name, is_inbox, is_level, is_mailbox_name, is_name_byte, is_user_byte, is_user_name, mailbox_name, separator};

/// Whether a user may have a name: 1 to 64 bytes of `a` to `z`, `0` to `9`, `.`, `_` and `-`.
pub fn is_user_name(name: &[u8]) -> bool
    ensures { result ≡ is_user_name name.now }
{
    let are_bytes = are_user_bytes(name);
    let is_short = 1 <= name.len() && name.len() <= 64;
    are_bytes && is_short
}

fn are_user_bytes(name: &[u8]) -> bool
    ensures { result ≡ list_all is_user_byte name.now }
{
    name.iter().all(|b| is_user_byte(*b))
}

fn is_user_byte(b: u8) -> bool
    ensures { result ≡ is_user_byte b }
{
    b.is_ascii_lowercase() || b.is_ascii_digit() || b == b'.' || b == b'_' || b == b'-'
}

// Whether a name is INBOX, in any case.
pub(crate) fn is_inbox(name: &[u8]) -> bool
    ensures { result ≡ is_inbox name.now }
{
    name.eq_ignore_ascii_case(b"INBOX")
}

/// The name of the mailbox that a text names: `INBOX` where it is that in any case (RFC 3501 §5.1).
pub fn canonical_name(text: &[u8]) -> &[u8]
    ensures { result.now ≡ mailbox_name text.now }
{
    if is_inbox(text) { b"INBOX" } else { text }
}

// Whether a mailbox may have a name: 1 to 255 bytes of printed ASCII without wildcards, in levels that aren't empty.
pub(crate) fn is_mailbox_name(name: &[u8]) -> bool
    ensures { result ≡ is_mailbox_name name.now }
{
    let are_bytes = are_name_bytes(name);
    let are_levels = are_levels(name);
    let is_short = name.len() <= 255;
    are_bytes && are_levels && is_short
}

fn are_name_bytes(name: &[u8]) -> bool
    ensures { result ≡ list_all is_name_byte name.now }
{
    name.iter().all(|b| is_name_byte(*b))
}

fn is_name_byte(b: u8) -> bool
    ensures { result ≡ is_name_byte b }
{
    0x20 <= b && b <= 0x7E && b != b'*' && b != b'%'
}

// Whether no level of a name is empty.
#[tactic(auto, using(crate::proofs::Splitting::levels_are_full))]
fn are_levels(name: &[u8]) -> bool
    ensures { result ≡ list_all is_level (slice_split (λ b. b == separator) name.now) }
{
    let mut is_open = false;
    for b in name {
        if *b != b'/' {
            is_open = true;
        } else if is_open {
            is_open = false;
        } else {
            return false;
        }
    }
    is_open
}

// The name that CREATE makes of a text.
pub(crate) fn created_name(text: &[u8]) -> &[u8]
    ensures { result.now ≡ created_name text.now }
{
    match text.strip_suffix(b"/") {
        Some(front) => canonical_name(front),
        None => canonical_name(text),
    }
}

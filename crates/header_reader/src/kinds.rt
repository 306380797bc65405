//! What the names of fields tell of their values (RFC 5322 §3.6).
ghost use Rattle.std.specs.Prelude.{◌≡◌};
ghost use Rattle.header_reader.specs.Kinds.{dates, destinations, id_lists, is_among, kind_of as kind_of_name, originators, resent_addresses, single_ids};

use mail_text::same;

/// How the value of a field is read.
#[derive(Clone, Copy, Debug, PartialEq, Eq)]
pub enum FieldKind {
    /// As text.
    Unstructured,
    /// As addresses and groups.
    AddressList,
    /// As a date.
    DateTime,
    /// As one message id.
    OneId,
    /// As one or more message ids.
    IdList,
}

/// How the value of a field with this name is read. The case of the name's letters doesn't matter.
#[tactic(auto, unfolding(crate::specs::Kinds::kind_of))]
pub fn kind_of(name: &[u8]) -> FieldKind
    ensures { result ≡ kind_of_name name.now }
{
    if is_originator(name) || is_destination(name) || is_resent_address(name) {
        FieldKind::AddressList
    } else if is_date(name) {
        FieldKind::DateTime
    } else if is_single_id(name) {
        FieldKind::OneId
    } else if is_id_list(name) {
        FieldKind::IdList
    } else {
        FieldKind::Unstructured
    }
}

fn is_originator(name: &[u8]) -> bool
    ensures { result ≡ is_among originators name.now }
{
    same(name, b"From") || same(name, b"Sender") || same(name, b"Reply-To")
}

fn is_destination(name: &[u8]) -> bool
    ensures { result ≡ is_among destinations name.now }
{
    same(name, b"To") || same(name, b"Cc") || same(name, b"Bcc")
}

fn is_resent_address(name: &[u8]) -> bool
    ensures { result ≡ is_among resent_addresses name.now }
{
    same(name, b"Resent-From")
        || same(name, b"Resent-Sender")
        || same(name, b"Resent-To")
        || same(name, b"Resent-Cc")
        || same(name, b"Resent-Bcc")
}

fn is_date(name: &[u8]) -> bool
    ensures { result ≡ is_among dates name.now }
{
    same(name, b"Date") || same(name, b"Resent-Date")
}

fn is_single_id(name: &[u8]) -> bool
    ensures { result ≡ is_among single_ids name.now }
{
    same(name, b"Message-ID") || same(name, b"Resent-Message-ID")
}

fn is_id_list(name: &[u8]) -> bool
    ensures { result ≡ is_among id_lists name.now }
{
    same(name, b"In-Reply-To") || same(name, b"References")
}

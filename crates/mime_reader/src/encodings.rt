//! The type and the encoding that the fields of a message or a part name.
ghost use Rattle.std.specs.Prelude.{◌≡◌, IfOk};
ghost use Rattle.mime_reader.specs.Parameters.{encoding_named as encoding_named_of, named_type_of, transfer_encoding_of};

use crate::content_types::{ContentType, content_type};
use crate::kinds::first_text;
use mail_text::same;
use mime_tree::Field;
use std::alloc::{AllocError, Global};

/// The type that the first Content-Type field names. None where there is no such field, or where it names none: `type_of` gives
/// the default for it, so this alone tells an absent type from a text/plain that is named (RFC 2045 §5.2).
pub fn named_type(alloc: Global, fields: &[Field]) -> Result<Option<ContentType>, AllocError>
    ensures { IfOk result (λ found. found ≡ named_type_of fields.now) }
{
    match first_text(b"Content-Type", fields) {
        Some(value) => content_type(alloc, value),
        None => Ok(None),
    }
}

/// The encoding of a body, by its name (RFC 2045 §6.1).
#[derive(Clone, Copy, Debug, PartialEq, Eq)]
pub enum TransferEncoding {
    /// No Content-Transfer-Encoding field, or an empty one: the body is as it stands, 7bit (RFC 2045 §6.1).
    Absent,
    Base64,
    QuotedPrintable,
    /// Any other name. `first_text` has it.
    Other,
}

/// The encoding that the first Content-Transfer-Encoding field names, in any case. Whether a body could be decoded by it is told by
/// the encoding of its leaf.
pub fn transfer_encoding(fields: &[Field]) -> TransferEncoding
    ensures { result ≡ transfer_encoding_of fields.now }
{
    match first_text(b"Content-Transfer-Encoding", fields) {
        Some(name) => encoding_named(name),
        None => TransferEncoding::Absent,
    }
}

fn encoding_named(name: &[u8]) -> TransferEncoding
    ensures { result ≡ encoding_named_of name.now }
{
    if same(name, b"base64") {
        return TransferEncoding::Base64;
    }
    if same(name, b"quoted-printable") {
        return TransferEncoding::QuotedPrintable;
    }
    if name.is_empty() {
        return TransferEncoding::Absent;
    }
    TransferEncoding::Other
}

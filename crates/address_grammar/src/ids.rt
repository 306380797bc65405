//! The ids of Message-ID, In-Reply-To and References (RFC 5322 §3.6.4).
ghost use Rattle.std.specs.Prelude.{◌≡◌, ◌∷◌, [], ◌++◌, if◌then◌else◌, IfOk, OnOk, option_map};
ghost use Rattle.address_grammar.specs.Words.{spaced};
ghost use Rattle.address_grammar.specs.Ids.{are_blanks as are_blanks_of, are_id_bytes as are_id_bytes_of, ids_reading, is_id_front as is_id_front_of};
ghost use Rattle.address_grammar.specs.IdGrammar.{IsIdReadingOf};

use mail_text::{is_blank, trim_start};
use memchr::memchr;
use octets::Octets;
use std::alloc::{AllocError, Global};

/// The ids of a value, each with its `<` and `>`, or None where the value is no list of ids.
pub fn read_ids(alloc: Global, value: &[u8]) -> Result<Option<Vec<Octets>>, AllocError>
    ensures grammar { IfOk result (λ r. IsIdReadingOf value.now (option_map (λ v. v.items) r)) }
    ensures exact { IfOk result (λ r. option_map (λ v. v.items) r ≡ ids_reading value.now) }
{
    let found = ids_of_value(alloc, value)?;
    Ok(found)
}

fn ids_of_value(alloc: Global, value: &[u8]) -> Result<Option<Vec<Octets>>, AllocError>
    ensures { IfOk result (λ r. option_map (λ v. v.items) r ≡ ids_reading value.now) }
{
    let mut out = Vec::new(alloc);
    let mut rest = value;
    while let Some(end) = memchr(b'>', rest) {
        let id = trim_start(&rest[..end]);
        if !is_id_front(id) {
            return Ok(None);
        }
        out.push(with_end(alloc, id)?)?;
        rest = &rest[end + 1..];
    }
    if out.is_empty() || !are_blanks(rest) {
        return Ok(None);
    }
    Ok(Some(out))
}

/// An id whose `>` is missing, with it.
fn with_end(alloc: Global, front: &[u8]) -> Result<Octets, AllocError>
    ensures { IfOk result (λ o. o ≡ front.now ++ 62 ∷ []) }
{
    let mut bytes = Vec::with_capacity(alloc, front.len().saturating_add(1))?;
    bytes.extend_from_slice(front)?;
    bytes.push(b'>')?;
    Ok(Octets::new(bytes))
}

/// Whether a text is an id without its `>`.
fn is_id_front(text: &[u8]) -> bool
    ensures { result ≡ is_id_front_of text.now }
{
    text.len() > 1 && text[0] == b'<' && are_id_bytes(&text[1..])
}

fn are_id_bytes(text: &[u8]) -> bool
    ensures { result ≡ are_id_bytes_of text.now }
{
    for b in text {
        if *b == b'<' || is_blank(*b) {
            return false;
        }
    }
    true
}

fn are_blanks(text: &[u8]) -> bool
    ensures { result ≡ are_blanks_of text.now }
{
    for b in text {
        if !is_blank(*b) {
            return false;
        }
    }
    true
}

/// Ids as a value, with one space between each two.
pub fn print_ids(alloc: Global, ids: &[Octets]) -> Result<Vec<u8>, AllocError>
    ensures { IfOk result (λ v. v.items ≡ spaced ids.now) }
{
    let mut out = Vec::new(alloc);
    let mut begun = false;
    for id in ids {
        append_id(&mut out, begun, id.as_slice())?;
        begun = true;
    }
    Ok(out)
}

fn append_id(out: &mut Vec<u8>, begun: bool, id: &[u8]) -> Result<(), AllocError>
    ensures { OnOk result (out.new.items ≡ out.old.items ++ (if begun then 32 ∷ id.now else id.now)) }
{
    if begun {
        out.push(b' ')?;
    }
    out.extend_from_slice(id)?;
    Ok(())
}

//! Messages read, with all their parts.
ghost use Rattle.std.specs.Prelude.{◌≡◌, ◌≤◌, [], ◌∷◌, ◌++◌, ◌-◌, false, IfOk, IfErr, OnOk, length, map, drop, None, Some};
ghost use Rattle.mail_text.specs.Lines.{IsCrlf, joined, lines};
ghost use Rattle.mime_tree.specs.Contents.{content_of, trees_of};
ghost use Rattle.mime_tree.specs.Trees.Content.{nested as nested_in};
ghost use Rattle.mime_tree.specs.Sizes.{nodes, nodes_in, nodes_of};
ghost use Rattle.header_reader.specs.Fields.{header};
ghost use Rattle.header_reader.specs.Faults.{fault_of};
ghost use Rattle.header_reader.specs.Values.{read_field as read_field_of};
ghost use Rattle.mime_reader.specs.Cutting.{texts};
ghost use Rattle.mime_reader.specs.Kinds.{body_kind as body_kind_of};
ghost use Rattle.mime_reader.specs.Reading.{BeginsMessage, Gives, IsMessage, ReadingLaws, body_of, fields_in, leaf_of, outcome, read, read_body as read_body_of, read_multipart as read_multipart_of, read_parts as read_parts_of};
ghost use Rattle.mime_reader.specs.Steps.{Answers, CanBeCut, Comes, Tells};

use crate::bodies::{behind_delimiter, first_piece, is_usable};
use crate::faults::ReadFault;
use crate::kinds::{BodyKind, body_kind};
use header_reader::{HeaderFault, RawField, fields, law_fields, read_field};
use mail_text::{crlf, has_byte, is_crlf, law_lines};
use mime_tree::{Body, Encoding, Field, Message, Reason};
use octets::Octets;
use std::alloc::{AllocError, Global};
use transfer_codec::decode64;

/// How many levels a message may have, with its own.
const MOST_LEVELS: usize = 17;

/// How many messages and parts a message may have, with itself.
const MOST_NODES: usize = 501;

/// Bytes read as a message. A line of the bytes ends with LF or CRLF; in the message each is a CRLF.
///
/// Time and memory go with the length of the bytes: each of the 17 levels is passed over once, and they are copied only where a
/// line of the body ends with LF alone. A zero byte and what is wrong with the header are told before memory is asked for.
pub fn read_message(alloc: Global, bytes: &[u8]) -> Result<Message, ReadFault>
    ensures exact { Gives result (outcome bytes.now) }
    ensures reads { IfOk result (IsMessage bytes.now) }
    ensures told { IfErr result (λ fault. fault ≡ ReadFault.NoMemory → BeginsMessage bytes.now) }
{
    law_reading();
    if has_byte(bytes, 0) {
        return Err(ReadFault::Unreadable(Reason::ZeroByte));
    }
    read_whole(alloc, bytes)
}

/// Bytes without a zero byte read as a message.
fn read_whole(alloc: Global, bytes: &[u8]) -> Result<Message, ReadFault>
    ensures exact { Gives result (read MOST_LEVELS [] false 0 bytes.now) }
    ensures told { IfErr result (λ fault. fault ≡ ReadFault.NoMemory → fault_of (header (lines bytes.now)) ≡ None) }
{
    match read_head(alloc, false, bytes) {
        Ok(head) => {
            let Head {
                fields,
                kind,
                place,
            } = head;
            match read_content(alloc, kind, &bytes[place..]) {
                Ok(body) => Ok(Message { fields, body }),
                Err(fault) => Err(fault),
            }
        }
        Err(fault) => Err(fault),
    }
}

/// The body of a whole message.
fn read_content(alloc: Global, kind: BodyKind, text: &[u8]) -> Result<Body, ReadFault>
    ensures { Comes content_of result (read_body_of (read (MOST_LEVELS - 1)) [] kind 1 (joined (lines text.now))) }
{
    law_lines();
    let mut number = 1;
    if is_crlf(text) {
        return read_body(alloc, MOST_LEVELS - 1, &[], kind, &mut number, text);
    }
    match crlf(alloc, text) {
        Ok(text) => read_body(alloc, MOST_LEVELS - 1, &[], kind, &mut number, &text),
        Err(_) => Err(ReadFault::NoMemory),
    }
}

/// What stands before the body of a message or a part.
struct Head {
    fields: Vec<Field>,
    kind: BodyKind,
    /// Where the body begins.
    place: usize,
}

fn read_head(alloc: Global, digest: bool, text: &[u8]) -> Result<Head, ReadFault>
    ensures sound { IfOk result (λ found. fault_of (header (lines text.now)) ≡ None) }
    ensures fields { IfOk result (λ found. found.fields.items ≡ fields_in text.now) }
    ensures kind { IfOk result (λ found. found.kind ≡ body_kind_of digest (fields_in text.now)) }
    ensures within { IfOk result (λ found. found.place ≤ length text.now) }
    ensures body { IfOk result (λ found. joined (lines (drop found.place text.now)) ≡ body_of text.now) }
    ensures crlf { IfOk result (λ found. IsCrlf text.now → IsCrlf (drop found.place text.now)) }
    ensures fault { IfErr result (λ fault. Tells fault (fault_of (header (lines text.now)))) }
{
    match fields_of(alloc, text) {
        Ok((fields, place)) => match body_kind(alloc, digest, &fields) {
            Ok(kind) => Ok(Head {
                fields,
                kind,
                place,
            }),
            Err(_) => Err(ReadFault::NoMemory),
        },
        Err(fault) => Err(fault),
    }
}

/// The fields of a message or a part, and where its body begins.
fn fields_of(alloc: Global, text: &[u8]) -> Result<(Vec<Field>, usize), ReadFault>
    ensures sound { IfOk result (λ found. fault_of (header (lines text.now)) ≡ None) }
    ensures fields { IfOk result (λ found. found.0.items ≡ fields_in text.now) }
    ensures within { IfOk result (λ found. found.1 ≤ length text.now) }
    ensures body { IfOk result (λ found. joined (lines (drop found.1 text.now)) ≡ body_of text.now) }
    ensures crlf { IfOk result (λ found. IsCrlf text.now → IsCrlf (drop found.1 text.now)) }
    ensures fault { IfErr result (λ fault. Tells fault (fault_of (header (lines text.now)))) }
{
    law_lines();
    law_fields();
    match fields(alloc, text) {
        Ok((raw, place)) => match typed(alloc, raw) {
            Ok(fields) => Ok((fields, place)),
            Err(_) => Err(ReadFault::NoMemory),
        },
        Err(HeaderFault::LoneCr) => Err(ReadFault::Unreadable(Reason::LoneReturn)),
        Err(HeaderFault::BadLine) => Err(ReadFault::Unreadable(Reason::NoField)),
        Err(HeaderFault::LongHeader) => Err(ReadFault::Unreadable(Reason::LongHeader)),
        Err(HeaderFault::NoMemory) => Err(ReadFault::NoMemory),
    }
}

fn typed(alloc: Global, raw: Vec<RawField>) -> Result<Vec<Field>, AllocError>
    ensures { IfOk result (λ found. found.items ≡ map read_field_of raw.items) }
{
    let mut fields = Vec::with_capacity(alloc, raw.len())?;
    for field in raw {
        fields.push(read_field(alloc, field)?)?;
    }
    Ok(fields)
}

/// A message or a part of at most so many levels. Its number is that of the messages and parts before it.
#[cycle(reader)]
fn read_node(
    alloc: Global,
    levels: usize,
    enclosing: &[Octets],
    digest: bool,
    number: &mut usize,
    text: &[u8],
) -> Result<Message, ReadFault>
    requires { IsCrlf text.now }
    ensures { Answers (λ tree. tree) nodes number.old number.new result (read levels enclosing.now digest number.old text.now) }
{
    if levels == 0 {
        return Err(ReadFault::Unreadable(Reason::TooDeep));
    }
    if *number >= MOST_NODES {
        return Err(ReadFault::Unreadable(Reason::TooMany));
    }
    *number += 1;
    match read_head(alloc, digest, text) {
        Ok(head) => {
            let Head {
                fields,
                kind,
                place,
            } = head;
            match read_body(alloc, levels - 1, enclosing, kind, number, &text[place..]) {
                Ok(body) => Ok(Message { fields, body }),
                Err(fault) => Err(fault),
            }
        }
        Err(fault) => Err(fault),
    }
}

/// A body whose messages and parts have at most so many levels.
#[cycle(reader)]
fn read_body(
    alloc: Global,
    levels: usize,
    enclosing: &[Octets],
    kind: BodyKind,
    number: &mut usize,
    text: &[u8],
) -> Result<Body, ReadFault>
    requires { IsCrlf text.now }
    ensures { Answers content_of nodes_in number.old number.new result (read_body_of (read levels) enclosing.now kind number.old text.now) }
{
    match kind {
        BodyKind::Single { base64 } => match leaf(alloc, base64, text) {
            Ok(body) => Ok(body),
            Err(_) => Err(ReadFault::NoMemory),
        },
        BodyKind::Embedded => match read_node(alloc, levels, enclosing, false, number, text) {
            Ok(message) => nested(alloc, message),
            Err(fault) => Err(fault),
        },
        BodyKind::Multipart { boundary, digest } => match boundary {
            Some(boundary) => {
                read_multipart(alloc, levels, enclosing, boundary, digest, number, text)
            }
            None => Err(ReadFault::Unreadable(Reason::NoBoundary)),
        },
    }
}

fn leaf(alloc: Global, base64: bool, text: &[u8]) -> Result<Body, AllocError>
    ensures { IfOk result (λ body. content_of body ≡ leaf_of base64 text.now) }
{
    if base64 {
        if let Some(bytes) = decode64(alloc, text)? {
            return Ok(Body::Leaf {
                encoding: Encoding::Base64,
                bytes: Octets::new(bytes),
            });
        }
    }
    let bytes = Octets::new(text.to_vec(alloc)?);
    Ok(Body::Leaf {
        encoding: Encoding::Plain,
        bytes,
    })
}

fn nested(alloc: Global, message: Message) -> Result<Body, ReadFault>
    ensures ok { IfOk result (λ body. content_of body ≡ nested_in message) }
    ensures fault { IfErr result (λ fault. fault ≡ ReadFault.NoMemory) }
{
    match Box::new(alloc, message) {
        Ok(message) => Ok(Body::Nested(message)),
        Err(_) => Err(ReadFault::NoMemory),
    }
}

/// A multipart whose boundary has not been looked at.
#[cycle(reader)]
fn read_multipart(
    alloc: Global,
    levels: usize,
    enclosing: &[Octets],
    boundary: Octets,
    digest: bool,
    number: &mut usize,
    text: &[u8],
) -> Result<Body, ReadFault>
    requires { IsCrlf text.now }
    ensures answers { Answers content_of nodes_in number.old number.new result (read_body_of (read levels) enclosing.now (BodyKind.Multipart (Some boundary) digest) number.old text.now) }
    ensures told { IfErr result (λ fault. fault ≡ ReadFault.NoMemory → CanBeCut enclosing.now boundary text.now) }
{
    if !is_usable(enclosing, boundary.as_slice()) {
        return Err(ReadFault::Unreadable(Reason::NoBoundary));
    }
    match behind_delimiter(boundary.as_slice(), text) {
        Some(rest) => read_inner(alloc, levels, enclosing, boundary, digest, number, rest),
        None => Err(ReadFault::Unreadable(Reason::NoDelimiter)),
    }
}

/// The parts of a multipart, which stand behind its first delimiter.
#[cycle(reader)]
fn read_inner(
    alloc: Global,
    levels: usize,
    enclosing: &[Octets],
    boundary: Octets,
    digest: bool,
    number: &mut usize,
    text: &[u8],
) -> Result<Body, ReadFault>
    requires { IsCrlf text.now }
    ensures { Answers content_of nodes_in number.old number.new result (read_multipart_of (read levels (boundary ∷ enclosing.now) digest) number.old (texts boundary text.now)) }
{
    let own = boundary.as_slice();
    match within(alloc, own, enclosing) {
        Ok(inner) => match read_parts(alloc, levels, &inner, own, digest, number, text) {
            Ok(parts) => Ok(Body::Multi(parts)),
            Err(fault) => Err(fault),
        },
        Err(_) => Err(ReadFault::NoMemory),
    }
}

/// The boundaries around the parts of a multipart, its own first. Each that is usable has 70 bytes at most.
fn within(alloc: Global, own: &[u8], enclosing: &[Octets]) -> Result<Vec<Octets>, AllocError>
    ensures { IfOk result (λ found. found.items ≡ own.now ∷ enclosing.now) }
{
    let mut inner = Vec::with_capacity(alloc, enclosing.len().saturating_add(1))?;
    inner.push(Octets::new(own.to_vec(alloc)?))?;
    for outer in enclosing {
        inner.push(Octets::new(outer.as_slice().to_vec(alloc)?))?;
    }
    Ok(inner)
}

/// The parts between delimiters, one after another.
#[cycle(reader)]
fn read_parts(
    alloc: Global,
    levels: usize,
    enclosing: &[Octets],
    boundary: &[u8],
    digest: bool,
    number: &mut usize,
    text: &[u8],
) -> Result<Vec<Message>, ReadFault>
    requires { IsCrlf text.now }
    ensures { Answers (λ parts. trees_of parts.items) nodes_of number.old number.new result (read_parts_of (read levels enclosing.now digest) number.old (texts boundary.now text.now)) }
{
    let mut out = Vec::new(alloc);
    let mut left = Some(text);
    while let Some(rest) = left {
        let (piece, behind) = first_piece(boundary, rest);
        match read_node(alloc, levels, enclosing, digest, number, piece) {
            Ok(message) => match keep(&mut out, message) {
                Ok(()) => {}
                Err(fault) => return Err(fault),
            },
            Err(fault) => return Err(fault),
        }
        left = behind;
    }
    Ok(out)
}

fn keep(out: &mut Vec<Message>, message: Message) -> Result<(), ReadFault>
    ensures kept { OnOk result (out.new.items ≡ out.old.items ++ message ∷ []) }
    ensures fault { IfErr result (λ fault. fault ≡ ReadFault.NoMemory) }
{
    match out.push(message) {
        Ok(()) => Ok(()),
        Err(_) => Err(ReadFault::NoMemory),
    }
}

/// Bytes are exactly one message, or have a reason.
pub fn law_reading()
    ensures { ReadingLaws }
{
    law_fields();
}

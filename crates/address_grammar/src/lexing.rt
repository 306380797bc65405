//! A value cut into its pieces, each byte once.
ghost use Rattle.std.specs.Prelude.{◌≡◌, ℕ, ◌+◌, ◌-◌, ◌^◌, ◌<◌, ◌≤◌, ◌∷◌, length, slice_index, take, drop, option_map, IfOk};
ghost use Rattle.address_grammar.specs.declared.pieces.Piece.TheVariants.{Run, Quoted, Comment, Literal};
ghost use Rattle.address_grammar.specs.Pieces.{before, depth_behind, in_comment, in_literal, in_quotes, in_run, onto, pieces as pieces_of, special_of};
ghost use Rattle.address_grammar.specs.Found.{Finds, IsPiece};

use crate::bytes::{RunByte, is_plain};
use crate::pieces::{Piece, Special};
use mail_text::{front_len, is_blank};
use octets::Octets;
use std::alloc::{AllocError, Global};

/// The pieces of a value, or None where it has no reading.
pub(crate) fn pieces(alloc: Global, value: &[u8]) -> Result<Option<Vec<Piece>>, AllocError>
    ensures { IfOk result (λ r. option_map (λ v. v.items) r ≡ pieces_of value.now) }
{
    let mut out = Vec::new(alloc);
    let mut at = 0;
    while at < value.len() {
        match piece(alloc, &value[at..])? {
            Some((piece, taken)) => {
                out.push(piece)?;
                at += taken;
            }
            None => return Ok(None),
        }
    }
    Ok(Some(out))
}

/// The piece that a text begins with, and how many bytes it takes.
fn piece(alloc: Global, text: &[u8]) -> Result<Option<(Piece, usize)>, AllocError>
    requires { 0 < length text.now }
    ensures { IfOk result (Finds (pieces_of text.now) text.now (λ r. r.0) (λ r. r.1)) }
{
    let first = text[0];
    let rest = &text[1..];
    if is_plain(first) {
        let end = run_len(rest) + 1;
        return Ok(Some((Piece::Run(copied(alloc, &text[..end])?), end)));
    }
    if is_blank(first) {
        return Ok(Some((Piece::Blank, 1)));
    }
    if first == b'"' {
        return match quoted(alloc, rest)? {
            Some((text, taken)) => Ok(Some((Piece::Quoted(text), taken + 1))),
            None => Ok(None),
        };
    }
    if first == b'(' {
        return match comment(alloc, rest)? {
            Some((text, taken)) => Ok(Some((Piece::Comment(text), taken + 1))),
            None => Ok(None),
        };
    }
    if first == b'[' {
        let found = literal(alloc, text)?;
        return Ok(found);
    }
    match special(first) {
        Some(special) => Ok(Some((Piece::Mark(special), 1))),
        None => Ok(None),
    }
}

fn copied(alloc: Global, text: &[u8]) -> Result<Octets, AllocError>
    ensures { IfOk result (λ o. o ≡ text.now) }
{
    let bytes = text.to_vec(alloc)?;
    Ok(Octets::new(bytes))
}

fn special(b: u8) -> Option<Special>
    ensures { result ≡ special_of b }
{
    match b {
        b',' => Some(Special::Comma),
        b':' => Some(Special::Colon),
        b';' => Some(Special::Semicolon),
        b'<' => Some(Special::Open),
        b'>' => Some(Special::Close),
        b'@' => Some(Special::At),
        _ => None,
    }
}

/// How long the rest of a run is.
fn run_len(rest: &[u8]) -> usize
    ensures within { result ≤ length rest.now }
    ensures is { in_run rest.now ≡ before (Run (take result rest.now)) (pieces_of (drop result rest.now)) }
{
    front_len::<RunByte>(rest)
}

/// The text of a quoted string whose first quote was read, and how many bytes it takes with its other quote.
fn quoted(alloc: Global, rest: &[u8]) -> Result<Option<(Octets, usize)>, AllocError>
    ensures { IfOk result (Finds (in_quotes rest.now) rest.now (λ r. Quoted r.0) (λ r. r.1)) }
{
    let mut text = Vec::new(alloc);
    let mut at = 0;
    while at < rest.len() {
        let b = rest[at];
        if b == b'"' {
            return Ok(Some((Octets::new(text), at + 1)));
        }
        if b == b'\\' {
            if at + 1 >= rest.len() {
                return Ok(None);
            }
            text.push(rest[at + 1])?;
            at += 2;
            continue;
        }
        text.push(b)?;
        at += 1;
    }
    Ok(None)
}

/// The text of a comment whose first parenthesis was read, and how many bytes it takes with its other parenthesis.
fn comment(alloc: Global, rest: &[u8]) -> Result<Option<(Octets, usize)>, AllocError>
    ensures { IfOk result (Finds (in_comment 0 rest.now) rest.now (λ r. Comment r.0) (λ r. r.1)) }
{
    let mut text = Vec::new(alloc);
    let mut depth = 0;
    let mut at = 0;
    while at < rest.len() {
        let b = rest[at];
        if b == b'\\' {
            if at + 1 >= rest.len() {
                return Ok(None);
            }
            text.push(rest[at + 1])?;
            at += 2;
            continue;
        }
        if b == b')' && depth == 0 {
            return Ok(Some((Octets::new(text), at + 1)));
        }
        text.push(b)?;
        depth = depth_after(depth, b);
        at += 1;
    }
    Ok(None)
}

/// How many inner comments are open behind a byte.
fn depth_after(depth: usize, b: u8) -> usize
    requires { depth + 1 < 2 ^ 64 }
    ensures { result ≡ depth_behind depth b }
{
    if b == b'(' {
        depth + 1
    } else if b == b')' {
        depth.saturating_sub(1)
    } else {
        depth
    }
}

/// The domain literal that a text with `[` at its front begins with, and how many bytes it takes.
fn literal(alloc: Global, text: &[u8]) -> Result<Option<(Piece, usize)>, AllocError>
    requires { 0 < length text.now }
    ensures { IfOk result (Finds (onto (slice_index text.now 0) (in_literal (drop 1 text.now))) text.now (λ r. r.0) (λ r. r.1)) }
{
    match literal_len(&text[1..]) {
        Some(taken) => Ok(Some((
            Piece::Literal(copied(alloc, &text[..taken + 1])?),
            taken + 1,
        ))),
        None => Ok(None),
    }
}

/// How long the rest of a domain literal is whose `[` was read.
fn literal_len(rest: &[u8]) -> Option<usize>
    ensures { Finds (in_literal rest.now) rest.now (λ n. Literal (take n rest.now)) (λ n. n) result }
{
    for at in 0..rest.len() {
        if rest[at] == b']' {
            return Some(at + 1);
        }
        if rest[at] == b'[' || rest[at] == b'\\' {
            return None;
        }
    }
    None
}

//! The address that a place is (RFC 5322 §3.4).
ghost use Rattle.std.specs.Prelude.{◌≡◌, ◌∷◌, ◌<◌, ◌≤◌, [], ◌++◌, ◌&&◌, if◌then◌else◌, length, take, drop, false, None, Some, IfOk, OnOk, MatchOption};
ghost use Rattle.address_grammar.specs.Words.{are_gaps as are_gaps_of, bare, comment_name as comment_name_of, comments, domain_of as domain_of_piece, ending_gaps, is_gap as is_gap_of, is_mark as is_mark_of, is_phrase as is_phrase_of, is_wordlike as is_wordlike_of, local_of as local_of_piece, name_of};
ghost use Rattle.address_grammar.specs.Addresses.{addr as addr_of, address as address_of, alone as alone_of, begins_angle as begins_angle_of, behind_phrase, behind_route as behind_route_of, closed, front_phrase, is_close, routed_addr as routed_addr_of};
ghost use Rattle.address_grammar.specs.Addresses.AddrSpec.{addr_spec};
ghost use Rattle.address_grammar.specs.Found.{IsAddr, IsNext, IsWordText};
ghost use Rattle.mime_tree.specs.declared.values.Item.TheVariants.{Address};

use crate::pieces::{Piece, Special};
use mail_text::trim;
use mime_tree::Item;
use octets::Octets;
use std::alloc::{AllocError, Global};

/// A local part and a domain, and the pieces behind them.
#[derive(Clone, Copy)]
struct AddrParts<'a> {
    local: &'a [u8],
    domain: &'a [u8],
    rest: &'a [Piece],
}

/// Whether white space or a comment.
pub(crate) fn is_gap(piece: &Piece) -> bool
    ensures { result ≡ is_gap_of piece.now }
{
    match piece {
        Piece::Comment(_) => true,
        Piece::Blank => true,
        _ => false,
    }
}

fn is_wordlike(piece: &Piece) -> bool
    ensures { result ≡ is_wordlike_of piece.now }
{
    match piece {
        Piece::Run(_) => true,
        Piece::Quoted(_) => true,
        _ => false,
    }
}

fn is_mark(piece: &Piece, special: Special) -> bool
    ensures { result ≡ is_mark_of special piece.now }
{
    match piece {
        Piece::Mark(found) => *found == special,
        _ => false,
    }
}

fn local_of(piece: &Piece) -> Option<&[u8]>
    ensures { MatchOption result (local_of_piece piece.now ≡ None) (λ text. local_of_piece piece.now ≡ Some text.now) }
{
    match piece {
        Piece::Run(text) => Some(text.as_slice()),
        Piece::Quoted(text) => Some(text.as_slice()),
        _ => None,
    }
}

fn domain_of(piece: &Piece) -> Option<&[u8]>
    ensures { MatchOption result (domain_of_piece piece.now ≡ None) (λ text. domain_of_piece piece.now ≡ Some text.now) }
{
    match piece {
        Piece::Run(text) => Some(text.as_slice()),
        Piece::Literal(text) => Some(text.as_slice()),
        _ => None,
    }
}

/// Whether there is nothing but white space and comments.
pub(crate) fn are_gaps(pieces: &[Piece]) -> bool
    ensures { result ≡ are_gaps_of pieces.now }
{
    for piece in pieces {
        if !is_gap(piece) {
            return false;
        }
    }
    true
}

/// The first piece that is neither white space nor a comment, and what is behind it.
fn next_piece(pieces: &[Piece]) -> Option<(&Piece, &[Piece])>
    ensures { MatchOption result (bare pieces.now ≡ []) (λ r. IsNext pieces.now r.0.now r.1.now) }
{
    for (at, piece) in pieces.iter().enumerate() {
        if !is_gap(piece) {
            return Some((piece, &pieces[at + 1..]));
        }
    }
    None
}

/// The addr that pieces begin with.
fn addr(pieces: &[Piece]) -> Option<AddrParts<'_>>
    ensures { MatchOption result (addr_of (bare pieces.now) ≡ None) (λ a. IsAddr pieces.now a.local.now a.domain.now a.rest.now) }
{
    let (first, rest) = next_piece(pieces)?;
    let (at, rest) = next_piece(rest)?;
    if !is_mark(at, Special::At) {
        return None;
    }
    let (last, rest) = next_piece(rest)?;
    let local = local_of(first)?;
    let domain = domain_of(last)?;
    Some(AddrParts {
        local,
        domain,
        rest,
    })
}

/// What is behind a route whose first `@` was read.
fn behind_route(pieces: &[Piece]) -> Option<&[Piece]>
    ensures { MatchOption result (behind_route_of (bare pieces.now) ≡ None) (λ r. behind_route_of (bare pieces.now) ≡ Some (bare r.now)) }
{
    let mut rest = pieces;
    'domains: loop {
        let (domain, behind) = next_piece(rest)?;
        if domain_of(domain).is_none() {
            return None;
        }
        let (mark, behind) = next_piece(behind)?;
        if is_mark(mark, Special::Colon) {
            return Some(behind);
        }
        let (at, behind) = next_piece(behind)?;
        if !is_mark(mark, Special::Comma) || !is_mark(at, Special::At) {
            return None;
        }
        rest = behind;
    }
}

/// The addr behind a `<`, after a route or none.
fn routed_addr(pieces: &[Piece]) -> Option<AddrParts<'_>>
    ensures { MatchOption result (routed_addr_of (bare pieces.now) ≡ None) (λ a. routed_addr_of (bare pieces.now) ≡ Some (addr_spec a.local.now a.domain.now (bare a.rest.now))) }
{
    let (first, rest) = next_piece(pieces)?;
    if is_mark(first, Special::At) {
        return addr(behind_route(rest)?);
    }
    addr(pieces)
}

/// How many pieces the phrase at the front takes.
fn phrase_len(pieces: &[Piece]) -> usize
    ensures front { front_phrase pieces.now ≡ take result pieces.now }
    ensures behind { behind_phrase pieces.now ≡ drop result pieces.now }
    ensures within { result ≤ length pieces.now }
{
    let mut len = 0;
    while len < pieces.len() && (is_gap(&pieces[len]) || is_wordlike(&pieces[len])) {
        len += 1;
    }
    len
}

/// Whether there are only words, white space and comments.
pub(crate) fn is_phrase(pieces: &[Piece]) -> bool
    ensures { result ≡ is_phrase_of pieces.now }
{
    for piece in pieces {
        if !is_gap(piece) && !is_wordlike(piece) {
            return false;
        }
    }
    true
}

/// The name that a phrase gives: its words with one space between each two.
pub(crate) fn name(alloc: Global, pieces: &[Piece]) -> Result<Vec<u8>, AllocError>
    ensures { IfOk result (λ v. v.items ≡ name_of pieces.now) }
{
    let mut out = Vec::new(alloc);
    let mut begun = false;
    let mut apart = false;
    for piece in pieces {
        let Some(text) = word_text(piece) else {
            apart = true;
            continue;
        };
        append_word(&mut out, begun, apart, text)?;
        begun = true;
        apart = false;
    }
    Ok(out)
}

fn word_text(piece: &Piece) -> Option<&[u8]>
    ensures { MatchOption result (is_wordlike_of piece.now ≡ false) (λ text. IsWordText piece.now text.now) }
{
    match piece {
        Piece::Run(text) => Some(text.as_slice()),
        Piece::Quoted(text) => Some(text.as_slice()),
        _ => None,
    }
}

/// Appends a word or a part of one, behind a space where a word was begun and there is something between.
fn append_word(out: &mut Vec<u8>, begun: bool, apart: bool, text: &[u8]) -> Result<(), AllocError>
    ensures { OnOk result (out.new.items ≡ out.old.items ++ (if begun && apart then 32 ∷ text.now else text.now)) }
{
    if begun && apart {
        out.push(b' ')?;
    }
    out.extend_from_slice(text)?;
    Ok(())
}

/// The text of a single comment. None where there is no comment, or several.
fn single_comment(pieces: &[Piece]) -> Option<&[u8]>
    ensures { MatchOption result (comment_name_of (comments pieces.now) ≡ []) (λ text. comments pieces.now ≡ text.now ∷ []) }
{
    let mut found: Option<&[u8]> = None;
    for piece in pieces {
        if let Piece::Comment(text) = piece {
            if found.is_some() {
                return None;
            }
            found = Some(text.as_slice());
        }
    }
    found
}

/// The name that a single comment gives.
fn comment_name(alloc: Global, pieces: &[Piece]) -> Result<Vec<u8>, AllocError>
    ensures { IfOk result (λ v. v.items ≡ comment_name_of (comments pieces.now)) }
{
    match single_comment(pieces) {
        Some(text) => {
            let name = trim(text).to_vec(alloc)?;
            Ok(name)
        }
        None => Ok(Vec::new(alloc)),
    }
}

fn item(alloc: Global, name: Vec<u8>, parts: AddrParts<'_>) -> Result<Item, AllocError>
    ensures { IfOk result (λ i. i ≡ Address name.items parts.entry.local.now parts.entry.domain.now) }
{
    let local = parts.local.to_vec(alloc)?;
    let domain = parts.domain.to_vec(alloc)?;
    Ok(Item::Address {
        name: Octets::new(name),
        local: Octets::new(local),
        domain: Octets::new(domain),
    })
}

/// The address that a whole place is, or None.
pub(crate) fn address(alloc: Global, place: &[Piece]) -> Result<Option<Item>, AllocError>
    ensures { IfOk result (λ r. r ≡ address_of place.now) }
{
    let len = phrase_len(place);
    let behind = &place[len..];
    if begins_angle(behind) {
        return in_angles(alloc, &place[..len], &behind[1..]);
    }
    alone(alloc, place)
}

fn begins_angle(pieces: &[Piece]) -> bool
    ensures { result ≡ begins_angle_of pieces.now }
{
    !pieces.is_empty() && is_mark(&pieces[0], Special::Open)
}

/// The address of a place without angle brackets.
fn alone(alloc: Global, place: &[Piece]) -> Result<Option<Item>, AllocError>
    ensures { IfOk result (λ r. r ≡ alone_of (comment_name_of (comments (ending_gaps place.now))) (addr_of (bare place.now))) }
{
    let Some(parts) = addr(place) else {
        return Ok(None);
    };
    if !are_gaps(parts.rest) {
        return Ok(None);
    }
    let name = comment_name(alloc, parts.rest)?;
    Ok(Some(item(alloc, name, parts)?))
}

/// The address of a phrase and what is behind a `<`.
fn in_angles(alloc: Global, phrase: &[Piece], behind: &[Piece]) -> Result<Option<Item>, AllocError>
    ensures { IfOk result (λ r. r ≡ closed (name_of phrase.now) (routed_addr_of (bare behind.now))) }
{
    let Some(parts) = routed_addr(behind) else {
        return Ok(None);
    };
    if !closes(parts.rest) {
        return Ok(None);
    }
    let name = name(alloc, phrase)?;
    Ok(Some(item(alloc, name, parts)?))
}

/// Whether there is a `>` and nothing else but white space and comments.
fn closes(pieces: &[Piece]) -> bool
    ensures { result ≡ is_close (bare pieces.now) }
{
    match next_piece(pieces) {
        Some((piece, rest)) => is_mark(piece, Special::Close) && are_gaps(rest),
        None => false,
    }
}

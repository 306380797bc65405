//! Units with a literal, and texts of sets.
use imap_lexer::{Fed, Lexer};
use imap_writer::uid_set;
use std::alloc::{AllocError, Global};

/// How many bytes come at once.
const PIECE: usize = 65_536;

/// Whether bytes that come in pieces are taken as a whole unit.
fn is_unit(alloc: Global, unit: &[u8]) -> Result<bool, AllocError> {
    let mut lexer = Lexer::new(alloc)?;
    let mut rest = unit;
    'pieces: for _ in 0..unit.len() {
        let piece = rest.len().min(PIECE);
        let taken = lexer.feed_literal(&rest[..piece])?;
        let Some((byte, behind)) = rest[taken..].split_first() else {
            return Ok(false);
        };
        rest = behind;
        match lexer.feed(*byte)? {
            Fed::More | Fed::Continue => {}
            Fed::Unit => return Ok(rest.is_empty()),
            Fed::LineTooLong | Fed::LiteralTooLong => return Ok(false),
        }
    }
    Ok(false)
}

fn append_of(alloc: Global, bytes: u64) -> Result<Vec<u8>, AllocError> {
    let mut unit = format!(in alloc; "a APPEND x {{{bytes}}}\r\n")?
        .as_bytes()
        .to_vec(alloc)?;
    for _ in 0..bytes {
        unit.push(b'x')?;
    }
    unit.extend_from_slice(b"\r\n")?;
    Ok(unit)
}

/// Takes a unit with a literal of so many bytes, so many times. The bytes of the unit, and the last turn at which it was one.
pub(crate) fn take_units(alloc: Global, bytes: u64, count: u64) -> Option<(u64, u64)> {
    let unit = append_of(alloc, bytes).ok()?;
    let mut last = 0;
    for turn in 0..count {
        if is_unit(alloc, unit.as_slice()).ok()? {
            last = turn + 1;
        }
    }
    Some((unit.len() as u64, last))
}

/// Copies so many bytes in pieces, so many times: what the literal is compared with.
pub(crate) fn copy(alloc: Global, bytes: u64, count: u64) -> Option<(u64, u64)> {
    let unit = append_of(alloc, bytes).ok()?;
    let mut last = 0;
    for _ in 0..count {
        let mut out = Vec::new(alloc);
        for piece in unit.as_slice().chunks(PIECE) {
            out.extend_from_slice(piece).ok()?;
        }
        last = out.len() as u64;
    }
    Some((unit.len() as u64, last))
}

/// Prints a set of so many UIDs, no two of which are neighbours, so many times. The UIDs, and the bytes of the text.
pub(crate) fn print_sets(alloc: Global, uids: u32, count: u64) -> Option<(u64, u64)> {
    let mut all = Vec::new(alloc);
    for at in 0..uids {
        all.push(at.saturating_mul(2).max(1)).ok()?;
    }
    let mut bytes = 0;
    for _ in 0..count {
        bytes = uid_set(alloc, all.as_slice()).ok()?.len() as u64;
    }
    Some((all.len() as u64, bytes))
}

//! The ways in which a command may be written (RFC 3501 §4, §9).
//!
//! Texts here have marks: a string stands between `` ` ``, an atom whose case counts between `|`, and `@A`, `@B` .. are places for other
//! texts.
use std::alloc::{AllocError, Global};

/// The case of the letters of keywords.
#[derive(Clone, Copy, PartialEq, Eq)]
pub(crate) enum Letters {
    AsTheyAre,
    Small,
    Mixed,
}

/// The form of strings.
#[derive(Clone, Copy, PartialEq, Eq)]
pub(crate) enum Strings {
    /// As atoms where they may be ones, else in quotes.
    Atoms,
    /// In quotes where they may stand there, else as literals.
    Quoted,
    Literals,
    /// No form of IMAP, but what `Debug` shows of the content.
    Shown,
}

#[derive(Clone, Copy, PartialEq, Eq)]
enum Kind {
    Plain,
    String,
    Atom,
}

/// What comes behind a mark. None where the byte is none in a part of this kind.
fn kind_behind(kind: Kind, b: u8) -> Option<Kind> {
    match (kind, b) {
        (Kind::Plain, b'`') => Some(Kind::String),
        (Kind::Plain, b'|') => Some(Kind::Atom),
        (Kind::String, b'`') => Some(Kind::Plain),
        (Kind::Atom, b'|') => Some(Kind::Plain),
        _ => None,
    }
}

fn is_atom(bytes: &[u8]) -> bool {
    !bytes.is_empty()
        && bytes
            .iter()
            .all(|b| *b > b' ' && *b < 0x7F && !b"(){%*\"\\".contains(b))
}

fn is_quotable(bytes: &[u8]) -> bool {
    bytes.iter().all(|b| *b != 0 && *b != b'\r' && *b != b'\n')
}

fn push_quoted(out: &mut Vec<u8>, bytes: &[u8]) -> Result<(), AllocError> {
    out.push(b'"')?;
    for b in bytes {
        if *b == b'"' || *b == b'\\' {
            out.push(b'\\')?;
        }
        out.push(*b)?;
    }
    Ok(out.push(b'"')?)
}

fn push_literal(alloc: Global, out: &mut Vec<u8>, bytes: &[u8]) -> Result<(), AllocError> {
    let len = bytes.len();
    out.extend_from_slice(format!(in alloc; "{{{len}}}\r\n")?.as_bytes())?;
    out.extend_from_slice(bytes)
}

fn push_string(
    alloc: Global,
    out: &mut Vec<u8>,
    bytes: &[u8],
    strings: Strings,
) -> Result<(), AllocError> {
    if strings == Strings::Atoms && is_atom(bytes) {
        out.extend_from_slice(bytes)
    } else if strings != Strings::Literals && is_quotable(bytes) {
        push_quoted(out, bytes)
    } else {
        push_literal(alloc, out, bytes)
    }
}

fn push_letters(out: &mut Vec<u8>, bytes: &[u8], letters: Letters) -> Result<(), AllocError> {
    for b in bytes {
        let small = letters == Letters::Small || letters == Letters::Mixed && out.len() % 2 == 0;
        out.push(if small { b.to_ascii_lowercase() } else { *b })?;
    }
    Ok(())
}

fn push_part(
    alloc: Global,
    out: &mut Vec<u8>,
    kind: Kind,
    bytes: &[u8],
    letters: Letters,
    strings: Strings,
) -> Result<(), AllocError> {
    if kind == Kind::Plain {
        push_letters(out, bytes, letters)
    } else if strings == Strings::Shown {
        out.extend_from_slice(format!(in alloc; "Octets {{ bytes: {bytes:?} }}")?.as_bytes())
    } else if kind == Kind::Atom {
        out.extend_from_slice(bytes)
    } else {
        push_string(alloc, out, bytes, strings)
    }
}

/// A text in which no places are left, written so.
pub(crate) fn written(
    alloc: Global,
    text: &[u8],
    letters: Letters,
    strings: Strings,
) -> Result<Vec<u8>, AllocError> {
    let mut out = Vec::new(alloc);
    let mut kind = Kind::Plain;
    let mut part = Vec::new(alloc);
    for b in text {
        if let Some(next) = kind_behind(kind, *b) {
            push_part(alloc, &mut out, kind, part.as_slice(), letters, strings)?;
            part.clear();
            kind = next;
        } else {
            part.push(*b)?;
        }
    }
    push_part(alloc, &mut out, kind, part.as_slice(), letters, strings)?;
    Ok(out)
}

/// A text with the texts for its places.
fn once_filled(alloc: Global, text: &[u8], places: &[&str]) -> Result<Vec<u8>, AllocError> {
    let mut out = Vec::new(alloc);
    let mut is_place = false;
    for b in text {
        if is_place {
            let place = b.wrapping_sub(b'A') as usize;
            out.extend_from_slice(places.get(place).copied().unwrap_or("?").as_bytes())?;
            is_place = false;
        } else if *b == b'@' {
            is_place = true;
        } else {
            out.push(*b)?;
        }
    }
    Ok(out)
}

/// A text with the texts for its places, which may have places themselves, four deep.
pub(crate) fn filled(alloc: Global, text: &str, places: &[&str]) -> Result<Vec<u8>, AllocError> {
    let mut out = text.as_bytes().to_vec(alloc)?;
    for _ in 0..4 {
        out = once_filled(alloc, out.as_slice(), places)?;
    }
    Ok(out)
}

//! Command lines, read again and again.
use imap_grammar::parse;
use std::alloc::{AllocError, Global};

/// What goes before the parts of a line, a part, what stands between two, and what goes behind.
#[derive(Clone, Copy)]
struct Shape {
    head: &'static [u8],
    part: &'static [u8],
    between: &'static [u8],
    tail: &'static [u8],
}

/// A set of UIDs.
const FETCH: Shape = Shape {
    head: b"a UID FETCH ",
    part: b"429496:429999",
    between: b",",
    tail: b" (FLAGS UID)\r\n",
};

/// The last keys of the table.
const SEARCH: Shape = Shape {
    head: b"a UID SEARCH ",
    part: b"UNSEEN",
    between: b" ",
    tail: b"\r\n",
};

/// Keys with strings.
const TEXTS: Shape = Shape {
    head: b"a SEARCH ",
    part: b"SUBJECT \"word\"",
    between: b" ",
    tail: b"\r\n",
};

/// Names of fields.
const FIELDS: Shape = Shape {
    head: b"a FETCH 1 BODY[HEADER.FIELDS (",
    part: b"List-Unsubscribe",
    between: b" ",
    tail: b")]\r\n",
};

/// A long name.
const LIST: Shape = Shape {
    head: b"a LIST \"\" ",
    part: b"Archive.%",
    between: b".",
    tail: b"\r\n",
};

/// Flags.
const STORE: Shape = Shape {
    head: b"a UID STORE 1:* +FLAGS (",
    part: b"$Forwarded",
    between: b" ",
    tail: b")\r\n",
};

/// Parts of messages.
const PARTS: Shape = Shape {
    head: b"a FETCH 1:* (",
    part: b"BODY.PEEK[1.2.MIME]<0.4096>",
    between: b" ",
    tail: b")\r\n",
};

fn shape_named(name: &str) -> Option<Shape> {
    match name {
        "fetch" => Some(FETCH),
        "search" => Some(SEARCH),
        "texts" => Some(TEXTS),
        "fields" => Some(FIELDS),
        "list" => Some(LIST),
        "store" => Some(STORE),
        "parts" => Some(PARTS),
        _ => None,
    }
}

/// A line of the shape with so many parts.
fn line(alloc: Global, shape: &Shape, parts: u64) -> Result<Vec<u8>, AllocError> {
    let mut line = shape.head.to_vec(alloc)?;
    for _ in 1..parts {
        line.extend_from_slice(shape.part)?;
        line.extend_from_slice(shape.between)?;
    }
    line.extend_from_slice(shape.part)?;
    line.extend_from_slice(shape.tail)?;
    Ok(line)
}

/// How often the line was read as a command, of so many times.
fn read(alloc: Global, line: &[u8], count: u64) -> u64 {
    let mut last = 0;
    for turn in 0..count {
        if parse(alloc, line).is_ok() {
            last = turn + 1;
        }
    }
    last
}

/// Reads a line of the shape, of nearly so many bytes, so many times. The bytes of the line, and which turn was the last at which it was a
/// command.
pub(crate) fn read_lines(alloc: Global, name: &str, bytes: u64, count: u64) -> Option<(u64, u64)> {
    let shape = shape_named(name)?;
    let part = shape.part.len() as u64 + shape.between.len() as u64;
    let around = shape.head.len() as u64 + shape.tail.len() as u64;
    let line = line(alloc, &shape, bytes.saturating_sub(around) / part.max(1)).ok()?;
    Some((line.len() as u64, read(alloc, line.as_slice(), count)))
}

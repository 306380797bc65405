// Parts from their rows.
ghost use Rattle.std.specs.Prelude.{◌≡◌, ◌≤◌, ℕ, List, IfOk};
ghost use Rattle.mime_tree.specs.Contents.{content_of, trees_of};
ghost use Rattle.mime_tree.specs.Sizes.{levels, levels_in, levels_of};
ghost use Rattle.mime_tree.specs.Trees.{Content, Tree, Trees};
ghost use Rattle.mime_tree.specs.Trees.Content.{leaf};
ghost use Rattle.row_store.specs.Holding.{in_row, stored_by};
ghost use Rattle.shredder.specs.MessageRows.{HasBody, HasChildren, HasNode};
ghost use Rattle.shredder.specs.Paths.{child_path};
ghost use Rattle.rebuilder.specs.Parts.{IsPart};

use crate::fields::fields_in;
use crate::paths::child_of;
use crate::values::copied;
use mime_tree::{Body, Encoding, Message};
use octets::Octets;
use row_tables::{PartNumber, Tables};
use std::alloc::{AllocError, Global};

// The message or part whose row this is, of at most so many levels.
#[cycle(tree)]
pub(crate) fn node_in(
    alloc: Global,
    tables: &Tables,
    part: &PartNumber,
    most: usize,
) -> Result<Message, AllocError>
    ensures { (tree : Tree) → IsPart tables.now part.now → HasNode (stored_by in_row tables.now) part.now.message part.now.path tree → levels tree ≤ most
        → IfOk result (λ message. message ≡ tree) }
{
    if most == 0 {
        return Ok(empty_message(alloc));
    }
    let fields = fields_in(alloc, tables, part.message, part.path.as_slice())?;
    let body = body_in(alloc, tables, part, most - 1)?;
    Ok(Message { fields, body })
}

// A message with nothing in it, which stands for what isn't there.
pub(crate) fn empty_message(alloc: Global) -> Message {
    Message {
        fields: Vec::new(alloc),
        body: Body::Leaf {
            encoding: Encoding::Plain,
            bytes: Octets::new(Vec::new(alloc)),
        },
    }
}

#[cycle(tree)]
fn body_in(
    alloc: Global,
    tables: &Tables,
    part: &PartNumber,
    most: usize,
) -> Result<Body, AllocError>
    ensures { (content : Content) → IsPart tables.now part.now → HasBody (stored_by in_row tables.now) part.now.message part.now.path content → levels_in content ≤ most
        → IfOk result (λ body. content_of body ≡ content) }
{
    match part.kind {
        0 => leaf_in(alloc, tables, part, Encoding::Plain),
        1 => leaf_in(alloc, tables, part, Encoding::Base64),
        2 => Ok(Body::Multi(children_in(alloc, tables, part, most)?)),
        _ => {
            let inner = inner_in(alloc, tables, part, most)?;
            Ok(Body::Nested(Box::new(alloc, inner)?))
        }
    }
}

// The parts of a multipart.
#[cycle(tree)]
fn children_in(
    alloc: Global,
    tables: &Tables,
    part: &PartNumber,
    most: usize,
) -> Result<Vec<Message>, AllocError>
    ensures { (trees : Trees) → HasChildren (stored_by in_row tables.now) part.now.message part.now.path 1 trees → levels_of trees ≤ most
        → IfOk result (λ v. trees_of v.items ≡ trees) }
{
    let mut children = Vec::new(alloc);
    'parts: while let Some(child) = child_of(alloc, tables, part, 1 + children.len() as u64)? {
        children.push(node_in(alloc, tables, child, most)?)?;
    }
    Ok(children)
}

// The message within a part.
#[cycle(tree)]
fn inner_in(
    alloc: Global,
    tables: &Tables,
    part: &PartNumber,
    most: usize,
) -> Result<Message, AllocError>
    ensures { (tree : Tree) → HasNode (stored_by in_row tables.now) part.now.message (child_path part.now.path 0) tree → levels tree ≤ most
        → IfOk result (λ message. message ≡ tree) }
{
    match child_of(alloc, tables, part, 0)? {
        Some(inner) => node_in(alloc, tables, inner, most),
        None => Ok(empty_message(alloc)),
    }
}

// The body of a leaf.
fn leaf_in(
    alloc: Global,
    tables: &Tables,
    part: &PartNumber,
    encoding: Encoding,
) -> Result<Body, AllocError>
    ensures { (bytes : List ℕ) → IsPart tables.now part.now → HasBody (stored_by in_row tables.now) part.now.message part.now.path (leaf encoding bytes)
        → IfOk result (λ body. content_of body ≡ leaf encoding bytes) }
{
    let bytes = match tables.bodyparts_row(part.body) {
        Some(row) => copied(alloc, &row.content)?,
        None => Octets::new(Vec::new(alloc)),
    };
    Ok(Body::Leaf { encoding, bytes })
}

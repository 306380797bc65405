//! A message as a tree of parts.
use crate::values::Field;
use octets::Octets;
use std::marker::Model;

/// How the bytes of a leaf stand in the text of its message (RFC 2045 §6).
#[derive(Clone, Copy, Debug, PartialEq, Eq)]
pub enum Encoding {
    /// As they are, whatever encoding the header names.
    Plain,
    /// In base64; the leaf has the decoded bytes.
    Base64,
}

/// The body of a message or of a part.
#[cycle(message)]
#[derive(Debug, Drop)]
pub enum Body {
    /// A body that has no parts.
    Leaf { encoding: Encoding, bytes: Octets },
    /// The parts of a multipart, in their order (RFC 2046 §5.1).
    Multi(Vec<Message>),
    /// A message within a message (RFC 2046 §5.2.1).
    Nested(Box<Message>),
}

/// A message, or a part of one: header fields in their order, and a body.
#[cycle(message)]
#[derive(Debug, Drop)]
pub struct Message {
    pub fields: Vec<Field>,
    pub body: Body,
}

impl Model for Message {
    ghost use Rattle.std.specs.Prelude.{List};
    ghost use Rattle.std.specs.Coded.{code_by, coded_list, codes};
    ghost use Rattle.mime_tree.specs.Trees.{Tree};
    ghost use Rattle.mime_tree.specs.Trees.Tree.{node};
    ghost use Rattle.mime_tree.specs.Sizes.{nodes};
    ghost use Rattle.mime_tree.specs.Code.{Token, tokens, tree_made, tree_made-tokens};

    ghost Value = { Tree };

    ghost coded = { code_by (List Token) (coded_list (Prim.hlevel codes)) tokens tree_made tree_made-tokens };

    ghost use Rattle.mime_tree.specs.Contents.{content_of};

    ghost view = { λ m. node m.fields.items (content_of m.body) };

    ghost size = { nodes };

    ghost use Rattle.std.proofs.Common.{arith};
    ghost use Rattle.mime_tree.specs.Falls.{deep_le-nodes};

    ghost size_decreases = { λ m _. Prim.omega (arith, deep_le-nodes m.body) };
}

//! The parts of a message by their numbers.
ghost use Rattle.std.specs.Prelude.{◌≡◌, Some};
ghost use Rattle.std.specs.Option.{option_map};
ghost use Rattle.mime_tree.specs.Contents.{trees_of};
ghost use Rattle.envelope_view.specs.Parts.{message_within as message_within_of, numbered as numbered_of, part_at as part_at_of, part_behind as part_behind_of, part_of_message as part_of_message_of, part_of_part as part_of_part_of};

use mime_tree::{Body, Message};

/// The part with a number, counted from 1.
fn numbered(n: u32, parts: &[Message]) -> Option<&Message>
    ensures { option_map (λ part. part.now) result ≡ numbered_of n (trees_of parts.now) }
{
    if n == 0 {
        return None;
    }
    let at = n as usize - 1;
    if at < parts.len() {
        return Some(&parts[at]);
    }
    None
}

/// Part n of a message: of a multipart one of its parts, of another message 1 is its own body.
fn part_of_message(n: u32, message: &Message) -> Option<&Message>
    ensures { option_map (λ part. part.now) result ≡ part_of_message_of n message.now }
{
    match &message.body {
        Body::Multi(parts) => numbered(n, parts),
        Body::Leaf { .. } | Body::Nested(_) => { if n == 1 { Some(message) } else { None } }
    }
}

/// Part n of a part: numbers go through a message within.
fn part_of_part(n: u32, part: &Message) -> Option<&Message>
    ensures { option_map (λ found. found.now) result ≡ part_of_part_of n part.now }
{
    match &part.body {
        Body::Leaf { .. } => None,
        Body::Multi(parts) => numbered(n, parts),
        Body::Nested(inner) => part_of_message(n, inner),
    }
}

/// The part behind further numbers.
fn part_behind<'a>(others: &[u32], part: &'a Message) -> Option<&'a Message>
    ensures { option_map (λ found. found.now) result ≡ part_behind_of others.now (Some part.now) }
{
    let mut at = part;
    for n in others {
        match part_of_part(*n, at) {
            Some(found) => at = found,
            None => return None,
        }
    }
    Some(at)
}

/// The part that numbers name.
pub(crate) fn part_at<'a>(first: u32, others: &[u32], message: &'a Message) -> Option<&'a Message>
    ensures { option_map (λ part. part.now) result ≡ part_at_of first others.now message.now }
{
    match part_of_message(first, message) {
        Some(part) => part_behind(others, part),
        None => None,
    }
}

/// The message that a part is.
pub(crate) fn message_within(part: &Message) -> Option<&Message>
    ensures { option_map (λ message. message.now) result ≡ message_within_of part.now }
{
    match &part.body {
        Body::Nested(inner) => Some(&**inner),
        Body::Leaf { .. } | Body::Multi(_) => None,
    }
}

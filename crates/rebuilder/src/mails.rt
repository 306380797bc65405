// Mails from their rows.
ghost use Rattle.std.specs.Prelude.{◌≡◌, ◌≤◌, ℕ, List, Option, IfOk};
ghost use Rattle.mime_reader.specs.Wrapping.{mail};
ghost use Rattle.mime_tree.specs.Sizes.{levels};
ghost use Rattle.mime_tree.specs.declared.reasons.Mail.{Mail};
ghost use Rattle.row_store.specs.Holding.{in_row, stored_by};
ghost use Rattle.shredder.specs.MessageRows.{HasRows};
ghost use Rattle.rebuilder.specs.Rebuilding.{HasMail, OneMail, most_levels, top_fields};

use crate::fields::fields_in;
use crate::parts::{empty_message, node_in};
use mime_reader::law_reading;
use mime_tree::{Field, Message, Reason};
use row_tables::Tables;
use std::alloc::{AllocError, Global};

/// How many levels of messages and parts are rebuilt, the message itself the first.
const MOST_LEVELS: usize = 100;

// The message of the mail whose rows the message with the id has.
pub(crate) fn tree_in(alloc: Global, tables: &Tables, id: u64) -> Result<Message, AllocError>
    ensures { (mail : Mail) → HasMail (stored_by in_row tables.now) id mail → IfOk result (λ message. message ≡ mail.message) }
{
    match tables.part_numbers_row((id, b"")) {
        Some(part) => node_in(alloc, tables, part, MOST_LEVELS),
        None => Ok(empty_message(alloc)),
    }
}

// The header fields of the message itself, in their order.
pub(crate) fn header_in(alloc: Global, tables: &Tables, id: u64) -> Result<Vec<Field>, AllocError>
    ensures { (contents : ℕ → Option (List ℕ)) (mail : Mail) → HasRows (record { tables = tables.now; contents = contents }) id mail
        → IfOk result (λ fields. fields.items ≡ top_fields mail.message) }
{
    fields_in(alloc, tables, id, b"")
}

/// Why the text that the mail was made of is no message, if it isn't. Rows that are no mail's give some reason, or none.
pub fn reason_in(tables: &Tables, id: u64) -> Option<Reason>
    ensures { (contents : ℕ → Option (List ℕ)) (mail : Mail) → HasRows (record { tables = tables.now; contents = contents }) id mail → result ≡ mail.reason }
{
    match tables.unparsed_messages_row(id)?.reason {
        1 => Some(Reason::ZeroByte),
        2 => Some(Reason::LoneReturn),
        3 => Some(Reason::NoField),
        4 => Some(Reason::LongHeader),
        5 => Some(Reason::NoBoundary),
        6 => Some(Reason::NoDelimiter),
        7 => Some(Reason::TooDeep),
        _ => Some(Reason::TooMany),
    }
}

/// Rows are those of one mail alone.
pub fn law_one_mail()
    ensures { OneMail }
{}

/// What is kept of bytes has no more levels than are rebuilt.
pub fn law_kept_mails_are_rebuilt()
    ensures { (bytes : List ℕ) (now : ℕ) → levels (mail bytes now).message ≤ most_levels }
{
    law_reading();
}

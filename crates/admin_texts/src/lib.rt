//! Texts for those who run a server: the listing of its tables.
#![tactic(auto)]

ghost use Rattle.std.specs.Prelude.{◌≡◌, IfOk};
ghost use Rattle.admin_texts.specs.Listing.{listing_of};

mod cells;
mod contents;
mod heads;
mod laws;
mod lines;
mod mailboxes;
mod mails;
mod marks;
mod values;

use crate::lines::print_rows;
use crate::mailboxes::print_mailboxes;
pub use laws::{lines_end_once, texts_end_once};
use row_tables::Tables;
use std::alloc::{AllocError, Global};

/// The rows of all tables, a line for each: the tables in the order of their numbers, the rows in the order of their keys. Takes
/// time in the length of the text. Fails for want of memory alone.
pub fn listing(alloc: Global, tables: &Tables) -> Result<Vec<u8>, AllocError>
    ensures { IfOk result (λ text. text.items ≡ listing_of tables.now) }
{
    let mut out = Vec::new(alloc);
    print_rows(&mut out, tables.users_rows())?;
    print_rows(&mut out, tables.mailboxes_rows())?;
    print_rows(&mut out, tables.messages_rows())?;
    print_mailboxes(&mut out, tables)?;
    print_rows(&mut out, tables.deleted_messages_rows())?;
    print_rows(&mut out, tables.flag_names_rows())?;
    print_rows(&mut out, tables.flags_rows())?;
    print_rows(&mut out, tables.bodyparts_rows())?;
    print_rows(&mut out, tables.part_numbers_rows())?;
    print_rows(&mut out, tables.field_names_rows())?;
    print_rows(&mut out, tables.header_fields_rows())?;
    print_rows(&mut out, tables.addresses_rows())?;
    print_rows(&mut out, tables.address_fields_rows())?;
    print_rows(&mut out, tables.date_fields_rows())?;
    print_rows(&mut out, tables.message_ids_rows())?;
    print_rows(&mut out, tables.unparsed_messages_rows())?;
    print_rows(&mut out, tables.subscriptions_rows())?;
    print_rows(&mut out, tables.counters_rows())?;
    Ok(out)
}

// Mails from the rows of a store.
ghost use Rattle.std.specs.Prelude.{◌≡◌, ℕ, false, List, Option, IfOk, IsOk, IsErrOf};
ghost use Rattle.canon_writer.specs.Printing.{print};
ghost use Rattle.mime_tree.specs.declared.reasons.Mail.{Mail};
ghost use Rattle.row_store.specs.ThreeFiles.{LeavesAllAlone};
ghost use Rattle.row_store.specs.Holding.{stored_by};
ghost use Rattle.row_store.specs.Kept.{IfContents, KeepsState};
ghost use Rattle.row_store.specs.declared.faults.StoreFault.{StoreFault};
ghost use Rattle.shredder.specs.MessageRows.{HasRows};
ghost use Rattle.rebuilder.specs.Rebuilding.{HasMail, top_fields};

use crate::mails::{header_in, tree_in};
use canon_writer::write_message;
use disk_model::Disk;
use mime_tree::{Field, Message};
use row_store::{RowStore, StoreFault};
use std::alloc::{AllocError, Global};

/// The message of the mail whose rows the message with the id has. Takes time in its length, and O(log r) for each part, field and
/// item of a field over r rows. Bodies have their content in their rows, so no disk is called.
///
/// Rows that are no mail's, and those of a mail of more than 100 levels, give a message too, with nothing below its 101st level;
/// which message, isn't promised. So it is where no message has the id.
pub fn tree<D: Disk>(alloc: Global, store: &mut RowStore<D>, id: u64) -> Result<Message, StoreFault>
    requires usable { store.old.spent ≡ false }
    ensures tree { IfContents D.told store.old (λ content. (mail : Mail) → HasMail (stored_by content store.old.tables) id mail
        → IfOk result (λ message. message ≡ mail.message)) }
    ensures placed { store.new.placed ≡ store.old.placed }
    ensures keeps { KeepsState D.told (IsOk result) (IsErrOf result StoreFault.Failed) store.old store.new }
    ensures untouched { LeavesAllAlone D.told store.old.files store.new.files }
{
    store.is_settled();
    Ok(tree_in(alloc, store.tables(), id)?)
}

/// The canonical text of that message.
pub fn message<D: Disk>(
    alloc: Global,
    store: &mut RowStore<D>,
    id: u64,
) -> Result<Vec<u8>, StoreFault>
    requires usable { store.old.spent ≡ false }
    ensures text { IfContents D.told store.old (λ content. (mail : Mail) → HasMail (stored_by content store.old.tables) id mail
        → IfOk result (λ text. text.items ≡ print mail.message)) }
    ensures placed { store.new.placed ≡ store.old.placed }
    ensures keeps { KeepsState D.told (IsOk result) (IsErrOf result StoreFault.Failed) store.old store.new }
    ensures untouched { LeavesAllAlone D.told store.old.files store.new.files }
{
    let message = tree(alloc, store, id)?;
    Ok(write_message(alloc, &message)?)
}

/// The header fields of the message itself, in their order. Neither the rows of its parts nor those of bodies are looked at, and no
/// disk is called. Rows that are no mail's give fields too, as for `tree`.
pub fn header<D: Disk>(
    alloc: Global,
    store: &RowStore<D>,
    id: u64,
) -> Result<Vec<Field>, AllocError>
    requires usable { store.now.spent ≡ false }
    ensures { (contents : ℕ → Option (List ℕ)) (mail : Mail) → HasRows (record { tables = store.now.tables; contents = contents }) id mail
        → IfOk result (λ fields. fields.items ≡ top_fields mail.message) }
{
    Ok(header_in(alloc, store.tables(), id)?)
}

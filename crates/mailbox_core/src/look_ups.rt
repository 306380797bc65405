//! Users and mailboxes by their names, in tables.

ghost use Rattle.std.specs.Prelude.{◌≡◌, IfSome, IsSomeAnd};
ghost use Rattle.std.specs.Option.{option_map};
ghost use Rattle.ordered_rows.specs.RowKey.{number_key};
ghost use Rattle.ordered_rows.specs.Listed.{row_at};
ghost use Rattle.row_tables.specs.Keys.{mailbox_key};
ghost use Rattle.row_tables.specs.Names.{mailbox_named};
ghost use Rattle.row_tables.specs.References.{HasUser};
ghost use Rattle.mail_world.specs.Names.{mailbox_name};
ghost use Rattle.mail_world.specs.Looking.{login_id, user_id};

use crate::names::canonical_name;
use crate::verifiers::verifier;
use ordered_rows::laws::insertion;
use row_tables::{Mailbox, Tables, User};

// The id of the user of a name.
pub(crate) fn user_named(tables: &Tables, name: &[u8]) -> Option<u32>
    ensures id { result ≡ user_id name.now tables.now.heads.users }
    ensures lives { IfSome result (HasUser tables.now) }
{
    insertion::<User>();
    tables.are_whole();
    match tables.user_named(name) {
        Some(user) => Some(user.id),
        None => None,
    }
}

// The id of the user of a name and a password.
pub(crate) fn user_verified(tables: &Tables, name: &[u8], password: &[u8]) -> Option<u32>
    ensures id { result ≡ login_id name.now password.now tables.now.heads.users }
    ensures lives { IfSome result (HasUser tables.now) }
{
    insertion::<User>();
    tables.are_whole();
    match tables.user_named(name) {
        Some(user) if user.verifier == verifier(name, password) => Some(user.id),
        _ => None,
    }
}

// The id of a user's mailbox of a name.
pub(crate) fn mailbox_named(tables: &Tables, user: u32, name: &[u8]) -> Option<u32>
    ensures id { result ≡ option_map (λ row. row.id) (mailbox_named user (mailbox_name name.now) tables.now.heads.mailboxes) }
    ensures owned { IfSome result (λ id. IsSomeAnd (row_at mailbox_key (number_key id) tables.now.heads.mailboxes) (λ row. row.owner ≡ user)) }
{
    insertion::<Mailbox>();
    tables.are_whole();
    match tables.mailbox_named(user, canonical_name(name)) {
        Some(mailbox) => Some(mailbox.id),
        None => None,
    }
}

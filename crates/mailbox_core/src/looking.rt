//! Users and mailboxes by their names.

ghost use Rattle.std.specs.Prelude.{◌≡◌, false, IfSome, IsSomeAnd};
ghost use Rattle.ordered_rows.specs.RowKey.{number_key};
ghost use Rattle.ordered_rows.specs.Listed.{row_at};
ghost use Rattle.row_tables.specs.Keys.{mailbox_key};
ghost use Rattle.row_tables.specs.References.{HasUser};
ghost use Rattle.row_store.specs.Kept.{IfContents};
ghost use Rattle.mail_world.specs.Worlds.{World};
ghost use Rattle.mail_world.specs.Looking.{login_id, mailbox_id, user_id};
ghost use Rattle.mail_stands.specs.Stands.{Stands};

use crate::look_ups;
use disk_model::Disk;
use mail_stands::{mailbox_rows, user_rows};
use row_store::RowStore;

/// The id of the user of a name; none where no user has it. Costs a look-up, and calls no disk.
pub fn user_of<D: Disk>(store: &RowStore<D>, name: &[u8]) -> Option<u32>
    requires usable { store.now.spent ≡ false }
    ensures world { IfContents D.told store.now (λ content. (w : World) → Stands content store.now.tables w → result ≡ user_id name.now w.users) }
    ensures rows { result ≡ user_id name.now store.now.tables.heads.users }
    ensures lives { IfSome result (HasUser store.now.tables) }
{
    user_rows();
    look_ups::user_named(store.tables(), name)
}

/// The id of the user of a name and a password; none where no user has that name, or the user another password. Costs a look-up and
/// a digest, and calls no disk.
pub fn login<D: Disk>(store: &RowStore<D>, name: &[u8], password: &[u8]) -> Option<u32>
    requires usable { store.now.spent ≡ false }
    ensures world { IfContents D.told store.now (λ content. (w : World) → Stands content store.now.tables w
        → result ≡ login_id name.now password.now w.users) }
    ensures rows { result ≡ login_id name.now password.now store.now.tables.heads.users }
    ensures lives { IfSome result (HasUser store.now.tables) }
{
    user_rows();
    look_ups::user_verified(store.tables(), name, password)
}

/// The id of a user's mailbox of a name; none where the user has none of that name. INBOX is written in any case (RFC 3501 §5.1).
/// Costs a look-up, and calls no disk.
pub fn find<D: Disk>(store: &RowStore<D>, user: u32, name: &[u8]) -> Option<u32>
    requires usable { store.now.spent ≡ false }
    ensures world { IfContents D.told store.now (λ content. (w : World) → Stands content store.now.tables w
        → result ≡ mailbox_id user name.now w.mailboxes) }
    ensures owned { IfSome result (λ id. IsSomeAnd (row_at mailbox_key (number_key id) store.now.tables.heads.mailboxes) (λ row. row.owner ≡ user)) }
{
    mailbox_rows();
    look_ups::mailbox_named(store.tables(), user, name)
}

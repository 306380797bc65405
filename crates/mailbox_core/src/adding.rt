//! Users that are added, and mailboxes that are made.

ghost use Rattle.std.specs.Prelude.{◌≡◌, ◌∷◌, [], true, false};
ghost use Rattle.row_tables.specs.References.{HasUser};
ghost use Rattle.row_store.specs.Kept.{IfContents};
ghost use Rattle.mail_world.specs.Names.{is_user_name};
ghost use Rattle.mail_world.specs.Worlds.{World};
ghost use Rattle.mail_world.specs.Looking.{verifier_of};
ghost use Rattle.mail_world.specs.Changes.{AddUser, BadName, Create, Exists, Full};
ghost use Rattle.mail_world.specs.Users.{new_user_id};
ghost use Rattle.mail_stands.specs.Stands.{Stands};
ghost use Rattle.mailbox_core.specs.Calls.{Behaves, Makes};
ghost use Rattle.mailbox_core.specs.Faults.{RefusesFor};

use crate::MailFault;
use crate::finishing::finish;
use crate::rooms::{Plan, plan_mailbox, plan_user};
use disk_model::Disk;
use row_store::RowStore;
use std::alloc::Global;

/// Adds a user with a password, and the user's INBOX, and answers the user's id. The name is 1 to 64 bytes of `a` to `z`, `0` to
/// `9`, `.`, `_` and `-`.
///
/// Refused with `Exists` where a user has the name, and with `Full` where there are 1,000 users or no mailbox id is left. Costs
/// O(log n) over n rows, and one commit.
pub fn add_user<D: Disk>(
    alloc: Global,
    store: &mut RowStore<D>,
    name: &[u8],
    password: &[u8],
) -> Result<u32, MailFault>
    requires usable { store.old.spent ≡ false }
    requires named { is_user_name name.now ≡ true }
    ensures makes { IfContents D.told store.old (λ content. (w : World) → Stands content store.old.tables w
        → Makes D.told result store.old store.new w (AddUser name.now (verifier_of name.now password.now)) (new_user_id w)) }
    ensures behaves { Behaves D.told result store.old store.new }
    ensures refuses { RefusesFor (Exists ∷ Full ∷ []) result }
{
    mail_stands::add_user();
    store.is_settled();
    match plan_user(alloc, store.tables(), name, password) {
        Ok(plan) => {
            let Plan { changes, answer } = plan;
            finish(store, changes, answer)
        }
        Err(fault) => Err(fault),
    }
}

/// Makes a mailbox of a user, who is there, and answers its id. A `/` at the end of the name is dropped, and a name that is INBOX in
/// any case is `INBOX` (RFC 3501 §6.3.3, §5.1). Mailboxes above it aren't made.
///
/// Refused with `BadName` where no mailbox can have the name, with `Exists` where the user has a mailbox of that name, and with `Full`
/// where the user has 1,000 mailboxes or no mailbox id is left. Costs one commit.
pub fn create<D: Disk>(
    alloc: Global,
    store: &mut RowStore<D>,
    user: u32,
    name: &[u8],
) -> Result<u32, MailFault>
    requires usable { store.old.spent ≡ false }
    requires user { HasUser store.old.tables user }
    ensures makes { IfContents D.told store.old (λ content. (w : World) → Stands content store.old.tables w
        → Makes D.told result store.old store.new w (Create user name.now) w.next) }
    ensures behaves { Behaves D.told result store.old store.new }
    ensures refuses { RefusesFor (BadName ∷ Exists ∷ Full ∷ []) result }
{
    mail_stands::create();
    store.is_settled();
    match plan_mailbox(alloc, store.tables(), user, name) {
        Ok(plan) => {
            let Plan { changes, answer } = plan;
            finish(store, changes, answer)
        }
        Err(fault) => Err(fault),
    }
}

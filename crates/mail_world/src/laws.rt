//! Laws of the store as plain lists, each the contract of a function that does nothing.

ghost use Rattle.std.specs.Prelude.{◌≡◌, ℕ, false, Some, None};
ghost use Rattle.mail_world.specs.Worlds.{World, Mailbox, mailbox_at, no_world, own};
ghost use Rattle.mail_world.specs.Changes.{Change};
ghost use Rattle.mail_world.specs.Applying.{apply, refused};
ghost use Rattle.mail_world.specs.Legal.{IsLegal, IsProper};
ghost use Rattle.mail_world.specs.Laws.{Follows, KeepsIds, touches};

use ordered_rows::laws::insertion;
use row_tables::Subscription;

/// For as long as a mailbox lives, a UID of it means one message and is never used again, its mod-sequences only rise, and a message is recent
/// to one session alone.
pub fn mailboxes_follow()
    ensures { (world : World) (change : Change) (id : ℕ) (before after : Mailbox) → IsLegal world
        → mailbox_at id world.mailboxes ≡ Some before → mailbox_at id (apply world change).mailboxes ≡ Some after → Follows change before after }
{}

/// A change touches the part of its user alone, whoever else is there.
pub fn others_keep_their_own()
    ensures { (world : World) (change : Change) (user : ℕ) → touches world change user ≡ false → own (apply world change) user ≡ own world user }
{}

/// A store as it is made is legal, and a change that isn't refused keeps a legal store legal.
pub fn stores_stay_legal()
    ensures made { IsLegal no_world }
    ensures changed { (world : World) (change : Change) → IsLegal world → IsProper world change → refused world change ≡ None → IsLegal (apply world change) }
{
    insertion::<Subscription>();
}

/// The id of a mailbox, its UIDVALIDITY, is given once, so a client never takes one mailbox for another.
pub fn ids_are_given_once()
    ensures { (world : World) (change : Change) → IsLegal world → refused world change ≡ None → KeepsIds world (apply world change) }
{}

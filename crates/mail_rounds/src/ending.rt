//! A session ends.

ghost use Rattle.std.specs.Prelude.{◌≡◌};
ghost use Rattle.imap_steps.specs.Stepping.{Shared, Stepped, after_step, stepped_to};
ghost use Rattle.mail_model.specs.Machine.{leaves, standing_after};
ghost use Rattle.mail_rounds.specs.CoreSeen.{LeavesFiles};
ghost use Rattle.mail_rounds.specs.Held.{session_of};

use crate::link::Link;
use crate::mail_core::Core;
use mail_model::Standing;

/// How the link of a session stands after a step of it. A session that the step closes takes leave.
pub(crate) fn settle<C: Core>(core: &mut C, number: u32, closes: bool) -> Standing
    requires { C.seen.ready core.old }
    ensures stands { (shared : Shared) (stepped : Stepped) → closes ≡ stepped.closes → C.seen.stands core.old (stepped_to shared stepped) → C.seen.stands core.new (after_step shared number stepped) }
    ensures standing { result ≡ standing_after closes }
    ensures ready { C.seen.ready core.new }
    ensures files { LeavesFiles C.seen core.old core.new }
{
    if closes {
        core.leave(number);
        Standing::Closing
    } else {
        Standing::Open
    }
}

/// Ends the session of a link whose peer ended it or that is lost, unless it is closing already.
pub(crate) fn end_session<C: Core>(core: &mut C, link: &mut Link)
    requires { C.seen.ready core.old }
    ensures stands { (shared : Shared) → C.seen.stands core.old shared → C.seen.stands core.new (leaves shared (session_of link.old)).shared }
    ensures session { (shared : Shared) → session_of link.new ≡ (leaves shared (session_of link.old)).session }
    ensures queue { link.new.queue.items ≡ link.old.queue.items }
    ensures number { link.new.number ≡ link.old.number }
    ensures ready { C.seen.ready core.new }
    ensures files { LeavesFiles C.seen core.old core.new }
{
    if link.standing.is_open() {
        core.leave(link.number);
        link.standing = Standing::Closing;
    }
}

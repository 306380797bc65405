//! One link's answers go out.

ghost use Rattle.std.specs.Prelude.{◌≡◌, List, take, drop, ◌≤◌, length};
ghost use Rattle.port_model.specs.Ports.{NeverFall};
ghost use Rattle.mail_rounds.specs.CoreSeen.{LeavesFiles};
ghost use Rattle.mail_rounds.specs.Calls.{GoesOn};
ghost use Rattle.mail_rounds.specs.Heard.{Offering};

use crate::ending::end_session;
use crate::link::Link;
use crate::mail_core::Core;
use mail_model::steps_record_their_changes;
use port_model::{PortSend, Ports};

/// Takes the first bytes of a queue off.
fn drop_front(queue: &mut Vec<u8>, count: usize)
    requires { count ≤ length queue.old.items }
    ensures { queue.new.items ≡ drop count queue.old.items }
{
    let rest = queue.len() - count;
    queue.rotate_left(count);
    queue.truncate(rest);
}

/// Offers a link all that it has to send, in one send. The queue of a link that is lost is dropped.
pub(crate) fn offer<C: Core, P: Ports>(core: &mut C, link: &mut Link, ports: &mut P)
    requires { C.seen.ready core.old }
    ensures plan { P.plan ports.new ≡ P.plan ports.old }
    ensures counts { NeverFall (P.listen_faults ports.old) (P.link_faults ports.old) (P.listen_faults ports.new) (P.link_faults ports.new) }
    ensures quiet { P.listen_faults ports.new ≡ P.listen_faults ports.old }
    ensures goes { GoesOn (Offering C.seen core.old link.old core.new link.new) (P.history ports.old) (P.history ports.new) }
    ensures number { link.new.number ≡ link.old.number }
    ensures ready { C.seen.ready core.new }
    ensures files { LeavesFiles C.seen core.old core.new }
{
    steps_record_their_changes();
    if link.queue.is_empty() {
        return;
    }
    match ports.send(link.number, &link.queue) {
        PortSend::Took(count) => drop_front(&mut link.queue, count),
        PortSend::Lost => {
            end_session(core, link);
            link.queue.clear();
        }
    }
}

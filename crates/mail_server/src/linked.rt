//! The sessions of links are served in rounds.

ghost use Rattle.std.specs.Prelude.{ℕ, ◌≡◌, ◌<◌, List, [], OnOk, OnErr, IsErrOf};
ghost use Rattle.fault_counts.specs.Rose.{Rose};
ghost use Rattle.port_model.specs.declared.calls.PortCall.{PortCall};
ghost use Rattle.imap_steps.specs.Stepping.{World};
ghost use Rattle.mail_model.specs.Machine.{after};
ghost use Rattle.mail_rounds.specs.Calls.{GoesOn};
ghost use Rattle.mail_rounds.specs.CoreSeen.{SomeRose};
ghost use Rattle.mail_rounds.specs.Held.{held};
ghost use Rattle.mail_rounds.specs.Serves.{IsGoing, Serves};
ghost use Rattle.mail_server.specs.LinkRounds.{HasServed, MadeBy, MadeSome, StoppedBy};
ghost use Rattle.mail_server.specs.LinkHistories.{MakesRounds, OnLinks};

use mail_model::{answers_only_grow, changes_stand_by_their_answers};
use mail_rounds::{Core, RoundFault, Server, Unserved, worlds_reach_back};
use port_model::Ports;
use std::alloc::Global;

/// Has a core serve the sessions of the links that come, in so many rounds. What the last round queued stays unsent. The core is
/// handed back.
pub(crate) fn serve_links<C: Core, P: Ports>(
    alloc: Global,
    core: C,
    rounds: u64,
    ports: &mut P,
) -> (Result<(), RoundFault>, C)
    requires ready { C.seen.ready core }
    requires some { 0 < rounds }
    ensures all { OnOk result.0 (OnLinks P.history ports.old ports.new (λ calls. (first : World) → C.seen.stands core (record { world = first; parts = [] })
        → MakesRounds first rounds calls × C.seen.stands result.1 (after first calls).shared × HasServed C.seen first calls core result.1)) }
    ensures fewer { OnErr result.0 (OnLinks P.history ports.old ports.new (λ calls. (first : World) → C.seen.stands core (record { world = first; parts = [] })
        → MadeSome C.seen first rounds calls core result.1)) }
    ensures listen { IsErrOf result.0 RoundFault.ListenFault → Rose (P.listen_faults ports.old) (P.listen_faults ports.new) }
    ensures quiet { (IsErrOf result.0 RoundFault.ListenFault → ⊥) → P.listen_faults ports.new ≡ P.listen_faults ports.old }
    ensures failed { IsErrOf result.0 RoundFault.StoreFault → SomeRose (C.seen.faults core) (C.seen.faults result.1) }
    ensures stored { (IsErrOf result.0 RoundFault.StoreFault → ⊥) → C.seen.faults result.1 ≡ C.seen.faults core }
{
    match Server::new(alloc, core) {
        Ok(server) => {
            let mut server = server;
            let served = make_rounds(&mut server, rounds, ports);
            (served, server.into_core())
        }
        Err(unserved) => {
            let Unserved { core } = unserved;
            (Err(RoundFault::NoMemory), core)
        }
    }
}

/// Makes so many rounds on a server that has no link yet, unless one ends with a fault.
fn make_rounds<C: Core, P: Ports>(
    server: &mut Server<C>,
    rounds: u64,
    ports: &mut P,
) -> Result<(), RoundFault>
    requires going { IsGoing C.seen server.old }
    ensures all { OnOk result (OnLinks P.history ports.old ports.new (λ calls. (first : World) → Serves C.seen first [] (held server.old)
        → MakesRounds first rounds calls × C.seen.stands (held server.new).core (after first calls).shared × HasServed C.seen first calls (held server.old).core (held server.new).core)) }
    ensures fewer { OnErr result (OnLinks P.history ports.old ports.new (λ calls. (first : World) → Serves C.seen first [] (held server.old)
        → MadeSome C.seen first rounds calls (held server.old).core (held server.new).core)) }
    ensures listen { IsErrOf result RoundFault.ListenFault → Rose (P.listen_faults ports.old) (P.listen_faults ports.new) }
    ensures quiet { (IsErrOf result RoundFault.ListenFault → ⊥) → P.listen_faults ports.new ≡ P.listen_faults ports.old }
    ensures failed { IsErrOf result RoundFault.StoreFault → SomeRose (C.seen.faults (held server.old).core) (C.seen.faults (held server.new).core) }
    ensures stored { (IsErrOf result RoundFault.StoreFault → ⊥) → C.seen.faults (held server.new).core ≡ C.seen.faults (held server.old).core }
{
    let mut turns = 0;
    'rounds: while turns < rounds {
        make_round(server, ports)?;
        turns += 1;
    }
    Ok(())
}

/// Makes a round: `flush`, and then `take`, as `Server::round` does. So a byte that is sent answers what came in an earlier round.
fn make_round<C: Core, P: Ports>(server: &mut Server<C>, ports: &mut P) -> Result<(), RoundFault>
    requires going { IsGoing C.seen server.old }
    ensures done { OnOk result (GoesOn (MadeBy C.seen (held server.old) (held server.new)) (P.history ports.old) (P.history ports.new)) }
    ensures part { OnErr result (GoesOn (StoppedBy C.seen (held server.old) (held server.new)) (P.history ports.old) (P.history ports.new)) }
    ensures listen { IsErrOf result RoundFault.ListenFault → Rose (P.listen_faults ports.old) (P.listen_faults ports.new) }
    ensures quiet { (IsErrOf result RoundFault.ListenFault → ⊥) → P.listen_faults ports.new ≡ P.listen_faults ports.old }
    ensures going { OnOk result (IsGoing C.seen server.new) }
    ensures failed { IsErrOf result RoundFault.StoreFault → SomeRose (C.seen.faults (held server.old).core) (C.seen.faults (held server.new).core) }
    ensures stored { (IsErrOf result RoundFault.StoreFault → ⊥) → C.seen.faults (held server.new).core ≡ C.seen.faults (held server.old).core }
{
    worlds_reach_back();
    changes_stand_by_their_answers();
    answers_only_grow();
    server.flush(ports);
    server.take(ports)
}

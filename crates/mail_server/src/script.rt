//! A script is played to its end.

ghost use Rattle.std.specs.Prelude.{ℕ, ◌≡◌, ◌≢◌, ◌<◌, ◌≤◌, false, [], List, OnOk, OnErr, IfOk, IsErrOf, length};
ghost use Rattle.port_model.specs.Playing.{playing};
ghost use Rattle.port_model.specs.Script.{AreEvents};
ghost use Rattle.imap_steps.specs.Stepping.{World};
ghost use Rattle.mail_model.specs.Machine.{after};
ghost use Rattle.mail_rounds.specs.CoreSeen.{SomeRose};
ghost use Rattle.mail_rounds.specs.Held.{held};
ghost use Rattle.mail_rounds.specs.Serves.{IsGoing, Serves};
ghost use Rattle.mail_server.specs.declared.script.PlayFault.TheVariants.{NoMemory as PlayNoMemory};
ghost use Rattle.mail_server.specs.OnScript.{HasPlayed, IsOnScript, LeavesMade, LeavesScript, PartCrashes};
ghost use Rattle.mail_server.specs.Keeping.{KeepsScript};
ghost use Rattle.mail_rounds.specs.Crashes.{MachineCrashes};

use mail_model::{changes_stand_by_their_answers, steps_record_their_changes};
use mail_rounds::{Core, RoundFault, Server, Unserved, worlds_reach_back};
use port_model::{Event, ScriptPorts};
use std::alloc::{AllocError, Global};

/// What a script that was played leaves.
#[derive(Drop)]
pub(crate) struct Played {
    /// The ports, which tell what each session was sent.
    pub(crate) ports: ScriptPorts,
    /// The number of the last session, 0 where none opened.
    pub(crate) last: u32,
}

/// Why a script was not played to its end.
#[derive(Clone, Copy, Debug, PartialEq, Eq)]
pub(crate) enum PlayFault {
    /// A call on a file of the store failed.
    StoreFault,
    /// Memory was refused, be it for the record of a call on the ports alone.
    NoMemory,
}

impl From<AllocError> for PlayFault {
    ghost from_gives = { λ _ fault. fault ≡ PlayNoMemory };

    fn from(_error: AllocError) -> PlayFault {
        PlayFault::NoMemory
    }
}

/// Has a core serve the sessions of a script until none of its events is left, and then sends what is still to be sent. The
/// core is handed back.
pub(crate) fn play<C: Core>(
    alloc: Global,
    core: C,
    events: Vec<Event>,
) -> (Result<Played, PlayFault>, C)
    requires ready { C.seen.ready core }
    requires kept { AreEvents events.items }
    ensures recorded { IfOk result.0 (λ played. played.ports.starved ≡ false) }
    ensures plays { IfOk result.0 (λ played. (first : World) → C.seen.stands core (record { world = first; parts = [] })
        → HasPlayed C.seen first events.items played.ports.calls played.last result.1) }

    // With whatever answer, a crash leaves the world after some of the script's changes, and keeps every change that was handed out.
    ensures crash { (first : World) → C.seen.stands core (record { world = first; parts = [] }) → LeavesScript C.seen core result.1 first events.items }
    ensures keeps { (first : World) → C.seen.stands core (record { world = first; parts = [] }) → KeepsScript C.seen result.1 first events.items }
    ensures failed { IsErrOf result.0 PlayFault.StoreFault → SomeRose (C.seen.faults core) (C.seen.faults result.1) }
    ensures stored { (IsErrOf result.0 PlayFault.StoreFault → ⊥) → C.seen.faults result.1 ≡ C.seen.faults core }
{
    match Server::new(alloc, core) {
        Ok(server) => {
            let mut server = server;
            let played = play_on(alloc, &mut server, events);
            (played, server.into_core())
        }
        Err(unserved) => {
            let Unserved { core } = unserved;
            (Err(PlayFault::NoMemory), core)
        }
    }
}

/// Plays a script on a server that has no link yet.
fn play_on<C: Core>(
    alloc: Global,
    server: &mut Server<C>,
    events: Vec<Event>,
) -> Result<Played, PlayFault>
    requires going { IsGoing C.seen server.old }
    requires kept { AreEvents events.items }
    ensures recorded { IfOk result (λ played. played.ports.starved ≡ false) }
    ensures plays { IfOk result (λ played. (first : World) → Serves C.seen first [] (held server.old)
        → HasPlayed C.seen first events.items played.ports.calls played.last (held server.new).core) }
    ensures crash { (first : World) → Serves C.seen first [] (held server.old)
        → LeavesScript C.seen (held server.old).core (held server.new).core first events.items }
    ensures keeps { (first : World) → Serves C.seen first [] (held server.old) → KeepsScript C.seen (held server.new).core first events.items }
    ensures failed { IsErrOf result PlayFault.StoreFault → SomeRose (C.seen.faults (held server.old).core) (C.seen.faults (held server.new).core) }
    ensures stored { (IsErrOf result PlayFault.StoreFault → ⊥) → C.seen.faults (held server.new).core ≡ C.seen.faults (held server.old).core }
{
    worlds_reach_back();
    changes_stand_by_their_answers();
    let most = events.len();
    let mut ports = ScriptPorts::new(alloc, events, Vec::new(alloc))?;
    run_rounds(server, &mut ports, most)?;
    server.flush(&mut ports);
    if ports.starved() {
        return Err(PlayFault::NoMemory);
    }
    Ok(Played {
        ports,
        last: server.last(),
    })
}

/// Runs rounds until no event is left, and no more of them than this. A server that holds what the machine has needs no more
/// than there are events; over a store that stands for no world the bound alone ends them.
fn run_rounds<C: Core>(
    server: &mut Server<C>,
    ports: &mut ScriptPorts,
    most: usize,
) -> Result<(), PlayFault>
    requires going { IsGoing C.seen server.old }
    requires kept { AreEvents ports.old.plan.events }
    requires none { ports.old.calls ≡ [] }
    requires within { length ports.old.plan.events ≤ most }
    ensures on_script { OnOk result ((first : World) → IsOnScript C.seen first ports.old.plan.events ports.old (held server.old)
        → IsOnScript C.seen first ports.old.plan.events ports.new (held server.new)) }
    ensures done { OnOk result ((first : World) → IsOnScript C.seen first ports.old.plan.events ports.old (held server.old)
        → (playing ports.new.plan ports.new.calls).left ≡ []) }
    ensures going { OnOk result (IsGoing C.seen server.new) }
    ensures made { OnOk result ((first : World) → IsOnScript C.seen first ports.old.plan.events ports.old (held server.old)
        → LeavesMade C.seen (held server.old).core (held server.new).core first (after first ports.new.calls).changes) }
    ensures crash { OnErr result ((first : World) → IsOnScript C.seen first ports.old.plan.events ports.old (held server.old)
        → LeavesScript C.seen (held server.old).core (held server.new).core first ports.old.plan.events) }
    ensures keeps { OnErr result ((first : World) → IsOnScript C.seen first ports.old.plan.events ports.old (held server.old)
        → KeepsScript C.seen (held server.new).core first ports.old.plan.events) }
    ensures failed { IsErrOf result PlayFault.StoreFault → SomeRose (C.seen.faults (held server.old).core) (C.seen.faults (held server.new).core) }
    ensures stored { (IsErrOf result PlayFault.StoreFault → ⊥) → C.seen.faults (held server.new).core ≡ C.seen.faults (held server.old).core }
{
    worlds_reach_back();
    changes_stand_by_their_answers();
    let mut turns = 0;
    'rounds: while turns < most && !ports.done() {
        run_round(server, ports)?;
        turns += 1;
    }
    Ok(())
}

/// Runs a round.
fn run_round<C: Core>(server: &mut Server<C>, ports: &mut ScriptPorts) -> Result<(), PlayFault>
    requires going { IsGoing C.seen server.old }
    requires kept { AreEvents ports.old.plan.events }
    ensures on_script { OnOk result ((first : World) → IsOnScript C.seen first ports.old.plan.events ports.old (held server.old) → (playing ports.old.plan ports.old.calls).left ≢ []
        → IsOnScript C.seen first ports.old.plan.events ports.new (held server.new)
        × (length (playing ports.new.plan ports.new.calls).left < length (playing ports.old.plan ports.old.calls).left)) }
    ensures plan { ports.new.plan ≡ ports.old.plan }
    ensures going { OnOk result (IsGoing C.seen server.new) }
    ensures made { OnOk result ((first : World) → IsOnScript C.seen first ports.old.plan.events ports.old (held server.old)
        → MachineCrashes C.seen (held server.old).core (held server.new).core first ports.old.calls ports.new.calls) }
    ensures crash { OnErr result ((first : World) → IsOnScript C.seen first ports.old.plan.events ports.old (held server.old)
        → PartCrashes C.seen (held server.old).core (held server.new).core first ports.old.plan.events ports.old.calls) }
    ensures keeps { OnErr result ((first : World) → IsOnScript C.seen first ports.old.plan.events ports.old (held server.old)
        → KeepsScript C.seen (held server.new).core first ports.old.plan.events) }
    ensures failed { IsErrOf result PlayFault.StoreFault → SomeRose (C.seen.faults (held server.old).core) (C.seen.faults (held server.new).core) }
    ensures stored { (IsErrOf result PlayFault.StoreFault → ⊥) → C.seen.faults (held server.new).core ≡ C.seen.faults (held server.old).core }
{
    steps_record_their_changes();
    let outcome = server.round(ports);
    let starved = ports.starved();
    match outcome {
        Ok(()) => {
            if starved {
                return Err(PlayFault::NoMemory);
            }
            Ok(())
        }
        Err(RoundFault::StoreFault) => Err(PlayFault::StoreFault),
        Err(RoundFault::ListenFault) => Err(PlayFault::NoMemory),
        Err(RoundFault::NoMemory) => Err(PlayFault::NoMemory),
    }
}

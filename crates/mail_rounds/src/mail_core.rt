//! What the server does beside its links.

ghost use Rattle.std.specs.Prelude.{ℕ, ◌≡◌, OnOk, IfOk, IsErrOf};
ghost use Rattle.imap_steps.specs.Stepping.{Shared, left_by};
ghost use Rattle.imap_steps.specs.Step.{step, greeting};
ghost use Rattle.mail_rounds.specs.declared.mail_core.CoreFault.TheVariants.{NoMemory as CoreNoMemory};
ghost use Rattle.mail_rounds.specs.CoreSeen.{CoreSeen, LeavesFiles, SomeRose};
ghost use Rattle.mail_rounds.specs.Crashes.{MayLeave};
ghost use Rattle.mail_rounds.specs.Steps.{IsStep};

use port_model::Kind;
use session_units::{Awaits, Shown};
use std::alloc::AllocError;

/// What a unit does to the link of its session.
#[derive(Clone, Copy, Debug, PartialEq, Eq)]
pub struct Outcome {
    /// Whether the link is to be closed once its answers are sent.
    pub closes: bool,
    /// What the session awaits next.
    pub awaits: Awaits,
}

/// Why a core could not do what it was asked. It is asked nothing any more.
#[derive(Clone, Copy, Debug, PartialEq, Eq)]
pub enum CoreFault {
    /// A call on one of its files failed, which their counts of faults tell.
    Failed,
    /// Memory was refused.
    NoMemory,
}

impl From<AllocError> for CoreFault {
    ghost from_gives = { λ _ fault. fault ≡ CoreNoMemory };

    fn from(_fault: AllocError) -> CoreFault {
        CoreFault::NoMemory
    }
}

/// The world of mail with the sessions' own parts in it, as the server asks it to make one step after another.
///
/// Which step that is, and what it leaves and answers, is told by the machine of the crate `mail_model`.
pub trait Core {
    /// What contracts know of it: whether it can be asked, what it stands for, which worlds a crash leaves, and its
    /// counts of faults.
    ghost seen: { CoreSeen Self };

    /// Does what a unit of the session of a number asks, at a moment in seconds since 1970, and adds the answer. `awaits` is
    /// the form in which the unit was awaited; of a text of LMTP `unit` is the content, empty where that is too long.
    ///
    /// After a fault `answer` may end with a part of the answer.
    fn execute(
        &mut self,
        number: u32,
        awaits: Awaits,
        shown: Shown,
        unit: &[u8],
        moment: u64,
        answer: &mut Vec<u8>,
    ) -> Result<Outcome, CoreFault>
        requires { seen.ready self.old }
        ensures done { IfOk result (λ outcome. (shared : Shared) → seen.stands self.old shared
            → IsStep seen self.new answer.old.items answer.new.items outcome.closes outcome.awaits shared (step shared number awaits shown unit.now moment)) }
        ensures ready { OnOk result (seen.ready self.new) }

        // With whatever answer, a crash leaves the world before the step or after it.
        ensures crash { (shared : Shared) → seen.stands self.old shared → MayLeave seen self.old self.new shared.world (step shared number awaits shown unit.now moment).change }
        ensures failed { IsErrOf result CoreFault.Failed → SomeRose (seen.faults self.old) (seen.faults self.new) }
        ensures quiet { (IsErrOf result CoreFault.Failed → ⊥) → seen.faults self.new ≡ seen.faults self.old };

    /// Greets a new session of a kind, where so many sessions are open beside it, has its part, and adds the greeting.
    ///
    /// After a fault `answer` may end with a part of the greeting.
    fn greet(
        &mut self,
        number: u32,
        kind: Kind,
        others: usize,
        answer: &mut Vec<u8>,
    ) -> Result<Outcome, CoreFault>
        requires { seen.ready self.old }
        ensures done { IfOk result (λ outcome. (shared : Shared) → seen.stands self.old shared
            → IsStep seen self.new answer.old.items answer.new.items outcome.closes outcome.awaits shared (greeting shared number kind others)) }
        ensures ready { OnOk result (seen.ready self.new) }

        // With whatever answer, a crash leaves the world before the step or after it.
        ensures crash { (shared : Shared) → seen.stands self.old shared → MayLeave seen self.old self.new shared.world (greeting shared number kind others).change }
        ensures failed { IsErrOf result CoreFault.Failed → SomeRose (seen.faults self.old) (seen.faults self.new) }
        ensures quiet { (IsErrOf result CoreFault.Failed → ⊥) → seen.faults self.new ≡ seen.faults self.old };

    /// Takes a session that closes out of what the sessions share. It takes no memory, and leaves the files alone.
    fn leave(&mut self, number: u32)
        requires { seen.ready self.old }
        ensures stands { (shared : Shared) → seen.stands self.old shared → seen.stands self.new (left_by shared number) }
        ensures ready { seen.ready self.new }
        ensures files { LeavesFiles seen self.old self.new };
}

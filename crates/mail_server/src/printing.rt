//! What the sessions of a script were sent, as lines.

ghost use Rattle.std.specs.Prelude.{◌≡◌, IfOk, false};
ghost use Rattle.port_model.specs.History.{sent};
ghost use Rattle.mail_server.specs.declared.status.Status.TheVariants.{Done};
ghost use Rattle.mail_server.specs.Run.{transcript_of};

use crate::answer::Answer;
use crate::script::Played;
use crate::status::Status;
use port_model::print_session;
use std::alloc::{AllocError, Global};

/// Prints what each session was sent.
pub(crate) fn print_played(alloc: Global, played: &Played) -> Result<Answer, AllocError>
    requires { played.now.ports.starved ≡ false }
    ensures status { IfOk result (λ answer. answer.status ≡ Done) }
    ensures lines { IfOk result (λ answer. answer.lines.items ≡ transcript_of played.now.last (sent played.now.ports.calls)) }
{
    let mut lines = Vec::new(alloc);
    'sessions: for before in 0..played.last {
        let number = before + 1;
        print_session(&mut lines, number, played.ports.sent(number))?;
    }
    Ok(Answer {
        status: Status::Done,
        lines,
    })
}

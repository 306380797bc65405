//! What a script has written.

ghost use Rattle.std.specs.Prelude.{ℕ, ◌≡◌, ◌<◌, IfOk, IsErr, length};
ghost use Rattle.row_store.specs.ThreeFiles.{CountsNoFault};
ghost use Rattle.mail_server.specs.declared.status.Status.TheVariants.{BadScript};
ghost use Rattle.mail_server.specs.declared.words.Task.TheVariants.{Script};
ghost use Rattle.mail_server.specs.Run.{EndsAs, bad_line, end_of, limit_of};
ghost use Rattle.mail_server.specs.Texts.{LeavesText};

use crate::answer::{Answer, one_line};
use crate::serving::serve_files;
use crate::status::Status;
use disk_model::{Disk, Files};
use port_model::{ScriptFault, parse_script};
use std::alloc::{AllocError, Global};

/// How many bytes a script may have.
pub(crate) const MOST_BYTES: usize = 67_108_864;

/// What a script has written, as far as its text was read. Only a good script touches the files.
pub(crate) fn answer_script<D: Disk>(
    alloc: Global,
    text: &[u8],
    files: Files<D>,
) -> (Result<Answer, AllocError>, Files<D>)
    ensures answers { (now : ℕ) → IfOk result.0 (λ answer. EndsAs D.told Script text.now now files result.1 (end_of answer)) }
    ensures leaves { LeavesText D.told Script text.now files result.1 }
    ensures long { limit_of Script < length text.now → result.1 ≡ files }
    ensures quiet { IsErr result.0 → CountsNoFault D.told files result.1 }
{
    if text.len() > MOST_BYTES {
        let line = one_line(alloc, Status::BadScript, b"bad script: too long\n");
        return (line, files);
    }
    match parse_script(alloc, text) {
        Ok(events) => serve_files(alloc, events, files),
        Err(ScriptFault::BadLine(number)) => (name_bad_line(alloc, number), files),
        Err(ScriptFault::NoMemory) => (Err(AllocError), files),
    }
}

/// The answer to a script whose line of this number is bad.
fn name_bad_line(alloc: Global, number: u64) -> Result<Answer, AllocError>
    ensures { IfOk result (λ answer. end_of answer ≡ record { status = BadScript; lines = bad_line number }) }
{
    let line = format!(in alloc; "bad line {number}\n")?;
    Ok(Answer {
        status: Status::BadScript,
        lines: line.into_bytes(),
    })
}

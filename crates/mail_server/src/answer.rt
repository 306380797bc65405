//! What a run writes.

ghost use Rattle.std.specs.Prelude.{◌≡◌, [], IfOk};
ghost use Rattle.mail_server.specs.Outside.{EndsWriting};
ghost use Rattle.mail_server.specs.Run.{end_of};

use crate::status::Status;
use crate::streams::write_all;
use port_model::{Sink, SinkFault};
use std::alloc::{AllocError, Global};

/// What a run writes, and how it ends then.
#[derive(Drop)]
pub(crate) struct Answer {
    pub(crate) status: Status,
    pub(crate) lines: Vec<u8>,
}

/// The answer of one line.
pub(crate) fn one_line(alloc: Global, status: Status, line: &[u8]) -> Result<Answer, AllocError>
    ensures { IfOk result (λ answer. end_of answer ≡ record { status = status; lines = line.now }) }
{
    Ok(Answer {
        status,
        lines: line.to_vec(alloc)?,
    })
}

/// The answer of no line.
pub(crate) fn no_lines(alloc: Global, status: Status) -> Answer
    ensures { end_of result ≡ record { status = status; lines = [] } }
{
    Answer {
        status,
        lines: Vec::new(alloc),
    }
}

/// Writes lines, and answers how the run ends: as is said, unless a write fails.
pub(crate) fn end_with<K: Sink>(sink: &mut K, status: Status, lines: &[u8]) -> Status
    ensures { EndsWriting K.written K.faults status lines.now result sink.old sink.new }
{
    match write_all(sink, lines) {
        Ok(()) => status,
        Err(SinkFault) => Status::WriteFault,
    }
}

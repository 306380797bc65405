//! A message as canonical text.

ghost use Rattle.std.specs.Prelude.{◌≡◌, IfOk};
ghost use Rattle.mail_server.specs.Run.{canon_end, end_of};

use crate::answer::{Answer, one_line};
use crate::status::Status;
use canon_writer::write_message;
use mime_reader::read_or_wrap;
use std::alloc::{AllocError, Global};

/// How many bytes a message may have.
pub(crate) const MOST_BYTES: usize = 33_554_432;

/// What the word `canon` writes of the text of a message that arrives at a moment, in seconds since 1970.
pub(crate) fn answer_message(alloc: Global, text: &[u8], now: u64) -> Result<Answer, AllocError>
    ensures { IfOk result (λ answer. end_of answer ≡ canon_end text.now now) }
{
    if text.len() > MOST_BYTES {
        let line = one_line(alloc, Status::Refused, b"refused: message too long\n")?;
        return Ok(line);
    }
    let mail = read_or_wrap(alloc, text, now)?;
    let lines = write_message(alloc, &mail.message)?;
    Ok(Answer {
        status: Status::Done,
        lines,
    })
}

//! The last lines of answers.
ghost use Rattle.std.specs.Prelude.{◌≡◌, ◌++◌, IfOk, OnOk};
ghost use Rattle.imap_writer.specs.Tagged.{coded, no_line, ok_line};

use crate::refusals::{Refusal, reason};
use std::alloc::{AllocError, Global};

/// The line that ends the answer to a command that was carried out: `T OK [code] NAME completed`. The code is told without its
/// brackets, an empty one is none; the name is the command's in capitals, as `UID FETCH`.
#[tactic(auto, unfolding(crate::specs::Tagged::ok_line))]
pub fn tagged_ok(alloc: Global, tag: &[u8], code: &[u8], name: &[u8]) -> Result<Vec<u8>, AllocError>
    ensures { IfOk result (λ line. line.items ≡ ok_line tag.now code.now name.now) }
{
    let mut line = Vec::from_slice(alloc, tag)?;
    line.extend_from_slice(b" OK ")?;
    push_code(&mut line, code)?;
    line.extend_from_slice(name)?;
    line.extend_from_slice(b" completed\r\n")?;
    Ok(line)
}

fn push_code(out: &mut Vec<u8>, code: &[u8]) -> Result<(), AllocError>
    ensures { OnOk result (out.new.items ≡ out.old.items ++ coded code.now) }
{
    if code.is_empty() {
        return Ok(());
    }
    out.extend_from_slice(b"[")?;
    out.extend_from_slice(code)?;
    out.extend_from_slice(b"] ")
}

/// The line that ends the answer to a command that was refused. For one that has no tag, the tag is `*`.
#[tactic(auto, unfolding(crate::specs::Tagged::no_line))]
pub fn tagged_no(alloc: Global, tag: &[u8], refusal: Refusal) -> Result<Vec<u8>, AllocError>
    ensures { IfOk result (λ line. line.items ≡ no_line tag.now refusal) }
{
    let mut line = Vec::from_slice(alloc, tag)?;
    line.extend_from_slice(b" ")?;
    line.extend_from_slice(reason(refusal))?;
    line.extend_from_slice(b"\r\n")?;
    Ok(line)
}

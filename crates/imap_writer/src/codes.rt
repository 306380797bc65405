//! The codes with numbers that tagged lines have, as `tagged_ok` takes them: without brackets.
ghost use Rattle.std.specs.Prelude.{◌≡◌, ◌++◌, OnOk};
ghost use Rattle.imap_writer.specs.Codes.{append_code, copy_code, highest_code, modified_code};

use crate::runs::push_set;
use crate::texts::push_number;
use std::alloc::AllocError;

/// `APPENDUID v u`: the mailbox's UIDVALIDITY and the UID that the message got (RFC 4315 §3).
#[tactic(auto, unfolding(crate::specs::Codes::append_code))]
pub fn push_append_code(out: &mut Vec<u8>, validity: u32, uid: u32) -> Result<(), AllocError>
    ensures { OnOk result (out.new.items ≡ out.old.items ++ append_code validity uid) }
{
    out.extend_from_slice(b"APPENDUID ")?;
    push_number(out, u64::from(validity))?;
    out.extend_from_slice(b" ")?;
    push_number(out, u64::from(uid))
}

/// `COPYUID v set set`: the UIDVALIDITY of the mailbox that was copied to, the UIDs of the messages, ascending, and those of their
/// copies, likewise (RFC 4315 §3).
#[tactic(auto, unfolding(crate::specs::Codes::copy_code))]
pub fn push_copy_code(
    out: &mut Vec<u8>,
    validity: u32,
    uids: &[u32],
    copies: &[u32],
) -> Result<(), AllocError>
    ensures { OnOk result (out.new.items ≡ out.old.items ++ copy_code validity uids.now copies.now) }
{
    out.extend_from_slice(b"COPYUID ")?;
    push_number(out, u64::from(validity))?;
    out.extend_from_slice(b" ")?;
    push_set(out, uids)?;
    out.extend_from_slice(b" ")?;
    push_set(out, copies)
}

/// `MODIFIED set`: the messages that STORE left as they are, by their numbers or UIDs, ascending (RFC 4551 §3.2).
#[tactic(auto, unfolding(crate::specs::Codes::modified_code))]
pub fn push_modified_code(out: &mut Vec<u8>, numbers: &[u32]) -> Result<(), AllocError>
    ensures { OnOk result (out.new.items ≡ out.old.items ++ modified_code numbers.now) }
{
    out.extend_from_slice(b"MODIFIED ")?;
    push_set(out, numbers)
}

/// `HIGHESTMODSEQ n`: the mod-sequence of the messages that EXPUNGE or CLOSE took (RFC 5162 §3.5).
#[tactic(auto, unfolding(crate::specs::Codes::highest_code))]
pub fn push_highest_code(out: &mut Vec<u8>, modseq: u64) -> Result<(), AllocError>
    ensures { OnOk result (out.new.items ≡ out.old.items ++ highest_code modseq) }
{
    out.extend_from_slice(b"HIGHESTMODSEQ ")?;
    push_number(out, modseq)
}

//! Lines of the answers to SELECT and LIST, and of notices.
ghost use Rattle.std.specs.Prelude.{◌≡◌, ◌++◌, OnOk};
ghost use Rattle.imap_writer.specs.Lines.{changeable, closed_line, counted, exists_line, expunge_line, flags_line, highest_line, list_line, permanent_line, recent_line, remarked, uidnext_line, uidvalidity_line, unseen_line, vanished_line};

use crate::flags::{print_with, push_flags};
use crate::runs::push_set;
use crate::texts::{push_number, push_text};
use imap_grammar::Flag;
use std::alloc::AllocError;

fn push_counted(out: &mut Vec<u8>, number: u32, what: &[u8]) -> Result<(), AllocError>
    ensures { OnOk result (out.new.items ≡ out.old.items ++ counted number what.now) }
{
    out.extend_from_slice(b"* ")?;
    push_number(out, u64::from(number))?;
    out.extend_from_slice(b" ")?;
    out.extend_from_slice(what)?;
    out.extend_from_slice(b"\r\n")
}

/// `* n EXISTS`: how many messages the mailbox has.
#[tactic(auto, unfolding(crate::specs::Lines::exists_line))]
pub fn push_exists(out: &mut Vec<u8>, messages: u32) -> Result<(), AllocError>
    ensures { OnOk result (out.new.items ≡ out.old.items ++ exists_line messages) }
{
    push_counted(out, messages, b"EXISTS")
}

/// `* n RECENT`: how many messages are recent.
#[tactic(auto, unfolding(crate::specs::Lines::recent_line))]
pub fn push_recent(out: &mut Vec<u8>, messages: u32) -> Result<(), AllocError>
    ensures { OnOk result (out.new.items ≡ out.old.items ++ recent_line messages) }
{
    push_counted(out, messages, b"RECENT")
}

/// `* n EXPUNGE`: the message of that number is gone.
#[tactic(auto, unfolding(crate::specs::Lines::expunge_line))]
pub fn push_expunge(out: &mut Vec<u8>, number: u32) -> Result<(), AllocError>
    ensures { OnOk result (out.new.items ≡ out.old.items ++ expunge_line number) }
{
    push_counted(out, number, b"EXPUNGE")
}

fn push_remarked(
    out: &mut Vec<u8>,
    code: &[u8],
    number: u64,
    remark: &[u8],
) -> Result<(), AllocError>
    ensures { OnOk result (out.new.items ≡ out.old.items ++ remarked code.now number remark.now) }
{
    out.extend_from_slice(b"* OK [")?;
    out.extend_from_slice(code)?;
    out.extend_from_slice(b" ")?;
    push_number(out, number)?;
    out.extend_from_slice(b"] ")?;
    out.extend_from_slice(remark)?;
    out.extend_from_slice(b"\r\n")
}

/// The number of the first message that isn't seen.
#[tactic(auto, unfolding(crate::specs::Lines::unseen_line))]
pub fn push_unseen(out: &mut Vec<u8>, number: u32) -> Result<(), AllocError>
    ensures { OnOk result (out.new.items ≡ out.old.items ++ unseen_line number) }
{
    push_remarked(out, b"UNSEEN", u64::from(number), b"first unseen")
}

/// The UID that the next message gets.
#[tactic(auto, unfolding(crate::specs::Lines::uidnext_line))]
pub fn push_uidnext(out: &mut Vec<u8>, uid: u32) -> Result<(), AllocError>
    ensures { OnOk result (out.new.items ≡ out.old.items ++ uidnext_line uid) }
{
    push_remarked(out, b"UIDNEXT", u64::from(uid), b"next")
}

/// The number with which UIDs are valid.
#[tactic(auto, unfolding(crate::specs::Lines::uidvalidity_line))]
pub fn push_uidvalidity(out: &mut Vec<u8>, validity: u32) -> Result<(), AllocError>
    ensures { OnOk result (out.new.items ≡ out.old.items ++ uidvalidity_line validity) }
{
    push_remarked(out, b"UIDVALIDITY", u64::from(validity), b"valid")
}

/// The highest mod-sequence of the mailbox (RFC 4551 §3.1.1).
#[tactic(auto, unfolding(crate::specs::Lines::highest_line))]
pub fn push_highest(out: &mut Vec<u8>, modseq: u64) -> Result<(), AllocError>
    ensures { OnOk result (out.new.items ≡ out.old.items ++ highest_line modseq) }
{
    push_remarked(out, b"HIGHESTMODSEQ", modseq, b"highest")
}

/// The mailbox that was selected before is so no more; what follows is of the one that is selected now (RFC 5162 §3.7).
#[tactic(auto, unfolding(crate::specs::Lines::closed_line))]
pub fn push_closed(out: &mut Vec<u8>) -> Result<(), AllocError>
    ensures { OnOk result (out.new.items ≡ out.old.items ++ closed_line) }
{
    out.extend_from_slice(b"* OK [CLOSED] closed\r\n")
}

/// `* FLAGS (..)`: the flags that messages of the mailbox have.
#[tactic(auto, unfolding(crate::specs::Lines::flags_line))]
pub fn push_flag_names(out: &mut Vec<u8>, flags: &[Flag]) -> Result<(), AllocError>
    ensures { OnOk result (out.new.items ≡ out.old.items ++ flags_line flags.now) }
{
    out.extend_from_slice(b"* FLAGS ")?;
    push_flags(out, flags, false)?;
    out.extend_from_slice(b"\r\n")
}

/// The flags that the client can change for good: these and any other, or none where the mailbox isn't writable.
#[tactic(auto, unfolding(crate::specs::Lines::permanent_line))]
pub fn push_permanent(out: &mut Vec<u8>, flags: &[Flag], writable: bool) -> Result<(), AllocError>
    ensures { OnOk result (out.new.items ≡ out.old.items ++ permanent_line flags.now writable) }
{
    push_within(
        out,
        b"* OK [PERMANENTFLAGS (",
        flags,
        writable,
        b")] kept\r\n",
    )
}

fn push_within(
    out: &mut Vec<u8>,
    front: &[u8],
    flags: &[Flag],
    writable: bool,
    end: &[u8],
) -> Result<(), AllocError>
    ensures { OnOk result (out.new.items ≡ out.old.items ++ (front.now ++ changeable flags.now writable ++ end.now)) }
{
    out.extend_from_slice(front)?;
    push_changeable(out, flags, writable)?;
    out.extend_from_slice(end)
}

fn push_changeable(out: &mut Vec<u8>, flags: &[Flag], writable: bool) -> Result<(), AllocError>
    ensures { OnOk result (out.new.items ≡ out.old.items ++ changeable flags.now writable) }
{
    if writable {
        print_with(out, flags, b"\\*")
    } else {
        Ok(())
    }
}

/// A line of LIST, or of LSUB where `subscribed`. What isn't selectable is a level of names without a mailbox.
#[tactic(auto, unfolding(crate::specs::Lines::list_line))]
pub fn push_list(
    out: &mut Vec<u8>,
    subscribed: bool,
    selectable: bool,
    name: &[u8],
) -> Result<(), AllocError>
    ensures { OnOk result (out.new.items ≡ out.old.items ++ list_line subscribed selectable name.now) }
{
    out.extend_from_slice(if subscribed { b"* LSUB (" } else { b"* LIST (" })?;
    if !selectable {
        out.extend_from_slice(b"\\Noselect")?;
    }
    out.extend_from_slice(b") \"/\" ")?;
    push_text(out, name)?;
    out.extend_from_slice(b"\r\n")
}

/// `* VANISHED 3:5`: UIDs that are gone, ascending; `earlier` for those that the client asked for (RFC 5162 §3.6).
#[tactic(auto, unfolding(crate::specs::Lines::vanished_line))]
pub fn push_vanished(out: &mut Vec<u8>, earlier: bool, uids: &[u32]) -> Result<(), AllocError>
    ensures { OnOk result (out.new.items ≡ out.old.items ++ vanished_line earlier uids.now) }
{
    out.extend_from_slice(b"* VANISHED ")?;
    if earlier {
        out.extend_from_slice(b"(EARLIER) ")?;
    }
    push_set(out, uids)?;
    out.extend_from_slice(b"\r\n")
}

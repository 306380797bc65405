//! What is told of a mailbox that is selected (RFC 3501 §6.3.1).

ghost use Rattle.std.specs.Prelude.{◌≡◌, ◌<◌, ◌+◌, ◌^◌, ◌++◌, ◌∷◌, ℕ, Some, length, map, IfOk, OnOk};
ghost use Rattle.imap_grammar.specs.declared.flags.Flag.TheVariants.{Answered, Flagged, Deleted, Seen, Draft, Keyword};
ghost use Rattle.imap_writer.specs.Lines.{exists_line, flags_line, permanent_line, recent_line, uidnext_line, uidvalidity_line};
ghost use Rattle.mail_world.specs.Worlds.{Mailbox};
ghost use Rattle.mailbox_core.specs.Summing.{IsSummary};
ghost use Rattle.imap_steps.specs.Selecting.{mailbox_told, unseen_told};

use imap_grammar::Flag;
use imap_writer::{
    push_exists, push_flag_names, push_permanent, push_recent, push_uidnext, push_uidvalidity,
    push_unseen,
};
use mailbox_core::Summary;
use octets::Octets;
use std::alloc::{AllocError, Global};

// The lines that tell of a mailbox that is selected.
pub(crate) fn tell_mailbox(
    alloc: Global,
    answer: &mut Vec<u8>,
    its: &Summary,
    mailbox: u32,
    read_write: bool,
) -> Result<(), AllocError>
    ensures told { (m : Mailbox) → IsSummary its.now m → m.head.id ≡ mailbox → length m.entries < 2 ^ 32
        → OnOk result (answer.new.items ≡ answer.old.items ++ mailbox_told read_write m) }
{
    let flags = flags_of(alloc, its.keywords.as_slice())?;
    tell_counts(answer, its.uids.len(), its.recent.len())?;
    tell_marks(answer, &flags, its.first_unseen)?;
    tell_rest(answer, &flags, read_write, its.uidnext, mailbox)
}

// How many messages there are, and how many are recent.
fn tell_counts(answer: &mut Vec<u8>, messages: usize, recent: usize) -> Result<(), AllocError>
    ensures { messages < 2 ^ 32 → recent < 2 ^ 32 → OnOk result (answer.new.items ≡ answer.old.items ++ (exists_line messages ++ recent_line recent)) }
{
    push_exists(answer, number_of(messages))?;
    push_recent(answer, number_of(recent))
}

// The flags, and the first message that isn't seen, if there is one.
fn tell_marks(answer: &mut Vec<u8>, flags: &[Flag], unseen: Option<usize>) -> Result<(), AllocError>
    ensures { ((place : ℕ) → unseen ≡ Some place → place + 1 < 2 ^ 32) → OnOk result (answer.new.items ≡ answer.old.items ++ (flags_line flags.now ++ unseen_told unseen)) }
{
    push_flag_names(answer, flags)?;
    tell_unseen(answer, unseen)
}

// The first message that isn't seen, by its place from 0.
fn tell_unseen(answer: &mut Vec<u8>, unseen: Option<usize>) -> Result<(), AllocError>
    ensures { ((place : ℕ) → unseen ≡ Some place → place + 1 < 2 ^ 32) → OnOk result (answer.new.items ≡ answer.old.items ++ unseen_told unseen) }
{
    match unseen {
        Some(place) => push_unseen(answer, number_of(place.saturating_add(1))),
        None => Ok(()),
    }
}

// What the client can change for good, the UID of the next message, and the number with which UIDs are valid.
fn tell_rest(
    answer: &mut Vec<u8>,
    flags: &[Flag],
    read_write: bool,
    uidnext: u32,
    mailbox: u32,
) -> Result<(), AllocError>
    ensures { OnOk result (answer.new.items ≡ answer.old.items ++ (permanent_line flags.now read_write ++ (uidnext_line uidnext ++ uidvalidity_line mailbox))) }
{
    push_permanent(answer, flags, read_write)?;
    push_uidnext(answer, uidnext)?;
    push_uidvalidity(answer, mailbox)
}

// A count as lines tell it; one beyond the numbers of IMAP is told as the greatest of these (RFC 3501 §9).
fn number_of(count: usize) -> u32
    ensures { count < 2 ^ 32 → result ≡ count }
{
    u32::try_from(count).unwrap_or(u32::MAX)
}

// The flags of the standard, and these keywords.
fn flags_of(alloc: Global, keywords: &[Octets]) -> Result<Vec<Flag>, AllocError>
    ensures { IfOk result (λ flags. flags.items ≡ Answered ∷ Flagged ∷ Deleted ∷ Seen ∷ Draft ∷ map Keyword keywords.now) }
{
    let mut flags = vec![in alloc;
        Flag::Answered,
        Flag::Flagged,
        Flag::Deleted,
        Flag::Seen,
        Flag::Draft,
    ]?;
    flags.reserve(keywords.len())?;
    'keywords: for keyword in keywords {
        flags.push(keyword_flag(alloc, keyword)?)?;
    }
    Ok(flags)
}

// The flag of a keyword, in memory of its own.
fn keyword_flag(alloc: Global, keyword: &Octets) -> Result<Flag, AllocError>
    ensures { IfOk result (λ flag. flag ≡ Keyword keyword.now) }
{
    Ok(Flag::Keyword(Octets::new(keyword.as_slice().to_vec(alloc)?)))
}

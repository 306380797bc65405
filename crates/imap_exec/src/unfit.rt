//! What can't be appended to any mailbox.

ghost use Rattle.std.specs.Prelude.{◌≡◌, ◌&&◌, ◌==◌, nat_le, codes, length};
ghost use Rattle.std.specs.Char.{to_ascii_lowercase};
ghost use Rattle.std.specs.List.{list_all, list_any};
ghost use Rattle.imap_grammar.specs.Classes.{is_atom_byte};
ghost use Rattle.imap_steps.specs.Appending.{has_print as has_print_of, is_fit_date as is_fit_date_of, is_fit_flag as is_fit_flag_of, unfit as unfit_of};

use date_grammar::{Stamp, civil_day};
use imap_grammar::Flag;
use imap_writer::Refusal;

/// How many bytes the literals of a command may have together.
const LITERAL_LIMIT: usize = 33_554_432;

/// How many bytes the lines of a command may have together.
const LINE_LIMIT: usize = 8192;

/// The days 0001-01-01 and 9999-12-31, counted from 1970-01-01.
const FIRST_DAY: i64 = -719_162;

const LAST_DAY: i64 = 2_932_896;

// Why a message can't be appended, whatever the mailbox.
#[tactic(auto, unfolding(imap_steps::specs::Appending::unfit))]
pub(crate) fn unfit(flags: &[Flag], date: &Option<Stamp>, text: &[u8]) -> Option<Refusal>
    ensures { result ≡ unfit_of flags.now date.now text.now }
{
    if text.len() > LITERAL_LIMIT {
        Some(Refusal::LiteralTooLong)
    } else if are_fit_flags(flags) && is_fit_date(date) {
        None
    } else {
        Some(Refusal::Syntax)
    }
}

// Whether each of the flags is one that a message can have.
pub(crate) fn are_fit_flags(flags: &[Flag]) -> bool
    ensures { result ≡ list_all is_fit_flag_of flags.now }
{
    flags.iter().all(|flag| is_fit_flag(flag))
}

fn is_fit_flag(flag: &Flag) -> bool
    ensures { result ≡ is_fit_flag_of flag.now }
{
    match flag {
        Flag::Keyword(name) => is_keyword(name.as_slice()) && name.as_slice().len() <= LINE_LIMIT,
        Flag::Answered | Flag::Flagged | Flag::Deleted | Flag::Seen | Flag::Draft => true,
    }
}

fn is_keyword(name: &[u8]) -> bool
    ensures { result ≡ (nat_le 1 (length name.now) && list_all (λ b. is_atom_byte b && (to_ascii_lowercase b == b)) name.now) }
{
    !name.is_empty() && are_keyword_bytes(name)
}

fn are_keyword_bytes(name: &[u8]) -> bool
    ensures { result ≡ list_all (λ b. is_atom_byte b && (to_ascii_lowercase b == b)) name.now }
{
    name.iter()
        .all(|b| is_atom(*b) && b.to_ascii_lowercase() == *b)
}

// A byte of an atom (RFC 3501 §9, ATOM-CHAR).
#[tactic(auto, unfolding(imap_grammar::specs::Classes::is_atom_byte))]
fn is_atom(b: u8) -> bool
    ensures { result ≡ is_atom_byte b }
{
    b >= 0x21 && b <= 0x7E && !is_special(b)
}

fn is_special(b: u8) -> bool
    ensures { result ≡ list_any (λ special. special == b) (codes "(){%*\"\\]") }
{
    matches!(b, b'(' | b')' | b'{' | b'%' | b'*' | b'"' | b'\\' | b']')
}

fn is_fit_date(date: &Option<Stamp>) -> bool
    ensures { result ≡ is_fit_date_of date.now }
{
    match date {
        Some(date) => has_print(*date),
        None => true,
    }
}

pub(crate) fn has_print(date: Stamp) -> bool
    ensures { result ≡ has_print_of date }
{
    let day = civil_day(date);
    day >= FIRST_DAY && day <= LAST_DAY && date.zone >= -1439 && date.zone <= 1439
}

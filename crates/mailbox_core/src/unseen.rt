//! The first message of a mailbox that wasn't seen.

ghost use Rattle.std.specs.Prelude.{◌≡◌, ◌∷◌, [], codes, not, MatchOption};
ghost use Rattle.std.specs.List.{position};
ghost use Rattle.row_tables.specs.References.{uids_of};
ghost use Rattle.mail_stands.specs.Flagging.{is_flagged};
ghost use Rattle.mailbox_core.specs.SummaryRows.{flagged_uids, parts_at};

use ordered_rows::Numbered;
use ordered_rows::laws::keys;
use row_tables::{FlagRow, Tables};

// The place of the first of a mailbox's UIDs whose message has no row with `\Seen`. Walks the rows of flags up to it.
pub(crate) fn first_unseen(tables: &Tables, mailbox: u32, uids: &[u32]) -> Option<usize>
    requires { uids.now ≡ uids_of mailbox tables.now.marks.mailbox_messages }
    ensures { result ≡ position (λ uid. not (is_flagged mailbox uid (codes "\\Seen") tables.now.marks.flag_names tables.now.marks.flags)) uids.now }
{
    keys();
    tables.are_whole();
    let _ = tables.uids(mailbox);
    match tables.flag_name_id(b"\\Seen") {
        Some(seen) => first_without(tables.flags_of(mailbox), seen, uids),
        None => first_place(uids),
    }
}

// The place of the first.
#[tactic(auto, using(crate::proofs::Parting::parts_at_once, crate::proofs::Parting::parts_nowhere))]
fn first_place(uids: &[u32]) -> Option<usize>
    ensures { result ≡ parts_at 0 uids.now [] }
{
    if 0 < uids.len() { Some(0) } else { None }
}

// The place of the first UID that has no row with a flag, where rows and UIDs ascend.
fn first_without(flags: Numbered<'_, FlagRow>, flag: u64, uids: &[u32]) -> Option<usize>
    ensures { result ≡ parts_at 0 uids.now (flagged_uids flag flags.entry) }
{
    let mut flags = flags;
    let mut place = 0;
    'places: while place < uids.len() {
        let Some(uid) = next_flagged(&mut flags, flag) else {
            return Some(place);
        };
        if uid != uids[place] {
            return Some(place);
        }
        place += 1;
    }
    None
}

// The UID of the next row with a flag.
pub(crate) fn next_flagged(flags: &mut Numbered<'_, FlagRow>, flag: u64) -> Option<u32>
    ensures { MatchOption result (flagged_uids flag flags.old ≡ []) (λ uid. flagged_uids flag flags.old ≡ uid ∷ flagged_uids flag flags.new) }
{
    'flags: while let Some(row) = flags.next() {
        if row.flag == flag {
            return Some(row.uid);
        }
    }
    None
}

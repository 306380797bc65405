//! The laws of where units end.

ghost use Rattle.std.specs.Prelude.{ℕ, ◌≡◌, ◌++◌, ◌∷◌, List, [], Some, None};
ghost use Rattle.lmtp_core.specs.Texts.{Text, bounded, content, first_text};
ghost use Rattle.session_units.specs.declared.forms.Awaits.{Awaits};
ghost use Rattle.session_units.specs.declared.forms.Awaits.TheVariants.{LmtpText};
ghost use Rattle.session_units.specs.Awaited.{Awaited, begun, with_more};
ghost use Rattle.session_units.specs.Units.{Cut, first, text_cut};

use imap_lexer::units_end_where_they_end;
use lmtp_core::{lines_end_where_they_end, texts_are_read_whole};

/// Laws of `first`: no unit is there before the first byte; bytes that come later don't change one that is there; bytes that
/// end none go on with what came, however they are cut; and a unit that one byte completes ends with it.
pub fn units_go_on_and_end()
    ensures begun { (awaits : Awaits) → first (begun awaits) [] ≡ None }
    ensures stays { (awaited : Awaited) (bytes later : List ℕ) (cut : Cut) → first awaited bytes ≡ Some cut
        → first awaited (bytes ++ later) ≡ Some (record { unit = cut.unit; shows = cut.shows; rest = cut.rest ++ later }) }
    ensures goes_on { (awaited : Awaited) (bytes later : List ℕ) → first awaited bytes ≡ None → first awaited (bytes ++ later) ≡ first (with_more awaited bytes) later }
    ensures joined { (awaited : Awaited) (bytes later : List ℕ) → with_more awaited (bytes ++ later) ≡ with_more (with_more awaited bytes) later }
    ensures at_last { (awaited : Awaited) (byte : ℕ) (cut : Cut) → first awaited [] ≡ None → first awaited (byte ∷ []) ≡ Some cut → cut.rest ≡ [] }
{
    units_end_where_they_end();
    lines_end_where_they_end();
    texts_are_read_whole();
}

/// The law that a text of LMTP is a unit where there is one at the front of the bytes, with its content, and else there is
/// none. Of the other forms `first` says so itself.
pub fn texts_are_units()
    ensures text { (bytes : List ℕ) (text : Text) → first_text bytes ≡ Some text → first (begun LmtpText) bytes ≡ Some (text_cut (bounded (content text.lines)) text.rest) }
    ensures none { (bytes : List ℕ) → first_text bytes ≡ None → first (begun LmtpText) bytes ≡ None }
{
    texts_are_read_whole();
}

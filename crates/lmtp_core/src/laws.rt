//! Laws of lines, texts and recipients.
ghost use Rattle.std.specs.Prelude.{ℕ, ◌≡◌, ◌≢◌, ◌+◌, ◌++◌, List, [], Some, None, codes, false, length, drop, map};
ghost use Rattle.std.specs.Char.{to_ascii_lowercase};
ghost use Rattle.std.specs.List.{AllPass, flat_map};
ghost use Rattle.lmtp_core.specs.Commands.{asked, is_domain_byte, is_local_byte};
ghost use Rattle.lmtp_core.specs.Lines.{Line, first_line, line_behind, line_end};
ghost use Rattle.lmtp_core.specs.Texts.{AreLines, Text, bounded, content, dotted, first_text, sent};
ghost use Rattle.lmtp_core.specs.Reading.{Read, is_end, reads, taken, unread};
ghost use Rattle.lmtp_core.specs.declared.reading.Place.TheVariants.{End};

use mail_text::law_lines;

/// Laws of lines: a line and what is behind it are all bytes; bytes that come later don't change it; and where there is
/// none yet, the bytes that come later go on with it, however they are cut.
pub fn lines_end_where_they_end()
    ensures parts { (bytes : List ℕ) (cut : Line) → first_line bytes ≡ Some cut → bytes ≡ cut.line ++ cut.rest }
    ensures stays { (bytes later : List ℕ) (cut : Line) → first_line bytes ≡ Some cut
        → first_line (bytes ++ later) ≡ Some (record { line = cut.line; shows = cut.shows; rest = cut.rest ++ later }) }
    ensures goes_on { (bytes later : List ℕ) → first_line bytes ≡ None → first_line (bytes ++ later) ≡ line_behind bytes later }
{}

/// Laws of what is read of a text: it is whole exactly where there is a text at the front of the bytes, and then its
/// content, unless that is too long, and the bytes that it didn't take are those of that text; and it doesn't depend on
/// how the bytes are cut.
pub fn texts_are_read_whole()
    ensures whole { (bytes : List ℕ) (text : Text) → first_text bytes ≡ Some text
        → (reads unread bytes ≡ record { place = End; kept = bounded (content text.lines) }) × (drop (taken unread bytes) bytes ≡ text.rest) }
    ensures goes_on { (bytes : List ℕ) → first_text bytes ≡ None → (is_end (reads unread bytes).place ≡ false) × (taken unread bytes ≡ length bytes) }
    ensures cut { (read : Read) (bytes later : List ℕ) → reads read (bytes ++ later) ≡ reads (reads read bytes) later }
    ensures counted { (read : Read) (bytes later : List ℕ) → taken read (bytes ++ later) ≡ taken read bytes + taken (reads read bytes) later }
{
    law_lines();
}

/// The law that a text is read as it was sent: its lines, whatever they begin with, and nothing of what is behind it.
pub fn texts_are_read_as_sent()
    ensures text { (lines : List (List ℕ)) (rest : List ℕ) → AreLines lines
        → first_text (sent lines ++ rest) ≡ Some (record { lines = map dotted lines; rest = rest }) }
    ensures content { (lines : List (List ℕ)) → content (map dotted lines) ≡ flat_map (λ line. line ++ line_end) lines }
{
    law_lines();
}

/// The law that a recipient is asked for as it was written, with a domain and without one.
pub fn recipients_are_asked_as_written()
    ensures local { (local : List ℕ) → local ≢ [] → AllPass is_local_byte local
        → asked (codes "RCPT TO:<" ++ local ++ codes ">\r\n") ≡ Some (map to_ascii_lowercase local) }
    ensures domain { (local domain : List ℕ) → local ≢ [] → AllPass is_local_byte local → AllPass is_domain_byte domain
        → asked (codes "RCPT TO:<" ++ local ++ codes "@" ++ domain ++ codes ">\r\n") ≡ Some (map to_ascii_lowercase local) }
{}

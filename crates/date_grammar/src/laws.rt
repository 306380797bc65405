//! Laws of the definitions: what is printed is read as what it was printed for, and comments are those of the standard.
ghost use Rattle.std.specs.Prelude.{◌≡◌, ◌/◌, ◌<◌, ℕ, List, min, neg_ℤ, pos, Some};
ghost use Rattle.mime_tree.specs.declared.values.SentDate.{SentDate};
ghost use Rattle.date_grammar.specs.declared.parts.Stamp.{Stamp};
ghost use Rattle.date_grammar.specs.declared.parts.DateTime.{DateTime};
ghost use Rattle.date_grammar.specs.Calendar.{IsDateTime, day_number};
ghost use Rattle.date_grammar.specs.Comments.{CommentLaws};
ghost use Rattle.date_grammar.specs.Dates.{IsFieldValue, IsInternalPrint, IsNowPrint, internal_stamp, last_second, sent_date};
ghost use Rattle.date_grammar.specs.Stamps.{HasPrint, civil_day_of, stamp_of};

/// Printed dates are read again.
pub fn law_dates()
    // The print of a date that some value reads as is read as that same date.
    ensures sent { (value : List ℕ) (d : SentDate) → sent_date value ≡ Some d → sent_date d.text ≡ Some d }

    // The print of a moment in +0000 is read as the date of that moment.
    ensures now { (now : ℕ) (text : List ℕ) → IsNowPrint now text
        → sent_date text ≡ Some (record { text = text; seconds = pos (min now last_second); day = pos (min now last_second / 86400) }) }

    // The print of a moment in its zone is read as that moment and zone.
    ensures internal { (stamp : Stamp) (text : List ℕ) → IsInternalPrint stamp text → internal_stamp text ≡ Some stamp }

    // What is read as an internal date can be printed.
    ensures has_print { (text : List ℕ) (stamp : Stamp) → internal_stamp text ≡ Some stamp → HasPrint stamp }
{}

/// Printed dates can stand as the values of fields, and dates of IMAP lie on the days that they are written with.
pub fn law_values()
    ensures sent { (value : List ℕ) (d : SentDate) → sent_date value ≡ Some d → IsFieldValue d.text }
    ensures now { (now : ℕ) (text : List ℕ) → IsNowPrint now text → IsFieldValue text }

    // The first and the last day of the years 1 to 9999, between which a date of IMAP has a print.
    ensures first_day { day_number (record { year = 1; month = 1; day = 1 }) ≡ neg_ℤ (pos 719_162) }
    ensures last_day { day_number (record { year = 9999; month = 12; day = 31 }) ≡ pos 2_932_896 }
    ensures own_day { (d : DateTime) → IsDateTime d → d.time.second < 60 → civil_day_of (stamp_of d) ≡ day_number d.day }
{}

/// A moment has one print, so the contracts of the calls that print say which text it is.
pub fn law_one_print()
    ensures now { (now : ℕ) (a b : List ℕ) → IsNowPrint now a → IsNowPrint now b → a ≡ b }
    ensures internal { (stamp : Stamp) (a b : List ℕ) → IsInternalPrint stamp a → IsInternalPrint stamp b → a ≡ b }
{}

/// Comments are those of the grammar of mail (RFC 5322 §3.2.2).
pub fn law_comments()
    ensures { CommentLaws }
{}

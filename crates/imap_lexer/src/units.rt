//! The forms of units, what bytes show of one, and the laws of where units end and of what they are made of.

ghost use Rattle.std.specs.Prelude.{ℕ, ◌≡◌, ◌++◌, ◌∷◌, List, [], Some, None, map};
ghost use Rattle.imap_lexer.specs.declared.units.Form.{Form};
ghost use Rattle.imap_lexer.specs.declared.units.Shown.TheVariants.{Unit};
ghost use Rattle.imap_lexer.specs.Units.{Cut, ending, first, is_prompted, shown};
ghost use Rattle.imap_lexer.specs.Turns.{IsUnit, Turn, Written, fronts, in_turn, shown_in_turn};

/// What a session awaits from its peer.
#[derive(Clone, Copy, Debug, PartialEq, Eq)]
pub enum Form {
    /// An IMAP command.
    Command,
    /// A line that is no command, as after AUTHENTICATE PLAIN (RFC 3501 §6.2.2).
    Plain,
}

/// What the bytes since the last unit show.
#[derive(Clone, Copy, Debug, PartialEq, Eq)]
pub enum Fed {
    /// The unit goes on.
    More,
    /// The unit goes on with a literal once the peer is told so: the bytes end with its announcement.
    Continue,
    /// The bytes are a whole unit.
    Unit,
    /// The lines have more bytes than they may have together.
    LineTooLong,
    /// The bytes end with the announcement of a literal with which the literals have more bytes than they may have
    /// together.
    LiteralTooLong,
}

/// What a unit that is cut off shows.
#[derive(Clone, Copy, Debug, PartialEq, Eq)]
pub enum Shown {
    /// It is whole.
    Unit,
    /// It has lines of more bytes than they may have together.
    LineTooLong,
    /// It announces literals of more bytes than they may have together.
    LiteralTooLong,
}

impl Fed {
    /// What ends with the bytes, if a unit does.
    pub fn ending(self) -> Option<Shown>
        ensures { result ≡ ending self }
    {
        match self {
            Fed::More | Fed::Continue => None,
            Fed::Unit => Some(Shown::Unit),
            Fed::LineTooLong => Some(Shown::LineTooLong),
            Fed::LiteralTooLong => Some(Shown::LiteralTooLong),
        }
    }

    /// Whether the peer is to be told that it may go on.
    pub fn is_prompted(self) -> bool
        ensures { result ≡ is_prompted self }
    {
        match self {
            Fed::Continue => true,
            Fed::More | Fed::Unit | Fed::LineTooLong | Fed::LiteralTooLong => false,
        }
    }
}

/// Laws of `first`: it is the shortest prefix that is a whole unit or is too long for one, where there is one; bytes that come later don't
/// change it; and where one byte more completes a unit, that unit is all the bytes.
pub fn units_end_where_they_end()
    ensures parts { (form : Form) (bytes : List ℕ) (cut : Cut) → first form bytes ≡ Some cut → bytes ≡ cut.unit ++ cut.rest }
    ensures whole { (form : Form) (bytes : List ℕ) (cut : Cut) → first form bytes ≡ Some cut → ending (shown form cut.unit) ≡ Some cut.shows }
    ensures shortest { (form : Form) (bytes : List ℕ) (cut : Cut) → first form bytes ≡ Some cut
        → (byte : ℕ) (front behind : List ℕ) (next : ℕ) → cut.unit ≡ (byte ∷ front) ++ next ∷ behind → ending (shown form (byte ∷ front)) ≡ None }
    ensures none { (form : Form) (bytes : List ℕ) → first form bytes ≡ None
        → (byte : ℕ) (front behind : List ℕ) → bytes ≡ (byte ∷ front) ++ behind → ending (shown form (byte ∷ front)) ≡ None }
    ensures stays { (form : Form) (bytes later : List ℕ) (cut : Cut) → first form bytes ≡ Some cut
        → first form (bytes ++ later) ≡ Some (record { unit = cut.unit; shows = cut.shows; rest = cut.rest ++ later }) }
    ensures at_last { (form : Form) (bytes : List ℕ) (byte : ℕ) (cut : Cut) → first form bytes ≡ None
        → first form (bytes ++ byte ∷ []) ≡ Some cut → (cut.unit ≡ bytes ++ byte ∷ []) × (cut.rest ≡ []) }
{}

/// Laws of what units are made of: lines and literals in turn that keep to the limits are one unit, whatever comes
/// behind them; their fronts show that the unit goes on, with one prompt at the end of each announcement, and that it
/// is whole at the last byte; and whatever is cut off as a whole unit is lines and literals in turn.
pub fn lines_and_literals_are_units()
    ensures unit { (form : Form) (turns : List Turn) (last rest : List ℕ) → IsUnit form turns last
        → first form (in_turn turns last ++ rest) ≡ Some (record { unit = in_turn turns last; shows = Unit; rest = rest }) }
    ensures fronts { (form : Form) (turns : List Turn) (last : List ℕ) → IsUnit form turns last
        → map (shown form) (fronts (in_turn turns last)) ≡ shown_in_turn turns last }
    ensures every { (form : Form) (bytes : List ℕ) (cut : Cut) → first form bytes ≡ Some cut → cut.shows ≡ Unit → Written form cut.unit }
{}

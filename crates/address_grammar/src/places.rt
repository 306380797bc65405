//! The places of a value, between its commas, colons and semicolons.
ghost use Rattle.std.specs.Prelude.{◌≡◌, ◌∷◌, ◌<◌, length, false};
ghost use Rattle.address_grammar.specs.Places.{angled_behind as angled_behind_of, ending_of as ending_of_piece, is_last, places, places_behind};
ghost use Rattle.address_grammar.specs.Places.Place.{place};

use crate::pieces::{Piece, Special};

/// How a place ends.
#[derive(Clone, Copy, Debug, PartialEq, Eq)]
pub(crate) enum Ending {
    AtComma,
    AtColon,
    AtSemicolon,
    /// The value ends here.
    AtEnd,
}

/// A place, how it ends, and the pieces behind that.
#[derive(Clone, Copy)]
pub(crate) struct Cut<'a> {
    pub(crate) inner: &'a [Piece],
    pub(crate) ending: Ending,
    pub(crate) rest: &'a [Piece],
}

/// The first place of pieces.
pub(crate) fn first_place(pieces: &[Piece]) -> Cut<'_>
    ensures is { places false pieces.now ≡ place result.inner.now result.ending ∷ places_behind result.ending result.rest.now }
    ensures shorter { is_last result.ending ≡ false → length result.rest.now < length pieces.now }
{
    let mut angled = false;
    for (at, piece) in pieces.iter().enumerate() {
        if let Some(ending) = ending_of(angled, piece) {
            return Cut {
                inner: &pieces[..at],
                ending,
                rest: &pieces[at + 1..],
            };
        }
        angled = angled_behind(angled, piece);
    }
    Cut {
        inner: pieces,
        ending: Ending::AtEnd,
        rest: &pieces[pieces.len()..],
    }
}

/// How a piece ends a place, outside or within angle brackets.
fn ending_of(angled: bool, piece: &Piece) -> Option<Ending>
    ensures { result ≡ ending_of_piece angled piece.now }
{
    if angled {
        return None;
    }
    match piece {
        Piece::Mark(Special::Comma) => Some(Ending::AtComma),
        Piece::Mark(Special::Colon) => Some(Ending::AtColon),
        Piece::Mark(Special::Semicolon) => Some(Ending::AtSemicolon),
        _ => None,
    }
}

/// Whether what is behind a piece stands within angle brackets.
fn angled_behind(angled: bool, piece: &Piece) -> bool
    ensures { result ≡ angled_behind_of angled piece.now }
{
    match piece {
        Piece::Mark(Special::Open) => true,
        Piece::Mark(Special::Close) => false,
        _ => angled,
    }
}

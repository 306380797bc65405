//! Laws of the machine, each the contract of a function that does nothing.

ghost use Rattle.std.specs.Prelude.{ℕ, ◌≡◌, ◌≢◌, ◌∷◌, ◌++◌, List, None, Some, true, false};
ghost use Rattle.port_model.specs.History.{PortEvent, Piece};
ghost use Rattle.session_units.specs.Awaited.{with_more};
ghost use Rattle.session_units.specs.Units.{Cut, first};
ghost use Rattle.imap_steps.specs.Stepping.{Shared, Stepped, World, has_part};
ghost use Rattle.mail_model.specs.Machine.{Machine, Session, Taking, after_unit, is_open, leaves, machine, opens, session_at, take_piece};
ghost use Rattle.mail_model.specs.Between.{AllElsewhere, EndsNoUnit, IsAlone, link_of};
ghost use Rattle.mail_model.specs.Pieces.{IsAwaiting, OpenAwait, TakesUnit, goes_on};

use session_units::units_go_on_and_end;

/// Laws of sessions: it matters neither how what a peer sends is cut into pieces, nor when bytes come that end no unit.
pub fn units_whatever_the_pieces()
    // Two pieces are one, whatever they hold.
    ensures pieces { (moment : ℕ) (taking : Taking) (piece later : List ℕ) → take_piece moment (take_piece moment taking piece) later ≡ take_piece moment taking (piece ++ later) }

    // A piece that ends no unit counts as if it had come with the next one, at that one's moment.
    ensures moments { (earlier moment : ℕ) (taking : Taking) (piece later : List ℕ) → IsAwaiting taking.session → first taking.session.awaited piece ≡ None
        → take_piece moment (take_piece earlier taking piece) later ≡ take_piece moment taking (piece ++ later) }

    // Such a piece does nothing but add the prompts that it asks for, and goes on with what is awaited.
    ensures none { (moment : ℕ) (taking : Taking) (piece : List ℕ) → IsAwaiting taking.session → first taking.session.awaited piece ≡ None
        → (take_piece moment taking piece ≡ goes_on taking piece) × ((take_piece moment taking piece).session.awaited ≡ with_more taking.session.awaited piece) }

    // Where a piece ends the unit that is awaited, that is one step, at its last byte.
    ensures unit { (moment : ℕ) (taking : Taking) (piece : List ℕ) (cut : Cut) → IsAwaiting taking.session → first taking.session.awaited piece ≡ Some cut
        → TakesUnit moment taking piece cut }
{
    units_go_on_and_end();
}

/// A law of the machine: every session that is open awaits a unit that isn't whole.
pub fn open_sessions_await_a_unit()
    ensures { (world : World) (events : List PortEvent) → OpenAwait (machine world events).sessions }
{
    units_go_on_and_end();
}

/// Laws of closing: a session that a step or the end of its link closes has no part any more in what sessions share,
/// whatever the step.
pub fn closing_takes_leave()
    ensures stepped { (taking : Taking) (stepped : Stepped) → stepped.closes ≡ true → has_part taking.session.number (after_unit taking stepped).shared ≡ false }
    ensures greeted { (before : Machine) (number : ℕ) (greeted : Stepped) → greeted.closes ≡ true → has_part number (opens before number greeted).shared ≡ false }
    ensures ended { (shared : Shared) (session : Session) → is_open session.standing ≡ true → has_part session.number (leaves shared session).shared ≡ false }
{}

/// A law of the machine: what a session was answered is never taken back.
pub fn answers_only_grow()
    ensures { (world : World) (event : PortEvent) (older : List PortEvent) (number : ℕ)
        → ((more : List ℕ) × ((machine world (event ∷ older)).out number ≡ (machine world older).out number ++ more)) }
{}

/// Laws of the machine: it matters neither how what a peer sends is cut into pieces, nor what happens on other links
/// between them.
pub fn cuts_whatever_happens_between()
    // Two pieces at one moment are one, whatever they hold.
    ensures pieces { (world : World) (older : List PortEvent) (number moment : ℕ) (piece later : List ℕ)
        → machine world (Piece number later moment ∷ Piece number piece moment ∷ older) ≡ machine world (Piece number (piece ++ later) moment ∷ older) }

    // A piece that ends no unit may as well come after what happens on another link, at whatever moment, where its number
    // is one session's alone.
    ensures later { (world : World) (older : List PortEvent) (number earlier later : ℕ) (piece : List ℕ) (event : PortEvent) → link_of event ≢ number
        → IsAlone number (machine world older).sessions → EndsNoUnit (session_at number (machine world older).sessions) piece
        → machine world (event ∷ Piece number piece earlier ∷ older) ≡ machine world (Piece number piece later ∷ event ∷ older) }

    // So it may as well come with the next piece, after all that happens on other links between the two.
    ensures together { (world : World) (older : List PortEvent) (number earlier later : ℕ) (piece rest : List ℕ) (others : List PortEvent) → AllElsewhere number others
        → IsAlone number (machine world older).sessions → EndsNoUnit (session_at number (machine world older).sessions) piece
        → machine world (Piece number rest later ∷ (others ++ Piece number piece earlier ∷ older)) ≡ machine world (Piece number (piece ++ rest) later ∷ (others ++ older)) }
{
    units_go_on_and_end();
}

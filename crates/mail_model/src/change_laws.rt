//! Laws of changes, each the contract of a function that does nothing. They hold of any step and of any change.

ghost use Rattle.std.specs.Prelude.{ℕ, ◌≡◌, ◌+◌, ◌<◌, ◌≤◌, ◌++◌, List, [], length, map};
ghost use Rattle.port_model.specs.declared.calls.PortCall.{PortCall};
ghost use Rattle.port_model.specs.History.{PortEvent, sent};
ghost use Rattle.imap_steps.specs.Stepping.{Shared, Stepped, World, after_step, changed};
ghost use Rattle.mail_model.specs.Machine.{IsHandedOut, Machine, Made, Session, Taking, after, after_unit, leaves, machine, opens, takes};
ghost use Rattle.mail_model.specs.Changes.{AllWithin, Records, Told, and_told, folded, tells, told};
ghost use Rattle.mail_model.specs.HandedOut.{AllBehind, ChangesOnTop, NoneHandedOut, SendsAnswered};

/// Laws of a step: its change comes on top, with its answer, whatever the step and whatever was answered before it in
/// the same piece.
pub fn steps_record_their_changes()
    ensures unit { (world : World) (before : Machine) (taking : Taking) (stepped : Stepped) (older : List Told) → Records world (takes before taking) older
        → Records world (takes before (after_unit taking stepped)) (and_told taking.session.number stepped older) }
    ensures greeted { (world : World) (before : Machine) (number : ℕ) (greeted : Stepped) (older : List Told) → Records world before older
        → Records world (opens before number greeted) (and_told number greeted older) }

    // The world after a step is that before it with the step's change. A session that leaves changes nothing.
    ensures world { (shared : Shared) (number : ℕ) (stepped : Stepped) → (after_step shared number stepped).world ≡ changed shared.world stepped.change }
    ensures left { (shared : Shared) (session : Session) → ((leaves shared session).shared.world ≡ shared.world) × ((leaves shared session).changes ≡ []) }
{}

/// Laws of the machine: its changes are those of its steps, each with the answer that its step gave, as it stands in all
/// that the session was answered; and its world is the first one after them.
pub fn changes_stand_by_their_answers()
    ensures within { (world : World) (events : List PortEvent) → AllWithin (machine world events).out (machine world events).changes }
    ensures answers { (world : World) (events : List PortEvent) → map (told (machine world events).out) (machine world events).changes ≡ tells world events }
    ensures world { (world : World) (events : List PortEvent) → (machine world events).shared.world ≡ folded world (machine world events).changes }
{}

/// Laws of what was handed out: it stays so, and a change whose answer was sent whole is handed out.
pub fn handed_out_stays()
    ensures later { (newer older : List PortCall) (made : Made) → IsHandedOut older made → IsHandedOut (newer ++ older) made }
    ensures whole { (history : List PortCall) (made : Made) → 0 < made.count → made.from + made.count ≤ length (sent history made.number) → IsHandedOut history made }
{}

/// Laws of the machine: what later events change comes on top, so that the changes of earlier events are a prefix of them,
/// and is answered behind all that was answered before. So where all that was sent had been answered by then, none of the later
/// changes is handed out.
pub fn later_changes_stand_behind()
    ensures on_top { (world : World) (newer older : List PortEvent) → ChangesOnTop (machine world older) (machine world (newer ++ older)) }
    ensures none { (first : World) (before later : List PortCall) (made : List Made) → SendsAnswered first before later → AllBehind (after first before).out made
        → NoneHandedOut later made }
{}

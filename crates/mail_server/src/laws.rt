//! Laws of scripts, each the contract of a function that does nothing.

ghost use Rattle.std.specs.Prelude.{ℕ, ◌≡◌, ◌≤◌, List, length};
ghost use Rattle.port_model.specs.declared.calls.PortCall.{PortCall};
ghost use Rattle.port_model.specs.declared.events.Event.{Event};
ghost use Rattle.port_model.specs.Script.{AreEvents};
ghost use Rattle.imap_steps.specs.Stepping.{World};
ghost use Rattle.mail_server.specs.Rounds.{PlaysBy, PlaysOut};

/// Laws of the rounds that play a script: one history at most is theirs, they are no more than the script has events, and
/// they play it to its end.
pub fn one_history_plays_a_script()
    ensures one { (first : World) (script : List Event) (turns turns' : ℕ) (calls calls' : List PortCall) → PlaysBy first script turns calls → PlaysBy first script turns' calls'
        → (turns ≡ turns') × (calls ≡ calls') }
    ensures bound { (first : World) (script : List Event) (turns : ℕ) (calls : List PortCall) → AreEvents script → PlaysBy first script turns calls → turns ≤ length script }
    ensures ends { (first : World) (script : List Event) (turns : ℕ) (calls : List PortCall) → AreEvents script → PlaysBy first script turns calls → PlaysOut first script calls }
{}

//! Laws of the worlds that a crash may leave, the contract of a function that does nothing.

ghost use Rattle.std.specs.Prelude.{ℕ, ◌≡◌, ◌∷◌, ◌++◌, List};
ghost use Rattle.imap_steps.specs.Stepping.{World};
ghost use Rattle.mail_model.specs.Machine.{Made};
ghost use Rattle.mail_model.specs.Changes.{folded};
ghost use Rattle.mail_rounds.specs.Crashes.{worlds_since};

/// Laws of the worlds since one, whatever a change is: the last of them is that one, behind which only earlier ones stand,
/// and the first is that after all changes; and the worlds since the first, by changes more, are those since that one by all.
pub fn worlds_reach_back()
    ensures last { (world : World) (made : List Made) (earlier : List World)
        → ((newer : List World) × (worlds_since world made earlier ≡ newer ++ world ∷ earlier)) }
    ensures first { (world : World) (made : List Made) (earlier : List World)
        → ((older : List World) × (worlds_since world made earlier ≡ folded world made ∷ older)) }
    ensures more { (world : World) (newer made : List Made) (earlier older : List World) → worlds_since world made earlier ≡ folded world made ∷ older
        → worlds_since (folded world made) newer older ≡ worlds_since world (newer ++ made) earlier }
{}

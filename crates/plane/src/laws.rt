//! Laws of the definitions, each the contract of a function that does nothing.

ghost use Rattle.std.specs.Prelude.{◌≡◌, ℕ, List, map};
ghost use Rattle.place_rows.specs.Joining.{AreWhole};
ghost use Rattle.place_rows.specs.Rows.{Known};
ghost use Rattle.place_turns.specs.Trails.{parts_of};

/// Rows whose parts stay the same have together the whole of each lock where they had it before.
pub fn parts_stay_whole()
    ensures { (places : ℕ) (olds news : List (List Known)) →
        map parts_of news ≡ map parts_of olds → AreWhole places olds → AreWhole places news }
{}

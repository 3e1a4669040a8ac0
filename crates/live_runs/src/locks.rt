//! What the passes of turn locks are.

ghost use Rattle.std.specs.Prelude.{◌≡◌, ◌++◌, ℕ, List, length};
ghost use Rattle.histories.specs.declared.entry.Entry.{Entry};
ghost use Rattle.turn_lock.specs.Places.{Ascends, places_after};
ghost use Rattle.live_runs.specs.Seen.{all_theirs};
ghost use Rattle.live_runs.specs.Calls.{IsTurn};
ghost use Rattle.live_runs.specs.Locks.{marked};

/// Where the places of a lock's pass are in the list that it has seen, a turn of the lock is a turn
/// of the pass: the list that it finds goes on from what the pass had seen, and what is new is the
/// pass's own. And where it learns what another pass has seen, nothing of that is its own.
pub fn a_turn_of_a_lock_is_one_of_its_pass()
    ensures turn { (own : List ℕ) (seen others mine : List Entry) →
        Ascends 0 (length seen) own →
        IsTurn others mine (marked own seen)
        (marked (own ++ places_after (seen ++ others) ((seen ++ others) ++ mine))
        ((seen ++ others) ++ mine)) }
    ensures met { (own : List ℕ) (seen others : List Entry) → Ascends 0 (length seen) own →
        marked own (seen ++ others) ≡ marked own seen ++ all_theirs others }
{}

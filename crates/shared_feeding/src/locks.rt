//! What passes of turn locks are where they are split and joined.

ghost use Rattle.std.specs.Prelude.{◌≡◌, ℕ, List, [], length};
ghost use mathlib.Core.List.{IsPrefix};
ghost use Rattle.histories.specs.declared.entry.Entry.{Entry};
ghost use Rattle.turn_lock.specs.Places.{Ascends, NoneInCommon, longer, merged};
ghost use Rattle.live_runs.specs.Locks.{marked};
ghost use Rattle.live_runs.specs.Seen.{all_theirs, entries};
ghost use Rattle.shared_feeding.specs.Joining.{IsJoinedOf};

/// A pass that was split off another one has seen the same, and nothing of it is its own. Where two
/// passes are joined of whose lists one begins the other, and which have no own place in common,
/// their lists are joined.
pub fn passes_of_a_lock_are_split_and_joined()
    ensures split { (own : List ℕ) (seen : List Entry) →
        marked [] seen ≡ all_theirs (entries (marked own seen)) }
    ensures joined { (own other : List ℕ) (seen found : List Entry) →
        Ascends 0 (length seen) own → Ascends 0 (length found) other → NoneInCommon own other →
        IsPrefix seen (longer seen found) → IsPrefix found (longer seen found) →
        IsJoinedOf (marked own seen) (marked other found)
        (marked (merged own other) (longer seen found)) }
{}

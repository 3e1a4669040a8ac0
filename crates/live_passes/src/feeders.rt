//! What the passes of feeders are where they are split and joined.

ghost use Rattle.std.specs.Prelude.{◌≡◌, ℕ, List, map};
ghost use Rattle.turn_lock.specs.Views.{kept_view, split_view};
ghost use Rattle.place_rows.specs.Joining.{RowJoined};
ghost use Rattle.place_rows.specs.Rows.{Known};
ghost use Rattle.live_runs.specs.Seen.{all_theirs, entries};
ghost use Rattle.shared_feeding.specs.Joining.{IsJoinedOf};
ghost use Rattle.live_passes.specs.Views.{HaveSeenOwn, shares_of};

use shared_feeding::passes_of_a_lock_are_split_and_joined;

/// A row that was split off another has seen the same at each place, and nothing of it is its own;
/// the other one has seen what it had. Where a row is joined into another, the lists that they have
/// seen are joined at each place.
pub fn rows_are_split_and_joined()
    ensures kept { (known : List Known) (k : ℕ) →
        shares_of (map kept_view known) k ≡ shares_of known k }
    ensures split { (known : List Known) (k : ℕ) →
        shares_of (map split_view known) k ≡ all_theirs (entries (shares_of known k)) }
    ensures joined { (intos froms afters : List Known) → HaveSeenOwn intos → HaveSeenOwn froms →
        RowJoined 0 intos froms afters → (k : ℕ) →
        IsJoinedOf (shares_of intos k) (shares_of froms k) (shares_of afters k) }
{
    passes_of_a_lock_are_split_and_joined();
}

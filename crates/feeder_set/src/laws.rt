//! Laws of the definitions, each the contract of a function that does nothing.

ghost use Rattle.std.specs.Prelude.{◌≡◌, ◌≤◌, ◌<◌, ◌+◌, ℕ, true, false};
ghost use Rattle.run_parts.specs.Feeder.{is_share};
ghost use Rattle.feeder_set.specs.declared.share.Share.{Share};
ghost use Rattle.feeder_set.specs.Shares.{IsNextOf};

/// Each frame is in just one share. A share's first frame, and the one that each step goes on to,
/// are in it, and no frame before the first or between two of them is.
pub fn each_frame_is_one_shares()
    ensures one { (feeders n : ℕ) → 1 ≤ feeders → 1 ≤ n →
        (f : ℕ) × (f < feeders) × (is_share feeders f n ≡ true) }
    ensures alone { (feeders f g n : ℕ) → 1 ≤ n → is_share feeders f n ≡ true →
        is_share feeders g n ≡ true → f ≡ g }
    ensures own { (s : Share) (next : ℕ) → IsNextOf s next →
        is_share s.feeders s.number next ≡ true }
    ensures first { (s : Share) (n : ℕ) → s.number < s.feeders → 1 ≤ n → n ≤ s.number →
        is_share s.feeders s.number n ≡ false }
    ensures between { (s : Share) (next n : ℕ) → IsNextOf s next → next < n →
        n < next + s.feeders → is_share s.feeders s.number n ≡ false }
{}

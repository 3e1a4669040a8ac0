//! Laws of the definitions, each the contract of a function that does nothing.
ghost use Rattle.std.specs.Prelude.{◌≡◌, ℕ, ◌<◌, ◌≤◌, ◌⊎◌, ◌↔◌, Bool, true, false, ◌||◌, List, []};
ghost use Rattle.std.specs.Prelude.{length};
ghost use Rattle.turn_lock.specs.Parts.{Tree, Whole, union, void, meets, cut, kept, is_normal};
ghost use Rattle.turn_lock.specs.Parts.{covers, Apart};
ghost use Rattle.turn_lock.specs.Places.{In, NoneInCommon, Ascends, merged};
ghost use Rattle.turn_lock.specs.Places.{places_after};

/// A union has the ways of both parts, and no others.
pub fn a_union_has_the_ways_of_both()
    ensures { (p q : Tree) (way : ℕ → Bool) →
        covers (union p q) way ≡ (covers p way || covers q way) }
{}

/// A cut shares a part out: each of its ways is in one of the two pieces, and none is in both.
/// Where there is something in the part, there is something in each piece.
pub fn a_cut_shares_a_part_out()
    ensures ways { (p : Tree) (way : ℕ → Bool) →
        covers p way ≡ (covers (kept p) way || covers (cut p) way) }
    ensures apart { (p : Tree) → Apart (kept p) (cut p) }
    ensures pieces { (p : Tree) → void p ≡ false →
        (void (kept p) ≡ false) × (void (cut p) ≡ false) }
{}

/// Two parts meet exactly where some way is in both, and nothing beside the whole is apart from it.
pub fn parts_meet_where_they_share_a_way()
    ensures meet { (p q : Tree) → (meets p q ≡ false) ↔ Apart p q }
    ensures whole { (q : Tree) → Apart Whole q → void q ≡ true }
{}

/// A part in normal form is known by its ways, and unions and cuts of such parts are in normal
/// form.
pub fn a_part_is_known_by_its_ways()
    ensures known { (p q : Tree) → is_normal p ≡ true → is_normal q ≡ true →
        ((way : ℕ → Bool) → covers p way ≡ covers q way) → p ≡ q }
    ensures union { (p q : Tree) → is_normal p ≡ true → is_normal q ≡ true →
        is_normal (union p q) ≡ true }
    ensures pieces { (p : Tree) → is_normal p ≡ true → void p ≡ false →
        (is_normal (kept p) ≡ true) × (is_normal (cut p) ≡ true) }
{}

/// Parts in normal form are put together in any order. The pieces of a cut give the part again, and
/// a piece that goes from one part to another changes nothing of both together.
pub fn parts_are_put_together_in_any_order()
    ensures sides { (p q : Tree) → is_normal p ≡ true → is_normal q ≡ true →
        union p q ≡ union q p }
    ensures order { (p q r : Tree) → is_normal p ≡ true → is_normal q ≡ true →
        is_normal r ≡ true → union (union p q) r ≡ union p (union q r) }
    ensures moved { (p q : Tree) → is_normal p ≡ true → is_normal q ≡ true → void p ≡ false →
        union (kept p) (union q (cut p)) ≡ union p q }
    ensures back { (p : Tree) → is_normal p ≡ true → void p ≡ false →
        union (kept p) (cut p) ≡ p }
{}

/// The places of two passes in one are those of both, and ascend where both do and they have none
/// in common. A pass without a place adds none.
pub fn merged_places_are_those_of_both()
    ensures places { (k : ℕ) (xs ys : List ℕ) → In k (merged xs ys) ↔ (In k xs ⊎ In k ys) }
    ensures ascend { (low high : ℕ) (xs ys : List ℕ) → Ascends low high xs →
        Ascends low high ys → NoneInCommon xs ys → Ascends low high (merged xs ys) }
    ensures none { (low high : ℕ) (xs : List ℕ) → Ascends low high xs → merged xs [] ≡ xs }
{}

/// The places that a turn appends are those of the list that it left which the list that it entered
/// didn't have.
pub fn a_turn_appends_the_places_beyond<E>()
    ensures { (before after : List E) (k : ℕ) →
        In k (places_after before after) ↔ (length before ≤ k × (k < length after)) }
{}

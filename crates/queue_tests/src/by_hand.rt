//! `histories`: the definitions on a history that was written out by hand.

ghost use Rattle.std.specs.Prelude.{◌≡◌, None, map, [], ◌∷◌};
ghost use Rattle.histories.specs.History.{replay, IsLegal};
ghost use Rattle.histories.specs.Stays.{departures};
ghost use Rattle.histories.specs.Examples.{legal_history, altered_history, one_rule};
ghost use Rattle.histories.specs.Examples.{three_packets, four_packets};
ghost use Rattle.histories.specs.Journeys.{AreSound};

/// What follows is proved, and nothing is done.
pub fn laws() {
    read_by_hand();
    journeys_by_hand();
}

/// The history is legal, leads to an absent queue, and its packets leave in their order. It isn't
/// legal any more where one reply is another.
fn read_by_hand()
    ensures legal { IsLegal legal_history }
    ensures state { replay legal_history ≡ None }
    ensures left { map (λ card. card.number) (departures legal_history) ≡ 1 ∷ 2 ∷ 3 ∷ [] }
    ensures altered { IsLegal altered_history → ⊥ }
{}

/// The three packets' journeys are sound with nothing lost, and aren't with a fourth packet that
/// never arrived.
fn journeys_by_hand()
    ensures sound { AreSound one_rule 0 three_packets legal_history [] }
    ensures missing { AreSound one_rule 0 four_packets legal_history [] → ⊥ }
{}

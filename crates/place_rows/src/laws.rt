//! Laws of the definitions, each the contract of a function that does nothing.

ghost use Rattle.std.specs.Prelude.{◌≡◌, ◌≢◌, ◌<◌, ◌+◌, ℕ, List, [], ◌∷◌, ◌++◌, sum_by, Some};
ghost use Rattle.std.specs.Prelude.{slice_get};
ghost use Rattle.std.specs.Prelude.{length, map, true, false};
ghost use Rattle.packet_entry.specs.declared.packet.Card.{Card};
ghost use Rattle.turn_lock.specs.Parts.{Whole, Empty, void, is_normal};
ghost use Rattle.turn_lock.specs.Views.{HasSeenOwn, kept_view, split_view};
ghost use Rattle.histories.specs.declared.entry.Entry.{Entry};
ghost use Rattle.histories.specs.declared.histories.Lost.{Lost};
ghost use Rattle.histories.specs.Grouping.{IsGrouped};
ghost use Rattle.histories.specs.History.{AreLegal, history};
ghost use Rattle.histories.specs.Happenings.{closings, downs};
ghost use Rattle.histories.specs.Journeys.{Arrival, entering, asks, came, visit_of};
ghost use Rattle.histories.specs.Moves.{move_after, moves_after};
ghost use Rattle.histories.specs.Places.{place_for};
ghost use Rattle.packet_moves.specs.declared.setting.Setting.{Setting};
ghost use Rattle.locked_place.specs.Points.{points_after};
ghost use Rattle.locked_place.specs.Turns.{IsTurn};
ghost use Rattle.place_rows.specs.Rows.{Known, TimedKnown, known_of, AreKnown, IsTurnAt};
ghost use Rattle.place_rows.specs.Lists.{Every, AllFrom, flat};
ghost use Rattle.place_rows.specs.Ending.{IsListOf};
ghost use Rattle.place_rows.specs.Opening.{AreFirst};
ghost use Rattle.locked_place.specs.Views.{PlaceLabel, label_of};
ghost use Rattle.place_rows.specs.Joining.{Joins, RowJoined, AllJoined, AreWhole, own_at, is_place};
ghost use Rattle.place_rows.specs.Joining.{together_at};
ghost use Rattle.place_rows.specs.Meeting.{ToldUpTo, AreNormal, TellsFirst, TellsRow};
ghost use Rattle.place_rows.specs.Meeting.{HasGathered, HasSpread, HaveMet, KeepsOwn};
ghost use Rattle.place_rows.specs.Shares.{own_moves, notices_at, sent_at, sent_in, IsBalancedBut};

use histories::{an_entry_is_a_move, soundness_is_kept_move_by_move};
use queue_core::what_is_flushed_is_destroyed;
use turn_lock::{
    a_part_is_known_by_its_ways, merged_places_are_those_of_both,
    parts_are_put_together_in_any_order,
};

/// A row stays balanced, turn by turn. Rows that have appended nothing are balanced. As a packet is
/// fed, its first arrival is owed; as an entry is appended that is an owed arrival, or none, what
/// leaves in its step is owed; an owed arrival that isn't a first one may be lost. A look, a port
/// that closes and a device that goes down change nothing of what is owed.
pub fn rows_stay_balanced()
    ensures begins { (s : Setting) (known : List Known) →
        ((k : ℕ) (v : Known) → slice_get known k ≡ Some v → (v.seen ≡ []) × (v.own ≡ [])) →
        IsBalancedBut s [] [] known [] }
    ensures enters { (s : Setting) (card : Card) (owed : List Arrival) (entered : List Card)
        (known : List Known) (lost : List Lost) → IsBalancedBut s owed entered known lost →
        IsBalancedBut s (entering s.tables s.key card ++ owed) (entered ++ card ∷ []) known lost }
    ensures appends { (s : Setting) (owed : List Arrival) (entered : List Card)
        (olds news : List Known) (lost : List Lost) (place : ℕ) (found : List Entry) (e : Entry) →
        IsBalancedBut s (came (move_after found e) ++ owed) entered olds lost →
        IsTurnAt place olds news found (found ++ e ∷ []) →
        IsBalancedBut s (asks s.tables s.key (move_after found e) ++ owed) entered news lost }
    ensures loses { (s : Setting) (a : Arrival) (owed : List Arrival) (entered : List Card)
        (known : List Known) (lost : List Lost) → a.card.visit ≢ 1 →
        IsBalancedBut s (a ∷ owed) entered known lost →
        IsBalancedBut s owed entered known (lost ++ visit_of a ∷ []) }
    ensures looks { (s : Setting) (owed : List Arrival) (entered : List Card)
        (olds news : List Known) (lost : List Lost) (place : ℕ) (found : List Entry) →
        IsBalancedBut s owed entered olds lost → IsTurnAt place olds news found found →
        IsBalancedBut s owed entered news lost }
    ensures closed { (s : Setting) (port : ℕ) (owed : List Arrival) (entered : List Card)
        (olds news : List Known) (lost : List Lost) (place : ℕ) (found : List Entry) →
        IsBalancedBut s owed entered olds lost →
        IsTurnAt place olds news found (found ++ closings port found) →
        IsBalancedBut s owed entered news lost }
    ensures down { (s : Setting) (device : ℕ) (owed : List Arrival) (entered : List Card)
        (olds news : List Known) (lost : List Lost) (place : ℕ) (found : List Entry) →
        IsBalancedBut s owed entered olds lost →
        IsTurnAt place olds news found (found ++ downs device found) →
        IsBalancedBut s owed entered news lost }
{
    an_entry_is_a_move();
    soundness_is_kept_move_by_move();
    what_is_flushed_is_destroyed();
}

/// What a row's own entries moved and sent grows by just what its turn appends.
pub fn own_entries_grow_by_each_turn()
    ensures moves { (v w : Known) (found fs : List Entry) → HasSeenOwn v →
        IsTurn v found (found ++ fs) w → own_moves w ≡ own_moves v ++ moves_after found fs }
    ensures sent { (port : ℕ) (olds news : List Known) (place : ℕ) (found fs : List Entry) →
        ((k : ℕ) (v : Known) → slice_get olds k ≡ Some v → HasSeenOwn v) →
        IsTurnAt place olds news found (found ++ fs) →
        sent_in port news ≡ sent_in port olds + sum_by (notices_at port) (points_after found fs) }
{}

/// Two balanced rows that are joined are balanced together, for all that both fed and lost.
pub fn rows_are_balanced_together()
    ensures { (s : Setting) (entered more : List Card) (intos froms afters : List Known)
        (lost gone : List Lost) → IsBalancedBut s [] entered intos lost →
        IsBalancedBut s [] more froms gone → RowJoined 0 intos froms afters →
        IsBalancedBut s [] (entered ++ more) afters (lost ++ gone) }
{
    merged_places_are_those_of_both();
}

/// A row that was split stays balanced. The one that was split off it is balanced too, and has sent
/// nothing. Together they have the parts that the row had.
pub fn splitting_changes_nothing_of_ones_own()
    ensures keeps { (s : Setting) (owed : List Arrival) (entered : List Card)
        (known : List Known) (lost : List Lost) → IsBalancedBut s owed entered known lost →
        IsBalancedBut s owed entered (map kept_view known) lost }
    ensures made { (s : Setting) (owed : List Arrival) (entered : List Card)
        (known : List Known) (lost : List Lost) → IsBalancedBut s owed entered known lost →
        IsBalancedBut s [] [] (map split_view known) [] }
    ensures sent { (port : ℕ) (known : List Known) → sent_in port (map split_view known) ≡ 0 }
    ensures parts { (k : ℕ) (known : List Known) (rows : List (List Known)) →
        ((j : ℕ) (v : Known) → slice_get known j ≡ Some v →
        (is_normal v.part ≡ true) × (void v.part ≡ false)) →
        together_at k Empty (map kept_view known ∷ map split_view known ∷ rows)
        ≡ together_at k Empty (known ∷ rows) }
{
    rows_stay_balanced();
    parts_are_put_together_in_any_order();
}

/// What two passes sent, or two rows, that are joined adds up. Rows that are joined have the parts
/// that they had together.
pub fn joined_rows_have_what_both_had()
    ensures sent_at_one { (port : ℕ) (v w after : Known) → HasSeenOwn v → HasSeenOwn w →
        Joins w v after → sent_at port after ≡ sent_at port v + sent_at port w }
    ensures sent { (port : ℕ) (intos froms afters : List Known) →
        ((k : ℕ) (v : Known) → slice_get intos k ≡ Some v → HasSeenOwn v) →
        ((k : ℕ) (v : Known) → slice_get froms k ≡ Some v → HasSeenOwn v) →
        RowJoined 0 intos froms afters →
        sent_in port afters ≡ sent_in port intos + sent_in port froms }
    ensures parts { (k : ℕ) (intos froms afters : List Known) (rows : List (List Known)) →
        RowJoined 0 intos froms afters →
        together_at k Empty (afters ∷ rows) ≡ together_at k Empty (intos ∷ froms ∷ rows) }
{}

/// Rows are joined into one, row by row. Where they had together the whole of each lock, that one
/// then has it.
pub fn rows_are_joined_one_by_one()
    ensures none { (into : List Known) → AllJoined [] into into }
    ensures one { (rows : List (List Known)) (into before from after : List Known) →
        AllJoined rows into before → RowJoined 0 before from after →
        AllJoined (rows ++ from ∷ []) into after }
    ensures none_timed { (into : List TimedKnown) → AllJoined [] into into }
    ensures one_timed { (rows : List (List TimedKnown))
        (into before from after : List TimedKnown) →
        AllJoined rows into before → RowJoined 0 before from after →
        AllJoined (rows ++ from ∷ []) into after }
    ensures whole { (places : ℕ) (into after : List Known) (rows : List (List Known)) →
        AllJoined rows into after → length after ≡ places → AreWhole places (into ∷ rows) →
        (k : ℕ) (v : Known) → slice_get after k ≡ Some v → v.part ≡ Whole }
{}

/// A row that told another and the one that it told stay balanced, and what their own entries sent
/// is the same: a longer list that a pass has seen changes nothing.
pub fn telling_changes_nothing_of_ones_own()
    ensures tells { (s : Setting) (owed : List Arrival) (entered : List Card) (lost : List Lost)
        (n : ℕ) (froms intos froms_then intos_then : List Known) →
        ToldUpTo n froms intos froms_then intos_then →
        IsBalancedBut s owed entered froms lost → IsBalancedBut s owed entered froms_then lost }
    ensures hears { (s : Setting) (owed : List Arrival) (entered : List Card) (lost : List Lost)
        (n : ℕ) (froms intos froms_then intos_then : List Known) →
        ToldUpTo n froms intos froms_then intos_then →
        ((k : ℕ) (v : Known) → slice_get froms k ≡ Some v → AreLegal v.seen) →
        IsBalancedBut s owed entered intos lost → IsBalancedBut s owed entered intos_then lost }
    ensures teller { (n : ℕ) (froms intos froms_then intos_then : List Known) →
        ToldUpTo n froms intos froms_then intos_then →
        ((k : ℕ) (v : Known) → slice_get froms k ≡ Some v → HasSeenOwn v) → (k : ℕ) (v w : Known) →
        slice_get froms k ≡ Some v → slice_get froms_then k ≡ Some w → KeepsOwn v w }
    ensures hearer { (n : ℕ) (froms intos froms_then intos_then : List Known) →
        ToldUpTo n froms intos froms_then intos_then →
        ((k : ℕ) (v : Known) → slice_get intos k ≡ Some v → HasSeenOwn v) → (k : ℕ) (v w : Known) →
        slice_get intos k ≡ Some v → slice_get intos_then k ≡ Some w → KeepsOwn v w }
{}

/// How rows meet: the first hears all others, one after the other, and then tells each of them.
pub fn rows_meet_by_the_first()
    ensures begins { (places : ℕ) (first : List Known) (rows : List (List Known)) →
        Every (λ (known : List Known). length known ≡ places) (first ∷ rows) →
        Every AreNormal (first ∷ rows) → HasGathered places 0 first first rows rows }
    ensures gathers { (places n : ℕ) (first before after : List Known)
        (rows olds news : List (List Known)) → HasGathered places n first before rows olds →
        TellsFirst places n before after olds news →
        HasGathered places (n + 1) first after rows news }
    ensures turns { (places : ℕ) (first after : List Known) (rows news : List (List Known)) →
        HasGathered places (length rows) first after rows news →
        HasSpread places 0 first after rows news }
    ensures spreads { (places n : ℕ) (first before after : List Known)
        (rows olds news : List (List Known)) → HasSpread places n first before rows olds →
        TellsRow places n before after olds news → HasSpread places (n + 1) first after rows news }
    ensures met { (places : ℕ) (first after : List Known) (rows news : List (List Known)) →
        HasSpread places (length rows) first after rows news →
        HaveMet places (first ∷ rows) (after ∷ news) }
{
    parts_are_put_together_in_any_order();
    a_part_is_known_by_its_ways();
}

/// What rows know with times is the same as without: as they are opened, split and joined, and as
/// they let each other see what they have seen.
pub fn rows_know_the_same_without_times()
    ensures known { (named : ℕ → PlaceLabel) (row : List TimedKnown) →
        AreKnown label_of named row → AreKnown label_of named (known_of row) }
    ensures timed { (named : ℕ → PlaceLabel) (row : List TimedKnown) →
        AreKnown label_of named (known_of row) → AreKnown label_of named row }
    ensures first { (row : List TimedKnown) → AreFirst row → AreFirst (known_of row) }
    ensures kept { (row : List TimedKnown) →
        known_of (map kept_view row) ≡ map kept_view (known_of row) }
    ensures split { (row : List TimedKnown) →
        known_of (map split_view row) ≡ map split_view (known_of row) }
    ensures joined { (n : ℕ) (intos froms afters : List TimedKnown) →
        RowJoined n intos froms afters →
        RowJoined n (known_of intos) (known_of froms) (known_of afters) }
    ensures all_joined { (rows : List (List TimedKnown)) (into after : List TimedKnown) →
        AllJoined rows into after → AllJoined (map known_of rows) (known_of into) (known_of after) }
    ensures told { (n : ℕ) (froms intos froms_then intos_then : List TimedKnown) →
        ToldUpTo n froms intos froms_then intos_then →
        ToldUpTo n (known_of froms) (known_of intos) (known_of froms_then) (known_of intos_then) }
{}

/// Each entry of a place's list is one row's own, and no other's; and among the entries of all
/// places a queue has those of the list of its own place.
pub fn each_entry_is_one_rows_own()
    ensures once { (places k i : ℕ) (rows : List (List Known)) (list : List Entry) →
        IsListOf places rows k list → i < length list → sum_by (own_at (is_place i) k) rows ≡ 1 }
    ensures owner { (places k i : ℕ) (rows : List (List Known)) (list : List Entry) →
        IsListOf places rows k list → i < length list → (n : ℕ) × ((known : List Known)
        × ((slice_get rows n ≡ Some known) × (0 < own_at (is_place i) k known))) }
    ensures of_place { (places queue k : ℕ) (rows : List (List Known)) (lists : List (List Entry))
        (list es : List Entry) → AllFrom (IsListOf places rows) 0 lists →
        IsGrouped (flat lists) es → place_for queue places ≡ k → slice_get lists k ≡ Some list →
        history queue es ≡ history queue list }
{}

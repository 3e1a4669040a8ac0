//! What the calls of a plane that all passes take part in do to them, by number: its opening, their
//! meetings and its closing.

ghost use Rattle.std.specs.Prelude.{◌≡◌, ◌<◌, ◌++◌, ℕ, true, false, List, [], All, nat_eq};
ghost use Rattle.std.specs.List.{list_any};
ghost use Rattle.mailbox.specs.Roles.{AreDistinct};
ghost use Rattle.histories.specs.declared.entry.Entry.{Entry};
ghost use Rattle.histories.specs.declared.histories.Histories.{Histories};
ghost use Rattle.histories.specs.Numbers.{queue_count};
ghost use Rattle.glance.specs.Views.{PassView};
ghost use Rattle.packet_moves.specs.declared.setting.Setting.{Setting};
ghost use Rattle.place_rows.specs.Shares.{sent_in_all};
ghost use Rattle.plane.specs.declared.plane.Plane.{Plane};
ghost use Rattle.plane.specs.Closings.{IsClosed};
ghost use Rattle.plane.specs.Meetings.{Meets};
ghost use Rattle.plane.specs.Opening.{IsOpened};
ghost use Rattle.plane.specs.Passes.{FeederView, PortView};
ghost use Rattle.plane.specs.Planes.{order_of, places_of, setting_of};
ghost use Rattle.live_runs.specs.ClosedPlanes.{IsClosedPlane, sent_by_all};
ghost use Rattle.live_runs.specs.Meetings.{IsNew};
ghost use Rattle.live_runs.specs.Passes.{AreMet, feeder_number, is_pass};
ghost use Rattle.live_passes.specs.Numbered.{AreAll, passes_in, rows_in};

use crate::laws::{passes_that_meet_see_the_same, what_was_sent_is_marked};
use place_rows::each_entry_is_one_rows_own;

/// A plane that was opened comes with all its passes, and none of them has done anything.
pub fn opened_passes_are_new()
    ensures all { (places : ℕ) (order : List ℕ) (s : Setting) (plane : Plane)
        (feeder : FeederView) (ports : List PortView) (gauge : PassView) →
        AreDistinct order → list_any (nat_eq feeder_number) order ≡ false →
        IsOpened places order s plane feeder ports gauge → AreAll plane feeder ports [] }
    ensures new { (places : ℕ) (order : List ℕ) (s : Setting) (plane : Plane)
        (feeder : FeederView) (ports : List PortView) (gauge : PassView) →
        AreDistinct order → IsOpened places order s plane feeder ports gauge →
        (p : ℕ) → is_pass order p ≡ true →
        IsNew (passes_in feeder ports p) }
{}

/// All passes of a plane that meet go on to the same lists, and none of what is new is their own.
pub fn passes_that_meet_are_met()
    ensures { (plane : Plane) (feeder feeder_then : FeederView)
        (ports ports_then closed closed_then : List PortView) →
        AreAll plane feeder ports closed →
        Meets (places_of plane) feeder feeder_then ports ports_then closed closed_then →
        AreMet (order_of plane) (passes_in feeder (ports ++ closed))
        (passes_in feeder_then (ports_then ++ closed_then)) }
{
    passes_that_meet_see_the_same();
}

/// What the counts of all passes say that they sent to a port is what their own entries say.
pub fn counts_say_what_was_sent()
    ensures { (plane : Plane) (feeder : FeederView) (ports closed : List PortView) (port : ℕ) →
        AreAll plane feeder ports closed →
        sent_in_all port (rows_in feeder (ports ++ closed))
        ≡ sent_by_all (order_of plane) (places_of plane) (passes_in feeder (ports ++ closed))
        port }
{
    what_was_sent_is_marked();
}

/// The histories of a closed plane are all that its passes did.
pub fn a_closed_plane_has_all_that_its_passes_did()
    ensures { (plane : Plane) (feeder : FeederView) (ports closed : List PortView)
        (h : Histories) → AreAll plane feeder ports closed →
        IsClosed plane feeder (ports ++ closed) h →
        All (λ (e : Entry). e.queue < queue_count) h.entries →
        IsClosedPlane (order_of plane) (setting_of plane).mail (places_of plane)
        (passes_in feeder (ports ++ closed)) h }
{
    counts_say_what_was_sent();
    each_entry_is_one_rows_own();
}

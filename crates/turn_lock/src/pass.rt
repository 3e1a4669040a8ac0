//! A pass of a lock.
ghost use Rattle.std.specs.Prelude.{◌≡◌, true, false};
ghost use Rattle.turn_lock.specs.Parts.{void, is_normal};
ghost use Rattle.turn_lock.specs.Views.{HasSeenOwn, HasSeenOwn-prop};
ghost use Rattle.turn_lock.specs.Slots.{Carries, Carries-prop};

use crate::storied::Storied;
use crate::view::View;
use atomic_table::Seat;

/// The right to take turns at one lock. A pass has no bytes. Contracts see the list that it has
/// seen, the places of the entries that its own turns appended, or those of the passes that were
/// joined into it, its part of the lock and the label of the lock's state. A pass that is dropped
/// keeps its part, so the lock can't be closed after.
#[derive(Drop)]
pub struct Pass<S: Storied> {
    pub(crate) seat: Seat<Option<S>, View<S::Entry, S>>,
    // Its own places ascend in the list that it has seen.
    pub ghost placed: { HasSeenOwn seat.me.0 } by { HasSeenOwn-prop seat.me.0 },
    pub ghost normal: { is_normal seat.me.0.part ≡ true },
    // It wasn't joined into another.
    pub ghost live: { void seat.me.0.part ≡ false },
    // It has taken the slot of the state exactly while it is inside.
    ghost carries: { Carries seat.me } by { Carries-prop S.code seat.me },
}

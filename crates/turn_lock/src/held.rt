//! The state of a lock, while a pass is inside.
use crate::pass::Pass;
use crate::storied::Storied;
use std::snapshot::Snapshot;

/// The state, and the pass that entered. It must be spent: `TurnLock::leave` takes it, and a
/// program that lets one go is refused, since no other pass would ever have its turn.
pub struct Held<S: Storied> {
    pub(crate) state: S,
    pub(crate) by: Snapshot<Pass<S>>,
}

impl<S: Storied> Held<S> {
    ghost use Rattle.std.specs.Prelude.{◌≡◌};
    ghost use Rattle.std.specs.Borrow.{sem};
    ghost use Rattle.turn_lock.specs.LentState.{lends_state};
    ghost use Rattle.turn_lock.specs.Passes.{state_of};

    /// Lends the state.
    pub fn state(&mut self) -> &mut S
        ensures* writes_back { sem 𝓛 (lends_state S.row S.Entry.row S.Storied self.entry result) }
        ensures value { result.now ≡ state_of self.old }
    {
        &mut self.state
    }
}

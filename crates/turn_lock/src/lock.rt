//! The lock: two words, which count the tickets drawn and say which ticket is being served, and one
//! slot for the state. A turn draws a ticket, waits until it is served, takes the state out of the
//! slot, puts it back and serves the next ticket.
ghost use Rattle.std.specs.Prelude.{◌≡◌};

use crate::held::Held;
use crate::pass::Pass;
use crate::storied::Storied;
use crate::turns::{Both, Cut, Draw, InTurn, Look, PassOn, Peek, SERVING, STATE, TICKET, Tell};
use crate::view::View;
use atomic_table::{Refused, Seat, Table};
use crossbeam_utils::Backoff;
use std::alloc::{AllocError, AllocFailed, Global};
use std::snapshot::Snapshot;
use std::sync::Wait;

/// A lock round a state, which is taken in turns, in the order in which tickets were drawn. It may
/// be dropped where the state may.
#[derive(Drop)]
pub struct TurnLock<S: Storied> {
    table: Table<Option<S>, View<S::Entry, S>, Snapshot<S>, InTurn<S>, Global>,
    ghost sized: { (table.shared.table_id.words ≡ 2) × (table.shared.table_id.slots ≡ 1) },
}

/// There was no memory for a lock. The state comes back.
#[derive(Drop)]
pub struct Unmade<S> {
    pub state: S,
}

impl<S: Storied> TurnLock<S> {
    ghost use Rattle.std.specs.Prelude.{◌≡◌, ℕ, ◌∷◌, ◌<◌, true, false, Some, [], length};
    ghost use Rattle.std.specs.Prelude.{IfOk, IfErr, OnOk, OnErr, IsOk};
    ghost use Rattle.std.specs.List.{range_with_len};
    ghost use mathlib.Core.List.{IsPrefix};
    ghost use Rattle.turn_lock.specs.declared.view.Turn.TheVariants.{Outside, Waits, Served};
    ghost use Rattle.turn_lock.specs.Parts.{Whole, void};
    ghost use Rattle.turn_lock.specs.Places.{NoneInCommon};
    ghost use Rattle.turn_lock.specs.Turns.{entered, is_inside};
    ghost use Rattle.turn_lock.specs.Views.{opening_view, with_turn, left_view, kept_view};
    ghost use Rattle.turn_lock.specs.Views.{split_view, joined_view, label_of};
    ghost use Rattle.turn_lock.specs.Steps.{TakesState};
    ghost use Rattle.turn_lock.specs.Passes.{view_of, IsOf, IsSamePass, state_of, pass_of};

    /// A lock round a state whose list is empty, and its first pass, which has the whole lock. It
    /// takes memory for the state and for two words.
    pub fn new(alloc: Global, state: S) -> Result<(TurnLock<S>, Pass<S>), Unmade<S>>
        requires { S.entries state ≡ [] }
        ensures lock { IfOk result (λ made. IsOf made.0 made.1) }
        ensures pass { IfOk result (λ made. view_of made.1 ≡ opening_view state) }
        ensures unmade { IfErr result (λ unmade. unmade.state ≡ state) }
    {
        let made = Snapshot::of(&state);
        let mut slots = Vec::new(alloc);
        if let Err(failed) = slots.push(Some(state)) {
            let AllocFailed { value } = failed;
            let Some(state) = value else { unreachable!() };
            slots.destroy_empty();
            return Err(Unmade { state });
        }
        match Table::new(alloc, &[0, 0], slots, &made) {
            Ok((table, seat)) => Ok((TurnLock { table }, Pass { seat })),
            Err(Refused { mut slots }) => {
                let Some(Some(state)) = slots.pop() else {
                    unreachable!()
                };
                slots.destroy_empty();
                Err(Unmade { state })
            }
        }
    }

    /// Takes a turn: waits for it, and gives the state, whose list begins with all that the pass
    /// has seen. What it promises holds once it returns; that it returns, no clause says. It takes
    /// no memory.
    pub fn enter<R: Wait>(&self, rt: &R, pass: &mut Pass<S>) -> Held<S>
        requires lock { IsOf self.now pass.old }
        requires outside { (view_of pass.old).turn ≡ Outside }
        ensures lock { IsSamePass pass.old pass.new }
        ensures inside { (ticket : ℕ) ×
            (view_of pass.new
            ≡ with_turn (view_of pass.old) (Served ticket (S.entries (state_of result)))) }
        ensures entered { entered (view_of pass.new).turn ≡ S.entries (state_of result) }
        ensures begins { IsPrefix (view_of pass.old).seen (S.entries (state_of result)) }
        ensures label { label_of S.label (view_of pass.old) ≡ Some (S.label (state_of result)) }
        ensures held { pass_of result ≡ pass.new }
    {
        let ticket = self.draw(rt, &mut pass.seat);
        self.wait_for(rt, &mut pass.seat, ticket);
        let Some(state) = self.table.shared.exchange(&mut pass.seat, STATE, None) else {
            unreachable!()
        };
        Held {
            state,
            by: Snapshot::of(pass),
        }
    }

    /// Ends a turn with the state that it entered, whose list must begin with the one that was
    /// entered, and whose label must be the pass's. What the list has beyond are entries of this
    /// pass, which has then seen the list. It takes no memory.
    pub fn leave(&self, pass: &mut Pass<S>, held: Held<S>)
        requires lock { IsOf self.now pass.old }
        requires held { (pass_of held ≡ pass.old) × (is_inside (view_of pass.old).turn ≡ true) }
        requires begins { IsPrefix (entered (view_of pass.old).turn) (S.entries (state_of held)) }
        requires label { label_of S.label (view_of pass.old) ≡ Some (S.label (state_of held)) }
        ensures lock { IsSamePass pass.old pass.new }
        ensures left { view_of pass.new ≡ left_view (view_of pass.old) (S.entries (state_of held)) }
    {
        let Held { state, by: _ } = held;
        let was = self
            .table
            .shared
            .exchange(&mut pass.seat, STATE, Some(state));
        let None = was else { unreachable!() };
        self.table
            .shared
            .fetch_add::<PassOn<S>>(&mut pass.seat, SERVING, 1);
    }

    /// Makes a pass that has seen the same and has appended nothing. Each of the two has a piece of
    /// the part. It takes no memory.
    pub fn split(&self, pass: &mut Pass<S>) -> Result<Pass<S>, AllocError>
        requires lock { IsOf self.now pass.old }
        requires outside { (view_of pass.old).turn ≡ Outside }
        ensures lock { IsSamePass pass.old pass.new × IfOk result (λ made. IsOf self.now made) }
        ensures kept { OnOk result (view_of pass.new ≡ kept_view (view_of pass.old)) }
        ensures made { IfOk result (λ made. view_of made ≡ split_view (view_of pass.old)) }
        ensures memory { OnErr result (view_of pass.new ≡ view_of pass.old) }
        ensures succeeds { IsOk result }
    {
        Ok(Pass {
            seat: self.table.shared.split_seat::<Cut>(&mut pass.seat),
        })
    }

    /// Joins a pass into another, which then has the longer of the two lists seen, of which the
    /// other is a beginning, the places of both, and both parts. It takes no memory.
    pub fn join(&self, into: &mut Pass<S>, from: Pass<S>)
        requires lock { IsOf self.now into.old × IsOf self.now from }
        requires outside { ((view_of into.old).turn ≡ Outside) × ((view_of from).turn ≡ Outside) }
        ensures lock { IsSamePass into.old into.new }
        ensures joined { view_of into.new ≡ joined_view (view_of into.old) (view_of from) }
        ensures begins { IsPrefix (view_of into.old).seen (view_of into.new).seen
            × IsPrefix (view_of from).seen (view_of into.new).seen }
        ensures apart { NoneInCommon (view_of into.old).own (view_of from).own }
    {
        let Pass { seat } = from;
        self.table.shared.join_seat::<Both>(&mut into.seat, seat);
        // A join tells nothing of what the two seats had in common, since a seat's step sees its
        // own view alone. So the view keeps it until the next step, which tells it.
        self.table.shared.load::<Tell>(&mut into.seat, TICKET);
    }

    /// Takes the lock apart, by the one pass that has the whole of it, and gives the state. Each
    /// place of its list is then the pass's own, once.
    pub fn close(self, pass: Pass<S>) -> S
        requires lock { IsOf self pass }
        requires whole { (view_of pass).part ≡ Whole }
        requires outside { (view_of pass).turn ≡ Outside }
        ensures begins { IsPrefix (view_of pass).seen (S.entries result) }
        ensures own { (view_of pass).own ≡ range_with_len 0 (length (S.entries result)) }
        ensures label { label_of S.label (view_of pass) ≡ Some (S.label result) }
    {
        let TurnLock { table } = self;
        let Pass { seat } = pass;
        let mut closed = table.close_with(seat);
        let slot = closed.take(STATE);
        closed.free();
        let Some(state) = slot else { unreachable!() };
        state
    }

    /// Draws a ticket, whose number is how many were drawn before. It begins with 0, since it can't
    /// know that number, and goes on with the one that it found, once the lock seems free. So a pass
    /// that waits mostly has no ticket, and whichever runs first goes first. The last number,
    /// 2^64 - 1, is no ticket: after so many turns no further one comes.
    fn draw<R: Wait>(&self, rt: &R, seat: &mut Seat<Option<S>, View<S::Entry, S>>) -> u64
        requires table { seat.old.table_id ≡ self.now.table.shared.table_id }
        requires live { void seat.old.me.0.part ≡ false }
        requires outside { seat.old.me.0.turn ≡ Outside }
        ensures table { (seat.new.table_id ≡ seat.old.table_id) × (seat.new.id ≡ seat.old.id) }
        ensures drawn { seat.new.me ≡ (with_turn seat.old.me.0 (Waits result), seat.old.me.1) }
    {
        let mut from = 0;
        for _ in rt.forever() {
            let found = self
                .table
                .shared
                .compare_exchange::<Draw>(seat, TICKET, from, from + 1);
            if found == from {
                return from;
            }
            let drawn = self.wait_until_free(rt, seat, found);
            from = if drawn < u64::MAX { drawn } else { 0 };
        }
        unreachable!()
    }

    /// Waits until the lock seems free: until the ticket that is being served is the next one to be
    /// drawn. Answers how many were drawn, as far as was seen; `drawn` is how many were seen before.
    fn wait_until_free<R: Wait>(
        &self,
        rt: &R,
        seat: &mut Seat<Option<S>, View<S::Entry, S>>,
        mut drawn: u64,
    ) -> u64
        requires { seat.old.table_id ≡ self.now.table.shared.table_id }
        ensures table { (seat.new.table_id ≡ seat.old.table_id) × (seat.new.id ≡ seat.old.id) }
        ensures kept { seat.new.me ≡ seat.old.me }
    {
        let backoff = Backoff::new();
        for _ in rt.forever() {
            if self.table.shared.load::<Peek>(seat, SERVING) == drawn {
                return drawn;
            }
            backoff.snooze();
            drawn = self.table.shared.load::<Peek>(seat, TICKET);
        }
        unreachable!()
    }

    /// Waits until the ticket is being served, and takes the slot of the state into the seat.
    fn wait_for<R: Wait>(&self, rt: &R, seat: &mut Seat<Option<S>, View<S::Entry, S>>, ticket: u64)
        requires table { seat.old.table_id ≡ self.now.table.shared.table_id }
        requires live { void seat.old.me.0.part ≡ false }
        requires waits { seat.old.me.0.turn ≡ Waits ticket }
        ensures table { (seat.new.table_id ≡ seat.old.table_id) × (seat.new.id ≡ seat.old.id) }
        ensures served { TakesState S.entries S.label seat.old.me ticket seat.new.me }
    {
        let backoff = Backoff::new();
        for _ in rt.forever() {
            if self.table.shared.load::<Look<S>>(seat, SERVING) == ticket {
                return;
            }
            backoff.snooze();
        }
        unreachable!()
    }
}

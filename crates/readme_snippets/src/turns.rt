//! A list of numbers under a lock, which is taken in turns.

ghost use Rattle.std.specs.Prelude.{◌≡◌};
ghost use Rattle.turn_lock.specs.declared.view.Turn.TheVariants.{Outside};
ghost use Rattle.turn_lock.specs.Passes.{view_of, IsOf};

use std::sync::Wait;
use turn_lock::{Pass, Storied, TurnLock};

/// The numbers, in the order in which they were appended.
#[derive(Drop)]
pub struct Numbers {
    pub list: Vec<u64>,
}

impl Storied for Numbers {
    type Entry = u64;

    ghost Label = { Unit {0} };

    ghost entries = { λ numbers. numbers.list.items };

    ghost label = { λ _numbers. tt };
}

/// Appends a number in a turn: whether there was memory for it.
pub fn append<R: Wait>(
    rt: &R,
    lock: &TurnLock<Numbers>,
    pass: &mut Pass<Numbers>,
    number: u64,
) -> bool
    requires { IsOf lock.now pass.old × ((view_of pass.old).turn ≡ Outside) }
    ensures { IsOf lock.now pass.new × ((view_of pass.new).turn ≡ Outside) }
{
    let mut held = lock.enter(rt, pass);
    let pushed = held.state().list.push(number).is_ok();
    lock.leave(pass, held);
    pushed
}

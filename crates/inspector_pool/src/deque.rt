//! The deque of jobs, what each pass knows of it, and what each kind of step tells.
ghost use Rattle.std.specs.Prelude.{◌≡◌, ◌≤◌, [], IfOk};
ghost use Rattle.crossbeam_deque.specs.Handles.{worker_flavor, worker_view};
ghost use Rattle.inspector_pool.specs.Numbers.{most_notices};
ghost use Rattle.inspector_pool.specs.Rule.{EachOnce, tally, all_parts, first_tally, guest_tally};
ghost use Rattle.inspector_pool.specs.Rule.{cut_tally, new_tally, joined_tally, put_tally};
ghost use Rattle.inspector_pool.specs.Rule.{HasTaken, AreAllTaken};

use crossbeam_deque::protocol::{Join, Outcome, Protocol, Split};
use crossbeam_deque::{Pass, Stealer, Worker};
use packet_entry::NoMemory;
use std::alloc::Global;
use std::collections::LinkedList;

/// How many jobs the deque holds.
const CAPACITY: usize = 64;

/// What a pass knows. No value of it is made.
pub(crate) struct Tally {
    /// The pass's parts of the right to know all that was taken.
    pub(crate) parts: u32,
    /// The jobs 1 to this number were put.
    pub(crate) put: u32,
    /// The jobs that it took, in this order.
    pub(crate) taken: LinkedList<u32>,
}

/// The jobs that all passes took, and those inside, are together the jobs that were put.
pub(crate) struct Shared;

impl Protocol<u32, Tally> for Shared {
    ghost holds = { EachOnce };

    ghost first = { first_tally };

    ghost guest = { guest_tally };
}

/// The caller's end: it puts the jobs and takes those that are left.
pub(crate) type Owner = Worker<u32, Global, Tally, Shared>;

/// What workers steal by.
pub(crate) type Thief = Stealer<u32, Global, Tally, Shared>;

/// A worker's pass.
pub(crate) type Taker = Pass<u32, Tally>;

/// A pass for one more worker, which is joined at its end.
pub(crate) struct Cut;

impl Split<Tally> for Cut {
    ghost left = { cut_tally };

    ghost right = { new_tally };
}

impl Join<Tally> for Cut {
    ghost both = { joined_tally };

    ghost spent = { guest_tally };
}

/// The next job is put.
pub(crate) struct Put;

impl Outcome<u32, Tally> for Put {
    ghost then = { λ v xs w. w ≡ put_tally v };
}

/// A job is taken, or the deque is found empty.
pub(crate) struct Take;

impl Outcome<u32, Tally> for Take {
    ghost then = { HasTaken };

    ghost empty = { AreAllTaken };
}

/// A deque with the jobs from 1 to this number, first in, first out.
pub(crate) fn filled(alloc: Global, jobs: u32) -> Result<Owner, NoMemory>
    requires { jobs ≤ most_notices }
    ensures fifo { IfOk result (λ owner. worker_flavor owner ≡ 0) }
    ensures put { IfOk result (λ owner. worker_view owner ≡ tally all_parts jobs []) }
{
    let mut owner = Owner::fifo_as(alloc, CAPACITY)?;
    for put in 0..jobs {
        if owner.push_as::<Put>(put + 1).is_err() {
            return Err(NoMemory);
        }
    }
    Ok(owner)
}

//! Times that were stamped, one after the other, which proofs alone can read.

ghost use Rattle.std.specs.Prelude.{◌≡◌};
ghost use Rattle.locked_place.specs.Stamps.{none_yet, stamped};

use atomic_table::{Play, Seat, Table, TableRule};
use packet_entry::NoMemory;
use std::alloc::Global;
use std::collections::LinkedList;
use std::marker::Model;

/// The times that were stamped, in their order. No value of this type is made: it is what proofs
/// see of a seat.
pub(crate) struct Times {
    pub times: LinkedList<u64>,
}

/// Nothing is kept between steps.
pub(crate) struct Free;

impl TableRule<u8, Times, u64> for Free {
    ghost holds = { λ key s. Unit {0} };

    ghost first = { λ key. none_yet };
}

/// A time is stamped: it is stored, and known.
pub(crate) struct Stamp;

impl Play<u8, Times> for Stamp {
    ghost then = { λ s m stored after. after ≡ (stamped m.0 stored, m.1) };
}

/// Times that were stamped. Contracts see all of them; memory has the last alone, 8 bytes.
#[derive(Drop)]
pub struct Stamps {
    table: Table<u8, Times, u64, Free, Global>,
    seat: Seat<u8, Times>,
}

impl Model for Stamps {
    ghost use Rattle.std.specs.Prelude.{List, ℕ};

    ghost Value = { List ℕ };

    ghost use Rattle.std.specs.Prelude.{◌≡◌};

    ghost view = { λ s. s.seat.me.0.times };

    ghost invariant = { λ s. (s.seat.table_id ≡ s.table.shared.table_id)
        × (s.table.shared.table_id.words ≡ 1) };
}

impl Stamps {
    ghost use Rattle.std.specs.Prelude.{◌≡◌, IfOk, [], ◌∷◌, ◌++◌, replicate};

    /// Of no entry yet.
    pub fn new(alloc: Global) -> Result<Stamps, NoMemory>
        ensures { IfOk result (λ made. made ≡ []) }
    {
        let (table, seat) = Table::of_words(alloc, &[0], &0)?;
        Ok(Stamps { table, seat })
    }

    /// One time more. It makes one store, on a word of its own, and takes no memory.
    pub(crate) fn stamp(&mut self, time: u64)
        ensures { self.new ≡ self.old ++ time ∷ [] }
    {
        let table = &self.table;
        table.shared.store::<Stamp>(&mut self.seat, 0, time);
    }

    /// The same time, so many times more. Takes no memory.
    pub(crate) fn stamp_all(&mut self, count: usize, time: u64)
        ensures { self.new ≡ self.old ++ replicate count time }
    {
        for _ in 0..count {
            self.stamp(time);
        }
    }
}

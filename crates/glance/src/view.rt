//! What a seat of a board knows. No value of these types is made: they are what contracts see of
//! a seat.
use crate::totals::Totals;
use std::collections::LinkedList;

/// A place was read once.
pub(crate) struct Reading {
    pub place: u64,
    /// What had been published for it by then, in this order. The last of these was read, or the
    /// opening zeros where there was none.
    pub published: LinkedList<Totals>,
}

/// What a seat may do, and what it knows.
pub(crate) struct View {
    /// The first seat makes the Writers.
    pub makes: bool,
    pub writes: bool,
    /// The place of a Writer; of the first seat, how many Writers it made.
    pub place: u64,
    /// What a Writer published, in this order.
    pub published: LinkedList<Totals>,
    /// What was read, in this order.
    pub readings: LinkedList<Reading>,
}

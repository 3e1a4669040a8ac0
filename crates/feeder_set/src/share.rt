//! The shares of feeders.

/// One feeder's share of the frames, which count from 1: frame `n` belongs to the feeder with the
/// number `(n - 1) % feeders`. Feeders count from 0.
#[derive(Clone, Copy, Debug, PartialEq, Eq, Drop)]
pub struct Share {
    /// The feeder's number.
    pub number: u32,
    /// How many feeders there are.
    pub feeders: u32,
}

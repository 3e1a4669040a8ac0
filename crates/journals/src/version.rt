//! The versions of the journal's format.

/// A version of the journal's format.
#[derive(Clone, Copy, Debug, PartialEq, Eq)]
pub enum Version {
    /// `nfq-journal 1`: it tells no priorities. All are 0, and no request sets one.
    First,
    /// `nfq-journal 2`
    Second,
}

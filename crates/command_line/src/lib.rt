//! The command line of `nfq`: which command the arguments are, with the names of its files and its
//! numbers.
//!
//! [`command_of`] reads the arguments of every command but `live`, and [`live_of`] those of `live`.
//! They are borrowed, and no memory is taken.
#![tactic(auto)]

mod arguments;
mod numerals;

pub use arguments::{
    Audit, Command, Generation, Inputs, Listing, Live, Migration, Play, RunSize, Sample,
    command_of, live_of,
};

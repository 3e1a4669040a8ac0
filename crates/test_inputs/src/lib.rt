//! Rows of the tables that the programs of tests go over: what stands in a row, and how an answer is
//! printed.
#![tactic(auto)]

mod row;
mod shown;

pub use row::{Row, bytes, number};
pub use shown::{add, content, debug, hex};

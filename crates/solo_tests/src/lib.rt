//! Tests alone, of the crates for a run on one thread: a plane by its calls, and a script's whole
//! run.
#![tactic(auto)]

#[cfg(test)]
mod tests;

//! Tests alone, of the crates that judge finished journals.
#![tactic(auto)]

#[cfg(test)]
mod tests;

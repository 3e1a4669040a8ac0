//! Tests alone, of scripts and their lines, generated inputs and arguments.
#![tactic(auto)]

#[cfg(test)]
mod tests;

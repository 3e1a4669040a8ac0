//! Tests alone, of journals, of released frames and of the files of a run.
#![tactic(auto)]

#[cfg(test)]
mod tests;

//! Runs of the program's commands over hosts, gates and threads that are made for them.
#![tactic(auto)]

#[cfg(test)]
mod tests;

//! Tests alone: what no contract says of `plane`, and of what stands over it: `feeder_set`,
//! `inspector_pool` and `nfq_live`.
#![tactic(auto)]

#[cfg(test)]
mod tests;

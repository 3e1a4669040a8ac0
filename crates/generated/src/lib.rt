//! Generated inputs: a capture, a rules file and a script that fit together.
//!
//! [`capture`] makes a capture of a number: the same number always gives the same packets, by the
//! words of xoshiro256++. [`rules_text`] and [`script_text`] are the two texts that go with each of
//! them, and [`tables`] and [`script`] what these say: eight queues, among which packets are spread
//! by their flows, and four ports with two of them each, which drop UDP and accept all else.
#![tactic(auto)]

mod captures;
mod files;
mod laws;
mod packet;
mod texts;

pub use captures::capture;
pub use files::{script, tables};
pub use laws::{
    captures_are_files, packets_are_ipv4, records_are_of_words, texts_are_files, words_are_outputs,
};
pub use texts::{rules_text, script_text};

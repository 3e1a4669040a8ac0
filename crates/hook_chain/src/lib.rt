//! The tables of the FORWARD hook, and where a packet goes next.
//!
//! [`read_tables`] reads the text that iptables-save(8) writes, reduced to rules with the target
//! NFQUEUE. [`route`] takes a packet through the tables: in each the first rule that matches queues
//! it. [`onward`] says where it goes after a verdict. [`route_card`] and [`onward_card`] say the
//! same of a card. [`balance`] picks one of several queues by the packet's flow, the same for both
//! directions. Only `read_tables` takes memory.
#![tactic(auto)]

mod chain;
mod flow;
mod laws;
mod line;
mod reading;
mod rule;
mod rule_line;
mod tables;

pub use chain::{Decision, Next, onward, onward_card, route, route_card};
pub use flow::balance;
pub use laws::{
    fanout_takes_one_of_the_queues, one_refused_line, one_value, value_or_refused_line,
};
pub use reading::read_tables;
pub use rule::{MarkTest, Pick, Rule};
pub use tables::Tables;
pub use text_lines::LineFault;

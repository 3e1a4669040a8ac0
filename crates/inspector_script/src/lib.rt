//! How the inspector behind each port behaves, as a script says: what it asks when its port opens,
//! how it answers each notice, and what it asks at the end.
//!
//! [`read_script`] reads a [`Script`] from its file. It has a block for each port. A
//! [`PortMachine`] is the inspector of one of them: it counts the notices that its port received,
//! and answers each by the first `on` line of the block whose conditions all hold.
#![tactic(auto)]

mod block;
mod block_reading;
mod laws;
mod machine;
mod reading;
mod script;

pub use laws::{
    nobody_answers_where_no_line_holds, one_refused_line, one_value,
    the_first_line_that_holds_answers, value_or_refused_line,
};
pub use machine::PortMachine;
pub use reading::read_script;
pub use script::{Downs, Script};
pub use script_lines::{Ask, Asks, Down};
pub use text_lines::LineFault;

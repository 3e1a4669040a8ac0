//! What a run of a script does whichever plane it has: the packets of a capture's frames, when
//! devices go down, what an inspector answers, and the bytes that a port sends.
#![tactic(auto)]

mod answers;
mod closings;
mod downs;
mod packet;
mod texts;

pub use answers::{answered, notice_in};
pub use closings::ports_close_at_the_end;
pub use downs::{DownsByFrame, LinesAfter, downs_by_frame, lines_after};
pub use packet::packet_of;
pub use texts::{behind, put_text, put_words};

//! The lines of a script: what each says, and what a line that answers notices asks for.
//!
//! [`read_line`] reads what one line says. A [`Line`] says nothing, sets up the run, begins a
//! port's block, or stands inside one. An [`OnLine`] has [`Condition`]s, which hold of a notice or
//! don't, and [`Template`]s, which are asks once the notice is known. Which lines may follow which
//! is `inspector_script`'s.
#![tactic(auto)]

mod answering;
mod ask;
mod ask_line;
mod condition;
mod condition_line;
mod laws;
mod line;
mod on_line;
mod template;

pub use answering::OnLine;
pub use ask::{Ask, Asks, put_words};
pub use condition::{Condition, Period};
pub use laws::lines_say_what_is_written;
pub use line::{BlockLine, Down, Line, read_line};
pub use template::{Judgement, OrThis, Settings, Template};

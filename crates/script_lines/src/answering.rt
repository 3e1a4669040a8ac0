//! The lines that answer notices.

ghost use Rattle.std.specs.Prelude.{◌≡◌, map, IfOk};
ghost use Rattle.script_lines.specs.Answering.{asks_of, holds_all};

use crate::ask::{Ask, Asks};
use crate::condition::Condition;
use crate::template::Template;
use nfqa_msgs::Notice;
use packet_entry::{NoMemory, Sequence};

/// An `on` line.
#[derive(Debug, Drop)]
pub struct OnLine {
    /// The line answers where they all hold, and those of no line before it in its block do.
    pub conditions: Sequence<Condition>,
    /// What it asks for.
    pub asks: Sequence<Template>,
}

impl OnLine {
    /// Whether its conditions all hold of this notice, up to which the port has received so many.
    /// Takes no memory.
    pub fn holds(&self, received: u32, notice: &Notice) -> bool
        ensures { result ≡ holds_all received notice.now self.now }
    {
        self.conditions
            .iter()
            .all(|condition| condition.holds(received, notice))
    }

    /// What it asks for in answer to this notice. The list is made in `room`, whose items go.
    pub fn answer(&self, room: Vec<Ask>, notice: &Notice) -> Result<Asks, NoMemory>
        ensures { IfOk result (λ asks. asks ≡ asks_of notice.now self.now) }
    {
        let mut filled = room;
        filled.clear();
        for template in &self.asks {
            filled.push(template.ask(notice)?)?;
        }
        Ok(Asks::from_vec(filled))
    }
}

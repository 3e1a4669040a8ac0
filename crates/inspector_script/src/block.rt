//! What a script says of one port.

ghost use Rattle.std.specs.Prelude.{◌≡◌, [], ◌++◌, map, option_copied, None, IfOk, IsOk};
ghost use Rattle.inspector_script.specs.Blocks.{answer, closing, line_for, opening};

use histories::AskWords;
use nfqa_msgs::Notice;
use packet_entry::{NoMemory, Sequence};
use script_lines::{Ask, Asks, OnLine, put_words};
use std::alloc::Global;

/// What a script says of one port.
#[derive(Debug, Drop)]
pub(crate) struct Block {
    /// What the `open` lines ask for.
    pub(crate) opening: Sequence<AskWords>,
    /// The `on` lines.
    pub(crate) lines: Sequence<OnLine>,
    /// What the `end` lines ask for, but for `end close`.
    pub(crate) closing: Sequence<AskWords>,
    /// Whether the last of the `end` lines is `end close`.
    pub(crate) closes: bool,
}

impl Block {
    /// What is asked for when the port opens.
    pub(crate) fn opening(&self, alloc: Global) -> Result<Asks, NoMemory>
        ensures { IfOk result (λ asks. asks ≡ opening self.now) }
    {
        let mut asks = Vec::new(alloc);
        put_words(&mut asks, &self.opening)?;
        Ok(Asks::from_vec(asks))
    }

    /// What is asked for at the end.
    pub(crate) fn closing(&self, alloc: Global) -> Result<Asks, NoMemory>
        ensures { IfOk result (λ asks. asks ≡ closing self.now) }
    {
        let mut asks = Vec::new(alloc);
        put_words(&mut asks, &self.closing)?;
        if self.closes {
            asks.push(Ask::Close)?;
        }
        Ok(Asks::from_vec(asks))
    }

    /// What is asked for in answer to this notice, up to which the port has received so many. The
    /// list is made in `room`, whose items go.
    pub(crate) fn answer(
        &self,
        room: Vec<Ask>,
        received: u32,
        notice: &Notice,
    ) -> Result<Asks, NoMemory>
        ensures asks { IfOk result (λ asks. asks ≡ answer received notice.now self.now) }
        ensures unanswered { line_for received notice.now self.now.lines ≡ None → IsOk result }
    {
        match self.line_for(received, notice) {
            None => Ok(nothing_in(room)),
            Some(line) => line.answer(room, notice),
        }
    }

    /// The first line whose conditions all hold. Takes no memory.
    fn line_for(&self, received: u32, notice: &Notice) -> Option<&OnLine>
        ensures { option_copied result ≡ line_for received notice.now self.now.lines }
    {
        self.lines.iter().find(|line| line.holds(received, notice))
    }
}

/// No asks, in a list with the memory of `room`.
fn nothing_in(room: Vec<Ask>) -> Asks
    ensures { result ≡ [] }
{
    let mut none = room;
    none.clear();
    Asks::from_vec(none)
}

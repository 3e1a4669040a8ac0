//! The parts of being made by a script, each with its letter and its sentence.

ghost use Rattle.std.specs.Prelude.{◌≡◌};
ghost use Rattle.journal_audit.specs.Printed as printed;

/// A part of what it is for a script to have made histories. Each can hold or not by itself, and
/// they are judged in this order.
#[derive(Clone, Copy, Debug, PartialEq, Eq)]
pub enum Part {
    /// Each port has a log, which is what the script says, with notices of arrivals that queues
    /// took.
    Logs,
    /// The requests in the queues' histories are the ports' messages, with their errnos.
    Requests,
    /// Each port received the notices of the arrivals that its queues took, in their order.
    Notices,
    /// A port's closing is told at the queues that are bound to it exactly if its log has it, and
    /// it asks for nothing later.
    Closings,
    /// First visits come in the order of the frames, and devices go down where the script says it.
    Feeder,
    /// There is one log for each port, in the script's order, and no other.
    Ports,
    /// Requests of `open` lines come before all else, and those of `end` lines and closings after
    /// all that was fed, each in the script's order.
    Order,
    /// A mailbox is full only if at least as many notices were sent to it as it holds.
    Room,
}

impl Part {
    /// All parts, in their order.
    pub const ALL: [Part; 8] = [
        Part::Logs,
        Part::Requests,
        Part::Notices,
        Part::Closings,
        Part::Feeder,
        Part::Ports,
        Part::Order,
        Part::Room,
    ];

    /// The letter that the line of a finding has.
    pub fn letter(self) -> &'static str
        ensures { result.now ≡ printed.letter_of self }
    {
        match self {
            Part::Logs => "a",
            Part::Requests => "b",
            Part::Notices => "c",
            Part::Closings => "d",
            Part::Feeder => "e",
            Part::Ports => "f",
            Part::Order => "g",
            Part::Room => "h",
        }
    }

    /// What is wrong where it doesn't hold, in words: a sentence without its full stop.
    pub fn sentence(self) -> &'static str
        ensures { result.now ≡ printed.sentence_of self }
    {
        match self {
            Part::Logs => "a port's log isn't what the script says",
            Part::Requests => "a port's messages aren't the requests that the queues tell",
            Part::Notices => "a port didn't receive just the notices of what its queues took",
            Part::Closings => "a port's closing isn't told as it must be",
            Part::Feeder => "frames or devices that go down aren't in the order of the inputs",
            Part::Ports => "the logs aren't those of the script's ports, in their order",
            Part::Order => "a port opened after other entries, or ended before the last frame",
            Part::Room =>
                "a mailbox was full though fewer notices were sent in the run than it holds",
        }
    }
}

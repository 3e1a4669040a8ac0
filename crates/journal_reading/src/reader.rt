//! How far the reading of a journal has come.

ghost use Rattle.std.specs.Prelude.{◌≡◌, ◌∷◌, ◌++◌, [], IfOk, Some, OnOk, option_to_list};
ghost use Rattle.journal_reading.specs.declared.line.Line.TheVariants as line;
ghost use Rattle.text_lines.specs.Refusals.{Moves};
ghost use Rattle.journal_reading.specs.JournalFile.{FollowsText, HasRead, IsSound, KnowsPorts};
ghost use Rattle.journal_reading.specs.JournalFile.{after};
ghost use Rattle.journal_reading.specs.JournalFile.{Follows, closed, start};
ghost use Rattle.journal_reading.specs.JournalFile.{histories_of, is_closing, is_end, place_of};
ghost use Rattle.journal_reading.specs.JournalFile.{put};

use crate::laws::lines_say_what_is_written;
use crate::line::Line;
use crate::line_reading::read_line;
use histories::{Did, Entries, Entry, Histories, Logs, PortLog};
use journals::Version;
use packet_entry::{NoMemory, Sequence};
use std::alloc::Global;
use std::collections::BTreeSet;
use text_lines::Stop;

/// How far the reading of a journal has come, behind its heading.
#[derive(Drop)]
pub(crate) struct Reader {
    entries: Entries,
    /// The number of the last entry's queue.
    queue: u16,
    /// The logs before the last one.
    logs: Logs,
    last: Option<PortLog>,
    /// Whether the last log's port has closed.
    shut: bool,
    /// The ports of all logs.
    ports: BTreeSet<u32>,
}

impl Reader {
    pub(crate) fn new(alloc: Global) -> Reader
        ensures place { place_of result ≡ start }
        ensures ports { KnowsPorts result }
    {
        Reader {
            entries: Sequence::new(alloc),
            queue: 0,
            logs: Sequence::new(alloc),
            last: None,
            shut: false,
            ports: BTreeSet::new(alloc),
        }
    }

    /// Goes on after this line of a journal of this version, and says whether it was the last one.
    pub(crate) fn read(
        &mut self,
        alloc: Global,
        version: Version,
        line: &[u8],
    ) -> Result<bool, Stop>
        requires ports { KnowsPorts self.old }
        requires sound { IsSound version (place_of self.old) }
        ensures ports { OnOk result (KnowsPorts self.new) }
        ensures sound { OnOk result (IsSound version (place_of self.new)) }
        ensures more { IfOk result (λ ended. HasRead version ended (place_of self.old)
            (place_of self.new) line.now) }
        ensures follows { FollowsText version result (place_of self.old) (place_of self.new)
            line.now }
    {
        lines_say_what_is_written();
        match read_line(alloc, version, line)? {
            Some(said) => self.go_on(alloc, said),
            None => Err(Stop::Refused),
        }
    }

    /// Goes on after a line that says this, and says whether it was the last one.
    fn go_on(&mut self, alloc: Global, said: Line) -> Result<bool, Stop>
        requires { KnowsPorts self.old }
        ensures follows { Follows result (place_of self.old) (place_of self.new) said }
        ensures ports { OnOk result (KnowsPorts self.new) }
    {
        if is_end(&said) {
            return Ok(true);
        }
        match self.take(alloc, said) {
            Ok(()) => Ok(false),
            Err(stop) => Err(stop),
        }
    }

    /// Goes on after a line that says this. Refused where it is the last one.
    #[tactic(auto, unfolding(crate::specs::JournalFile::after))]
    pub(crate) fn take(&mut self, alloc: Global, line: Line) -> Result<(), Stop>
        requires { KnowsPorts self.old }
        ensures after { Moves result (after (place_of self.old) line) (place_of self.new) }
        ensures ports { OnOk result (KnowsPorts self.new) }
    {
        match line {
            Line::EntryLine { entry } => self.entry(entry),
            Line::PortLine { port } => self.port(alloc, port),
            Line::DidLine { did } => self.did(did),
            Line::Heading | Line::End => Err(Stop::Refused),
        }
    }

    /// Adds an entry. Refused behind the first log, and where the queue's number descends.
    #[tactic(auto, unfolding(crate::specs::JournalFile::after))]
    fn entry(&mut self, entry: Entry) -> Result<(), Stop>
        requires { KnowsPorts self.old }
        ensures after { Moves result (after (place_of self.old) (line.EntryLine entry))
            (place_of self.new) }
        ensures ports { OnOk result (KnowsPorts self.new) }
    {
        let queue = entry.queue;
        if self.last.is_some() || queue < self.queue {
            return Err(Stop::Refused);
        }
        push(&mut self.entries, entry)?;
        self.queue = queue;
        Ok(())
    }

    /// Begins the log of this port. Refused where it has one.
    #[tactic(auto, using(crate::proofs::Ports::added), unfolding(crate::specs::JournalFile::after))]
    fn port(&mut self, alloc: Global, port: u32) -> Result<(), Stop>
        requires { KnowsPorts self.old }
        ensures after { Moves result (after (place_of self.old) (line.PortLine port))
            (place_of self.new) }
        ensures ports { OnOk result (KnowsPorts self.new) }
    {
        if self.ports.contains(&port) {
            return Err(Stop::Refused);
        }
        self.close()?;
        self.ports.insert(port)?;
        self.last = Some(PortLog {
            port,
            dids: Sequence::new(alloc),
        });
        self.shut = false;
        Ok(())
    }

    /// Puts the last log, if there is one, behind those before it.
    fn close(&mut self) -> Result<(), Stop>
        ensures place { Moves result (Some (closed (place_of self.old))) (place_of self.new) }
        ensures ports { self.new.ports ≡ self.old.ports }
    {
        if let Some(log) = self.last.take() {
            push(&mut self.logs, log)?;
        }
        Ok(())
    }

    /// Adds what the last port did. Refused before the first log, and where that port has closed.
    #[tactic(auto, using(crate::proofs::Ports::same), unfolding(crate::specs::JournalFile::after))]
    fn did(&mut self, did: Did) -> Result<(), Stop>
        requires { KnowsPorts self.old }
        ensures after { Moves result (after (place_of self.old) (line.DidLine did))
            (place_of self.new) }
        ensures ports { OnOk result (KnowsPorts self.new) }
    {
        if self.shut {
            return Err(Stop::Refused);
        }
        let shut = is_closing(&did);
        put(&mut self.last, did)?;
        self.shut = shut;
        Ok(())
    }

    /// The histories that were read.
    pub(crate) fn finish(self, alloc: Global) -> Result<Histories, NoMemory>
        ensures { IfOk result (λ h. h ≡ histories_of (place_of self)) }
    {
        let Reader {
            entries,
            mut logs,
            last,
            ..
        } = self;
        if let Some(log) = last {
            logs.push(log).map_err(|_| NoMemory)?;
        }
        Ok(Histories {
            entries,
            logs,
            lost: Sequence::new(alloc),
        })
    }
}

fn is_end(line: &Line) -> bool
    ensures { result ≡ is_end line.now }
{
    matches!(line, Line::End)
}

fn is_closing(did: &Did) -> bool
    ensures { result ≡ is_closing did.now }
{
    matches!(did, Did::Closed)
}

/// Adds what a port did to its log. Refused where there is none.
fn put(last: &mut Option<PortLog>, did: Did) -> Result<(), Stop>
    ensures { Moves result (put last.old did) last.new }
{
    match last {
        Some(log) => push(&mut log.dids, did),
        None => Err(Stop::Refused),
    }
}

/// Adds an item at the end.
fn push<T: Drop>(items: &mut Sequence<T>, item: T) -> Result<(), Stop>
    ensures { Moves result (Some (items.old ++ item ∷ [])) items.new }
{
    match items.push(item) {
        Ok(()) => Ok(()),
        Err(_item) => Err(Stop::NoMemory),
    }
}

//! What to look at next. Nothing rests on it but the time that is taken: at the end all queues and
//! ports are looked at.

use histories::{Did, Entry, Event, Histories};
use packet_entry::NoMemory;
use std::alloc::Global;
use std::collections::BTreeMap;

/// A queue whose next entry may go, or a port whose log may be gone over further.
#[derive(Clone, Copy, Debug, Drop)]
pub(crate) enum Task {
    /// The queue with this number.
    Queue(u16),
    /// This port.
    Port(u32),
}

/// What to look at next, and what waits for what.
#[derive(Drop)]
pub(crate) struct Hints {
    tasks: Vec<Task>,
    /// Queues whose next packet comes again, by the visit at which it has to leave first.
    arrivals: BTreeMap<(u32, u32), u16>,
    /// Ports by the notice that is next in their log.
    notices: BTreeMap<(u16, (u32, u32)), u32>,
    /// Queues whose next entry is a request, by its port and number.
    requests: BTreeMap<(u32, u32), u16>,
    /// Queues that end next, by the port that closes.
    closings: BTreeMap<u32, Vec<u16>>,
}

impl Hints {
    /// Nothing is to be looked at.
    pub(crate) fn new(alloc: Global) -> Hints {
        Hints {
            tasks: Vec::new(alloc),
            arrivals: BTreeMap::new(alloc),
            notices: BTreeMap::new(alloc),
            requests: BTreeMap::new(alloc),
            closings: BTreeMap::new(alloc),
        }
    }

    /// What is looked at next.
    pub(crate) fn next(&mut self) -> Option<Task> {
        self.tasks.pop()
    }

    /// All queues and ports are to be looked at.
    pub(crate) fn add_all(&mut self, histories: &Histories) -> Result<(), NoMemory> {
        let mut last: Option<u16> = None;
        for entry in &histories.entries {
            if last != Some(entry.queue) {
                self.tasks.push(Task::Queue(entry.queue))?;
            }
            last = Some(entry.queue);
        }
        for log in &histories.logs {
            self.tasks.push(Task::Port(log.port))?;
        }
        Ok(())
    }

    /// An entry went, and these packets left.
    pub(crate) fn gone(&mut self, entry: &Entry, visits: &[(u32, u32)]) -> Result<(), NoMemory> {
        for visit in visits {
            if let Some(queue) = self.arrivals.remove(visit) {
                self.tasks.push(Task::Queue(queue))?;
            }
        }
        match &entry.event {
            Event::Arrive { card, .. } => {
                let notice = (entry.queue, (card.number, card.visit));
                if let Some(port) = self.notices.remove(&notice) {
                    self.tasks.push(Task::Port(port))?;
                }
            }
            Event::Ask { port, .. } => self.tasks.push(Task::Port(*port))?,
            _ => {}
        }
        self.tasks.push(Task::Queue(entry.queue))?;
        Ok(())
    }

    /// A port's log is gone over by one more.
    pub(crate) fn passed(&mut self, port: u32) -> Result<(), NoMemory> {
        self.tasks.push(Task::Port(port))?;
        Ok(())
    }

    /// A queue's next entry can't go.
    pub(crate) fn queue_waits(&mut self, alloc: Global, entry: &Entry) -> Result<(), NoMemory> {
        match &entry.event {
            Event::Arrive { card, .. } => {
                let before = (card.number, card.visit.saturating_sub(1));
                self.arrivals.insert(before, entry.queue)?;
            }
            Event::Ask { port, call, .. } => {
                self.requests.insert((*port, *call), entry.queue)?;
                self.tasks.push(Task::Port(*port))?;
            }
            Event::PortClosed { port } => {
                self.closing_waits(alloc, *port, entry.queue)?;
                self.tasks.push(Task::Port(*port))?;
            }
            Event::DeviceDown { .. } => {}
        }
        Ok(())
    }

    /// A queue ends next, once its port closed.
    fn closing_waits(&mut self, alloc: Global, port: u32, queue: u16) -> Result<(), NoMemory> {
        if let Some(queues) = self.closings.get_mut(&port) {
            queues.push(queue)?;
            return Ok(());
        }
        let mut queues = Vec::new(alloc);
        queues.push(queue)?;
        self.closings.insert(port, queues)?;
        Ok(())
    }

    /// A port's log can't be gone over any further: this is next.
    pub(crate) fn port_waits(&mut self, port: u32, did: Option<&Did>) -> Result<(), NoMemory> {
        match did {
            Some(
                Did::Received {
                    queue,
                    number,
                    visit,
                },
            ) => {
                self.notices.insert((*queue, (*number, *visit)), port)?;
            }
            Some(Did::Sent { call, .. }) => {
                if let Some(queue) = self.requests.remove(&(port, *call)) {
                    self.tasks.push(Task::Queue(queue))?;
                }
            }
            Some(Did::Closed) => {}
            None => {
                if let Some(queues) = self.closings.remove(&port) {
                    for queue in queues {
                        self.tasks.push(Task::Queue(queue))?;
                    }
                }
            }
        }
        Ok(())
    }
}

//! What a pool is given: notices, and the port that answers them.
ghost use Rattle.std.specs.Prelude.{◌≡◌, IfOk};
ghost use Rattle.inspector_pool.specs.Rule.{IsJob};
ghost use Rattle.inspector_pool.specs.Work.{IsAssignment, IsAnswered, jobs_in};

use crate::gate::JobGate;
use crate::lists::Notices;
use inspector_script::{PortMachine, Script};
use packet_entry::NoMemory;
use script_lines::Asks;
use std::alloc::Global;
use std::sync::Wait;

/// The notices that a pool answers, and the port that received them. The k-th notice is job k.
#[derive(Drop)]
pub(crate) struct Assignment<'a> {
    pub(crate) script: &'a Script,
    /// Which of the script's ports it is, counted from 0.
    pub(crate) place: u32,
    /// How many notices the port counted before these.
    pub(crate) counted: u32,
    pub(crate) notices: &'a Notices,
}

/// A job that was done: its number, and what is asked for in answer to its notice.
#[derive(Drop)]
pub(crate) struct Answered {
    pub(crate) job: u32,
    pub(crate) asks: Asks,
}

impl Assignment<'_> {
    /// Does the job of this number.
    pub(crate) fn answer<J: JobGate, R: Wait>(
        &self,
        rt: &R,
        alloc: Global,
        gate: &J,
        job: u32,
    ) -> Result<Answered, NoMemory>
        requires assignment { IsAssignment self.now }
        requires job { IsJob (jobs_in self.now) job }
        ensures { IfOk result (λ done. (done.job ≡ job) × IsAnswered self.now done) }
    {
        gate.inside(rt, job);
        let Some(notice) = self.notices.get(job as usize - 1) else {
            unreachable!()
        };
        let number = self.counted.saturating_add(job);
        let machine = PortMachine::new(self.place);
        let asks = machine.answer_as(alloc, self.script, number, notice)?;
        Ok(Answered { job, asks })
    }
}

//! Answers that are put in the order of the notices by the numbers of their jobs.
ghost use Rattle.std.specs.Prelude.{◌≡◌, length, All, IfOk, OnOk};
ghost use Rattle.script_lines.specs.Limits.{IsAsk};
ghost use Rattle.inspector_pool.specs.Rule.{IsJob};
ghost use Rattle.inspector_pool.specs.Work.{jobs_of, placed};

use crate::assignment::Answered;
use crate::lists::Share;
use packet_entry::NoMemory;
use script_lines::Asks;
use std::alloc::Global;

/// So many answers that ask for nothing.
pub(crate) fn blank(alloc: Global, answers: usize) -> Result<Vec<Asks>, NoMemory>
    ensures length { IfOk result (λ tray. length tray.items ≡ answers) }
    ensures fit { IfOk result (λ tray. All (All IsAsk) tray.items) }
{
    let mut tray = Vec::new(alloc);
    for i in 0..answers {
        tray.push(Asks::new(alloc))?;
    }
    Ok(tray)
}

/// Puts each answer in its place, and gives the numbers of the jobs, in their order.
pub(crate) fn put(
    alloc: Global,
    tray: &mut Vec<Asks>,
    answered: Vec<Answered>,
) -> Result<Share, NoMemory>
    requires { All (λ s. IsJob (length tray.old.items) s.job) answered.items }
    ensures placed { OnOk result (tray.new.items ≡ placed tray.old.items answered.items) }
    ensures share { IfOk result (λ share. share ≡ jobs_of answered.items) }
{
    let mut share = Vec::new(alloc);
    for done in answered {
        let Answered { job, asks } = done;
        share.push(job)?;
        tray[job as usize - 1] = asks;
    }
    Ok(Share::from_vec(share))
}

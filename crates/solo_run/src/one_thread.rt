//! The run on one thread.

ghost use Rattle.std.specs.Prelude.{◌≡◌, ◌≤◌, ◌++◌, length, All, IfOk, OnErr, OnOk};
ghost use Rattle.packet_entry.specs.Numbers.{longest_packet};
ghost use Rattle.histories.specs.History.{AreLegal};
ghost use Rattle.histories.specs.Journeys.{AreSound};
ghost use Rattle.histories.specs.Listing.{listing};
ghost use Rattle.run_parts.specs.Entering.{cards};
ghost use Rattle.solo_schedule.specs.Schedule.{IsSolo, before_ends, until_end, until_ends};
ghost use Rattle.solo_schedule.specs.Schedule as schedule;
ghost use Rattle.solo_run.specs.Numbers.{most_frames};
ghost use Rattle.solo_run.specs.RunState.{AreOpen, Goes, IsWith, MayBegin, setting_of, world_of};

use crate::parts::{end_all, open_all, pass_all, rounds_for, take_down};
use crate::rounds::empty;
use crate::run::Run;
use histories::Histories;
use hook_chain::Tables;
use inspector_script::Script;
use packet_entry::NoMemory;
use pcap_io::Capture;
use port_scripts::downs_by_frame;
use std::alloc::Global;

/// Runs a script over the packets of a capture, of at most 200,000 frames: the histories of the
/// schedule of one thread, in which no packet is lost. They are legal, and sound for the packets of
/// the capture. `NoMemory` also where memory ran out between two queues, so that a packet was lost.
pub fn solo(
    alloc: Global,
    script: &Script,
    tables: Tables,
    capture: &Capture,
) -> Result<Histories, NoMemory>
    requires frames { length capture.now.frames ≤ most_frames }
    requires bytes { All (λ f. length f.bytes ≤ longest_packet) capture.now.frames }
    ensures run { IfOk result (IsSolo script.now tables capture.now) }
    ensures legal { IfOk result (λ h. AreLegal h.entries) }
    ensures sound { IfOk result
        (λ h. AreSound tables script.now.key (cards capture.now) h.entries h.lost) }
{
    let mut run = Run::new(alloc, script, tables)?;
    let outcome = go(&mut run, alloc, script, capture);
    let histories = run.close(alloc);
    outcome?;
    histories
}

/// Appends the listing of the queues as they stand before the ports end: all frames of the capture,
/// at most 200,000, have passed, and the mailboxes were emptied. A line for each bound queue, by
/// ascending number. `NoMemory`, which is as that of [`solo`], leaves `out` as it was.
pub fn list_before_ends(
    alloc: Global,
    script: &Script,
    tables: Tables,
    capture: &Capture,
    out: &mut Vec<u8>,
) -> Result<(), NoMemory>
    requires frames { length capture.now.frames ≤ most_frames }
    requires bytes { All (λ f. length f.bytes ≤ longest_packet) capture.now.frames }
    ensures listed { OnOk result (out.new.items
        ≡ out.old.items ++ listing (before_ends script.now tables capture.now).entries) }
    ensures err { OnErr result (out.new.items ≡ out.old.items) }
{
    let mut run = Run::new(alloc, script, tables)?;
    let outcome = go_and_list(&mut run, alloc, script, capture, out);
    // The listing stands. Nobody reads the histories: if memory runs out for them, it does no harm.
    let _histories = run.close(alloc);
    outcome
}

/// Up to where the ports end.
fn go_to_ends(
    run: &mut Run,
    alloc: Global,
    script: &Script,
    capture: &Capture,
) -> Result<(), NoMemory>
    requires { MayBegin script.now capture.now run.old }
    ensures going { OnOk result (Goes script.now run.new) }
    ensures made_with { OnOk result (IsWith run.old run.new) }
    ensures world { OnOk result (world_of run.new
        ≡ until_ends (setting_of run.old) script.now capture.now) }
    ensures fed { OnOk result ((world_of run.new).fed ≡ cards capture.now) }
    ensures open { OnOk result (AreOpen script.now (world_of run.new) 0) }
{
    let downs = downs_by_frame(alloc, script)?;
    open_all(run, alloc, script)?;
    take_down(run, script, &downs, 0)?;
    pass_all(run, alloc, script, capture, &downs)?;
    empty(run, alloc, script, rounds_for(capture))
}

/// All that happens.
fn go(run: &mut Run, alloc: Global, script: &Script, capture: &Capture) -> Result<(), NoMemory>
    requires { MayBegin script.now capture.now run.old }
    ensures going { OnOk result (Goes script.now run.new) }
    ensures made_with { OnOk result (IsWith run.old run.new) }
    ensures world { OnOk result (world_of run.new
        ≡ until_end (setting_of run.old) script.now capture.now) }
    ensures fed { OnOk result ((world_of run.new).fed ≡ cards capture.now) }
{
    go_to_ends(run, alloc, script, capture)?;
    end_all(run, alloc, script, rounds_for(capture))
}

/// Up to where the ports end, and then the listing.
fn go_and_list(
    run: &mut Run,
    alloc: Global,
    script: &Script,
    capture: &Capture,
    out: &mut Vec<u8>,
) -> Result<(), NoMemory>
    requires { MayBegin script.now capture.now run.old }
    ensures listed { OnOk result (out.new.items ≡ out.old.items
        ++ listing (until_ends (setting_of run.old) script.now capture.now).entries) }
    ensures err { OnErr result (out.new.items ≡ out.old.items) }
{
    go_to_ends(run, alloc, script, capture)?;
    run.plane.listing(alloc, out)
}

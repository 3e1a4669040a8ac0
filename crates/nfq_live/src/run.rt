//! The run with threads.

ghost use Rattle.std.specs.Prelude.{◌≡◌, ◌≤◌, ◌<◌, List, [], length, All, IfOk, OnOk};
ghost use Rattle.packet_entry.specs.Numbers.{longest_packet};
ghost use Rattle.hook_chain.specs.Numbers.{most_feeders};
ghost use Rattle.histories.specs.declared.entry.Entry.{Entry};
ghost use Rattle.histories.specs.Grouping.{IsGrouped};
ghost use Rattle.histories.specs.History.{AreLegal};
ghost use Rattle.histories.specs.Journeys.{AreSound};
ghost use Rattle.histories.specs.Lengths.{AreShort};
ghost use Rattle.histories.specs.Numbers.{queue_count};
ghost use Rattle.inspector_pool.specs.Numbers.{most_workers};
ghost use Rattle.total_order.specs.TotalOrder.{HasTotalOrder};
ghost use Rattle.run_parts.specs.Entering.{cards};
ghost use Rattle.place_rows.specs.Lists.{Every};
ghost use Rattle.plane.specs.Opening.{IsNew};
ghost use Rattle.plane.specs.Planes.{order_of, places_of};
ghost use Rattle.nfq_live.specs.Crews.{AreReceived, IsCrewOf};
ghost use Rattle.nfq_live.specs.Endings.{IsAtMeeting};
ghost use Rattle.live_work.specs.Numbers.{most_frames, one_feeder, one_worker};
ghost use Rattle.nfq_live.specs.Feeders.{AreTheSame};
ghost use Rattle.nfq_live.specs.Openings.{HaveOpened};
ghost use Rattle.nfq_live.specs.Run.{IsLiveRun, IsLiveRunBy, IsOpenedFor, tables_of};
ghost use Rattle.nfq_live.specs.Sizes.{size_of};

use crate::crew::Crew;
use crate::setup::Run;
use histories::{Entries, Histories};
use inspector_pool::{JobGate, OpenJobGate};
use inspector_script::Script;
use live_passes::{a_closed_plane_has_all_that_its_passes_did, opened_passes_are_new};
use live_runs::{
    a_run_with_threads_is_made_by_its_script, nothing_is_sent_to_a_closed_port,
    ports_open_one_after_the_other, the_feeder_keeps_its_time,
};
use live_work::{Feeding, Pool, Stage, minds};
use packet_entry::{NoMemory, Sequence};
use pcap_io::Capture;
use plane::{Gate, Opened};
use port_scripts::downs_by_frame;
use std::alloc::Global;
use std::sync::Wait;
use std::thread::Threads;

/// A queue's number has 16 bits.
fn is_short(queue: u16)
    ensures { queue < queue_count }
{}

/// So each entry's has.
fn queues_are_short(entries: &Entries)
    ensures { All (λ (e : Entry). e.queue < queue_count) entries.now }
{
    for entry in entries {
        is_short(entry.queue);
    }
}

/// All that happens between the opening of the plane and its closing: the ports open, the frames
/// pass while the inspectors answer, the mailboxes are emptied, and the ports end.
fn go<'a, R: Threads + Wait + Sync, G: Gate, J: JobGate>(
    stage: Stage<'a, R, G>,
    pool: Pool<'a, J>,
    capture: &'a Capture,
    feeders: u32,
    crew: &mut Crew,
) -> Result<(), NoMemory>
    requires feeders { (one_feeder ≤ feeders) × (feeders ≤ most_feeders) }
    requires frames { length capture.now.frames ≤ most_frames }
    requires bytes { All (λ f. length f.bytes ≤ longest_packet) capture.now.frames }
    requires crew { IsCrewOf stage.plane.now crew.old }
    requires order { order_of stage.plane.now ≡ stage.script.now.ports }
    requires none { HaveOpened stage.script.now (places_of stage.plane.now) 0 crew.old }
    requires new { Every IsNew crew.old.ports.items }
    ensures crew { IsCrewOf stage.entry.plane.now crew.new }
    ensures ended { OnOk result
        (IsAtMeeting stage.entry.script.now (places_of stage.entry.plane.now)
        (size_of pool.entry.workers feeders capture.now) (length stage.entry.script.now.ports)
        crew.new) }
    ensures received { OnOk result (AreReceived stage.entry.script.now.ports
        (places_of stage.entry.plane.now) crew.new) }
    ensures fed { OnOk result (AreTheSame crew.new.feeding.pass.fed (cards capture.now)) }
{
    let run = Run {
        stage,
        pool,
        capture,
        feeders,
    };
    let stage = &run.stage;
    let downs = downs_by_frame(stage.alloc, stage.script)?;
    crew.minds = minds(stage.alloc, stage.script)?;
    crew.make_ready(stage, &downs)?;
    crew.work(&run)?;
    crew.end_all(stage)
}

/// Runs a script over the packets of a capture, of at most 200,000 frames of at most 262,144 bytes
/// each, on a plane that was just opened for the script's ports, mail and key: 1 to 16 feeders,
/// which share out the frames, and an inspector for each port work beside each other, where threads
/// can be made. Behind each inspector a pool of 2 to 16 workers works out the answers, or with 1 it
/// does so alone. What happened is a run of the script, in which every notice was received and no
/// packet is lost. It is legal, and sound for the packets of the capture, and all events of all
/// queues have one order. Rules that fan out by
/// feeder do so by the number of feeders that the plane's tables have. `NoMemory` also where memory
/// ran out between two queues, so that a packet was lost. The gate is told of each turn
/// that feeds a packet or carries out a message, and of the answer to each request; `jobs` of each
/// job of a pool.
pub fn run_pools<'a, R: Threads + Wait + Sync, G: Gate, J: JobGate>(
    rt: &'a R,
    alloc: Global,
    opened: Opened,
    script: &'a Script,
    capture: &'a Capture,
    feeders: u32,
    pool: u32,
    gate: &'a G,
    jobs: &'a J,
) -> Result<Histories, NoMemory>
    requires feeders { (one_feeder ≤ feeders) × (feeders ≤ most_feeders) }
    requires pool { (one_worker ≤ pool) × (pool ≤ most_workers) }
    requires opened { IsOpenedFor script.now opened }
    requires frames { length capture.now.frames ≤ most_frames }
    requires bytes { All (λ f. length f.bytes ≤ longest_packet) capture.now.frames }
    ensures made { IfOk result (IsLiveRunBy pool feeders script.now capture.now) }
    ensures legal { IfOk result (λ h. AreLegal h.entries) }
    ensures sound { IfOk result
        (λ h. AreSound (tables_of opened) script.now.key (cards capture.now) h.entries h.lost) }
    ensures short { IfOk result (λ h. AreShort h.entries) }
    ensures grouped { IfOk result (λ h. (es : List Entry) × IsGrouped es h.entries) }
    ensures whole { IfOk result (λ h. h.lost ≡ []) }
    ensures order { IfOk result HasTotalOrder }
{
    let _ports = script.ports();
    a_run_with_threads_is_made_by_its_script();
    nothing_is_sent_to_a_closed_port();
    ports_open_one_after_the_other();
    the_feeder_keeps_its_time();
    opened_passes_are_new();
    a_closed_plane_has_all_that_its_passes_did();
    let Opened {
        plane,
        feeder,
        ports,
        gauge,
    } = opened;
    let mut crew = Crew {
        feeding: Feeding {
            pass: feeder,
            gauge: Some(gauge),
            failed: false,
        },
        ports: ports.into_vec(),
        minds: Vec::new(alloc),
        closed: Vec::new(alloc),
    };
    let stage = Stage {
        rt,
        alloc,
        plane: &plane,
        gate,
        script,
    };
    let pool = Pool {
        jobs,
        workers: pool,
    };
    // Packets may wait in the plane: it is closed before anything is answered.
    let outcome = go(stage, pool, capture, feeders, &mut crew);
    let Crew {
        feeding,
        ports,
        minds: _minds,
        closed,
    } = crew;
    let Feeding {
        pass: feeder,
        gauge: _gauge,
        failed: _failed,
    } = feeding;
    let ports = Sequence::from_vec(ports);
    let histories = plane.close(alloc, feeder, ports, Sequence::from_vec(closed));
    outcome?;
    let histories = histories?;
    queues_are_short(&histories.entries);
    if !histories.lost.is_empty() {
        return Err(NoMemory);
    }
    Ok(histories)
}

/// [`run_pools`] without a pool: each inspector works out its answers alone.
pub fn run_feeders<R: Threads + Wait + Sync, G: Gate>(
    rt: &R,
    alloc: Global,
    opened: Opened,
    script: &Script,
    capture: &Capture,
    feeders: u32,
    gate: &G,
) -> Result<Histories, NoMemory>
    requires feeders { (one_feeder ≤ feeders) × (feeders ≤ most_feeders) }
    requires opened { IsOpenedFor script.now opened }
    requires frames { length capture.now.frames ≤ most_frames }
    requires bytes { All (λ f. length f.bytes ≤ longest_packet) capture.now.frames }
    ensures made { IfOk result (IsLiveRunBy one_worker feeders script.now capture.now) }
    ensures legal { IfOk result (λ h. AreLegal h.entries) }
    ensures sound { IfOk result
        (λ h. AreSound (tables_of opened) script.now.key (cards capture.now) h.entries h.lost) }
    ensures short { IfOk result (λ h. AreShort h.entries) }
    ensures grouped { IfOk result (λ h. (es : List Entry) × IsGrouped es h.entries) }
    ensures whole { IfOk result (λ h. h.lost ≡ []) }
    ensures order { IfOk result HasTotalOrder }
{
    let jobs = OpenJobGate;
    run_pools(rt, alloc, opened, script, capture, feeders, 1, gate, &jobs)
}

/// [`run_feeders`] with one feeder, which feeds all frames.
pub fn run_workers<R: Threads + Wait + Sync, G: Gate>(
    rt: &R,
    alloc: Global,
    opened: Opened,
    script: &Script,
    capture: &Capture,
    gate: &G,
) -> Result<Histories, NoMemory>
    requires opened { IsOpenedFor script.now opened }
    requires frames { length capture.now.frames ≤ most_frames }
    requires bytes { All (λ f. length f.bytes ≤ longest_packet) capture.now.frames }
    ensures made { IfOk result (IsLiveRun script.now capture.now) }
    ensures legal { IfOk result (λ h. AreLegal h.entries) }
    ensures sound { IfOk result
        (λ h. AreSound (tables_of opened) script.now.key (cards capture.now) h.entries h.lost) }
    ensures short { IfOk result (λ h. AreShort h.entries) }
    ensures grouped { IfOk result (λ h. (es : List Entry) × IsGrouped es h.entries) }
    ensures whole { IfOk result (λ h. h.lost ≡ []) }
    ensures order { IfOk result HasTotalOrder }
{
    run_feeders(rt, alloc, opened, script, capture, 1, gate)
}

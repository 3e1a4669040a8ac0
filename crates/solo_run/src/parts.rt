//! The parts of a run: its ports open, its frames pass, and its ports end.

ghost use Rattle.std.specs.Prelude.{◌≡◌, ◌≤◌, ◌<◌, ◌++◌, [], length, option_to_list, All, OnOk};
ghost use Rattle.packet_entry.specs.Numbers.{longest_packet};
ghost use Rattle.run_parts.specs.Entering.{card_of, cards};
ghost use Rattle.solo_schedule.specs.Schedule.{all_down, ended_all, fed, frame_passed};
ghost use Rattle.run_parts.specs.Feeder.{downs_after};
ghost use Rattle.solo_schedule.specs.Schedule.{frames_passed, is_pause, opened_all, paused};
ghost use Rattle.solo_schedule.specs.Schedule.{rounds_for};
ghost use Rattle.port_scripts.specs.Downs.{AreDownsOf};
ghost use Rattle.solo_run.specs.Numbers.{most_frames};
ghost use Rattle.solo_run.specs.RunState.{AreOpen, Goes, IsWith, Keeps, SameOpen};
ghost use Rattle.solo_run.specs.RunState.{setting_of, world_of};

use crate::between::Nothing;
use crate::rounds::{Emptied, empty};
use crate::run::Run;
use crate::sending::do_all;
use inspector_script::Script;
use packet_entry::NoMemory;
use pcap_io::{Capture, Frame};
use port_scripts::{DownsByFrame, lines_after, packet_of, ports_close_at_the_end};
use std::alloc::Global;

/// The ports open, in the script's order: each sends its opening messages.
pub(crate) fn open_all(run: &mut Run, alloc: Global, script: &Script) -> Result<(), NoMemory>
    requires going { Goes script.now run.old }
    requires open { AreOpen script.now (world_of run.old) 0 }
    ensures going { OnOk result (Goes script.now run.new) }
    ensures made_with { OnOk result (IsWith run.old run.new) }
    ensures opened { OnOk result (world_of run.new
        ≡ opened_all (setting_of run.old) script.now 0 script.now.ports (world_of run.old)) }
    ensures keeps { OnOk result (Keeps (world_of run.old) (world_of run.new)) }
{
    ports_close_at_the_end();
    for place in 0..script.ports().len() {
        let place = place as u32;
        let asks = run.machine(script, place).opening(alloc, script)?;
        do_all(run, alloc, script, place, asks, &Nothing)?;
    }
    Ok(())
}

/// The ports end, in the script's order: each sends its closing messages, and after each of them
/// the mailboxes are emptied, in so many rounds at most.
pub(crate) fn end_all(
    run: &mut Run,
    alloc: Global,
    script: &Script,
    rounds: u32,
) -> Result<(), NoMemory>
    requires going { Goes script.now run.old }
    requires open { AreOpen script.now (world_of run.old) 0 }
    ensures going { OnOk result (Goes script.now run.new) }
    ensures made_with { OnOk result (IsWith run.old run.new) }
    ensures ended { OnOk result (world_of run.new ≡ ended_all rounds (setting_of run.old)
        script.now 0 script.now.ports (world_of run.old)) }
    ensures fed { OnOk result ((world_of run.new).fed ≡ (world_of run.old).fed) }
{
    ports_close_at_the_end();
    for place in 0..script.ports().len() {
        let place = place as u32;
        let asks = run.machine(script, place).closing(alloc, script)?;
        do_all(run, alloc, script, place, asks, &Emptied { rounds })?;
    }
    Ok(())
}

/// The devices go down that do so after the frame with this number.
pub(crate) fn take_down(
    run: &mut Run,
    script: &Script,
    downs: &DownsByFrame,
    number: u32,
) -> Result<(), NoMemory>
    requires going { Goes script.now run.old }
    requires downs { AreDownsOf script.now downs.now }
    ensures going { OnOk result (Goes script.now run.new) }
    ensures made_with { OnOk result (IsWith run.old run.new) }
    ensures down { OnOk result (world_of run.new
        ≡ all_down (downs_after script.now number) (world_of run.old)) }
    ensures keeps { OnOk result (Keeps (world_of run.old) (world_of run.new)) }
{
    for down in lines_after(downs, number) {
        run.device_down(script, down.device)?;
    }
    Ok(())
}

/// The packet of a frame is fed, where it is IP.
fn feed_frame(
    run: &mut Run,
    alloc: Global,
    script: &Script,
    capture: &Capture,
    number: u32,
    frame: &Frame,
) -> Result<(), NoMemory>
    requires going { Goes script.now run.old }
    requires number { 1 ≤ number }
    requires bytes { length frame.now.bytes ≤ longest_packet }
    requires few { length (world_of run.old).fed < most_frames }
    ensures going { OnOk result (Goes script.now run.new) }
    ensures made_with { OnOk result (IsWith run.old run.new) }
    ensures world { OnOk result (world_of run.new
        ≡ fed (setting_of run.old) (card_of capture.now number frame.now) (world_of run.old)) }
    ensures fed { OnOk result ((world_of run.new).fed ≡ (world_of run.old).fed
        ++ option_to_list (card_of capture.now number frame.now)) }
    ensures open { OnOk result (SameOpen (world_of run.old) (world_of run.new)) }
{
    match packet_of(capture, number, frame)? {
        Some(packet) => run.feed(alloc, script, packet),
        None => Ok(()),
    }
}

/// A frame passes: its packet is fed, devices go down, and at a pause the mailboxes are emptied.
fn pass(
    run: &mut Run,
    alloc: Global,
    script: &Script,
    capture: &Capture,
    downs: &DownsByFrame,
    number: u32,
    frame: &Frame,
) -> Result<(), NoMemory>
    requires going { Goes script.now run.old }
    requires frames { length capture.now.frames ≤ most_frames }
    requires downs { AreDownsOf script.now downs.now }
    requires number { 1 ≤ number }
    requires bytes { length frame.now.bytes ≤ longest_packet }
    requires few { length (world_of run.old).fed < most_frames }
    ensures going { OnOk result (Goes script.now run.new) }
    ensures made_with { OnOk result (IsWith run.old run.new) }
    ensures world { OnOk result (world_of run.new ≡ frame_passed (rounds_for capture.now)
        (setting_of run.old) script.now capture.now number frame.now (world_of run.old)) }
    ensures fed { OnOk result ((world_of run.new).fed ≡ (world_of run.old).fed
        ++ option_to_list (card_of capture.now number frame.now)) }
    ensures open { OnOk result (SameOpen (world_of run.old) (world_of run.new)) }
{
    feed_frame(run, alloc, script, capture, number, frame)?;
    take_down(run, script, downs, number)?;
    pause(run, alloc, script, rounds_for(capture), number)
}

/// At a pause the mailboxes are emptied, in so many rounds at most.
fn pause(
    run: &mut Run,
    alloc: Global,
    script: &Script,
    rounds: u32,
    number: u32,
) -> Result<(), NoMemory>
    requires going { Goes script.now run.old }
    ensures going { OnOk result (Goes script.now run.new) }
    ensures made_with { OnOk result (IsWith run.old run.new) }
    ensures world { OnOk result (world_of run.new ≡ paused rounds (setting_of run.old) script.now
        number (world_of run.old)) }
    ensures keeps { OnOk result (Keeps (world_of run.old) (world_of run.new)) }
{
    if is_pause(script.pace(), number) {
        empty(run, alloc, script, rounds)
    } else {
        Ok(())
    }
}

/// Whether the mailboxes are emptied after the frame with this number.
fn is_pause(pace: u32, number: u32) -> bool
    ensures { result ≡ is_pause pace number }
{
    pace != 0 && number % pace == 0
}

/// How many rounds of the mailboxes there are at most for each frame.
const ROUNDS_PER_FRAME: u32 = 32;

/// How many rounds there are at most each time that the mailboxes are emptied.
pub(crate) fn rounds_for(capture: &Capture) -> u32
    requires { length capture.now.frames ≤ most_frames }
    ensures { result ≡ rounds_for capture.now }
{
    ROUNDS_PER_FRAME * capture.frames.len() as u32 + 1
}

/// The frames pass, one after the other.
pub(crate) fn pass_all(
    run: &mut Run,
    alloc: Global,
    script: &Script,
    capture: &Capture,
    downs: &DownsByFrame,
) -> Result<(), NoMemory>
    requires going { Goes script.now run.old }
    requires downs { AreDownsOf script.now downs.now }
    requires frames { length capture.now.frames ≤ most_frames }
    requires bytes { All (λ f. length f.bytes ≤ longest_packet) capture.now.frames }
    requires none { (world_of run.old).fed ≡ [] }
    ensures going { OnOk result (Goes script.now run.new) }
    ensures made_with { OnOk result (IsWith run.old run.new) }
    ensures world { OnOk result (world_of run.new ≡ frames_passed (rounds_for capture.now)
        (setting_of run.old) script.now capture.now 1 capture.now.frames (world_of run.old)) }
    ensures fed { OnOk result ((world_of run.new).fed ≡ cards capture.now) }
    ensures open { OnOk result (SameOpen (world_of run.old) (world_of run.new)) }
{
    let mut number = 1;
    for frame in &capture.frames {
        pass(run, alloc, script, capture, downs, number, frame)?;
        number += 1;
    }
    Ok(())
}

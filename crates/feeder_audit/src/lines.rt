//! The `down` lines that take effect, and when.

ghost use Rattle.std.specs.Prelude.{◌≡◌, ◌≤◌, ◌<◌, ◌^◌, ◌++◌, length, OnOk, IfOk};
ghost use Rattle.run_parts.specs.Feeder as feeder;
ghost use Rattle.port_scripts.specs.Downs.{lines_after};
ghost use Rattle.feeder_audit.specs.Fitting as fitting;
ghost use Rattle.feeder_audit.specs.Rows as rows;

use inspector_script::Script;
use packet_entry::NoMemory;
use port_scripts::{DownsByFrame, downs_by_frame, lines_after};
use script_lines::Down;
use std::alloc::Global;

/// The lines that take effect where there are so many frames, in their order.
pub(crate) fn downs_in_effect(
    alloc: Global,
    script: &Script,
    frames: usize,
) -> Result<Vec<Down>, NoMemory>
    ensures { IfOk result (λ downs. downs.items ≡ feeder.downs_in_effect script.now frames) }
{
    lines_are_short(script);
    downs_up_to(alloc, script, frames.min(u32::MAX as usize) as u32)
}

/// The lines after frames up to this one, frame by frame.
fn downs_up_to(alloc: Global, script: &Script, last: u32) -> Result<Vec<Down>, NoMemory>
    ensures { IfOk result (λ downs. downs.items ≡ feeder.downs_in_effect script.now last) }
{
    let by_frame = downs_by_frame(alloc, script)?;
    let mut downs = Vec::new(alloc);
    for number in 0..last {
        push_after(&by_frame, number, &mut downs)?;
    }
    push_after(&by_frame, last, &mut downs)?;
    Ok(downs)
}

/// No line stands after a frame whose number takes more than 32 bits.
fn lines_are_short(script: &Script)
    ensures { fitting.AreShort script.now.downs }
{
    for down in script.downs() {
        number_is_short(down.after);
    }
}

fn number_is_short(number: u32)
    ensures { number < 2 ^ 32 }
{}

/// Appends the lines after this frame.
fn push_after(by_frame: &DownsByFrame, number: u32, downs: &mut Vec<Down>) -> Result<(), NoMemory>
    ensures { OnOk result (downs.new.items ≡ downs.old.items ++ lines_after by_frame.now number) }
{
    for down in lines_after(by_frame, number) {
        downs.push(*down)?;
    }
    Ok(())
}

/// How many of the lines that are left stand before the frame with this number.
pub(crate) fn lines_before(number: u32, left: &[Down]) -> usize
    ensures value { result ≡ rows.lines_before number left.now }
    ensures within { result ≤ length left.now }
{
    for place in 0..left.len() {
        if left[place].after >= number {
            return place;
        }
    }
    left.len()
}

/// The time behind so many of the lines that are left. With no line it is this time.
pub(crate) fn time_behind(time: u64, left: &[Down], lines: usize) -> u64
    requires { lines ≤ length left.now }
    ensures { result ≡ fitting.time_at time left.now lines }
{
    match lines.checked_sub(1) {
        Some(last) => falling_time(left[last].after),
        None => time,
    }
}

/// When a frame is fed; its packet's first arrival takes up the time from here to one later.
pub(crate) fn feeding_time(number: u32) -> u64
    ensures { result ≡ feeder.feeding_time number }
{
    2 * number as u64
}

/// When the lines after a frame take effect.
pub(crate) fn falling_time(number: u32) -> u64
    ensures { result ≡ feeder.falling_time number }
{
    2 * number as u64 + 1
}

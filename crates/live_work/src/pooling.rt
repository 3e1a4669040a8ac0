//! How a port answers its notices with a pool of workers behind it.

ghost use Rattle.std.specs.Prelude.{◌≡◌, ◌≤◌, ◌<◌, ◌+◌, ◌↔◌, ℕ, [], true, length, All, IfOk, OnOk};
ghost use Rattle.std.specs.Thread.{IsSync};
ghost use Rattle.script_lines.specs.Limits.{IsAsk};
ghost use Rattle.inspector_pool.specs.Answers.{answers};
ghost use Rattle.inspector_pool.specs.Numbers.{least_workers, most_notices};
ghost use Rattle.run_parts.specs.Log.{is_pool, received_count};
ghost use Rattle.run_parts.specs.Ports.{is_port, place_in};
ghost use Rattle.port_scripts.specs.Words.{AreWords};
ghost use Rattle.plane.specs.Passes.{IsPortOf};
ghost use Rattle.plane.specs.Planes.{places_of};
ghost use Rattle.live_passes.specs.Numbered.{StaysPort};
ghost use Rattle.live_work.specs.Looking.{LooksOn, heard_by};
ghost use Rattle.live_work.specs.Minds.{IsMind};
ghost use Rattle.live_work.specs.Pooling.{HasReceived, LeavesAnswers, as_many_as};

use crate::looking::LAST_LOOK;
use crate::mind::Mind;
use crate::pause::Pause;
use crate::pool::Pool;
use crate::sending::say_all;
use feeder_set::Stage;
use inspector_pool::{AsksList, Desk, JobGate, MAX_NOTICES, Notices};
use inspector_script::Script;
use live_passes::ports_speak_by_their_passes;
use live_runs::{a_pool_answers_in_groups, what_a_port_does_adds_up};
use packet_entry::NoMemory;
use plane::{Gate, PortPass};
use port_scripts::{notice_in, ports_close_at_the_end};
use std::sync::Wait;
use std::thread::{Threads, join_mut};

/// What a port received, to be answered together.
struct Batch {
    /// The notices in the order in which they came.
    notices: Notices,
    /// Whether one more came behind them that can't be read. Nothing is asked for in answer.
    unread: bool,
    /// The number of the first of them on the desk.
    first: u64,
}

/// Receives notices until the mailbox is found empty, at most 64, or one can't be read. Each is
/// counted, and laid on the desk.
fn receive_batch<R: Wait, G: Gate, J: JobGate>(
    stage: &Stage<'_, R, G>,
    desk: &Desk<'_, J>,
    pass: &mut PortPass,
    mind: &mut Mind,
) -> Result<Batch, NoMemory>
    requires pass { IsPortOf stage.now.plane.now pass.old }
    requires mind { IsMind stage.now.script.now pass.old mind.old }
    ensures stays { StaysPort stage.now.plane.now pass.old pass.new }
    ensures mind { OnOk result (IsMind stage.now.script.now pass.new mind.new) }
    ensures few { IfOk result (λ b. length b.notices ≤ most_notices) }
    ensures words { IfOk result (λ b. All AreWords (answers stage.now.script.now
        mind.old.machine.place mind.old.machine.received b.notices)) }
    ensures received { IfOk result (λ b. HasReceived stage.now.script.now
        (places_of stage.now.plane.now) mind.old.machine b.notices b.unread pass.old pass.new) }
    ensures heard { IfOk result (λ b. heard_by pass.new
        ≡ heard_by pass.old + as_many_as b.notices b.unread) }
{
    ports_speak_by_their_passes();
    a_pool_answers_in_groups();
    ports_close_at_the_end();
    let first = desk.laid();
    let mut notices = Notices::new(stage.alloc);
    for received in 0..MAX_NOTICES {
        let Some(letter) = stage.plane.receive(stage.rt, pass)? else {
            break;
        };
        let counted = mind.machine.counted();
        mind.machine.count(1);
        mind.received = mind.received.saturating_add(1);
        let Some(notice) = notice_in(&letter.bytes)? else {
            return Ok(Batch {
                notices,
                unread: true,
                first,
            });
        };
        desk.lay(counted, received + 1, &notice);
        let Ok(()) = notices.push(notice) else {
            return Err(NoMemory);
        };
    }
    Ok(Batch {
        notices,
        unread: false,
        first,
    })
}

/// Which of the script's ports has this number, counted from 0.
fn place_of(script: &Script, port: u32) -> u32
    requires { is_port script.now port ≡ true }
    ensures { result ≡ place_in port script.now.ports }
{
    let ports = script.ports();
    for at in 0..ports.len() {
        if ports[at] == port {
            return at as u32;
        }
    }
    unreachable!()
}

/// Sends answers that wait, in their order.
fn send_answers<R: Wait, G: Gate>(
    stage: &Stage<'_, R, G>,
    pass: &mut PortPass,
    mind: &mut Mind,
    answers: AsksList,
) -> Result<(), NoMemory>
    requires fit { All (All IsAsk) answers }
    requires words { All AreWords answers }
    requires pass { IsPortOf stage.now.plane.now pass.old }
    requires mind { IsMind stage.now.script.now pass.old mind.old }
    ensures stays { StaysPort stage.now.plane.now pass.old pass.new }
    ensures heard { heard_by pass.new ≡ heard_by pass.old }
    ensures mind { OnOk result (IsMind stage.now.script.now pass.new mind.new) }
    ensures sent { OnOk result (LeavesAnswers stage.now.script.now
        (places_of stage.now.plane.now) answers [] pass.old pass.new) }
{
    what_a_port_does_adds_up();
    a_pool_answers_in_groups();
    let mut left = answers;
    while let Some(asks) = left.take_first() {
        say_all(stage, pass, mind, asks)?;
    }
    Ok(())
}

/// A port looks into its mailbox: the notices that it finds, at most 64, are received, the pool at
/// its desk works out the answers, and they are sent in the order of the notices. Whether there was
/// a notice. `NoMemory` leaves a part of the answers sent.
fn look_by_pool<R: Wait, G: Gate, J: JobGate>(
    stage: &Stage<'_, R, G>,
    pool: &Pool<'_, J>,
    desk: &Desk<'_, J>,
    pass: &mut PortPass,
    mind: &mut Mind,
) -> Result<bool, NoMemory>
    requires workers { least_workers ≤ pool.now.workers }
    requires script { desk.now.script.now ≡ stage.now.script.now }
    requires place { desk.now.place ≡ place_in pass.old.port stage.now.script.now.ports }
    requires pass { IsPortOf stage.now.plane.now pass.old }
    requires mind { IsMind stage.now.script.now pass.old mind.old }
    ensures stays { StaysPort stage.now.plane.now pass.old pass.new }
    ensures mind { OnOk result (IsMind stage.now.script.now pass.new mind.new) }
    ensures on { OnOk result (LooksOn pool.now.workers stage.now.script.now
        (places_of stage.now.plane.now) pass.old pass.new) }
    ensures found { IfOk result (λ found.
        (found ≡ true) ↔ (heard_by pass.old < heard_by pass.new)) }
{
    what_a_port_does_adds_up();
    a_pool_answers_in_groups();
    let counted = mind.machine.counted();
    let batch = receive_batch(stage, desk, pass, mind)?;
    let Batch {
        notices,
        unread,
        first,
    } = batch;
    if !unread && notices.is_empty() {
        return Ok(false);
    }
    let answers = desk.answers(stage.rt, first, counted, &notices)?;
    send_answers(stage, pass, mind, answers)?;
    Ok(true)
}

/// A port looks, with a pool of workers at its desk, until its 100,000th look in a row finds
/// nothing. After one that does it pauses, so that others come to work, unless nothing is left to
/// do. `NoMemory` leaves a part of an answer sent.
fn inspect_at<R: Wait, G: Gate, J: JobGate>(
    stage: &Stage<'_, R, G>,
    pool: &Pool<'_, J>,
    desk: &Desk<'_, J>,
    pause: &mut Pause<'_>,
    pass: &mut PortPass,
    mind: &mut Mind,
) -> Result<(), NoMemory>
    requires workers { least_workers ≤ pool.now.workers }
    requires script { desk.now.script.now ≡ stage.now.script.now }
    requires place { desk.now.place ≡ place_in pass.old.port stage.now.script.now.ports }
    requires pass { IsPortOf stage.now.plane.now pass.old }
    requires mind { IsMind stage.now.script.now pass.old mind.old }
    ensures stays { StaysPort stage.now.plane.now pass.old pass.new }
    ensures mind { OnOk result (IsMind stage.now.script.now pass.new mind.new) }
    ensures on { OnOk result (LooksOn pool.now.workers stage.now.script.now
        (places_of stage.now.plane.now) pass.old pass.new) }
{
    what_a_port_does_adds_up();
    let mut empty = 0;
    for _ in stage.rt.forever() {
        if empty >= LAST_LOOK {
            return Ok(());
        }
        if look_by_pool(stage, pool, desk, pass, mind)? {
            pause.found();
            empty = 0;
        } else {
            pause.pause(stage.rt);
            empty += 1;
        }
    }
    unreachable!()
}

/// As `inspect_at`, and then the desk is closed.
fn inspect_to_the_end<R: Wait, G: Gate, J: JobGate>(
    stage: &Stage<'_, R, G>,
    pool: &Pool<'_, J>,
    desk: &Desk<'_, J>,
    pause: &mut Pause<'_>,
    pass: &mut PortPass,
    mind: &mut Mind,
) -> Result<(), NoMemory>
    requires workers { least_workers ≤ pool.now.workers }
    requires script { desk.now.script.now ≡ stage.now.script.now }
    requires place { desk.now.place ≡ place_in pass.old.port stage.now.script.now.ports }
    requires pass { IsPortOf stage.now.plane.now pass.old }
    requires mind { IsMind stage.now.script.now pass.old mind.old }
    ensures stays { StaysPort stage.now.plane.now pass.old pass.new }
    ensures mind { OnOk result (IsMind stage.now.script.now pass.new mind.new) }
    ensures on { OnOk result (LooksOn pool.now.workers stage.now.script.now
        (places_of stage.now.plane.now) pass.old pass.new) }
{
    let outcome = inspect_at(stage, pool, desk, pause, pass, mind);
    desk.close();
    outcome
}

/// A port answers its notices until its 100,000th look in a row finds nothing. Its pool stays for
/// as long, the workers beside the inspector in threads of their own where threads can be started.
/// `NoMemory` leaves a part of an answer sent, or has come before there was a desk. `pool.jobs` is
/// told of each job.
pub fn inspect_by_pool<R: Threads + Wait + Sync, G: Gate, J: JobGate>(
    stage: &Stage<'_, R, G>,
    pool: &Pool<'_, J>,
    pause: &mut Pause<'_>,
    pass: &mut PortPass,
    mind: &mut Mind,
) -> Result<(), NoMemory>
    requires workers { least_workers ≤ pool.now.workers }
    requires pass { IsPortOf stage.now.plane.now pass.old }
    requires mind { IsMind stage.now.script.now pass.old mind.old }
    ensures stays { StaysPort stage.now.plane.now pass.old pass.new }
    ensures mind { OnOk result (IsMind stage.now.script.now pass.new mind.new) }
    ensures on { OnOk result (LooksOn pool.now.workers stage.now.script.now
        (places_of stage.now.plane.now) pass.old pass.new) }
{
    what_a_port_does_adds_up();
    let place = place_of(stage.script, pass.port());
    let desk = Desk::new(stage.alloc, stage.script, place, pool.jobs)?;
    let desk = &desk;
    let ((), outcome) = join_mut(
        stage.rt,
        &mut ||
            requires { IsSync J.row × IsSync R.row × (least_workers ≤ pool.now.workers) }
        { desk.staff(stage.rt, pool.workers - 1) },
        &mut ||
            requires { IsSync J.row × IsSync R.row × (least_workers ≤ pool.now.workers)
                × (desk.now.script.now ≡ stage.now.script.now)
                × (desk.now.place ≡ place_in pass.now.port stage.now.script.now.ports)
                × IsPortOf stage.now.plane.now pass.now
                × IsMind stage.now.script.now pass.now mind.now }
        { inspect_to_the_end(stage, pool, desk, pause, pass, mind) },
    );
    outcome
}

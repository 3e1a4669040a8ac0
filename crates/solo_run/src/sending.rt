//! What ports send.

ghost use Rattle.std.specs.Prelude.{◌≡◌, ◌<◌, ◌^◌, length, All, OnOk, true};
ghost use Rattle.histories.specs.declared.log.AskWords.TheVariants.{Plain};
ghost use Rattle.script_lines.specs.Limits.{IsAsk, IsRequest, IsWords};
ghost use Rattle.script_lines.specs.declared.ask.Ask.TheVariants.{Words};
ghost use Rattle.solo_schedule.specs.Sending.{all_done, all_sent, done};
ghost use Rattle.run_parts.specs.Datagrams.{messages_in};
ghost use Rattle.port_scripts.specs.Words.{AreWords, ClosesLast};
ghost use Rattle.solo_run.specs.RunState.{Goes, IsWith, Keeps, KeepsBut, LeavesBy, is_open_at};
ghost use Rattle.solo_run.specs.RunState.{port_at, setting_of, world_of};

use crate::between::Between;
use crate::run::Run;
use histories::AskWords;
use inspector_script::Script;
use netlink_codec::one_message_in_front;
use nfqa_msgs::{Request, spelling_decodes_to_its_request};
use packet_entry::NoMemory;
use port_scripts::behind;
use script_lines::{Ask, Asks};
use std::alloc::Global;

/// A port sends the messages of some bytes, one after the other.
pub(crate) fn send_all<B: Between>(
    run: &mut Run,
    alloc: Global,
    script: &Script,
    place: u32,
    datagram: &[u8],
    between: &B,
) -> Result<(), NoMemory>
    requires short { length datagram.now < 2 ^ 31 }
    requires going { Goes script.now run.old }
    requires place { place < length script.now.ports }
    requires open { is_open_at script.now (world_of run.old) place ≡ true }
    ensures going { OnOk result (Goes script.now run.new) }
    ensures made_with { OnOk result (IsWith run.old run.new) }
    ensures sent { OnOk result (world_of run.new
        ≡ all_sent (B.then between.now (setting_of run.old) script.now) (setting_of run.old)
        (port_at script.now place) (messages_in datagram.now) (world_of run.old)) }
    ensures keeps { OnOk result (Keeps (world_of run.old) (world_of run.new)) }
{
    let mut rest = datagram;
    // Each message uses a byte at least.
    for _look in 0..datagram.len() {
        let used = run.send_first(alloc, script, place, rest)?;
        if used == 0 {
            return Ok(());
        }
        rest = behind(rest, used as usize);
        between.go(run, alloc, script)?;
    }
    Ok(())
}

/// A port sends the bytes of an ask, a request as its message with the next number.
fn send_words<B: Between>(
    run: &mut Run,
    alloc: Global,
    script: &Script,
    place: u32,
    words: AskWords,
    between: &B,
) -> Result<(), NoMemory>
    requires going { Goes script.now run.old }
    requires place { place < length script.now.ports }
    requires open { is_open_at script.now (world_of run.old) place ≡ true }
    requires fit { IsWords words }
    ensures going { OnOk result (Goes script.now run.new) }
    ensures made_with { OnOk result (IsWith run.old run.new) }
    ensures done { OnOk result (world_of run.new
        ≡ done (B.then between.now (setting_of run.old) script.now) (setting_of run.old)
        (port_at script.now place) (Words words) (world_of run.old)) }
    ensures keeps { OnOk result (Keeps (world_of run.old) (world_of run.new)) }
{
    match words {
        AskWords::Plain { request } => send_request(run, alloc, script, place, request, between),
        AskWords::Raw { bytes } => {
            send_all(run, alloc, script, place, bytes.as_slice(), between)
        }
    }
}

/// A port sends a request. Its spelling would be one message.
fn send_request<B: Between>(
    run: &mut Run,
    alloc: Global,
    script: &Script,
    place: u32,
    request: Request,
    between: &B,
) -> Result<(), NoMemory>
    requires going { Goes script.now run.old }
    requires place { place < length script.now.ports }
    requires open { is_open_at script.now (world_of run.old) place ≡ true }
    requires fits { IsRequest request }
    ensures going { OnOk result (Goes script.now run.new) }
    ensures made_with { OnOk result (IsWith run.old run.new) }
    ensures done { OnOk result (world_of run.new
        ≡ done (B.then between.now (setting_of run.old) script.now) (setting_of run.old)
        (port_at script.now place) (Words (Plain request)) (world_of run.old)) }
    ensures keeps { OnOk result (Keeps (world_of run.old) (world_of run.new)) }
{
    spelling_decodes_to_its_request();
    one_message_in_front();
    run.send_request(alloc, script, place, request)?;
    between.go(run, alloc, script)
}

/// What an ask asks for is done.
fn do_one<B: Between>(
    run: &mut Run,
    alloc: Global,
    script: &Script,
    place: u32,
    ask: Ask,
    between: &B,
) -> Result<(), NoMemory>
    requires going { Goes script.now run.old }
    requires place { place < length script.now.ports }
    requires open { is_open_at script.now (world_of run.old) place ≡ true }
    requires fits { IsAsk ask }
    ensures going { OnOk result (Goes script.now run.new) }
    ensures made_with { OnOk result (IsWith run.old run.new) }
    ensures done { OnOk result (world_of run.new
        ≡ done (B.then between.now (setting_of run.old) script.now) (setting_of run.old)
        (port_at script.now place) ask (world_of run.old)) }
    ensures leaves { OnOk result
        (LeavesBy ask (port_at script.now place) (world_of run.old) (world_of run.new)) }
{
    match ask {
        Ask::Words { words } => send_words(run, alloc, script, place, words, between),
        Ask::Close => {
            run.close_port(script, place);
            Ok(())
        }
    }
}

/// All of this is done, in its order.
pub(crate) fn do_all<B: Between>(
    run: &mut Run,
    alloc: Global,
    script: &Script,
    place: u32,
    asks: Asks,
    between: &B,
) -> Result<(), NoMemory>
    requires going { Goes script.now run.old }
    requires place { place < length script.now.ports }
    requires open { is_open_at script.now (world_of run.old) place ≡ true }
    requires fit { All IsAsk asks }
    requires last { ClosesLast asks }
    ensures going { OnOk result (Goes script.now run.new) }
    ensures made_with { OnOk result (IsWith run.old run.new) }
    ensures done { OnOk result (world_of run.new
        ≡ all_done (B.then between.now (setting_of run.old) script.now) (setting_of run.old)
        (port_at script.now place) asks (world_of run.old)) }
    ensures others { OnOk result
        (KeepsBut (port_at script.now place) (world_of run.old) (world_of run.new)) }
    ensures keeps { AreWords asks → OnOk result (Keeps (world_of run.old) (world_of run.new)) }
{
    let mut left = asks;
    while let Some(ask) = left.take_first() {
        do_one(run, alloc, script, place, ask, between)?;
    }
    // The next answer takes the memory of this one.
    run.room = left.into_vec();
    Ok(())
}

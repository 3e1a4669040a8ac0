//! Messages of a port. What a request lets go on is handed out in one list, whose memory is used
//! again: it is empty between two messages.

ghost use Rattle.std.specs.Prelude.{◌≡◌, ◌^◌, ◌<◌, ◌≤◌, ◌++◌, ℕ, List, length, IfOk, OnOk};
ghost use Rattle.std.specs.Prelude.{[], OnErr, IsSome};
ghost use Rattle.netlink_codec.specs.Acknowledgements.{answer};
ghost use Rattle.netlink_codec.specs.Messages.{message_of, first_message};
ghost use Rattle.nfqa_msgs.specs.RequestReading.{AskedFits, PayloadFits};
ghost use Rattle.nfqa_msgs.specs.RequestWriting.{FitsRequest, spelled};
ghost use Rattle.packet_moves.specs.World.{closed_ports};
ghost use Rattle.solo_plane.specs.PortView.{state_in, world_of, logs_of, IsReady, OnPort};
ghost use Rattle.solo_plane.specs.Requests.{SendsRequest};
ghost use Rattle.packet_moves.specs.Messages.{CarriesOut, IsSent, Sends, SendsUnread};
ghost use Rattle.packet_moves.specs.Messages.{answered, call_at};
ghost use Rattle.packet_moves.specs.HandedOn.{WaitInTime};

use crate::asking::ask;
use crate::held::Held;
use crate::ports;
use histories::AskWords;
use netlink_codec::{Message, next_message};
use nfqa_msgs::{Decoded, Request, decode_request, numbers_fit, spelling_decodes_to_its_request};
use packet_entry::NoMemory;
use packet_moves::{Setting, acknowledge, due, make_answer_room, words_of};
use queue_core::Handed;
use std::alloc::Global;

/// Carries out what a message is decoded to: its errno. `NoMemory` leaves all as it was; a packet
/// whose next arrival finds no memory is lost.
fn carry_out(
    held: &mut Held,
    alloc: Global,
    setting: &Setting,
    port: u32,
    call: u32,
    decoded: Decoded,
    handed: &mut Handed,
) -> Result<u16, NoMemory>
    requires ready { IsReady held.old.place }
    requires payload { AskedFits decoded }
    requires in_time { WaitInTime held.old.place.entries }
    requires none_handed { handed.old.items ≡ [] }
    ensures ready { IsReady held.new.place }
    ensures none_left { handed.new.items ≡ [] }
    ensures carried_out { IfOk result (CarriesOut setting.now port call decoded
        (world_of held.old) (world_of held.new)) }
    ensures logs { logs_of held.new.ports ≡ logs_of held.old.ports }
    ensures err { OnErr result (world_of held.new ≡ world_of held.old) }
{
    match decoded {
        Decoded::Nothing => Ok(0),
        Decoded::Refused { errno } => Ok(errno),
        Decoded::Asked { request } => { ask(held, alloc, setting, port, call, request, handed) }
    }
}

/// A port sends the first message of some bytes, where one stands there: how many bytes it uses.
/// `NoMemory` leaves all as it was; a packet whose next arrival finds no memory is lost.
pub(crate) fn message(
    held: &mut Held,
    alloc: Global,
    setting: &Setting,
    port: u32,
    datagram: &[u8],
    replies: &mut Vec<u8>,
    handed: &mut Handed,
) -> Result<u32, NoMemory>
    requires short { length datagram.now < 2 ^ 31 }
    requires ready { IsReady held.old.place }
    requires port { IsSome (state_in held.old.ports port) }
    requires in_time { WaitInTime held.old.place.entries }
    requires none_handed { handed.old.items ≡ [] }
    ensures ready { IsReady held.new.place }
    ensures none_left { handed.new.items ≡ [] }
    ensures sent { IfOk result (Sends setting.now port (first_message datagram.now)
        (world_of held.old) (world_of held.new) replies.old.items replies.new.items) }
    ensures ports { (p : ℕ) → closed_ports (world_of held.new) p
        ≡ closed_ports (world_of held.old) p }
    ensures err { OnErr result (world_of held.new ≡ world_of held.old) }
    ensures none_answered { OnErr result (replies.new.items ≡ replies.old.items) }
{
    match next_message(datagram) {
        Some((message, used)) => {
            send(held, alloc, setting, port, &message, replies, handed)?;
            Ok(used as u32)
        }
        None => Ok(0),
    }
}

/// As [`message`] does, where nobody reads the replies: none is made.
pub(crate) fn message_unread(
    held: &mut Held,
    alloc: Global,
    setting: &Setting,
    port: u32,
    datagram: &[u8],
    handed: &mut Handed,
) -> Result<u32, NoMemory>
    requires short { length datagram.now < 2 ^ 31 }
    requires ready { IsReady held.old.place }
    requires port { IsSome (state_in held.old.ports port) }
    requires in_time { WaitInTime held.old.place.entries }
    requires none_handed { handed.old.items ≡ [] }
    ensures ready { IsReady held.new.place }
    ensures none_left { handed.new.items ≡ [] }
    ensures sent { IfOk result (SendsUnread setting.now port (first_message datagram.now)
        (world_of held.old) (world_of held.new)) }
    ensures ports { (p : ℕ) → closed_ports (world_of held.new) p
        ≡ closed_ports (world_of held.old) p }
    ensures err { OnErr result (world_of held.new ≡ world_of held.old) }
{
    match next_message(datagram) {
        Some((message, used)) => {
            let _errno = send_unread(held, alloc, setting, port, &message, handed)?;
            Ok(used as u32)
        }
        None => Ok(0),
    }
}

/// As [`message_unread`] does with the spelling of a request, under the port's next number: nothing
/// is spelled.
pub(crate) fn request_unread(
    held: &mut Held,
    alloc: Global,
    setting: &Setting,
    port: u32,
    request: Request,
    handed: &mut Handed,
) -> Result<(), NoMemory>
    requires payload { PayloadFits request }
    requires ready { IsReady held.old.place }
    requires port { IsSome (state_in held.old.ports port) }
    requires in_time { WaitInTime held.old.place.entries }
    requires none_handed { handed.old.items ≡ [] }
    ensures ready { IsReady held.new.place }
    ensures none_left { handed.new.items ≡ [] }
    ensures sent { OnOk result (SendsRequest setting.now port request (world_of held.old)
        (world_of held.new)) }
    ensures ports { (p : ℕ) → closed_ports (world_of held.new) p
        ≡ closed_ports (world_of held.old) p }
    ensures err { OnErr result (world_of held.new ≡ world_of held.old) }
    ensures fits { FitsRequest request }
{
    // The spelling would be decoded to this request, and so be logged in words.
    spelling_decodes_to_its_request();
    numbers_fit(&request);
    let call = ports::next_call(&held.ports, port);
    let logged = request.share()?;
    let decoded = Decoded::Asked { request };
    let errno = carry_out_with_room(held, alloc, setting, port, call, decoded, handed)?;
    let answer = due_to(&logged, errno);
    ports::send(
        &mut held.ports,
        port,
        AskWords::Plain { request: logged },
        answer,
    );
    Ok(())
}

/// A port sends a message: it is carried out, logged, and acknowledged where that is due.
/// `NoMemory` leaves all as it was; a packet whose next arrival finds no memory is lost.
fn send(
    held: &mut Held,
    alloc: Global,
    setting: &Setting,
    port: u32,
    message: &Message<'_>,
    replies: &mut Vec<u8>,
    handed: &mut Handed,
) -> Result<(), NoMemory>
    requires short { length message.now.whole.now < 2 ^ 31 }
    requires ready { IsReady held.old.place }
    requires port { IsSome (state_in held.old.ports port) }
    requires in_time { WaitInTime held.old.place.entries }
    requires none_handed { handed.old.items ≡ [] }
    ensures ready { IsReady held.new.place }
    ensures none_left { handed.new.items ≡ [] }
    ensures sent { OnOk result (IsSent setting.now port (message_of message.now)
        (world_of held.old) (world_of held.new) replies.old.items replies.new.items) }
    ensures ports { (p : ℕ) → closed_ports (world_of held.new) p
        ≡ closed_ports (world_of held.old) p }
    ensures err { OnErr result (world_of held.new ≡ world_of held.old) }
    ensures none_answered { OnErr result (replies.new.items ≡ replies.old.items) }
{
    make_answer_room(message, replies)?;
    let errno = send_unread(held, alloc, setting, port, message, handed)?;
    acknowledge(message, errno, replies);
    Ok(())
}

/// A port sends a message: it is carried out and logged. This is its errno.
fn send_unread(
    held: &mut Held,
    alloc: Global,
    setting: &Setting,
    port: u32,
    message: &Message<'_>,
    handed: &mut Handed,
) -> Result<u16, NoMemory>
    requires ready { IsReady held.old.place }
    requires port { IsSome (state_in held.old.ports port) }
    requires in_time { WaitInTime held.old.place.entries }
    requires none_handed { handed.old.items ≡ [] }
    ensures ready { IsReady held.new.place }
    ensures none_left { handed.new.items ≡ [] }
    ensures sent { IfOk result (λ errno. (before : List ℕ) →
        IsSent setting.now port (message_of message.now) (world_of held.old) (world_of held.new)
        before (before ++ answer (message_of message.now) errno)) }
    ensures ports { (p : ℕ) → closed_ports (world_of held.new) p
        ≡ closed_ports (world_of held.old) p }
    ensures err { OnErr result (world_of held.new ≡ world_of held.old) }
{
    let decoded = decode_request(alloc, message)?;
    let call = ports::next_call(&held.ports, port);
    let words = words_of(alloc, port, call, message.whole, &decoded)?;
    let errno = carry_out_with_room(held, alloc, setting, port, call, decoded, handed)?;
    ports::send(&mut held.ports, port, words, due(message, errno));
    Ok(errno)
}

/// As [`carry_out`] does, once there is room in the port's log for the message.
fn carry_out_with_room(
    held: &mut Held,
    alloc: Global,
    setting: &Setting,
    port: u32,
    call: u32,
    decoded: Decoded,
    handed: &mut Handed,
) -> Result<u16, NoMemory>
    requires ready { IsReady held.old.place }
    requires port { IsSome (state_in held.old.ports port) }
    requires payload { AskedFits decoded }
    requires in_time { WaitInTime held.old.place.entries }
    requires none_handed { handed.old.items ≡ [] }
    ensures ready { IsReady held.new.place }
    ensures none_left { handed.new.items ≡ [] }
    ensures room { OnOk result (OnPort held.new.ports port (λ p. 2 ≤ p.dids.room)) }
    ensures carried_out { IfOk result (CarriesOut setting.now port call decoded
        (world_of held.old) (world_of held.new)) }
    ensures number { call_at ((world_of held.new).ports port)
        ≡ call_at ((world_of held.old).ports port) }
    ensures ports { (p : ℕ) → closed_ports (world_of held.new) p
        ≡ closed_ports (world_of held.old) p }
    ensures err { OnErr result (world_of held.new ≡ world_of held.old) }
{
    ports::make_log_room(&mut held.ports, port)?;
    carry_out(held, alloc, setting, port, call, decoded, handed)
}

/// The errno that a request is acknowledged with, where that is due: one that isn't 0, and 0 where
/// the request's spelling asks for it, which that of a config request does.
fn due_to(request: &Request, errno: u16) -> Option<u16>
    ensures { (port call : ℕ) → result ≡ answered (spelled port call request.now) errno }
{
    match request {
        Request::Config { .. } => Some(errno),
        Request::Verdict { .. } | Request::Batch { .. } => {
            if errno == 0 { None } else { Some(errno) }
        }
    }
}

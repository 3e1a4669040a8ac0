//! Requests: what a port asks of a queue, and what the queue lets go on.

ghost use Rattle.std.specs.Prelude.{◌≡◌, ◌≤◌, ◌++◌, ℕ, length, Option, IsSome, IfOk, OnOk, OnErr};
ghost use mathlib.Core.List.{IsPrefix};
ghost use Rattle.nfqa_msgs.specs.RequestReading.{PayloadFits};
ghost use Rattle.mailbox.specs.Views.{SenderView};
ghost use Rattle.histories.specs.Happenings.{queue_of};
ghost use Rattle.place_history.specs.PlaceState.{IsAt};
ghost use Rattle.packet_moves.specs.HandedOn.{AreInTime};
ghost use Rattle.locked_place.specs.Views.{AreNotified, IsSettled};
ghost use Rattle.locked_place.specs.Mails.{MailsGoOn};
ghost use Rattle.locked_place.specs.Turns.{Asks, handed_by};

use crate::laws::{mails_keep_up, senders_keep_up};
use crate::showing::legal_at;
use histories::{Lost, queue_of};
use nfqa_msgs::Request;
use packet_entry::{NoMemory, Stock};
use packet_moves::{histories_stay_sound, what_goes_on_is_in_time};
use place_history::Place;
use queue_core::Handed;
use std::alloc::Global;

/// A port asks something of a queue. What the queue lets go on is handed out, and there is room in
/// `lost` for as many. When memory runs out nothing has happened.
pub(crate) fn ask(
    alloc: Global,
    place: &mut Place,
    lost: &mut Stock<Lost>,
    port: u32,
    call: u32,
    request: Request,
    handed: &mut Handed,
) -> Result<u16, NoMemory>
    requires here { IsAt place.old (queue_of request) }
    requires payload { PayloadFits request }
    requires settled { IsSettled place.old }
    ensures settled { IsSettled place.new }
    ensures notified { (senders : ℕ → Option SenderView) → AreNotified place.old.entries senders →
        IsSome (senders port) → AreNotified place.new.entries senders }
    ensures mailed { (time : ℕ) (senders : ℕ → Option SenderView) →
        MailsGoOn time place.old.entries senders place.new.entries senders }
    ensures asks { IfOk result (Asks port call request place.old.entries place.new.entries) }
    ensures handed { OnOk result (handed.new.items
        ≡ handed.old.items ++ handed_by port call request place.old.entries) }
    ensures room { OnOk result
        (length (handed_by port call request place.old.entries) ≤ lost.new.room) }
    ensures in_time { OnOk result (AreInTime (handed_by port call request place.old.entries)) }
    ensures lost { lost.new.items ≡ lost.old.items }
    ensures begins { IsPrefix place.old.entries place.new.entries }
    ensures number { (place.new.number ≡ place.old.number)
        × (place.new.places ≡ place.old.places) }
    ensures err { OnErr result ((place.new ≡ place.old) × (handed.new.items ≡ handed.old.items)) }
{
    legal_at(place);
    histories_stay_sound();
    what_goes_on_is_in_time();
    senders_keep_up();
    mails_keep_up();
    let waiting = place.waiting_in(queue_of(&request));
    lost.make_room(waiting as usize)?;
    place.ask(alloc, port, call, request, handed)
}

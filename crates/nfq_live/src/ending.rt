//! Ports that end, in the script's order, once all frames have passed.

ghost use Rattle.std.specs.Prelude.{◌≡◌, ◌<◌, ◌^◌, suc, length, slice_index_or};
ghost use Rattle.std.specs.Prelude.{All, IfOk, OnOk};
ghost use Rattle.netlink_codec.specs.Messages.{first_message};
ghost use Rattle.script_lines.specs.Limits.{IsAsk, IsWords};
ghost use Rattle.inspector_script.specs.Scripts.{ScriptValue, closing};
ghost use Rattle.plane.specs.Passes.{PortView};
ghost use Rattle.plane.specs.Planes.{order_of, places_of};
ghost use Rattle.live_runs.specs.Passes.{SpeaksFirst};
ghost use Rattle.nfq_live.specs.Crews.{AreOpenFrom, AreReceived, HaveMinds, IsCrewOf};
ghost use Rattle.nfq_live.specs.Crews.{IsReceived, OnePass, OthersStay, PortsAlone, passes_of};
ghost use Rattle.nfq_live.specs.Endings.{CutsEnd, EndsTo, HasStopped, IsAtMeeting, MayEnd};
ghost use Rattle.nfq_live.specs.Endings.{SaysEndTo, SaysOfEnd, closing_left};
ghost use Rattle.nfq_live.specs.Sizes.{Size};
ghost use Rattle.port_scripts.specs.Words.{ClosesLast};

use crate::crew::Crew;
use histories::AskWords;
use inspector_script::Asks;
use live_passes::ports_speak_by_their_passes;
use live_runs::{
    a_place_stays_fed_by_all, a_port_does_what_is_next, a_port_goes_through_a_stage,
    a_stage_ends_where_all_meet, meetings_and_closings_send_nothing, messages_are_sent_one_by_one,
    nothing_is_sent_to_a_closed_port,
};
use live_work::Stage;
use packet_entry::NoMemory;
use plane::{Gate, parts_stay_whole};
use port_scripts::{behind, ports_close_at_the_end, put_words};
use run_parts::{datagrams_are_short, each_port_has_its_place};
use script_lines::Ask;
use std::sync::Wait;

impl Crew {
    /// An open port sends the first message of some bytes, where one stands there: how many bytes
    /// it uses, and 0 where none does.
    fn send_first<R: Wait, G: Gate>(
        &mut self,
        stage: &Stage<'_, R, G>,
        at: usize,
        datagram: &[u8],
    ) -> Result<u32, NoMemory>
        requires short { length datagram.now < 2 ^ 31 }
        requires crew { IsCrewOf stage.now.plane.now self.old }
        requires within { at < length self.old.ports.items }
        requires both { length self.old.minds.items ≡ length self.old.ports.items }
        ensures crew { IsCrewOf stage.now.plane.now self.new }
        ensures minds { (script : ScriptValue) → HaveMinds script self.old →
            HaveMinds script self.new }
        ensures sent { IfOk result (λ used. (d : PortView) →
            SpeaksFirst (places_of stage.now.plane.now)
            (slice_index_or self.old.ports.items at d).port (first_message datagram.now)
            (passes_of self.old (slice_index_or self.old.ports.items at d).port)
            (passes_of self.new (slice_index_or self.old.ports.items at d).port) used) }
        ensures others { (d : PortView) →
            OnePass (slice_index_or self.old.ports.items at d).port self.old self.new }
    {
        parts_stay_whole();
        ports_speak_by_their_passes();
        let pass = &mut self.ports[at];
        stage
            .plane
            .message_unread(stage.rt, stage.alloc, pass, stage.gate, datagram)
    }

    /// The port at a place of the script, which ends, sends the messages of some bytes. After each
    /// of them the mailboxes are emptied.
    fn send_and_empty<R: Wait, G: Gate>(
        &mut self,
        stage: &Stage<'_, R, G>,
        place: usize,
        at: usize,
        datagram: &[u8],
    ) -> Result<(), NoMemory>
        requires short { length datagram.now < 2 ^ 31 }
        requires ends { MayEnd stage.now.script.now stage.now.plane.now place at self.old }
        ensures crew { IsCrewOf stage.now.plane.now self.new }
        ensures minds { OnOk result (HaveMinds stage.now.script.now self.new) }
        ensures sent { OnOk result
            (CutsEnd stage.now.script.now (places_of stage.now.plane.now) place datagram.now
            self.old self.new) }
        ensures received { OnOk result
            (AreReceived stage.now.script.now.ports (places_of stage.now.plane.now) self.new) }
        ensures alone { OnOk result (PortsAlone self.old self.new) }
    {
        a_port_does_what_is_next();
        messages_are_sent_one_by_one();
        let mut rest = datagram;
        // Each message uses a byte at least.
        for _look in 0..datagram.len() {
            let used = self.send_first(stage, at, rest)?;
            if used == 0 {
                return Ok(());
            }
            rest = behind(rest, used as usize);
            self.empty(stage)?;
        }
        Ok(())
    }

    /// It sends the bytes of an ask of its end, a request as the message with its next number.
    fn say_words<R: Wait, G: Gate>(
        &mut self,
        stage: &Stage<'_, R, G>,
        place: usize,
        at: usize,
        words: AskWords,
    ) -> Result<(), NoMemory>
        requires fit { IsWords words }
        requires ends { MayEnd stage.now.script.now stage.now.plane.now place at self.old }
        ensures crew { IsCrewOf stage.now.plane.now self.new }
        ensures minds { OnOk result (HaveMinds stage.now.script.now self.new) }
        ensures said { OnOk result
            (SaysOfEnd stage.now.script.now (places_of stage.now.plane.now) place words
            self.old self.new) }
        ensures received { OnOk result
            (AreReceived stage.now.script.now.ports (places_of stage.now.plane.now) self.new) }
        ensures alone { OnOk result (PortsAlone self.old self.new) }
    {
        a_port_does_what_is_next();
        datagrams_are_short();
        let pass = &self.ports[at];
        let port = pass.port();
        let call = pass.calls().wrapping_add(1);
        let mut text = Vec::new(stage.alloc);
        put_words(&mut text, port, call, words)?;
        self.send_and_empty(stage, place, at, text.as_slice())
    }

    /// It sends the messages of its end, and after each of them the mailboxes are emptied. Whether
    /// it is to close then.
    fn say_end<R: Wait, G: Gate>(
        &mut self,
        stage: &Stage<'_, R, G>,
        place: usize,
        at: usize,
        asks: Asks,
    ) -> Result<bool, NoMemory>
        requires fit { All IsAsk asks }
        requires last { ClosesLast asks }
        requires ends { MayEnd stage.now.script.now stage.now.plane.now place at self.old }
        ensures crew { IsCrewOf stage.now.plane.now self.new }
        ensures minds { OnOk result (HaveMinds stage.now.script.now self.new) }
        ensures said { IfOk result (λ closes. SaysEndTo stage.now.script.now
            (places_of stage.now.plane.now) place asks (closing_left closes) self.old self.new) }
        ensures received { OnOk result
            (AreReceived stage.now.script.now.ports (places_of stage.now.plane.now) self.new) }
        ensures alone { OnOk result (PortsAlone self.old self.new) }
    {
        for ask in asks {
            match ask {
                Ask::Words { words } => {
                    self.say_words(stage, place, at, words)?;
                }
                // Nothing stands behind it.
                Ask::Close => return Ok(true),
            }
        }
        Ok(false)
    }

    /// It sends the messages of its end, and closes where its script says so.
    fn end_at<R: Wait, G: Gate>(
        &mut self,
        stage: &Stage<'_, R, G>,
        place: usize,
        at: usize,
        asks: Asks,
    ) -> Result<(), NoMemory>
        requires fit { All IsAsk asks }
        requires last { ClosesLast asks }
        requires ends { MayEnd stage.now.script.now stage.now.plane.now place at self.old }
        ensures crew { IsCrewOf stage.now.plane.now self.new }
        ensures minds { OnOk result (HaveMinds stage.now.script.now self.new) }
        ensures stopped { OnOk result ((size : Size) →
            EndsTo stage.now.script.now (places_of stage.now.plane.now) size place asks self.old →
            HasStopped stage.now.script.now (places_of stage.now.plane.now) size place self.new) }
        ensures received { OnOk result
            (AreReceived stage.now.script.now.ports (places_of stage.now.plane.now) self.new) }
        ensures its { OnOk result ((d : PortView) → IsReceived stage.now.script.now.ports
            (places_of stage.now.plane.now) self.new
            (slice_index_or self.old.ports.items at d).port) }
        ensures others { OnOk result ((d : PortView) →
            OthersStay (slice_index_or self.old.ports.items at d).port self.old self.new) }
    {
        a_port_goes_through_a_stage();
        meetings_and_closings_send_nothing();
        let closes = self.say_end(stage, place, at, asks)?;
        if !closes {
            return Ok(());
        }
        self.close_at(stage.rt, stage.plane, at)
    }

    /// The port at a place of the script ends, and then all passes meet.
    fn end_port<R: Wait, G: Gate>(
        &mut self,
        stage: &Stage<'_, R, G>,
        place: usize,
    ) -> Result<(), NoMemory>
        requires crew { IsCrewOf stage.now.plane.now self.old }
        requires order { order_of stage.now.plane.now ≡ stage.now.script.now.ports }
        requires minds { HaveMinds stage.now.script.now self.old }
        requires place { place < length stage.now.script.now.ports }
        requires are_open { AreOpenFrom stage.now.script.now place self.old }
        requires received { AreReceived stage.now.script.now.ports
            (places_of stage.now.plane.now) self.old }
        ensures crew { IsCrewOf stage.now.plane.now self.new }
        ensures minds { OnOk result (HaveMinds stage.now.script.now self.new) }
        ensures are_open { OnOk result (AreOpenFrom stage.now.script.now (suc place) self.new) }
        ensures ended { OnOk result ((size : Size) →
            EndsTo stage.now.script.now (places_of stage.now.plane.now) size place
            (closing stage.now.script.now place) self.old →
            IsAtMeeting stage.now.script.now (places_of stage.now.plane.now) size (suc place)
            self.new) }
        ensures received { OnOk result
            (AreReceived stage.now.script.now.ports (places_of stage.now.plane.now) self.new) }
        ensures fed { OnOk result (self.new.feeding.pass.fed ≡ self.old.feeding.pass.fed) }
    {
        each_port_has_its_place();
        ports_close_at_the_end();
        a_stage_ends_where_all_meet();
        meetings_and_closings_send_nothing();
        nothing_is_sent_to_a_closed_port();
        a_place_stays_fed_by_all();
        let Some(at) = self.find(stage.script.ports()[place]) else {
            unreachable!()
        };
        let asks = self.minds[at].machine.closing(stage.alloc, stage.script)?;
        self.end_at(stage, place, at, asks)?;
        self.meet(stage.alloc, stage.plane)
    }

    /// The mailboxes are emptied, and then the ports end, in the script's order.
    pub(crate) fn end_all<R: Wait, G: Gate>(
        &mut self,
        stage: &Stage<'_, R, G>,
    ) -> Result<(), NoMemory>
        requires crew { IsCrewOf stage.now.plane.now self.old }
        requires order { order_of stage.now.plane.now ≡ stage.now.script.now.ports }
        requires minds { HaveMinds stage.now.script.now self.old }
        requires are_open { AreOpenFrom stage.now.script.now 0 self.old }
        ensures crew { IsCrewOf stage.now.plane.now self.new }
        ensures ended { OnOk result ((size : Size) →
            IsAtMeeting stage.now.script.now (places_of stage.now.plane.now) size 0 self.old →
            IsAtMeeting stage.now.script.now (places_of stage.now.plane.now) size
            (length stage.now.script.now.ports) self.new) }
        ensures received { OnOk result
            (AreReceived stage.now.script.now.ports (places_of stage.now.plane.now) self.new) }
        ensures fed { OnOk result (self.new.feeding.pass.fed ≡ self.old.feeding.pass.fed) }
    {
        a_port_does_what_is_next();
        self.empty(stage)?;
        for place in 0..stage.script.ports().len() {
            self.end_port(stage, place)?;
        }
        Ok(())
    }
}

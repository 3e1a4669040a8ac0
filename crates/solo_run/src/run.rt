//! A run: the plane, and an inspector for each port.

ghost use Rattle.std.specs.Prelude.{◌≡◌, ◌<◌, ◌^◌, ◌∷◌, ◌++◌, [], ℕ};
ghost use Rattle.std.specs.Prelude.{length, All, IfOk, OnOk, IfSome, Some, true};
ghost use Rattle.script_lines.specs.Limits.{IsAsk};
ghost use Rattle.solo_run.specs.Numbers.{most_frames};
ghost use Rattle.packet_moves.specs.Soundness.{IsSound};
ghost use Rattle.solo_schedule.specs.Schedule.{is_open_port, letters_at};
ghost use Rattle.netlink_codec.specs.Messages.{first_message};
ghost use Rattle.nfqa_msgs.specs.RequestReading.{PayloadFits};
ghost use Rattle.nfqa_msgs.specs.RequestWriting.{FitsRequest};
ghost use Rattle.histories.specs.History.{AreLegal};
ghost use Rattle.histories.specs.Journeys.{AreSound};
ghost use Rattle.histories.specs.Grouping.{IsGrouped};
ghost use Rattle.packet_moves.specs.Logs.{logs_in};
ghost use Rattle.packet_moves.specs.Planes.{beginning, with_closed, without_device};
ghost use Rattle.solo_schedule.specs.Schedule as schedule;
ghost use Rattle.solo_plane.specs.Notices.{has_notice};

use crate::inspector::{Inspector, asked, count_closing, inspectors};
use histories::Histories;
use hook_chain::Tables;
use inspector_script::{Asks, PortMachine, Script};
use nfqa_msgs::Request;
use packet_entry::{NoMemory, Packet};
use packet_moves::{Refused, histories_stay_sound, what_goes_on_is_in_time};
use script_lines::Ask;
use solo_plane::SoloPlane;
use std::alloc::Global;
use std::mem;

/// A run: the plane, and an inspector for each port of the script, in the script's order.
pub(crate) struct Run {
    pub(crate) plane: SoloPlane,
    pub(crate) inspectors: Vec<Inspector>,
    /// The memory of one answer. While it is being given, it isn't here.
    pub(crate) room: Vec<Ask>,
}

impl Run {
    ghost use Rattle.solo_run.specs.RunState.{Goes, IsWith, Keeps, KeepsBut, SendsFirst};
    ghost use Rattle.solo_run.specs.RunState.{ReceivesFirst, is_open_at, request_sent};
    ghost use Rattle.solo_run.specs.RunState.{port_at, setting_of, order_of, world_of};

    /// Nothing has happened yet.
    pub(crate) fn new(alloc: Global, script: &Script, tables: Tables) -> Result<Run, NoMemory>
        ensures going { IfOk result (Goes script.now) }
        ensures setting { IfOk result (λ r. setting_of r ≡ schedule.setting_of script.now tables) }
        ensures order { IfOk result (λ r. order_of r ≡ script.now.ports) }
        ensures world { IfOk result (λ r. world_of r ≡ beginning script.now.ports) }
    {
        histories_stay_sound();
        let ports = script.ports();
        let inspectors = inspectors(alloc, ports.len() as u32)?;
        let plane = SoloPlane::new(alloc, ports, script.mail(), tables, script.key())?;
        Ok(Run {
            plane,
            inspectors,
            room: Vec::new(alloc),
        })
    }

    /// A port sends the first message of some bytes, where one stands there: how many bytes it
    /// uses, and 0 where none does.
    pub(crate) fn send_first(
        &mut self,
        alloc: Global,
        script: &Script,
        place: u32,
        datagram: &[u8],
    ) -> Result<u32, NoMemory>
        requires short { length datagram.now < 2 ^ 31 }
        requires going { Goes script.now self.old }
        requires place { place < length script.now.ports }
        requires open { is_open_at script.now (world_of self.old) place ≡ true }
        ensures going { OnOk result (Goes script.now self.new) }
        ensures made_with { OnOk result (IsWith self.old self.new) }
        ensures sent { IfOk result (SendsFirst (setting_of self.old) (port_at script.now place)
            (first_message datagram.now) (world_of self.old) (world_of self.new)) }
        ensures keeps { OnOk result (Keeps (world_of self.old) (world_of self.new)) }
    {
        // Behind the last message there is nothing.
        if datagram.is_empty() {
            return Ok(0);
        }
        histories_stay_sound();
        what_goes_on_is_in_time();
        let port = script.ports()[place as usize];
        // Nobody reads the replies: the plane's logs have what they would say.
        let used = self.plane.message_unread(alloc, port, datagram)?;
        if self.plane.lost() > 0 {
            return Err(NoMemory);
        }
        Ok(used)
    }

    /// A port sends a request, as the message that its spelling is.
    pub(crate) fn send_request(
        &mut self,
        alloc: Global,
        script: &Script,
        place: u32,
        request: Request,
    ) -> Result<(), NoMemory>
        requires payload { PayloadFits request }
        requires going { Goes script.now self.old }
        requires place { place < length script.now.ports }
        requires open { is_open_at script.now (world_of self.old) place ≡ true }
        ensures going { OnOk result (Goes script.now self.new) }
        ensures made_with { OnOk result (IsWith self.old self.new) }
        ensures sent { OnOk result (world_of self.new
            ≡ request_sent (setting_of self.old) (port_at script.now place) request
            (world_of self.old)) }
        ensures keeps { OnOk result (Keeps (world_of self.old) (world_of self.new)) }
        // The spelling is one message, of this port.
        ensures fits { FitsRequest request }
        ensures port { port_at script.now place < 2 ^ 32 }
    {
        histories_stay_sound();
        what_goes_on_is_in_time();
        let port = script.ports()[place as usize];
        self.plane.request_unread(alloc, port, request)?;
        if self.plane.lost() > 0 {
            return Err(NoMemory);
        }
        Ok(())
    }

    /// A port closes, and each of its queues ends. Takes no memory.
    pub(crate) fn close_port(&mut self, script: &Script, place: u32)
        requires going { Goes script.now self.old }
        requires place { place < length script.now.ports }
        requires open { is_open_at script.now (world_of self.old) place ≡ true }
        ensures going { Goes script.now self.new }
        ensures made_with { IsWith self.old self.new }
        ensures world { world_of self.new
            ≡ with_closed (world_of self.old) (port_at script.now place) }
        ensures keeps { KeepsBut (port_at script.now place) (world_of self.old)
            (world_of self.new) }
    {
        let port = script.ports()[place as usize];
        self.plane.close_port(port);
        count_closing(&mut self.inspectors, place as usize);
        // What happened so far is sound.
        let _lost = self.plane.lost();
    }

    /// A device goes down.
    pub(crate) fn device_down(&mut self, script: &Script, device: u32) -> Result<(), NoMemory>
        requires { Goes script.now self.old }
        ensures going { OnOk result (Goes script.now self.new) }
        ensures made_with { OnOk result (IsWith self.old self.new) }
        ensures world { OnOk result
            (world_of self.new ≡ without_device (world_of self.old) device) }
        ensures keeps { OnOk result (Keeps (world_of self.old) (world_of self.new)) }
    {
        self.plane.device_down(device)?;
        // What happened so far is sound.
        let _lost = self.plane.lost();
        Ok(())
    }

    /// A packet is fed, and moved on to its rest or its end.
    pub(crate) fn feed(
        &mut self,
        alloc: Global,
        script: &Script,
        packet: Packet,
    ) -> Result<(), NoMemory>
        requires going { Goes script.now self.old }
        requires new { packet.visit ≡ 0 }
        requires few { length (world_of self.old).fed < most_frames }
        ensures going { OnOk result (Goes script.now self.new) }
        ensures made_with { OnOk result (IsWith self.old self.new) }
        ensures world { OnOk result (world_of self.new
            ≡ schedule.fed (setting_of self.old) (Some packet) (world_of self.old)) }
        ensures fed { OnOk result ((world_of self.new).fed
            ≡ (world_of self.old).fed ++ packet ∷ []) }
        ensures open { OnOk result ((p : ℕ) → is_open_port ((world_of self.new).ports p)
            ≡ is_open_port ((world_of self.old).ports p)) }
    {
        what_goes_on_is_in_time();
        match self.plane.feed(alloc, packet) {
            Ok(_) => {}
            Err(Refused { packet }) => {
                packet.destroy();
                return Err(NoMemory);
            }
        }
        if self.plane.lost() > 0 {
            return Err(NoMemory);
        }
        Ok(())
    }

    /// Whether a port is open.
    pub(crate) fn is_open(&self, script: &Script, place: u32) -> bool
        requires going { Goes script.now self.now }
        requires place { place < length script.now.ports }
        ensures { result ≡ is_open_at script.now (world_of self.now) place }
    {
        self.inspectors[place as usize].is_open
    }

    /// Whether a port has a notice to receive.
    pub(crate) fn has_notice(&self, script: &Script, place: u32) -> bool
        requires { place < length script.now.ports }
        ensures { result ≡ has_notice ((world_of self.now).ports (port_at script.now place)) }
    {
        self.plane
            .has_notice_near(script.ports()[place as usize], place)
    }

    /// How the inspector of a port answers.
    pub(crate) fn machine(&self, script: &Script, place: u32) -> &PortMachine
        requires going { Goes script.now self.now }
        requires place { place < length script.now.ports }
        ensures { result.now.place ≡ place }
    {
        &self.inspectors[place as usize].machine
    }

    /// A port receives its first notice: what its inspector asks for in answer. `None` exactly
    /// where the mailbox is empty.
    pub(crate) fn receive(
        &mut self,
        alloc: Global,
        script: &Script,
        place: u32,
    ) -> Result<Option<Asks>, NoMemory>
        requires going { Goes script.now self.old }
        requires place { place < length script.now.ports }
        requires open { is_open_at script.now (world_of self.old) place ≡ true }
        ensures going { OnOk result (Goes script.now self.new) }
        ensures made_with { OnOk result (IsWith self.old self.new) }
        ensures received { IfOk result (λ asks. ReceivesFirst script.now place
            (port_at script.now place)
            (letters_at ((world_of self.old).ports (port_at script.now place))) asks
            (world_of self.old) (world_of self.new)) }
        ensures fit { IfOk result (λ asks. IfSome asks (All IsAsk)) }
        ensures keeps { OnOk result (Keeps (world_of self.old) (world_of self.new)) }
    {
        let port = script.ports()[place as usize];
        match self.plane.receive(port)? {
            Some(letter) => {
                // What happened so far is sound.
                let _lost = self.plane.lost();
                let room = mem::replace(&mut self.room, Vec::new(alloc));
                let asks = asked(&mut self.inspectors, room, script, place, &letter)?;
                self.plane.give_back(alloc, letter);
                Ok(Some(asks))
            }
            None => Ok(None),
        }
    }

    /// Ends the run: what happened.
    pub(crate) fn close(self, alloc: Global) -> Result<Histories, NoMemory>
        ensures entries { IfOk result (λ h. IsGrouped (world_of self).entries h.entries) }
        ensures logs { IfOk result (λ h. h.logs ≡ logs_in (order_of self) (world_of self)) }
        ensures lost { IfOk result (λ h. h.lost ≡ (world_of self).lost) }
        ensures legal { IfOk result (λ h. AreLegal h.entries) }
        ensures sound { IfOk result (λ h. AreSound (setting_of self).tables (setting_of self).key
            (world_of self).fed h.entries h.lost) }
    {
        let Run {
            plane,
            inspectors: _inspectors,
            room: _room,
        } = self;
        plane.close(alloc)
    }
}

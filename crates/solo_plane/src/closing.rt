//! The end of a plane.

ghost use Rattle.std.specs.Prelude.{◌≡◌, ◌≢◌, ℕ, IfOk, map};
ghost use Rattle.histories.specs.History.{AreLegal};
ghost use Rattle.histories.specs.Journeys.{AreSound};
ghost use Rattle.packet_moves.specs.declared.setting.Setting.{Setting};
ghost use Rattle.solo_plane.specs.PortView.{state_in, ports_of, IsReady, HasSound};
ghost use Rattle.histories.specs.Grouping.{IsGrouped};
ghost use Rattle.solo_plane.specs.Closing.{log_at};
ghost use Rattle.solo_plane.specs.PortPlaces.{AreApart};
ghost use Rattle.packet_moves.specs.Logs.{dids_of};

use crate::held::{Held, Ports};
use histories::{Dids, Histories, Logs, PortLog, grouped, soundness_is_of_each_queue};
use packet_entry::{NoMemory, Sequence};
use std::alloc::Global;

/// What a plane gives as it ends: its entries by ascending queue number, the logs of its ports in
/// this order, and the packets that were lost. What waits is given up.
pub(crate) fn histories(alloc: Global, order: &[u32], held: Held) -> Result<Histories, NoMemory>
    requires ready { IsReady held.place }
    requires apart { AreApart order.now }
    ensures entries { IfOk result (λ h. IsGrouped held.place.entries h.entries) }
    ensures logs { IfOk result (λ h. h.logs ≡ map (log_at held.ports) order.now) }
    ensures lost { IfOk result (λ h. h.lost ≡ held.lost.items) }
    ensures legal { IfOk result (λ h. AreLegal h.entries) }
    ensures sound { (s : Setting) → HasSound s held → IfOk result (λ h.
        AreSound s.tables s.key held.fed.items h.entries h.lost) }
{
    let Held {
        mut place,
        ports,
        fed,
        lost,
    } = held;
    soundness_is_of_each_queue();
    place.leave_waiting();
    let entries = place.into_entries();
    // To group the entries takes memory: what nobody needs any more gives its own back before.
    drop(fed);
    let logs = logs(alloc, order, ports)?;
    let entries = grouped(entries)?;
    Ok(Histories {
        entries,
        logs,
        lost: lost.into_sequence(),
    })
}

/// The logs of these ports, in their order.
pub(crate) fn logs(alloc: Global, order: &[u32], mut ports: Ports) -> Result<Logs, NoMemory>
    requires { AreApart order.now }
    ensures { IfOk result (λ logs. logs ≡ map (log_at ports) order.now) }
{
    let mut logs = Vec::new(alloc);
    for port in order {
        let dids = take_dids(&mut ports, alloc, *port);
        logs.push(PortLog { port: *port, dids })?;
    }
    Ok(Sequence::from_vec(logs))
}

/// Takes out what a port did.
fn take_dids(ports: &mut Ports, alloc: Global, port: u32) -> Dids
    ensures dids { result ≡ dids_of (ports_of ports.old port) }
    ensures others { (q : ℕ) → q ≢ port → state_in ports.new q ≡ state_in ports.old q }
{
    match ports.numbers.place_of(port) {
        Some(place) => match ports.states.get_mut(place) {
            Some(state) => state.take_dids(alloc).into_sequence(),
            None => Sequence::new(alloc),
        },
        None => Sequence::new(alloc),
    }
}

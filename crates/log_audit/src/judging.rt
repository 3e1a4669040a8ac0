//! The logs of a script's ports, judged.

ghost use Rattle.std.specs.Prelude.{◌≡◌, ◌<◌, ◌^◌, ℕ, Some, None, IfOk, OnOk, option_map, length};
ghost use Rattle.std.specs.Prelude.{[], slice_get, All};
ghost use Rattle.histories.specs.declared.histories.Histories.{Histories};
ghost use Rattle.run_parts.specs.Ports.{log_of};
ghost use Rattle.log_audit.specs.Walking.{Known};
ghost use Rattle.queue_replay.specs.Replays.{AreFound, IsReplayOf};
ghost use Rattle.log_audit.specs.Judged as judged;
ghost use Rattle.log_audit.specs.PortWalks as port_walks;
ghost use Rattle.log_audit.specs.Stays as stays;

use crate::laws::{a_log_is_walked, a_walked_log_is_told};
use crate::notices::{Notices, are_packets, notices_in};
use crate::port_walk::walk_log;
use histories::{Histories, Logs};
use inspector_script::Script;
use packet_entry::{NoMemory, Sequence};
use port_audit::{KindAt, MessageKind, Rows, deal_kinds, log_of, logs_tell_what_ports_did};
use queue_replay::{Found, Replayed};
use run_parts::each_port_has_its_place;
use std::alloc::Global;
use std::collections::BTreeMap;

/// The requests of a port, each with the queue that it asks something of, and when it was sent.
#[derive(Debug, Drop)]
pub(crate) struct PortKinds {
    /// The port.
    pub(crate) port: u32,
    /// Its requests, in the order in which they were sent.
    pub(crate) kinds: Vec<KindAt>,
}

/// What is found of the logs of a script's ports.
#[derive(Debug, Drop)]
pub enum Judged {
    /// Each port has a log, which is what the script says, with notices of arrivals that queues
    /// took: the kinds of all requests, by port and queue.
    Said { kinds: Rows<MessageKind> },
    /// It isn't so.
    Amiss,
    /// A packet arrived that has another protocol than IP's, or another link header than
    /// Ethernet's. Nothing is said of the logs then.
    Foreign,
}

/// Whether each port of the script has a log, which is what the script says, with notices of
/// arrivals that queues took. In sound histories of a capture's packets the answer isn't
/// [`Judged::Foreign`].
pub fn judge_logs(
    alloc: Global,
    script: &Script,
    histories: &Histories,
    replayed: &Replayed,
) -> Result<Judged, NoMemory>
    requires { IsReplayOf histories.now.entries replayed.now }
    ensures { judged.AllOnlyOnes histories.now.entries →
        IfOk result (judged.IsJudgement script.now histories.now) }
{
    each_port_has_its_place();
    let _ports = script.ports();
    if !are_packets(&histories.entries) {
        return Ok(Judged::Foreign);
    }
    match judge_ports(alloc, script, histories, &replayed.found)? {
        Some(ports) => {
            let kinds = deal_all(alloc, ports.as_slice())?;
            Ok(Judged::Said { kinds })
        }
        None => Ok(Judged::Amiss),
    }
}

/// The kinds of these ports' requests, in rows.
fn deal_all(alloc: Global, ports: &[PortKinds]) -> Result<Rows<MessageKind>, NoMemory>
    ensures { IfOk result (judged.AreDealt ports.now) }
{
    let mut rows = BTreeMap::new(alloc);
    for one in ports {
        deal_kinds(alloc, one.port, &one.kinds, &mut rows)?;
    }
    Ok(rows)
}

/// The same, with the requests of all ports, in the script's order.
fn judge_ports(
    alloc: Global,
    script: &Script,
    histories: &Histories,
    found: &Sequence<Found>,
) -> Result<Option<Vec<PortKinds>>, NoMemory>
    requires packets { stays.ArePackets histories.now.entries }
    requires found { AreFound [] histories.now.entries found.now }
    ensures { judged.AllOnlyOnes histories.now.entries → IfOk result (λ kinds.
        judged.AreJudgedAll script.now histories.now (option_map (λ ks. ks.items) kinds)) }
{
    a_log_is_walked();
    a_walked_log_is_told();
    logs_tell_what_ports_did();
    each_port_has_its_place();
    let ports = script.ports();
    ports_fit(ports);
    let notices = notices_in(alloc, &histories.entries, found)?;
    walk_all(alloc, script, &notices, histories)
}

/// The requests of all ports whose logs are walked to their ends; `None` where one can't be, or
/// there is none.
fn walk_all(
    alloc: Global,
    script: &Script,
    notices: &Notices,
    histories: &Histories,
) -> Result<Option<Vec<PortKinds>>, NoMemory>
    requires { stays.AreTold (stays.known_in histories.now.entries) notices.now }
    ensures { IfOk result (λ kinds.
        judged.IsWalkedAll script.now histories.now (option_map (λ ks. ks.items) kinds)) }
{
    each_port_has_its_place();
    let mut kinds = Vec::new(alloc);
    for (place, port) in script.ports().iter().enumerate() {
        match walk_port(alloc, script, place as u32, *port, notices, &histories.logs)? {
            Some(of_port) => kinds.push(PortKinds {
                port: *port,
                kinds: of_port,
            })?,
            None => return Ok(None),
        }
    }
    Ok(Some(kinds))
}

/// The requests of a port, whose log is walked to its end; `None` where it can't be, or there is
/// none.
fn walk_port(
    alloc: Global,
    script: &Script,
    place: u32,
    port: u32,
    notices: &Notices,
    logs: &Logs,
) -> Result<Option<Vec<KindAt>>, NoMemory>
    requires place { place < length script.now.ports }
    ensures { (known : Known) → stays.AreTold known notices.now →
        IfOk result (λ kinds. judged.IsLogWalkedWith known script.now place port
        (log_of port logs.now) (option_map (λ ks. ks.items) kinds)) }
{
    match log_of(logs, port) {
        Some(dids) => walk_log(alloc, script, place, port, notices, dids),
        None => Ok(None),
    }
}

/// Each port is a number of 32 bits. This has no effect: it only reads the ports, so that the range
/// of their type is known.
fn ports_fit(ports: &[u32])
    ensures { All (λ p. p < 2 ^ 32) ports.now }
{
    let _ports = ports;
}

//! Part: in the queues' histories stand the requests of the ports' messages, and each message is
//! answered as is logged.

ghost use Rattle.std.specs.Prelude.{◌≡◌, ◌≢◌, ◌↔◌, ℕ, Bool, List, AllPairs, IsTrue, IfOk, OnOk};
ghost use Rattle.std.specs.Prelude.{Some, is_some};
ghost use Rattle.std.specs.List.{list_all};
ghost use Rattle.netlink_codec.specs.Messages.{message_of};
ghost use Rattle.nfqa_msgs.specs.RequestReading.{PayloadFits};
ghost use Rattle.run_parts.specs.Log.{Note};
ghost use Rattle.run_parts.specs.Requests as requests;
ghost use Rattle.run_parts.specs.Run.{RequestsHold};
ghost use Rattle.histories.specs.Happenings.{queue_of};
ghost use Rattle.histories.specs.declared.log.PortLog.{PortLog};
ghost use Rattle.port_audit.specs.Dealing as dealing;
ghost use Rattle.port_audit.specs.Pleading as pleading;
ghost use Rattle.port_audit.specs.Told.{AreTold};

use crate::dealing::{Rows, Side, are_empty, push, take};
use crate::logs::log_of;
use histories::{AskWords, Did, Dids, Entries, Entry, Event, Histories, Logs, Reply};
use inspector_script::Script;
use netlink_codec::{Message, next_message};
use nfqa_msgs::{Decoded, Request, decode_request, encode_request};
use packet_entry::NoMemory;
use std::alloc::Global;
use std::collections::BTreeMap;
use std::marker::Model;

/// The flag of a message that asks for an acknowledgement. (`NLM_F_ACK`)
const ACK_FLAG: u16 = 4;

/// The most bytes that a payload has.
const MAX_PAYLOAD: usize = 65_531;

/// One request of a port.
#[derive(Drop)]
pub(crate) struct Asking {
    /// The message's number.
    pub(crate) call: u32,
    /// What it asks.
    pub(crate) request: Request,
    /// Its errno.
    pub(crate) errno: u16,
}

impl Model for Asking {
    ghost use Rattle.run_parts.specs.Requests.{Plea};

    ghost Value = { Plea };

    ghost view = { λ a. record { call = a.call; request = a.request; errno = a.errno } };
}

/// Whether the requests in the queues' histories are those of the messages of the script's ports,
/// with their errnos, and nobody else's, and each message has the answer that is logged of it. A
/// message is known by how it is logged, and its errno by its answer.
pub fn are_requests(alloc: Global, script: &Script, histories: &Histories) -> Result<bool, NoMemory>
    ensures { IfOk result (λ are. (notes : ℕ → List Note) →
        AreTold script.now histories.now notes →
        pleading.AreToldByWords script.now notes →
        (IsTrue are → pleading.HaveErrnos script.now histories.now notes →
        RequestsHold script.now histories.now notes)
        × (RequestsHold script.now histories.now notes → IsTrue are)) }
{
    let ports = script.ports();
    let dealt = deal_all(alloc, ports, &histories.logs)?;
    Ok(are_judged(&histories.entries, dealt))
}

/// Whether all messages were answered as is logged, and the requests in the queues' histories are
/// just those that are dealt.
fn are_judged(entries: &Entries, dealt: Option<Rows<Asking>>) -> bool
    ensures { (ports : List ℕ) (logs : List PortLog) → pleading.AreDealtWell ports logs dealt →
        (IsTrue result ↔ (pleading.AllGood ports logs
        × dealing.AreMet ports (pleading.pleas_in_log logs) pleading.pleas_brought
        entries.now)) }
{
    match dealt {
        Some(rows) => are_asked(entries, rows),
        None => false,
    }
}

/// The requests of these ports, which differ from each other; `None` where a message wasn't
/// answered as is logged.
fn deal_all(alloc: Global, ports: &[u32], logs: &Logs) -> Result<Option<Rows<Asking>>, NoMemory>
    requires differ { AllPairs (λ p q. p ≢ q) ports.now }
    ensures { IfOk result (pleading.AreDealtWell ports.now logs.now) }
{
    let mut rows = BTreeMap::new(alloc);
    for port in ports {
        let good = deal_log(alloc, logs, *port, &mut rows)?;
        if !good {
            return Ok(None);
        }
    }
    Ok(Some(rows))
}

/// The requests of a port's log are put into the rows. Answers whether each message was answered as
/// is logged.
fn deal_log(
    alloc: Global,
    logs: &Logs,
    port: u32,
    rows: &mut Rows<Asking>,
) -> Result<bool, NoMemory>
    ensures good { IfOk result (λ good. good ≡ pleading.are_good logs.now port) }
    ensures grows { OnOk result (dealing.GrowsBy port (pleading.pleas_in_log logs.now port)
        rows.old rows.new) }
    ensures kept { OnOk result (dealing.AreKept rows.old → dealing.AreKept rows.new) }
{
    match log_of(logs, port) {
        Some(dids) => deal(alloc, port, dids, rows),
        None => Ok(true),
    }
}

/// The requests among what a port did are put into the rows.
fn deal(alloc: Global, port: u32, dids: &Dids, rows: &mut Rows<Asking>) -> Result<bool, NoMemory>
    ensures good { IfOk result (λ good. good ≡ list_all (pleading.is_good port) dids.now) }
    ensures grows { OnOk result (dealing.GrowsBy port
        (λ queue. pleading.pleas_in_dids port queue dids.now) rows.old rows.new) }
    ensures kept { OnOk result (dealing.AreKept rows.old → dealing.AreKept rows.new) }
{
    let mut good = true;
    for did in dids {
        let is = deal_one(alloc, port, did, rows)?;
        good = good && is;
    }
    Ok(good)
}

/// A request is put into its row.
fn deal_one(alloc: Global, port: u32, did: &Did, rows: &mut Rows<Asking>) -> Result<bool, NoMemory>
    ensures good { IfOk result (λ good. good ≡ pleading.is_good port did.now) }
    ensures grows { OnOk result (dealing.GrowsBy port
        (λ queue. pleading.pleas_by_did port queue did.now) rows.old rows.new) }
    ensures kept { OnOk result (dealing.AreKept rows.old → dealing.AreKept rows.new) }
{
    match did {
        Did::Received { .. } => Ok(true),
        Did::Sent { call, ask, answer } => {
            let judged = judge(alloc, port, *call, ask, *answer)?;
            deal_judged(alloc, port, *call, *answer, judged, rows)
        }
        Did::Closed => Ok(true),
    }
}

/// What a message is decoded to that is answered as is logged, is put into its row.
fn deal_judged(
    alloc: Global,
    port: u32,
    call: u32,
    answer: Option<u16>,
    judged: Option<Decoded>,
    rows: &mut Rows<Asking>,
) -> Result<bool, NoMemory>
    ensures good { IfOk result (λ good. good ≡ is_some judged) }
    ensures grows { OnOk result (dealing.GrowsBy port
        (λ queue. pleading.pleas_judged queue call (pleading.errno_told answer) judged)
        rows.old rows.new) }
    ensures kept { OnOk result (dealing.AreKept rows.old → dealing.AreKept rows.new) }
{
    match judged {
        Some(decoded) => {
            push_asked(alloc, port, call, errno_told(answer), decoded, rows)?;
            Ok(true)
        }
        None => Ok(false),
    }
}

/// What a message is decoded to, if it is a request, is put into its row.
fn push_asked(
    alloc: Global,
    port: u32,
    call: u32,
    errno: u16,
    decoded: Decoded,
    rows: &mut Rows<Asking>,
) -> Result<(), NoMemory>
    ensures grows { OnOk result (dealing.GrowsBy port
        (λ queue. requests.plea_of queue call errno decoded) rows.old rows.new) }
    ensures kept { OnOk result (dealing.AreKept rows.old → dealing.AreKept rows.new) }
{
    match decoded {
        Decoded::Asked { request } => {
            let side = Side {
                port,
                queue: queue_of(&request),
            };
            let asking = Asking {
                call,
                request,
                errno,
            };
            push(alloc, side, asking, rows)?;
            Ok(())
        }
        Decoded::Nothing => Ok(()),
        Decoded::Refused { .. } => Ok(()),
    }
}

/// The queue that a request names.
fn queue_of(request: &Request) -> u16
    ensures { result ≡ queue_of request.now }
{
    match request {
        Request::Config { queue, .. } => *queue,
        Request::Verdict { queue, .. } => *queue,
        Request::Batch { queue, .. } => *queue,
    }
}

/// The errno that an answer tells.
fn errno_told(answer: Option<u16>) -> u16
    ensures { result ≡ pleading.errno_told answer }
{
    match answer {
        Some(errno) => errno,
        None => 0,
    }
}

/// What a message that was logged so is decoded to; `None` where it doesn't have this answer.
fn judge(
    alloc: Global,
    port: u32,
    call: u32,
    ask: &AskWords,
    answer: Option<u16>,
) -> Result<Option<Decoded>, NoMemory>
    ensures { IfOk result (λ decoded. decoded
        ≡ pleading.judged_in answer (pleading.told_by_words port call ask.now)) }
{
    match ask {
        AskWords::Plain { request } => {
            if !payload_fits(request) {
                return Ok(None);
            }
            let mut bytes = Vec::new(alloc);
            encode_request(port, call, request, &mut bytes)?;
            judge_bytes(alloc, &bytes, answer)
        }
        AskWords::Raw { bytes } => judge_bytes(alloc, bytes.as_slice(), answer),
    }
}

/// Whether a request's payload has no more bytes than one attribute holds.
pub fn payload_fits(request: &Request) -> bool
    ensures value { result ≡ pleading.payload_fits request.now }
    ensures fits { IsTrue result ↔ PayloadFits request.now }
{
    match request {
        Request::Config { .. } => true,
        Request::Verdict { payload, .. } => match payload {
            Some(bytes) => bytes.len() <= MAX_PAYLOAD,
            None => true,
        },
        Request::Batch { .. } => true,
    }
}

/// What the message that bytes begin with is decoded to; `None` where there is none, or it doesn't
/// have this answer.
fn judge_bytes(
    alloc: Global,
    bytes: &[u8],
    answer: Option<u16>,
) -> Result<Option<Decoded>, NoMemory>
    ensures { IfOk result (λ decoded. decoded
        ≡ pleading.judged_in answer (pleading.message_in bytes.now)) }
{
    let Some((message, _)) = next_message(bytes) else {
        return Ok(None);
    };
    let decoded = decode_request(alloc, &message)?;
    if is_answer(&message, answer) && is_errno(&decoded, errno_told(answer)) {
        Ok(Some(decoded))
    } else {
        Ok(None)
    }
}

/// Whether a message has this answer, where its errno is the one that the answer tells.
fn is_answer(message: &Message<'_>, answer: Option<u16>) -> bool
    ensures { result ≡ pleading.is_answer (message_of message.now) answer }
{
    match answer {
        None => message.flags & ACK_FLAG == 0,
        Some(errno) => !(errno == 0 && message.flags & ACK_FLAG == 0),
    }
}

/// Whether a message that is decoded so may have this errno.
fn is_errno(decoded: &Decoded, errno: u16) -> bool
    ensures { result ≡ pleading.is_errno decoded.now errno }
{
    match decoded {
        Decoded::Nothing => errno == 0,
        Decoded::Refused { errno: refusal } => errno == *refusal,
        Decoded::Asked { .. } => true,
    }
}

/// Whether the requests in the queues' histories are just those in the rows.
fn are_asked(entries: &Entries, mut rows: Rows<Asking>) -> bool
    ensures { (ports : List ℕ) (told : ℕ → ℕ → List requests.Plea) →
        dealing.AreDealt ports told rows →
        (IsTrue result ↔ dealing.AreMet ports told pleading.pleas_brought entries.now) }
{
    for entry in entries {
        if !meets_next(entry, &mut rows) {
            return false;
        }
    }
    are_empty(&rows)
}

/// Whether an entry is no request, or is the first of its row. Then that is taken.
fn meets_next(entry: &Entry, rows: &mut Rows<Asking>) -> bool
    ensures { pleading.MeetsEvent entry.now.queue entry.now.event entry.now.reply rows.old
        rows.new result }
{
    match &entry.event {
        Event::Arrive { .. } => true,
        Event::Ask {
            port,
            call,
            request,
        } => {
            let side = Side {
                port: *port,
                queue: entry.queue,
            };
            meets(side, *call, request, errno_in(entry.reply), rows)
        }
        Event::PortClosed { .. } => true,
        Event::DeviceDown { .. } => true,
    }
}

/// The errno of a reply.
fn errno_in(reply: Reply) -> u16
    ensures { result ≡ requests.errno_in reply }
{
    match reply {
        Reply::Arrived { .. } => 0,
        Reply::Answer { errno, .. } => errno,
        Reply::Flushed { .. } => 0,
    }
}

/// Whether the first of a row is this request. Then it is taken.
fn meets(side: Side, call: u32, request: &Request, errno: u16, rows: &mut Rows<Asking>) -> bool
    ensures { dealing.IsMet side (pleading.plea call request.now errno) rows.old rows.new result }
{
    let told = take(side, rows);
    is_plea(&told, call, request, errno)
}

/// Whether a request is this one.
fn is_plea(told: &Option<Asking>, call: u32, request: &Request, errno: u16) -> bool
    ensures { IsTrue result ↔ (told.now ≡ Some (pleading.plea call request.now errno)) }
{
    match told {
        Some(told) => told.call == call && told.errno == errno && told.request == *request,
        None => false,
    }
}

//! Requests, and what a message is decoded to.

ghost use Rattle.std.specs.Prelude.{◌≡◌, ◌↔◌, IfOk, IsTrue, bytes_eq};
ghost use Rattle.std.specs.Cmp.{partial_equiv_from_equiv};
ghost use Rattle.std.specs.Option.{option_eq};
ghost use Rattle.nfqa_msgs.specs.SameRequests.{same_request};
ghost use Rattle.nfqa_msgs.specs.RequestEquality.{same_equiv};

use nfqa_headers::{Head, Params};
use packet_entry::{Bytes, NoMemory, same_bytes};

/// What a port asks of a queue. What a message doesn't have is `None`.
#[derive(Debug, Drop)]
pub enum Request {
    /// To bind or unbind the queue, or to set it up. (`NFQNL_MSG_CONFIG`)
    Config {
        /// The queue's number.
        queue: u16,
        /// `BIND`, `UNBIND`, `PF_BIND`, `PF_UNBIND`, or one that is refused.
        command: Option<u8>,
        /// Copy mode and range.
        params: Option<Params>,
        /// How many packets may wait.
        maxlen: Option<u32>,
        /// The bits of [`QueueFlags`](crate::QueueFlags) to be set.
        flags: Option<u32>,
        /// The bits that `flags` sets or clears.
        mask: Option<u32>,
    },
    /// A verdict on one packet. (`NFQNL_MSG_VERDICT`)
    Verdict {
        /// The queue's number.
        queue: u16,
        /// The verdict, and the id of the packet.
        head: Option<Head>,
        /// The packet's new mark.
        mark: Option<u32>,
        /// The bytes that replace the packet's.
        payload: Option<Bytes>,
        /// The packet's new priority. (`NFQA_PRIORITY`, `skb->priority`)
        priority: Option<u32>,
    },
    /// A verdict on all packets up to an id. (`NFQNL_MSG_VERDICT_BATCH`)
    Batch {
        /// The queue's number.
        queue: u16,
        /// The verdict, and the greatest id.
        head: Option<Head>,
        /// The new mark of each packet.
        mark: Option<u32>,
        /// The new priority of each packet.
        priority: Option<u32>,
    },
}

impl Request {
    /// The same once more. Its payload is shared: nothing is copied, and no memory is taken.
    /// `NoMemory` comes only where 2^63 - 1 lists share the payload's buffer already.
    pub fn share(&self) -> Result<Request, NoMemory>
        ensures { IfOk result (λ same. same ≡ self.now) }
    {
        match self {
            Request::Config {
                queue,
                command,
                params,
                maxlen,
                flags,
                mask,
            } => Ok(Request::Config {
                queue: *queue,
                command: *command,
                params: *params,
                maxlen: *maxlen,
                flags: *flags,
                mask: *mask,
            }),
            Request::Verdict {
                queue,
                head,
                mark,
                payload,
                priority,
            } => Ok(Request::Verdict {
                queue: *queue,
                head: *head,
                mark: *mark,
                payload: share_payload(payload)?,
                priority: *priority,
            }),
            Request::Batch {
                queue,
                head,
                mark,
                priority,
            } => Ok(Request::Batch {
                queue: *queue,
                head: *head,
                mark: *mark,
                priority: *priority,
            }),
        }
    }
}

impl PartialEq for Request {
    ghost eq = { same_request };

    ghost laws = { partial_equiv_from_equiv same_equiv };

    /// Whether the requests are of one kind, with the same in each field. Payloads are the same if
    /// their bytes are.
    fn eq(&self, other: &Request) -> bool
        ensures value { result ≡ same_request self.now other.now }
        ensures same { IsTrue result ↔ (self.now ≡ other.now) }
    {
        match (self, other) {
            (
                Request::Config {
                    queue,
                    command,
                    params,
                    maxlen,
                    flags,
                    mask,
                },
                Request::Config {
                    queue: queue2,
                    command: command2,
                    params: params2,
                    maxlen: maxlen2,
                    flags: flags2,
                    mask: mask2,
                },
            ) => {
                queue == queue2
                    && command == command2
                    && params == params2
                    && maxlen == maxlen2
                    && flags == flags2
                    && mask == mask2
            }
            (
                Request::Verdict {
                    queue,
                    head,
                    mark,
                    payload,
                    priority,
                },
                Request::Verdict {
                    queue: queue2,
                    head: head2,
                    mark: mark2,
                    payload: payload2,
                    priority: priority2,
                },
            ) => {
                queue == queue2
                    && head == head2
                    && mark == mark2
                    && is_same_payload(payload, payload2)
                    && priority == priority2
            }
            (
                Request::Batch {
                    queue,
                    head,
                    mark,
                    priority,
                },
                Request::Batch {
                    queue: queue2,
                    head: head2,
                    mark: mark2,
                    priority: priority2,
                },
            ) => queue == queue2 && head == head2 && mark == mark2 && priority == priority2,
            _ => false,
        }
    }
}

impl Eq for Request {
    ghost laws = { same_equiv };
}

/// Whether neither has a payload, or both have the same bytes.
fn is_same_payload(one: &Option<Bytes>, other: &Option<Bytes>) -> bool
    ensures { result ≡ option_eq bytes_eq one.now other.now }
{
    match (one, other) {
        (None, None) => true,
        (Some(one), Some(other)) => same_bytes(one.as_slice(), other.as_slice()),
        _ => false,
    }
}

/// The payload of a request once more, where it has one. It is shared as [`Request::share`] shares
/// it.
pub fn share_payload(payload: &Option<Bytes>) -> Result<Option<Bytes>, NoMemory>
    ensures { IfOk result (λ same. same ≡ payload.now) }
{
    match payload {
        None => Ok(None),
        Some(bytes) => Ok(Some(bytes.share()?)),
    }
}

/// What a message is decoded to.
#[derive(Debug, Drop)]
pub enum Decoded {
    /// It touches no queue, and isn't refused.
    Nothing,
    /// It is refused before any queue is touched.
    Refused {
        /// `EINVAL`, `EOPNOTSUPP` or `ERANGE`.
        errno: u16,
    },
    /// It asks something of a queue.
    Asked {
        /// What it asks.
        request: Request,
    },
}

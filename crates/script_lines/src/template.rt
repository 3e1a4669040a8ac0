//! What a line of a script asks for, before it is known which notice it answers.

ghost use Rattle.std.specs.Prelude.{◌≡◌, IfOk, IfSome};
ghost use Rattle.script_lines.specs.Asking.{alone_of, asked, head_alone, head_for, number_for};
ghost use Rattle.script_lines.specs.Asking.{request_of, words_alone};
ghost use Rattle.script_lines.specs.Limits.{IsTemplate, IsWords};

use crate::ask::Ask;
use histories::AskWords;
use nfqa_msgs::{Head, Notice, Params, Request, share_payload};
use packet_entry::{Bytes, NoMemory};

/// A number that an ask names: a queue's, or a packet's id.
#[derive(Clone, Copy, Debug, PartialEq, Eq)]
pub enum OrThis<T> {
    /// `this`: the notice's.
    This,
    /// The number itself.
    Number { number: T },
}

impl<T: Copy + Drop> OrThis<T> {
    /// The number that is named; for `this` it is the notice's, which is given.
    fn of(self, this: T) -> T
        ensures { result ≡ number_for this self }
    {
        match self {
            OrThis::This => this,
            OrThis::Number { number } => number,
        }
    }

    /// The number that is named; none for `this`.
    fn alone(self) -> Option<T>
        ensures { result ≡ alone_of self }
    {
        match self {
            OrThis::This => None,
            OrThis::Number { number } => Some(number),
        }
    }
}

/// What a config request sets beside its queue.
#[derive(Clone, Copy, Debug, PartialEq, Eq)]
pub struct Settings {
    /// The command's number.
    pub command: Option<u8>,
    /// Copy mode and range.
    pub params: Option<Params>,
    /// How many packets may wait.
    pub maxlen: Option<u32>,
    /// The bits of [`QueueFlags`](nfqa_msgs::QueueFlags) to be set.
    pub flags: Option<u32>,
    /// The bits that `flags` sets or clears.
    pub mask: Option<u32>,
}

impl Settings {
    /// The request that sets this of a queue.
    fn request(self, queue: u16) -> Request
        ensures { result ≡ request_of queue self }
    {
        Request::Config {
            queue,
            command: self.command,
            params: self.params,
            maxlen: self.maxlen,
            flags: self.flags,
            mask: self.mask,
        }
    }
}

/// What a verdict or a batch says of packets.
#[derive(Clone, Copy, Debug, PartialEq, Eq)]
pub struct Judgement {
    /// The queue that they wait in.
    pub queue: OrThis<u16>,
    /// The verdict's number.
    pub verdict: u32,
    /// The id of a verdict's packet; the greatest that a batch is for.
    pub id: OrThis<u32>,
    /// The mark that they get.
    pub mark: Option<u32>,
    /// The priority that they get.
    pub priority: Option<u32>,
}

impl Judgement {
    /// The verdict and the id in answer to this notice.
    fn head(&self, notice: &Notice) -> Head
        ensures { result ≡ head_for notice.now self.now }
    {
        Head {
            verdict: self.verdict,
            id: self.id.of(notice.id),
        }
    }

    /// The verdict and the id without a notice, or `None` where the id is `this`.
    fn head_alone(&self) -> Option<Head>
        ensures { result ≡ head_alone self.now }
    {
        let id = self.id.alone()?;
        Some(Head {
            verdict: self.verdict,
            id,
        })
    }
}

/// One ask of a line.
#[derive(Debug, Drop)]
pub enum Template {
    /// `config`
    Config {
        queue: OrThis<u16>,
        settings: Settings,
    },
    /// `verdict`
    Verdict {
        judgement: Judgement,
        /// The bytes that replace the packet's.
        payload: Option<Bytes>,
    },
    /// `batch`
    Batch {
        judgement: Judgement,
    },
    /// `raw`: the bytes of a datagram.
    Raw {
        bytes: Bytes,
    },
}

impl Template {
    /// What it asks for in answer to this notice. Its bytes are shared, not copied.
    pub fn ask(&self, notice: &Notice) -> Result<Ask, NoMemory>
        ensures { IfOk result (λ ask. ask ≡ asked notice.now self.now) }
    {
        let words = match self {
            Template::Config { queue, settings } => AskWords::Plain {
                request: settings.request(queue.of(notice.queue)),
            },
            Template::Verdict { judgement, payload } => AskWords::Plain {
                request: Request::Verdict {
                    queue: judgement.queue.of(notice.queue),
                    head: Some(judgement.head(notice)),
                    mark: judgement.mark,
                    payload: share_payload(payload)?,
                    priority: judgement.priority,
                },
            },
            Template::Batch { judgement } => AskWords::Plain {
                request: Request::Batch {
                    queue: judgement.queue.of(notice.queue),
                    head: Some(judgement.head(notice)),
                    mark: judgement.mark,
                    priority: judgement.priority,
                },
            },
            Template::Raw { bytes } => AskWords::Raw {
                bytes: bytes.share()?,
            },
        };
        Ok(Ask::Words { words })
    }

    /// What it asks for without a notice, or `None` where it says `this`.
    pub(crate) fn alone(self) -> Option<AskWords>
        ensures value { result ≡ words_alone self }
        ensures fit { IsTemplate self → IfSome result IsWords }
    {
        match self {
            Template::Config { queue, settings } => Some(AskWords::Plain {
                request: settings.request(queue.alone()?),
            }),
            Template::Verdict { judgement, payload } => Some(AskWords::Plain {
                request: Request::Verdict {
                    queue: judgement.queue.alone()?,
                    head: Some(judgement.head_alone()?),
                    mark: judgement.mark,
                    payload,
                    priority: judgement.priority,
                },
            }),
            Template::Batch { judgement } => Some(AskWords::Plain {
                request: Request::Batch {
                    queue: judgement.queue.alone()?,
                    head: Some(judgement.head_alone()?),
                    mark: judgement.mark,
                    priority: judgement.priority,
                },
            }),
            Template::Raw { bytes } => Some(AskWords::Raw { bytes }),
        }
    }
}

//! One rule of a table: which packets it queues, and where.

/// The queue that a rule picks (NFQUEUE of iptables-extensions(8)).
#[derive(Clone, Copy, Debug, PartialEq, Eq)]
pub enum Pick {
    /// `--queue-num`: this queue.
    Number { queue: u16 },
    /// `--queue-balance`: by the packet's flow, one of `total` queues from `first` on.
    Balance { first: u16, total: u32 },
}

/// The test `-m mark [!] --mark VALUE[/MASK]`.
#[derive(Clone, Copy, Debug, PartialEq, Eq)]
pub struct MarkTest {
    /// What the masked mark of the packet is to be.
    pub value: u32,
    /// The bits of the packet's mark that are looked at. `value` isn't masked.
    pub mask: u32,
    /// With `!` the test holds where the masked mark is another.
    pub negated: bool,
}

/// A rule `-A FORWARD .. -j NFQUEUE ..`.
#[derive(Clone, Copy, Debug, PartialEq, Eq)]
pub struct Rule {
    /// `-p`: the protocol number that the packet is to have.
    pub protocol: Option<u8>,
    /// `-m mark`: the test of its mark.
    pub mark: Option<MarkTest>,
    /// Where a packet goes that meets both.
    pub pick: Pick,
    /// `--queue-bypass`: where nobody is bound to the queue, the packet goes on.
    pub bypass: bool,
    /// `--queue-cpu-fanout`: of the queues of a balance the one of the processor that the packet is
    /// on, which its feeder stands for.
    pub fanout: bool,
}

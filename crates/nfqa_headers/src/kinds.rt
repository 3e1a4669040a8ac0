//! The kinds and flags of messages, and the kinds of their attributes (uapi `linux/netlink.h`,
//! `linux/netfilter/nfnetlink.h`, `linux/netfilter/nfnetlink_queue.h`).

/// The flag of a message that asks for something. (`NLM_F_REQUEST`)
pub const REQUEST_FLAG: u16 = 1;
/// The flag of a message that asks for an acknowledgement. (`NLM_F_ACK`)
pub const ACK_FLAG: u16 = 4;
/// The least kind that is no control message. (`NLMSG_MIN_TYPE`)
pub const LEAST_KIND: u16 = 16;

/// The subsystem of queues, in the high byte of a message's kind. (`NFNL_SUBSYS_QUEUE`)
pub const QUEUE_SUBSYSTEM: u16 = 3;
/// How many numbers of messages a subsystem has: the number is the low byte of the kind.
pub const NUMBERS: u16 = 256;
/// The number of a notice. (`NFQNL_MSG_PACKET`)
pub const NOTICE: u16 = 0;
/// The number of a verdict. (`NFQNL_MSG_VERDICT`)
pub const VERDICT: u16 = 1;
/// The number of a config request. (`NFQNL_MSG_CONFIG`)
pub const CONFIG: u16 = 2;
/// The number of a verdict on a batch. (`NFQNL_MSG_VERDICT_BATCH`)
pub const BATCH: u16 = 3;

/// Config attribute: a command. (`NFQA_CFG_CMD`)
pub const COMMAND: u16 = 1;
/// Config attribute: range and mode. (`NFQA_CFG_PARAMS`)
pub const PARAMS: u16 = 2;
/// Config attribute: how many packets may wait. (`NFQA_CFG_QUEUE_MAXLEN`)
pub const MAXLEN: u16 = 3;
/// Config attribute: which flags are set or cleared. (`NFQA_CFG_MASK`)
pub const MASK: u16 = 4;
/// Config attribute: the flags. (`NFQA_CFG_FLAGS`)
pub const FLAGS: u16 = 5;

/// Notice attribute: id, Ethernet type and hook. (`NFQA_PACKET_HDR`)
pub const PACKET_HEADER: u16 = 1;
/// Verdict attribute: verdict and id. (`NFQA_VERDICT_HDR`)
pub const VERDICT_HEADER: u16 = 2;
/// Attribute of verdicts and notices: the mark. (`NFQA_MARK`)
pub const MARK: u16 = 3;
/// Notice attribute: seconds and microseconds. (`NFQA_TIMESTAMP`)
pub const TIMESTAMP: u16 = 4;
/// Notice attribute: the input device. (`NFQA_IFINDEX_INDEV`)
pub const INPUT_DEVICE: u16 = 5;
/// Notice attribute: the output device. (`NFQA_IFINDEX_OUTDEV`)
pub const OUTPUT_DEVICE: u16 = 6;
/// Notice attribute: the sender's hardware address. (`NFQA_HWADDR`)
pub const HARDWARE_ADDRESS: u16 = 9;
/// Attribute of verdicts and notices: a packet's bytes. (`NFQA_PAYLOAD`)
pub const PAYLOAD: u16 = 10;
/// Notice attribute: the packet's length, where the range cut the packet. (`NFQA_CAP_LEN`)
pub const FULL_LENGTH: u16 = 13;
/// Attribute of verdicts and notices: the priority. (`NFQA_PRIORITY`)
pub const PRIORITY: u16 = 21;

/// All kinds of attributes that are read are below this.
pub const KINDS: usize = 22;

/// The bytes of an attribute that is one number. (`__be32`)
pub const VALUE_LENGTH: usize = 4;

//! The public numbers of the format: copy modes, the greatest range, commands and errnos (uapi
//! `linux/netfilter/nfnetlink_queue.h`, `asm-generic/errno-base.h`, `asm-generic/errno.h`).

/// Copy mode: no notice is sent. (`NFQNL_COPY_NONE`)
pub const NONE: u8 = 0;
/// Copy mode: the notice tells of the packet, without its bytes. (`NFQNL_COPY_META`)
pub const META: u8 = 1;
/// Copy mode: the notice has the packet's first bytes too. (`NFQNL_COPY_PACKET`)
pub const PACKET: u8 = 2;

/// The most bytes of a packet that a notice has: an attribute's 65,535 less its header of 4.
pub const MAX_RANGE: u32 = 65_531;

/// Config command: make the queue, for the sender. (`NFQNL_CFG_CMD_BIND`)
pub const BIND: u8 = 1;
/// Config command: end the queue. (`NFQNL_CFG_CMD_UNBIND`)
pub const UNBIND: u8 = 2;
/// Config command without effect. (`NFQNL_CFG_CMD_PF_BIND`)
pub const PF_BIND: u8 = 3;
/// Config command without effect. (`NFQNL_CFG_CMD_PF_UNBIND`)
pub const PF_UNBIND: u8 = 4;

/// An unknown subsystem or number, flags without a mask, no verdict header, or a verdict that is
/// refused.
pub const EINVAL: u16 = 22;
/// A known attribute has fewer bytes than its kind needs.
pub const ERANGE: u16 = 34;
/// The number of a notice, or a command or flags that aren't supported.
pub const EOPNOTSUPP: u16 = 95;

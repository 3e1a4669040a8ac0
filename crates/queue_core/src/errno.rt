//! The errors that an acknowledgement carries, by their numbers in asm-generic/errno-base.h.
//! `EINVAL`, `ERANGE` and `EOPNOTSUPP` stand in `nfqa_msgs`.

/// The queue belongs to another port.
pub const EPERM: u16 = 1;

/// A verdict or a batch names nothing that it may take.
pub const ENOENT: u16 = 2;

/// The queue is bound already.
pub const EBUSY: u16 = 16;

/// There is no such queue.
pub const ENODEV: u16 = 19;

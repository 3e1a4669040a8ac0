//! The exit statuses of the program, each once.

/// All inputs were read to their end, and all outputs written.
pub const DONE: u8 = 0;

/// The arguments aren't a command.
pub const USAGE: u8 = 1;

/// An input couldn't be read.
pub const READ_FAULT: u8 = 2;

/// An output couldn't be written.
pub const WRITE_FAULT: u8 = 3;

/// The capture is refused.
pub const BAD_CAPTURE: u8 = 4;

/// The rules are refused.
pub const BAD_RULES: u8 = 5;

/// The script is refused.
pub const BAD_SCRIPT: u8 = 6;

/// An input is above its limit.
pub const TOO_LARGE: u8 = 7;

/// Out of memory.
pub const NO_MEMORY: u8 = 8;

/// The journal that is read is refused.
pub const BAD_JOURNAL: u8 = 10;

/// The journal that is audited tells no run of the inputs.
pub const NO_RUN: u8 = 11;

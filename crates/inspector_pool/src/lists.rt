//! The lists that a pool takes and gives.
use nfqa_msgs::Notice;
use packet_entry::Sequence;
use script_lines::Asks;

/// The notices that a port received, in this order.
pub type Notices = Sequence<Notice>;

/// What is asked for in answer to each notice, in the order of the notices.
pub type AsksList = Sequence<Asks>;

/// The numbers of the jobs that one worker did, in the order in which it did them.
pub type Share = Sequence<u32>;

/// A share for each worker, and the caller's last.
pub type Shares = Sequence<Share>;

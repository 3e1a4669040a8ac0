//! The messages of nfnetlink_queue: requests read from netlink messages and written as their one
//! spelling, and the notices that tell a port of a waiting packet, written and read back.
//!
//! The sources are the kernel's uapi headers `linux/netlink.h`, `linux/netfilter/nfnetlink.h` and
//! `linux/netfilter/nfnetlink_queue.h`, and `nfnetlink_queue.c`. Numbers in the headers of a
//! message and of its attributes are little-endian, those of `nfgenmsg` and of the attributes'
//! contents big-endian.
#![tactic(auto)]

mod at_places;
mod card_notice;
mod comparing;
mod fields;
mod laws;
mod notice;
mod notice_content;
mod notice_reading;
mod notice_spelling;
mod notice_writing;
mod numbers;
mod queue_flags;
mod request;
mod request_pieces;
mod request_reading;
mod request_spelling;
mod request_writing;

pub use card_notice::notice_of_card;
pub use fields::numbers_fit;
pub use laws::{
    notices_are_told_apart, notices_are_told_exactly, packet_notices_are_told_apart,
    public_numbers, spelling_decodes_to_its_request,
};
pub use nfqa_headers::{Head, Params};
pub use notice::Notice;
pub use notice_reading::{decode_notice, decode_shared_notice};
pub use notice_writing::encode_notice;
pub use numbers::{
    BIND, EINVAL, EOPNOTSUPP, ERANGE, MAX_RANGE, META, NONE, PACKET, PF_BIND, PF_UNBIND, UNBIND,
};
pub use queue_flags::QueueFlags;
pub use request::{Decoded, Request, share_payload};
pub use request_reading::decode_request;
pub use request_spelling::is_spelling;
pub use request_writing::encode_request;

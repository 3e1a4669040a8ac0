//! Netlink messages and attributes, cut from bytes as borrowed parts and written back, and the
//! acknowledgement of a request. Numbers are little-endian.
//!
//! The source is the kernel's uapi header `linux/netlink.h`.
#![tactic(auto)]

mod acknowledgements;
mod attribute_header;
mod attributes;
mod laws;
mod message_header;
mod messages;

pub use acknowledgements::ack;
// The walk has another name in its module: two items whose names differ only in case, as `attrs`
// and `Attrs`, are refused in the module where both are defined.
pub use attributes::{Attr, Attrs, attr_header, attr_padding, put_attr, walk_attrs as attrs};
pub use laws::{
    one_message_in_front, one_row_is_held, walk_goes_on_or_ends, written_attributes_are_walked,
    written_message_is_in_front,
};
pub use messages::{Message, next_message, put_message, put_split_message};

//! What travels through the machinery: packets, the notices that tell of them, and the lists that
//! hold such things. A packet is a linear value: it can be read, changed and moved, but neither
//! copied nor lost, and the two calls that spend it say whether it went on or was destroyed. Its
//! bytes can be shared: then several hold one buffer, which nothing can change.
#![tactic(auto)]

mod buffer;
mod bytes;
mod laws;
mod letter;
mod no_memory;
mod packet;
mod same;
mod sequence;
mod stock;

pub use buffer::{Buffer, BufferPool};
pub use bytes::Bytes;
pub use laws::public_numbers;
pub use letter::Letter;
pub use no_memory::NoMemory;
pub use packet::{
    Card, ETHERNET_HEADER, IPV4, IPV6, MAX_FRAME, MAX_PAYLOAD, MAX_VISITS, Packet, VLAN_HEADER,
};
pub use same::same_bytes;
pub use sequence::{IntoIter, Iter, Sequence};
pub use stock::Stock;

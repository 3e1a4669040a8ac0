//! What an IP packet says of itself, and where it starts in a captured frame.
//!
//! [`fields`] reads the addresses and the protocol at their fixed places in an IPv4 or IPv6 header.
//! [`link_cut`] says how long the link header before the packet is, by the capture's link type.
//! Both copy nothing and take no memory. [`fields`] answers `None` exactly where the bytes don't
//! begin with 20 bytes of version 4 or 40 of version 6. [`link_cut`] looks at less: Ethernet frames
//! go by their type, raw IP by the version, and under the link types of IPv4 and IPv6 any frame is
//! taken, also an empty one.
#![tactic(auto)]

mod ethernet;
mod frame;
mod ipv4;
mod ipv6;
mod packet;
mod vlan;

pub use frame::{LinkCut, link_cut};
pub use packet::{IpFields, fields};

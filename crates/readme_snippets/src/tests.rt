//! The snippets are run, each on inputs that were written by hand.

use super::*;
use packet_entry::{IPV4, Packet};
use std::test::Fail;

/// An IPv4 packet without content, from 10.0.0.1 to 10.0.0.2.
const BYTES: [u8; 20] = [
    0x45, 0, 0, 20, 0, 1, 0, 0, 0x40, 6, 0, 0, 10, 0, 0, 1, 10, 0, 0, 2,
];
/// A capture of raw IP, little-endian, with two frames: of 3 bytes and of 2.
const CAPTURE: [u8; 61] = [
    0xd4, 0xc3, 0xb2, 0xa1, 2, 0, 4, 0, 0, 0, 0, 0, 0, 0, 0, 0, 0, 0, 4, 0, 101, 0, 0, 0, 1, 0, 0,
    0, 0, 0, 0, 0, 3, 0, 0, 0, 3, 0, 0, 0, 1, 2, 3, 2, 0, 0, 0, 0, 0, 0, 0, 2, 0, 0, 0, 2, 0, 0, 0,
    4, 5,
];
/// A request of kind 16, which is another subsystem's. (22 is EINVAL.)
const OTHER_KIND: [u8; 20] = [20, 0, 0, 0, 16, 0, 1, 0, 1, 0, 0, 0, 7, 0, 0, 0, 0, 0, 0, 0];

#[test]
fn the_bytes_of_a_capture_are_counted(rt: HostRuntime) -> Result<(), Fail> {
    let bytes = bytes_in_frames(rt.alloc(), &CAPTURE)?;
    assert_eq!(rt; bytes, 5);
    Ok(())
}

#[test]
fn a_message_of_another_kind_is_refused(rt: HostRuntime) -> Result<(), Fail> {
    let first = errno_of_first(rt.alloc(), &OTHER_KIND)?;
    assert_eq!(rt; first, (22, 20));
    let none = errno_of_first(rt.alloc(), &OTHER_KIND[..19])?;
    assert_eq!(rt; none, (0, 0));
    Ok(())
}

#[test]
fn a_packet_is_accepted(rt: HostRuntime) -> Result<(), Fail> {
    let packet = Packet::new(rt.alloc(), 1, 1, 0, IPV4, &[], &BYTES)?;
    let accepted = accept_one(rt.alloc(), packet);
    assert_eq!(rt; accepted, true);
    Ok(())
}

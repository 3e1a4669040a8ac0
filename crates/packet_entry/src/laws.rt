//! Laws of the definitions, each the contract of a function that does nothing.

ghost use Rattle.std.specs.Prelude.{◌≡◌};
ghost use Rattle.packet_entry.specs.Numbers as numbers;

use crate::packet::{ETHERNET_HEADER, IPV4, IPV6, MAX_FRAME, MAX_PAYLOAD, MAX_VISITS, VLAN_HEADER};

/// The public constants are the numbers that the definitions have.
pub fn public_numbers()
    ensures max_frame { MAX_FRAME ≡ numbers.longest_packet }
    ensures max_payload { MAX_PAYLOAD ≡ numbers.longest_payload }
    ensures max_visits { MAX_VISITS ≡ numbers.last_visit }
    ensures ipv4 { IPV4 ≡ numbers.ipv4_type }
    ensures ipv6 { IPV6 ≡ numbers.ipv6_type }
    ensures ethernet_header { ETHERNET_HEADER ≡ numbers.ethernet_header_length }
    ensures vlan_header { VLAN_HEADER ≡ numbers.tagged_header_length }
{}

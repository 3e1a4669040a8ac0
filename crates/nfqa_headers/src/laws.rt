//! Laws of the definitions, each the contract of a function that does nothing.

ghost use Rattle.std.specs.Prelude.{◌≡◌, ◌+◌};
ghost use Rattle.netlink_codec.specs.Numbers as netlink;
ghost use Rattle.nfqa_headers.specs.Numbers as numbers;
ghost use Rattle.nfqa_headers.specs.Headers as headers;

use crate::kinds::{
    ACK_FLAG, BATCH, COMMAND, CONFIG, FLAGS, FULL_LENGTH, HARDWARE_ADDRESS, INPUT_DEVICE, KINDS,
    LEAST_KIND, MARK, MASK, MAXLEN, NOTICE, NUMBERS, OUTPUT_DEVICE, PACKET_HEADER, PARAMS, PAYLOAD,
    PRIORITY, QUEUE_SUBSYSTEM, REQUEST_FLAG, TIMESTAMP, VALUE_LENGTH, VERDICT, VERDICT_HEADER,
};
use crate::packet_address::ADDRESS_LENGTH;
use crate::queue_header::{ANY_FAMILY, IPV4_FAMILY, IPV6_FAMILY, QUEUE_HEADER_LENGTH};

/// The public constants are the numbers that the definitions have.
pub fn public_numbers()
    ensures flags { (REQUEST_FLAG ≡ netlink.request_flag) × (ACK_FLAG ≡ netlink.ack_flag) }
    ensures messages { (LEAST_KIND ≡ netlink.least_kind)
        × (QUEUE_SUBSYSTEM ≡ numbers.queue_subsystem) × (NUMBERS ≡ numbers.subsystem_numbers)
        × (NOTICE ≡ numbers.notice_number) × (VERDICT ≡ numbers.verdict_number)
        × (CONFIG ≡ numbers.config_number) × (BATCH ≡ numbers.batch_number) }
    ensures config { (COMMAND ≡ numbers.command_kind) × (PARAMS ≡ numbers.params_kind)
        × (MAXLEN ≡ numbers.maxlen_kind) × (MASK ≡ numbers.mask_kind)
        × (FLAGS ≡ numbers.flags_kind) }
    ensures verdict { (VERDICT_HEADER ≡ numbers.verdict_header_kind) × (MARK ≡ numbers.mark_kind)
        × (PAYLOAD ≡ numbers.payload_kind) × (PRIORITY ≡ numbers.priority_kind) }
    ensures notice { (PACKET_HEADER ≡ numbers.packet_header_kind)
        × (INPUT_DEVICE ≡ numbers.input_device_kind)
        × (OUTPUT_DEVICE ≡ numbers.output_device_kind)
        × (HARDWARE_ADDRESS ≡ numbers.hardware_address_kind)
        × (TIMESTAMP ≡ numbers.timestamp_kind) × (FULL_LENGTH ≡ numbers.full_length_kind) }
    ensures families { (ANY_FAMILY ≡ numbers.any_family) × (IPV4_FAMILY ≡ numbers.ipv4_family)
        × (IPV6_FAMILY ≡ numbers.ipv6_family) }
    ensures lengths { (QUEUE_HEADER_LENGTH ≡ headers.queue_header_length)
        × (VALUE_LENGTH ≡ headers.value_length)
        × (ADDRESS_LENGTH ≡ numbers.hardware_address_length) }
    ensures last_kind { KINDS ≡ numbers.priority_kind + 1 }
{}

//! A packet of a word: a header of IPv4 (RFC 791, section 3.1) and a payload of zeros.
//!
//! | Place | Width | Field | Value |
//! |---|---|---|---|
//! | 0 | 1 | version and header length | 0x45 |
//! | 1 | 1 | type of service | 0 |
//! | 2 | 2 | total length, big-endian | 20 and the payload's |
//! | 4 | 2 | identification | 0 |
//! | 6 | 2 | flags and fragment offset | 0 |
//! | 8 | 1 | time to live | 0x40 |
//! | 9 | 1 | protocol | UDP or TCP, by bit 0 |
//! | 10 | 2 | checksum | 0 |
//! | 12 | 4 | source | 10.0.0.s, by bits 8 to 15 |
//! | 16 | 4 | destination | 10.0.1.d, by bits 16 to 23 |

ghost use Rattle.std.specs.Prelude.{◌≡◌, ◌<◌, ◌++◌, OnOk};
ghost use Rattle.generated.specs.Numbers.{payload_lengths};
ghost use Rattle.generated.specs.Packets as packets;

use packet_entry::NoMemory;

/// The bytes of a header without options.
const HEADER_LENGTH: u8 = 20;

/// How many lengths a payload has, in bytes: 0 to 63, by bits 24 to 29.
const PAYLOAD_LENGTHS: u64 = 64;

/// The longest payload.
const ZEROS: [u8; 63] = [0; 63];

/// Version 4, and a header of five words of 32 bits.
const VERSION_AND_HEADER_LENGTH: u8 = 0x45;

/// How many hops a packet has left.
const TIME_TO_LIVE: u8 = 0x40;

/// The protocol number of TCP (IANA's Assigned Internet Protocol Numbers).
const TCP: u8 = 6;

/// The protocol number of UDP.
const UDP: u8 = 17;

/// Appends the packet of a word, which has 20 to 83 bytes. When memory runs out, a part of it may
/// stand there.
pub(crate) fn put_packet(word: u64, out: &mut Vec<u8>) -> Result<(), NoMemory>
    ensures { OnOk result (out.new.items ≡ out.old.items ++ packets.packet word) }
{
    out.extend_from_slice(&header(word))?;
    out.extend_from_slice(&ZEROS[..usize::from(payload_length(word))])?;
    Ok(())
}

#[tactic(auto, unfolding(crate::specs::Packets::header))]
fn header(word: u64) -> [u8; 20]
    ensures { result ≡ packets.header word }
{
    let [_, _, _, _, _, destination, source, _] = word.to_be_bytes();
    [
        VERSION_AND_HEADER_LENGTH,
        0,
        0,
        total_length(word),
        0,
        0,
        0,
        0,
        TIME_TO_LIVE,
        protocol(word),
        0,
        0,
        10,
        0,
        0,
        source,
        10,
        0,
        1,
        destination,
    ]
}

/// The bytes of the packet.
pub(crate) fn total_length(word: u64) -> u8
    ensures { result ≡ packets.packet_length word }
{
    HEADER_LENGTH + payload_length(word)
}

/// The bytes of the payload.
fn payload_length(word: u64) -> u8
    ensures value { result ≡ packets.payload_length word }
    ensures range { result < payload_lengths }
{
    ((word >> 24) % PAYLOAD_LENGTHS) as u8
}

fn protocol(word: u64) -> u8
    ensures { result ≡ packets.protocol word }
{
    if word % 2 == 1 { UDP } else { TCP }
}

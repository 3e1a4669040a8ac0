//! The header of a capture file (pcap-savefile(5)), in the byte order that its magic number tells.
//!
//! | Place | Width | Field |
//! |---|---|---|
//! | 0 | 4 | magic number: the byte order, and whether fractions are micro- or nanoseconds |
//! | 4 | 2 | major version, 2 |
//! | 6 | 2 | minor version, 4 |
//! | 8 | 4 | time zone |
//! | 12 | 4 | accuracy of times |
//! | 16 | 4 | snap length |
//! | 20 | 4 | link type |

ghost use Rattle.std.specs.Prelude.{◌≡◌, ◌+◌, ◌≤◌, ◌++◌, ◌<◌, ◌^◌, vec_len, vec_capacity};
ghost use Rattle.pcap_io.specs.Numbers.{file_header_length};
ghost use Rattle.pcap_io.specs.Text.{is_link_type, header_text};
ghost use Rattle.pcap_io.specs.Reading.{read_magic, read_header};

use crate::capture::{Capture, Frames};
use crate::fault::CaptureFault;
use crate::fields::{put_u16, put_u32, u16_at, u32_at};
use std::alloc::Global;

/// The bytes of the header.
pub(crate) const FILE_HEADER_LENGTH: usize = 24;

/// The bytes of the magic number.
const MAGIC_LENGTH: usize = 4;

/// The magic number of a file whose fractions are microseconds.
const MICROSECOND_MAGIC: u32 = 0xa1b2_c3d4;

/// The magic number of a file whose fractions are nanoseconds.
const NANOSECOND_MAGIC: u32 = 0xa1b2_3c4d;

/// `MICROSECOND_MAGIC` with its bytes the other way round.
const MICROSECOND_MAGIC_SWAPPED: u32 = 0xd4c3_b2a1;

/// `NANOSECOND_MAGIC` with its bytes the other way round.
const NANOSECOND_MAGIC_SWAPPED: u32 = 0x4d3c_b2a1;

/// The first four bytes of a pcapng file, its section header block's type. It reads the same in
/// either byte order.
const PCAPNG_BLOCK: u32 = 0x0a0d_0d0a;

/// The major number of the version that is read and written, 2.4.
const MAJOR_VERSION: u16 = 2;

/// The minor number of that version.
const MINOR_VERSION: u16 = 4;

/// The place of the magic number, in bytes from the file's start.
const MAGIC_AT: usize = 0;

/// The place of the major version, in bytes from the file's start.
const MAJOR_AT: usize = 4;

/// The place of the minor version, in bytes from the file's start.
const MINOR_AT: usize = 6;

/// The place of the time zone, in bytes from the file's start.
const ZONE_AT: usize = 8;

/// The place of the accuracy of times, in bytes from the file's start.
const SIGFIGS_AT: usize = 12;

/// The place of the snap length, in bytes from the file's start.
const SNAP_AT: usize = 16;

/// The place of the link type, in bytes from the file's start.
const LINK_AT: usize = 20;

/// LINKTYPE_ETHERNET of the registry of link types.
const LINK_ETHERNET: u32 = 1;

/// LINKTYPE_RAW: packets of IPv4 or IPv6 without a header before them.
const LINK_RAW: u32 = 101;

/// LINKTYPE_IPV4: packets of IPv4.
const LINK_IPV4: u32 = 228;

/// LINKTYPE_IPV6: packets of IPv6.
const LINK_IPV6: u32 = 229;

/// The header, as a capture without frames.
#[tactic(auto, unfolding(crate::specs::Reading::read_header, crate::specs::Reading::fields_at))]
pub(crate) fn read_header(alloc: Global, bytes: &[u8]) -> Result<Capture, CaptureFault>
    ensures { result ≡ read_header bytes.now }
{
    let (big, nanos) = read_magic(bytes)?;
    if bytes.len() < FILE_HEADER_LENGTH {
        return Err(CaptureFault::Cut { frame: 0, at: 0 });
    }
    if u16_at(big, bytes, MAJOR_AT) != MAJOR_VERSION
        || u16_at(big, bytes, MINOR_AT) != MINOR_VERSION
    {
        return Err(CaptureFault::Version);
    }
    let link = u32_at(big, bytes, LINK_AT);
    if !is_link_type(link) {
        return Err(CaptureFault::LinkType { link });
    }
    Ok(Capture {
        big,
        nanos,
        zone: u32_at(big, bytes, ZONE_AT),
        sigfigs: u32_at(big, bytes, SIGFIGS_AT),
        snap: u32_at(big, bytes, SNAP_AT),
        link,
        frames: Frames::new(alloc),
    })
}

/// Whether the byte order is big-endian, and whether fractions are nanoseconds.
fn read_magic(bytes: &[u8]) -> Result<(bool, bool), CaptureFault>
    ensures { result ≡ read_magic bytes.now }
{
    if bytes.len() < MAGIC_LENGTH {
        return Err(CaptureFault::Magic);
    }
    match u32_at(true, bytes, MAGIC_AT) {
        PCAPNG_BLOCK => Err(CaptureFault::Pcapng),
        MICROSECOND_MAGIC => Ok((true, false)),
        NANOSECOND_MAGIC => Ok((true, true)),
        MICROSECOND_MAGIC_SWAPPED => Ok((false, false)),
        NANOSECOND_MAGIC_SWAPPED => Ok((false, true)),
        _ => Err(CaptureFault::Magic),
    }
}

fn is_link_type(link: u32) -> bool
    ensures { result ≡ is_link_type link }
{
    link == LINK_ETHERNET || link == LINK_RAW || link == LINK_IPV4 || link == LINK_IPV6
}

/// Appends the header of a capture's file, 24 bytes, for which there is room. Takes no memory.
#[tactic(auto, unfolding(crate::specs::Text::header_text))]
pub fn put_header(capture: &Capture, out: &mut Vec<u8>)
    requires { vec_len out.old + file_header_length ≤ vec_capacity out.old }
    ensures items { out.new.items ≡ out.old.items ++ header_text capture.now }
    ensures len { vec_len out.new ≡ vec_len out.old + file_header_length }
    ensures capacity { vec_capacity out.old ≤ vec_capacity out.new }
    ensures zone { capture.now.zone < 2 ^ 32 }
    ensures sigfigs { capture.now.sigfigs < 2 ^ 32 }
    ensures snap { capture.now.snap < 2 ^ 32 }
    ensures link { capture.now.link < 2 ^ 32 }
{
    let big = capture.big;
    let magic = if capture.nanos {
        NANOSECOND_MAGIC
    } else {
        MICROSECOND_MAGIC
    };
    put_u32(big, magic, out);
    put_u16(big, MAJOR_VERSION, out);
    put_u16(big, MINOR_VERSION, out);
    put_u32(big, capture.zone, out);
    put_u32(big, capture.sigfigs, out);
    put_u32(big, capture.snap, out);
    put_u32(big, capture.link, out);
}

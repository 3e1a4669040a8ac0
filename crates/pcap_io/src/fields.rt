//! Numbers of 16 and 32 bits in either byte order, at their places.

ghost use Rattle.std.specs.Prelude.{◌≡◌, ◌+◌, ◌≤◌, ◌++◌, length, vec_len, vec_capacity};
ghost use Rattle.std.specs.Int.{w16, w32};
ghost use Rattle.pcap_io.specs.Text.{field};
ghost use Rattle.pcap_io.specs.Reading.{number_at};

/// The number of 16 bits that begins at this place.
pub(crate) fn u16_at(big: bool, bytes: &[u8], at: usize) -> u16
    requires { at + 2 ≤ length bytes.now }
    ensures { result ≡ number_at big w16 at bytes.now }
{
    let part = &bytes[at..at + 2];
    if big {
        u16::from_be_bytes([part[0], part[1]])
    } else {
        u16::from_le_bytes([part[0], part[1]])
    }
}

/// The number of 32 bits that begins at this place.
pub(crate) fn u32_at(big: bool, bytes: &[u8], at: usize) -> u32
    requires { at + 4 ≤ length bytes.now }
    ensures { result ≡ number_at big w32 at bytes.now }
{
    let part = &bytes[at..at + 4];
    if big {
        u32::from_be_bytes([part[0], part[1], part[2], part[3]])
    } else {
        u32::from_le_bytes([part[0], part[1], part[2], part[3]])
    }
}

/// Appends a number of 16 bits, for which there is room.
pub(crate) fn put_u16(big: bool, number: u16, out: &mut Vec<u8>)
    requires { vec_len out.old + 2 ≤ vec_capacity out.old }
    ensures items { out.new.items ≡ out.old.items ++ field big w16 number }
    ensures len { vec_len out.new ≡ vec_len out.old + 2 }
    ensures capacity { vec_capacity out.old ≤ vec_capacity out.new }
{
    if big {
        put(&number.to_be_bytes(), out);
    } else {
        put(&number.to_le_bytes(), out);
    }
}

/// Appends a number of 32 bits, for which there is room.
pub(crate) fn put_u32(big: bool, number: u32, out: &mut Vec<u8>)
    requires { vec_len out.old + 4 ≤ vec_capacity out.old }
    ensures items { out.new.items ≡ out.old.items ++ field big w32 number }
    ensures len { vec_len out.new ≡ vec_len out.old + 4 }
    ensures capacity { vec_capacity out.old ≤ vec_capacity out.new }
{
    if big {
        put(&number.to_be_bytes(), out);
    } else {
        put(&number.to_le_bytes(), out);
    }
}

/// Appends bytes, for which there is room.
pub(crate) fn put(bytes: &[u8], out: &mut Vec<u8>)
    requires { vec_len out.old + length bytes.now ≤ vec_capacity out.old }
    ensures items { out.new.items ≡ out.old.items ++ bytes.now }
    ensures len { vec_len out.new ≡ vec_len out.old + length bytes.now }
    ensures capacity { vec_capacity out.old ≤ vec_capacity out.new }
{
    out.extend_from_slice(bytes).unwrap();
}

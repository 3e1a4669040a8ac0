//! Whether bytes are a text that is known in pieces. No text is put together, and nothing is copied.

ghost use Rattle.std.specs.Prelude.{ℕ, List, ◌≡◌, ◌≢◌, ◌↔◌, ◌++◌, option_map, Some, IfSome, IsTrue};
ghost use Rattle.std.specs.Prelude.{MatchOption};
ghost use Rattle.netlink_codec.specs.Messages.{FitsHeader, message_text, message_with};

use netlink_codec::{Message, next_message};
use packet_entry::same_bytes;

/// The bytes after the header, where all the bytes are one message with this header.
pub(crate) fn body_in(
    bytes: &[u8],
    kind: u16,
    flags: u16,
    sequence: u32,
    port: u32,
) -> Option<&[u8]>
    ensures found { IfSome result (λ body.
        bytes.now ≡ message_text kind flags sequence port body.now) }
    ensures only { (body : List ℕ) →
        FitsHeader (message_with kind flags sequence port body) →
        bytes.now ≡ message_text kind flags sequence port body →
        option_map (λ found. found.now) result ≡ Some body }
{
    let (message, _) = next_message(bytes)?;
    if !has_header(&message, kind, flags, sequence, port) {
        return None;
    }
    if message.whole.len() != bytes.len() {
        return None;
    }
    Some(message.body)
}

/// Whether these are the fields of the header.
fn has_header(message: &Message<'_>, kind: u16, flags: u16, sequence: u32, port: u32) -> bool
    ensures { IsTrue result ↔ ((message.now.kind ≡ kind) × (message.now.flags ≡ flags)
        × (message.now.sequence ≡ sequence) × (message.now.port ≡ port)) }
{
    message.kind == kind
        && message.flags == flags
        && message.sequence == sequence
        && message.port == port
}

/// Whether the bytes are `front`, `middle` and `tail`, one behind the other.
pub(crate) fn is_in_pieces(bytes: &[u8], front: &[u8], middle: &[u8], tail: &[u8]) -> bool
    ensures { IsTrue result ↔ (bytes.now ≡ front.now ++ middle.now ++ tail.now) }
{
    match behind(bytes, front) {
        None => false,
        Some(rest) => is_pair(rest, middle, tail),
    }
}

/// Whether the bytes are `middle` and `tail`, one behind the other.
fn is_pair(bytes: &[u8], middle: &[u8], tail: &[u8]) -> bool
    ensures { IsTrue result ↔ (bytes.now ≡ middle.now ++ tail.now) }
{
    match behind(bytes, middle) {
        None => false,
        Some(rest) => same_bytes(rest, tail),
    }
}

/// What follows the front, where the bytes begin with it.
pub(crate) fn behind<'a>(bytes: &'a [u8], front: &[u8]) -> Option<&'a [u8]>
    ensures { MatchOption result ((rest : List ℕ) → bytes.now ≢ front.now ++ rest)
        (λ rest. bytes.now ≡ front.now ++ rest.now) }
{
    if bytes.len() < front.len() || !same_bytes(&bytes[..front.len()], front) {
        return None;
    }
    Some(&bytes[front.len()..])
}

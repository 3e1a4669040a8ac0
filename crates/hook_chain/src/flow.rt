//! The flow hash: both directions of a flow go to one queue.

ghost use Rattle.std.specs.Prelude.{◌≡◌, ◌+◌, ◌/◌, ◌%◌, ◌^◌, ◌<◌, ◌≤◌, IfSome, option_copied};
ghost use Rattle.ip_fields.specs.Packet.{IsAddressed};
ghost use Rattle.ip_fields.specs.Numbers.{ipv4_version};
ghost use Rattle.hook_chain.specs.Balance.{address_word, balanced, final_mix, flow_hash, mixed};
ghost use Rattle.hook_chain.specs.Balance.{packet_hash};

use ip_fields::IpFields;

/// `JHASH_INITVAL` of the kernel's jhash.h.
const INITIAL_VALUE: u32 = 0xdead_beef;
/// The bytes that are hashed: three words of 4 (`jhash_3words` of jhash.h).
const HASHED_BYTES: u32 = 12;
/// The IP version of a packet's fields whose addresses have 32 bits.
const IPV4_VERSION: u8 = 4;
/// How many values a word has.
const WORDS: u128 = 1 << 32;

/// The queue of a packet with these fields, among `total` queues from `first` on.
///
/// The addresses count without their order, so a flow's two directions have one queue. A packet
/// without fields is hashed as three words 0. The hash is that of the kernel's jhash.h over the two
/// address words and the protocol, scaled to `total`.
#[tactic(auto, unfolding(crate::specs::Balance::balanced))]
pub fn balance(key: u32, fields: Option<&IpFields>, first: u16, total: u32) -> u16
    requires some_queue { 1 ≤ total }
    requires last_queue { first + total ≤ 2 ^ 16 }
    requires addressed { IfSome fields (λ f. IsAddressed f.now) }
    ensures exact { result ≡ balanced key (option_copied fields.entry) first total }
    ensures from { first ≤ result }
    ensures to { result < first + total }
{
    let hash = u64::from(hash_of(key, fields));
    let offset = (hash * u64::from(total)) >> 32;
    first + offset as u16
}

/// The hash of a packet with these fields; without fields, of three words 0.
fn hash_of(key: u32, fields: Option<&IpFields>) -> u32
    requires { IfSome fields (λ f. IsAddressed f.now) }
    ensures { result ≡ packet_hash key (option_copied fields.entry) }
{
    match fields {
        None => hash(key, 0, 0, 0),
        Some(fields) => {
            let source = word_of(fields.family, fields.source);
            let destination = word_of(fields.family, fields.destination);
            hash(key, source, destination, u32::from(fields.protocol))
        }
    }
}

/// The word of an address: an IPv4 address itself, of an IPv6 address the exclusive or of its four
/// words.
#[tactic(auto, unfolding(crate::specs::Balance::address_word))]
pub(crate) fn word_of(family: u8, address: u128) -> u32
    requires { family ≡ ipv4_version → address < 2 ^ 32 }
    ensures { result ≡ address_word family address }
{
    if family == IPV4_VERSION {
        address as u32
    } else {
        word(address >> 96) ^ word(address >> 64) ^ word(address >> 32) ^ word(address)
    }
}

/// The lowest word.
fn word(number: u128) -> u32
    ensures { result ≡ number % 2 ^ 32 }
{
    (number % WORDS) as u32
}

#[tactic(auto, unfolding(crate::specs::Balance::flow_hash))]
fn hash(key: u32, x: u32, y: u32, protocol: u32) -> u32
    ensures { result ≡ flow_hash key x y protocol }
{
    let seed = key.wrapping_add(INITIAL_VALUE).wrapping_add(HASHED_BYTES);
    let a = x.min(y).wrapping_add(seed);
    let b = x.max(y).wrapping_add(seed);
    let c = protocol.wrapping_add(seed);
    finish(a, b, c)
}

/// The seven lines of `__jhash_final`.
#[tactic(auto, unfolding(crate::specs::Balance::final_mix))]
fn finish(a: u32, b: u32, c: u32) -> u32
    ensures { result ≡ final_mix a b c }
{
    let c = mix(c, b, 14);
    let a = mix(a, c, 11);
    let b = mix(b, a, 25);
    let c = mix(c, b, 16);
    let a = mix(a, c, 4);
    let b = mix(b, a, 14);
    mix(c, b, 24)
}

/// One line: the exclusive or of both words, less the second turned to the left.
#[tactic(auto, unfolding(crate::specs::Balance::mixed))]
pub(crate) fn mix(x: u32, y: u32, by: u32) -> u32
    requires low { 1 ≤ by }
    requires high { by < 32 }
    ensures { result ≡ mixed x y by }
{
    (x ^ y).wrapping_sub(y.rotate_left(by))
}

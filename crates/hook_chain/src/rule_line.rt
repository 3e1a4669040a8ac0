//! A rule by the words of its line: `-A FORWARD MATCHES -j NFQUEUE OPTIONS`.

ghost use Rattle.std.specs.Prelude.{◌≡◌, ◌&&◌, false, not, bytes_eq, option_map};
ghost use Rattle.text_lines.specs.Words.{words_of};
ghost use Rattle.hook_chain.specs.RuleLine.{is_balance, mark_match, options_after, options_said};
ghost use Rattle.hook_chain.specs.RuleLine.{pick_of, protocol_match};
ghost use Rattle.hook_chain.specs.RuleLine.{protocol_of, range_of, rule_of, value_and_mask};

use crate::rule::{MarkTest, Pick, Rule};
use text_lines::{cut, decimal_8, decimal_16, is_word, next_word, rest_after, wide};

/// Protocol number of `icmp` (IANA's Assigned Internet Protocol Numbers).
const ICMP: u8 = 1;
/// Protocol number of `tcp`.
const TCP: u8 = 6;
/// Protocol number of `udp`.
const UDP: u8 = 17;
/// Protocol number of `ipv6-icmp`.
const IPV6_ICMP: u8 = 58;
/// The mask of a mark test that names none.
const ALL_BITS: u32 = u32::MAX;
/// The most queues that a rule balances over: `queues_total` of xt_NFQUEUE.h has 16 bits.
const MAX_QUEUES: u32 = 65_535;

/// The rule that comes after `-A` in a line.
#[tactic(auto, unfolding(crate::specs::RuleLine::rule_of))]
pub(crate) fn rule(line: &[u8]) -> Option<Rule>
    ensures { result ≡ rule_of (words_of line.now) }
{
    let rest = rest_after(line, b"FORWARD")?;
    let (protocol, rest) = protocol_test(rest)?;
    let (mark, rest) = mark_test(rest)?;
    let rest = rest_after(rest, b"-j")?;
    let rest = rest_after(rest, b"NFQUEUE")?;
    let RuleOptions {
        pick,
        bypass,
        fanout,
    } = options(rest)?;
    Some(Rule {
        protocol,
        mark,
        pick,
        bypass,
        fanout,
    })
}

/// `-p PROTO`, if it is there.
#[tactic(auto, unfolding(crate::specs::RuleLine::protocol_match))]
fn protocol_test(line: &[u8]) -> Option<(Option<u8>, &[u8])>
    ensures { option_map (λ x. (x.0, words_of x.1.now)) result
        ≡ protocol_match (words_of line.now) }
{
    let Some(rest) = rest_after(line, b"-p") else {
        return Some((None, line));
    };
    let (word, rest) = next_word(rest)?;
    let protocol = protocol(word)?;
    Some((Some(protocol), rest))
}

#[tactic(auto, unfolding(crate::specs::RuleLine::protocol_of))]
fn protocol(word: &[u8]) -> Option<u8>
    ensures { result ≡ protocol_of word.now }
{
    if is_word(word, b"tcp") {
        Some(TCP)
    } else if is_word(word, b"udp") {
        Some(UDP)
    } else if is_word(word, b"icmp") {
        Some(ICMP)
    } else if is_word(word, b"ipv6-icmp") {
        Some(IPV6_ICMP)
    } else {
        decimal_8(word)
    }
}

/// `-m mark [!] --mark VALUE[/MASK]`, if it is there.
#[tactic(auto, unfolding(crate::specs::RuleLine::mark_match))]
fn mark_test(line: &[u8]) -> Option<(Option<MarkTest>, &[u8])>
    ensures { option_map (λ x. (x.0, words_of x.1.now)) result ≡ mark_match (words_of line.now) }
{
    let Some(rest) = rest_after(line, b"-m") else {
        return Some((None, line));
    };
    let test = rest_after(rest, b"mark")?;
    let (negated, test) = match rest_after(test, b"!") {
        Some(test) => (true, test),
        None => (false, test),
    };
    let (word, rest) = next_word(rest_after(test, b"--mark")?)?;
    let (value, mask) = value_and_mask(word)?;
    let test = MarkTest {
        value,
        mask,
        negated,
    };
    Some((Some(test), rest))
}

/// `VALUE/MASK`, or `VALUE` with all bits.
#[tactic(auto, unfolding(crate::specs::RuleLine::value_and_mask))]
fn value_and_mask(word: &[u8]) -> Option<(u32, u32)>
    ensures { result ≡ value_and_mask word.now }
{
    match cut(word, b'/') {
        Some((value, mask)) => Some((wide(value)?, wide(mask)?)),
        None => Some((wide(word)?, ALL_BITS)),
    }
}

/// What the options after `-j NFQUEUE` say together.
#[derive(Clone, Copy)]
struct RuleOptions {
    pick: Pick,
    bypass: bool,
    fanout: bool,
}

/// The options after `-j NFQUEUE`, to the end of the line.
#[tactic(auto, unfolding(crate::specs::RuleLine::options_after))]
fn options(line: &[u8]) -> Option<RuleOptions>
    ensures { result ≡ options_after None false false (words_of line.now) }
{
    let mut pick = None;
    let mut bypass = false;
    let mut fanout = false;
    let mut line = line;
    while let Some((option, rest)) = next_word(line) {
        if is_first(option, b"--queue-bypass", bypass) {
            bypass = true;
            line = rest;
        } else if is_first(option, b"--queue-cpu-fanout", fanout) {
            fanout = true;
            line = rest;
        } else if pick.is_none() {
            let (value, rest) = next_word(rest)?;
            pick = Some(pick_of(option, value)?);
            line = rest;
        } else {
            return None;
        }
    }
    said(pick, bypass, fanout)
}

/// The option has this name, and wasn't said before.
fn is_first(option: &[u8], name: &[u8], said: bool) -> bool
    ensures { result ≡ (bytes_eq option.now name.now && not said) }
{
    is_word(option, name) && !said
}

/// What these options say together; the fan-out stands beside a balance alone.
fn said(pick: Option<Pick>, bypass: bool, fanout: bool) -> Option<RuleOptions>
    ensures { result ≡ options_said pick bypass fanout }
{
    if fanout && !is_balance(pick) {
        return None;
    }
    Some(RuleOptions {
        pick: pick.unwrap_or(Pick::Number { queue: 0 }),
        bypass,
        fanout,
    })
}

fn is_balance(pick: Option<Pick>) -> bool
    ensures { result ≡ is_balance pick }
{
    match pick {
        Some(Pick::Balance { first: _, total: _ }) => true,
        Some(Pick::Number { queue: _ }) | None => false,
    }
}

/// `--queue-num N` or `--queue-balance A:B`.
#[tactic(auto, unfolding(crate::specs::RuleLine::pick_of))]
fn pick_of(option: &[u8], value: &[u8]) -> Option<Pick>
    ensures { result ≡ pick_of option.now value.now }
{
    if is_word(option, b"--queue-num") {
        let queue = decimal_16(value)?;
        Some(Pick::Number { queue })
    } else if is_word(option, b"--queue-balance") {
        range(value)
    } else {
        None
    }
}

/// `A:B`, the first and the last queue.
#[tactic(auto, unfolding(crate::specs::RuleLine::range_of))]
fn range(word: &[u8]) -> Option<Pick>
    ensures { result ≡ range_of word.now }
{
    let (first, last) = cut(word, b':')?;
    let first = decimal_16(first)?;
    let last = decimal_16(last)?;
    if last <= first {
        return None;
    }
    let total = u32::from(last - first) + 1;
    if total > MAX_QUEUES {
        return None;
    }
    Some(Pick::Balance { first, total })
}

//! Where a packet goes next.

ghost use Rattle.std.specs.Prelude.{◌≡◌, ◌≤◌, ◌+◌, ◌^◌, IfSome, All, find, max, option_copied};
ghost use Rattle.ip_fields.specs.Packet.{IsAddressed, fields_of};
ghost use Rattle.hook_chain.specs.Rules.{IsPick};
ghost use Rattle.hook_chain.specs.Route.{has_mark, has_protocol, matches, next, onward_of};
ghost use Rattle.hook_chain.specs.Route.{queue_of};
ghost use Rattle.hook_chain.specs.Balance.{fanned_out};
ghost use Rattle.hook_chain.specs.Views.{Shows, next_seen, onward_seen};

use crate::flow::balance;
use crate::rule::{MarkTest, Pick, Rule};
use crate::tables::Tables;
use ip_fields::{IpFields, fields};
use packet_entry::{Card, Packet};

/// Where a packet goes next.
#[derive(Clone, Copy, Debug, PartialEq, Eq)]
pub enum Next {
    /// On its way: no table is left that queues it, or a verdict stopped its way through them.
    Released,
    /// To this queue. `table` is the one whose rule chose the queue; where a verdict chose it, the
    /// one that queued the packet last. With `bypass` it goes on where nobody is bound there.
    To {
        queue: u16,
        bypass: bool,
        table: u16,
    },
}

/// What a verdict says of a packet.
#[derive(Clone, Copy, Debug, PartialEq, Eq)]
pub enum Decision {
    /// It is destroyed.
    Drop,
    /// It goes on with the next table.
    Accept,
    /// It goes through its table again.
    Repeat,
    /// It is released at once.
    Stop,
    /// It arrives at this queue, in the same table.
    Queue { number: u16, bypass: bool },
}

/// What tables and verdicts look at of a packet.
#[derive(Clone, Copy)]
struct View<'a> {
    number: u32,
    table: u16,
    mark: u32,
    bytes: &'a [u8],
}

/// What the rules look at.
#[derive(Clone, Copy)]
struct Look {
    number: u32,
    mark: u32,
    fields: Option<IpFields>,
}

/// Where a packet goes that enters the tables at number `from`.
///
/// The tables count from 1, and 0 takes all of them as well. In each table the first rule that
/// matches queues the packet; past the last table it is released. `key` is the flow hash's. No
/// memory is taken, and no rule is looked at twice.
pub fn route(tables: &Tables, key: u32, packet: &Packet, from: u16) -> Next
    ensures exact { result ≡ next tables.now key packet.now from }
{
    enter(tables, key, &View::of(packet), first_table(from))
}

/// The same of a packet of which only the card is there.
pub fn route_card(tables: &Tables, key: u32, card: &Card, from: u16) -> Next
    ensures exact { result ≡ next tables.now key card.now from }
{
    enter(tables, key, &View::of_card(card), first_table(from))
}

/// The tables count from 1, and 0 takes all of them as well.
fn first_table(from: u16) -> usize
    ensures { result ≡ max from 1 }
{
    from.max(1) as usize
}

/// Where a packet goes after this decision, from the table that queued it last.
///
/// Accept goes on with the next table and Repeat with the same one; Stop releases. Queue sends it
/// to that queue, in its table. `None` comes exactly for Drop.
#[tactic(auto, using(crate::proofs::Views::onward_is))]
pub fn onward(tables: &Tables, key: u32, packet: &Packet, decision: &Decision) -> Option<Next>
    ensures exact { result ≡ onward_of tables.now key packet.now decision.now }
{
    go_on(tables, key, &View::of(packet), decision)
}

/// The same of a packet of which only the card is there.
#[tactic(auto, using(crate::proofs::Views::onward_is))]
pub fn onward_card(tables: &Tables, key: u32, card: &Card, decision: &Decision) -> Option<Next>
    ensures exact { result ≡ onward_of tables.now key card.now decision.now }
{
    go_on(tables, key, &View::of_card(card), decision)
}

/// Where a packet goes after a decision.
fn go_on(tables: &Tables, key: u32, seen: &View, decision: &Decision) -> Option<Next>
    ensures { result ≡ onward_seen tables.now key seen.now decision.now }
{
    let table = seen.table;
    match *decision {
        Decision::Drop => None,
        Decision::Accept => Some(enter(tables, key, seen, table as usize + 1)),
        Decision::Repeat => Some(enter(tables, key, seen, first_table(table))),
        Decision::Stop => Some(Next::Released),
        Decision::Queue { number, bypass } => Some(Next::To {
            queue: number,
            bypass,
            table,
        }),
    }
}

/// Goes through the tables from number `from` on.
#[tactic(auto, unfolding(crate::specs::Views::next_seen, crate::specs::Route::next_of))]
fn enter(tables: &Tables, key: u32, seen: &View, from: usize) -> Next
    requires { 1 ≤ from }
    ensures { result ≡ next_seen tables.now key seen.now from }
{
    let look = Look::at(seen);
    let feeders = tables.feeders();
    let tables = tables.as_slice();
    for at in from - 1..tables.len() {
        if let Some(rule) = look.first_match(tables[at].rules()) {
            return Next::To {
                queue: look.queue(feeders, key, &rule.pick, rule.fanout),
                bypass: rule.bypass,
                table: at as u16 + 1,
            };
        }
    }
    Next::Released
}

impl<'a> View<'a> {
    fn of(packet: &'a Packet) -> View<'a>
        ensures { Shows result packet.now }
    {
        View {
            number: packet.number(),
            table: packet.table(),
            mark: packet.mark(),
            bytes: packet.bytes(),
        }
    }

    fn of_card(card: &'a Card) -> View<'a>
        ensures { Shows result card.now }
    {
        View {
            number: card.number,
            table: card.table,
            mark: card.mark,
            bytes: card.bytes.as_slice(),
        }
    }
}

impl Look {
    fn at(seen: &View) -> Look
        ensures number { result.number ≡ seen.now.number }
        ensures mark { result.mark ≡ seen.now.mark }
        ensures fields { result.fields ≡ fields_of seen.now.bytes.now }
        ensures addressed { IfSome result.fields IsAddressed }
    {
        Look {
            number: seen.number,
            mark: seen.mark,
            fields: fields(seen.bytes),
        }
    }

    /// The first rule that matches.
    fn first_match<'a>(&self, rules: &'a [Rule]) -> Option<&'a Rule>
        requires { All (λ r. IsPick r.pick) rules.now }
        ensures first { option_copied result
            ≡ find (matches self.now.mark self.now.fields) rules.now }
        ensures pick { IfSome result (λ r. IsPick r.now.pick) }
    {
        rules.iter().find(|rule| self.matches(rule))
    }

    fn matches(&self, rule: &Rule) -> bool
        ensures { result ≡ matches self.now.mark self.now.fields rule.now }
    {
        rule.protocol
            .map_or(true, |protocol| self.has_protocol(protocol))
            && rule.mark.map_or(true, |test| self.has_mark(&test))
    }

    fn has_protocol(&self, protocol: u8) -> bool
        ensures { result ≡ has_protocol self.now.fields protocol }
    {
        self.fields
            .map_or(false, |fields| fields.protocol == protocol)
    }

    fn has_mark(&self, test: &MarkTest) -> bool
        ensures { result ≡ has_mark self.now.mark test.now }
    {
        (self.mark & test.mask == test.value) != test.negated
    }

    fn queue(&self, feeders: u32, key: u32, pick: &Pick, fanout: bool) -> u16
        requires pick { IsPick pick.now }
        requires addressed { IfSome self.now.fields IsAddressed }
        requires feeders { 1 ≤ feeders }
        ensures { result ≡ queue_of feeders key self.now.number self.now.fields pick.now fanout }
    {
        match *pick {
            Pick::Number { queue } => queue,
            Pick::Balance { first, total } if fanout => self.fanned_out(feeders, first, total),
            Pick::Balance { first, total } => balance(key, self.fields.as_ref(), first, total),
        }
    }

    /// Of these queues the one of the packet's feeder. Packets are fed by the feeders in turn.
    fn fanned_out(&self, feeders: u32, first: u16, total: u32) -> u16
        requires total { (1 ≤ total) × (first + total ≤ 2 ^ 16) }
        requires feeders { 1 ≤ feeders }
        ensures { result ≡ fanned_out feeders self.now.number first total }
    {
        let offset = self.number.saturating_sub(1) % feeders % total;
        first + offset as u16
    }
}

//! The ports by number.

ghost use Rattle.std.specs.Prelude.{◌≡◌, ◌<◌, ◌≤◌, ◌↔◌, IfOk, OnOk, OnErr, IsSome, IsSomeAnd};
ghost use Rattle.std.specs.Prelude.{length, Some, option_copied, option_map, slice_get};
ghost use Rattle.std.specs.Prelude.{IsTrue, false};
ghost use Rattle.histories.specs.declared.log.Did.TheVariants.{Sent};
ghost use Rattle.packet_moves.specs.World.{changed_at, delivered, first_of, received, having_done};
ghost use Rattle.packet_moves.specs.World.{closed};
ghost use Rattle.packet_moves.specs.Moving.{takes_one};
ghost use Rattle.solo_plane.specs.PortPlaces.{place_in};
ghost use Rattle.solo_plane.specs.PortView.{state_in, port_of, ports_of, logs_of, OnPort};
ghost use Rattle.packet_moves.specs.Messages.{call_at};
ghost use Rattle.solo_plane.specs.Notices.{has_notice, AreQuiet};

use crate::held::Ports;
use crate::port::PortState;
use histories::AskWords;
use packet_entry::{Letter, NoMemory};

/// How a port stands.
fn state_of(ports: &Ports, port: u32) -> Option<&PortState>
    ensures { option_copied result ≡ state_in ports.now port }
{
    match ports.numbers.place_of(port) {
        Some(place) => ports.states.get(place),
        None => None,
    }
}

/// At which place a port that is there stands.
fn place_of(ports: &Ports, port: u32) -> usize
    requires { IsSome (state_in ports.now port) }
    ensures at { place_in ports.now.numbers.all.items port ≡ Some result }
    ensures within { result < length ports.now.states.items }
{
    let Some(place) = ports.numbers.place_of(port) else {
        unreachable!()
    };
    place
}

/// Whether a port's mailbox takes one notice more, of so many that it holds.
pub(crate) fn takes_one(ports: &Ports, port: u32, mail: u32) -> bool
    ensures { result ≡ takes_one mail (ports_of ports.now port) }
{
    match state_of(ports, port) {
        Some(state) => state.mailbox.len() < mail as usize,
        None => false,
    }
}

/// Whether a port's mailbox has a notice.
pub(crate) fn has_notice(ports: &Ports, port: u32) -> bool
    ensures { result ≡ has_notice (ports_of ports.now port) }
{
    match state_of(ports, port) {
        Some(state) => 0 < state.mailbox.len(),
        None => false,
    }
}

/// The same, where the port is looked for at this place first.
pub(crate) fn has_notice_near(ports: &Ports, port: u32, place: usize) -> bool
    ensures { result ≡ has_notice (ports_of ports.now port) }
{
    if !ports.numbers.is_at(port, place) {
        return has_notice(ports, port);
    }
    has_notice_at(ports, place)
}

/// Whether the port at a place has a notice.
fn has_notice_at(ports: &Ports, place: usize) -> bool
    ensures { result ≡ has_notice (option_map port_of (slice_get ports.now.states.items place)) }
{
    match ports.states.get(place) {
        Some(state) => 0 < state.mailbox.len(),
        None => false,
    }
}

/// Whether no port has a notice.
pub(crate) fn are_quiet(ports: &Ports) -> bool
    ensures { IsTrue result ↔ AreQuiet (ports_of ports.now) }
{
    for place in 0..ports.numbers.all.len() {
        if has_notice_at(ports, place) {
            return false;
        }
    }
    true
}

/// Makes room for one notice more in a port's mailbox, where there is such a port.
pub(crate) fn make_room(ports: &mut Ports, port: u32) -> Result<(), NoMemory>
    ensures same { ports_of ports.new ≡ ports_of ports.old }
    ensures logs { logs_of ports.new ≡ logs_of ports.old }
    ensures ok { OnOk result (IsSome (state_in ports.old port) →
        OnPort ports.new port (λ p. 0 < p.mailbox.room)) }
{
    match ports.numbers.place_of(port) {
        Some(place) => match ports.states.get_mut(place) {
            Some(state) => state.make_mail_room(),
            None => Ok(()),
        },
        None => Ok(()),
    }
}

/// Puts a notice into a port's mailbox, for which there is room. Takes no memory.
pub(crate) fn deliver(ports: &mut Ports, port: u32, letter: Letter)
    requires { OnPort ports.old port (λ p. 0 < p.mailbox.room) }
    ensures ports { ports_of ports.new ≡ changed_at port (delivered letter) (ports_of ports.old) }
    ensures logs { logs_of ports.new ≡ logs_of ports.old }
{
    let place = place_of(ports, port);
    let state = &mut ports.states[place];
    state.deliver(letter);
}

/// The number of a port's next message.
pub(crate) fn next_call(ports: &Ports, port: u32) -> u32
    requires { IsSome (state_in ports.now port) }
    ensures { result ≡ call_at (ports_of ports.now port) }
{
    let Some(state) = state_of(ports, port) else {
        unreachable!()
    };
    state.next_call()
}

/// Makes room for one more of what a port did, and for its closing.
pub(crate) fn make_log_room(ports: &mut Ports, port: u32) -> Result<(), NoMemory>
    requires { IsSome (state_in ports.old port) }
    ensures same { ports_of ports.new ≡ ports_of ports.old }
    ensures ok { OnOk result (OnPort ports.new port (λ p. 2 ≤ p.dids.room)) }
{
    let place = place_of(ports, port);
    let state = &mut ports.states[place];
    state.make_room()
}

/// A port receives its first notice, which is noted; `None` exactly where there is none, and then
/// no memory is taken.
pub(crate) fn receive(ports: &mut Ports, port: u32) -> Result<Option<Letter>, NoMemory>
    requires { IsSome (state_in ports.old port) }
    ensures ports { OnOk result
        (ports_of ports.new ≡ changed_at port received (ports_of ports.old)) }
    ensures letter { IfOk result (λ letter.
        IsSomeAnd (ports_of ports.old port) (λ p. letter ≡ first_of p.letters)) }
    ensures err { OnErr result (ports_of ports.new ≡ ports_of ports.old) }
{
    let place = place_of(ports, port);
    let state = &mut ports.states[place];
    state.receive()
}

/// Notes a port's message. Takes no memory.
pub(crate) fn send(ports: &mut Ports, port: u32, ask: AskWords, answer: Option<u16>)
    requires { OnPort ports.old port (λ p. 2 ≤ p.dids.room) }
    ensures { ports_of ports.new ≡ changed_at port
        (having_done (Sent (call_at (ports_of ports.old port)) ask answer))
        (ports_of ports.old) }
{
    let place = place_of(ports, port);
    let state = &mut ports.states[place];
    state.send(ask, answer);
}

/// Closes a port. Takes no memory.
pub(crate) fn close(ports: &mut Ports, port: u32)
    requires { OnPort ports.old port (λ p. p.is_closed ≡ false) }
    ensures { ports_of ports.new ≡ changed_at port closed (ports_of ports.old) }
{
    let place = place_of(ports, port);
    let state = &mut ports.states[place];
    state.close();
}

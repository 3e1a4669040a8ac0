//! What a port has to do next: asks, of which the first may have been taken up.

ghost use Rattle.std.specs.Prelude.{◌≡◌, ◌<◌, ◌↔◌, ◌∷◌, [], All, IfOk, OnOk, IsTrue, length};
ghost use Rattle.netlink_codec.specs.Messages.{message_of};
ghost use Rattle.nfqa_msgs.specs.RequestReading.{AskedFits, PayloadFits};
ghost use Rattle.nfqa_msgs.specs.RequestWriting.{FitsRequest, spelling};
ghost use Rattle.packet_moves.specs.Messages.{words_of};
ghost use Rattle.script_lines.specs.Limits.{IsAsk, IsWords};
ghost use Rattle.script_lines.specs.declared.ask.Ask.TheVariants.{Close};
ghost use Rattle.run_parts.specs.Datagrams.{bytes_of};
ghost use Rattle.run_parts.specs.Log.{all_due, Still};
ghost use Rattle.log_audit.specs.Walking.{settled};
ghost use Rattle.log_audit.specs.Dues as dues;

use crate::laws::datagrams_are_cut_message_by_message;
use crate::logged::is_logged_as;
use histories::AskWords;
use inspector_script::{Ask, Asks};
use netlink_codec::next_message;
use nfqa_msgs::{Decoded, decode_request};
use packet_entry::{Bytes, NoMemory};
use port_scripts::{behind, put_text};
use std::alloc::Global;

/// What a port has to do next.
#[derive(Drop)]
pub(crate) struct Duties {
    /// The bytes of the ask that was taken up last.
    pub(crate) bytes: Bytes,
    /// How many of them are of messages that were sent.
    pub(crate) used: usize,
    /// The asks behind it.
    pub(crate) asks: Asks,
}

impl Duties {
    /// These asks, of which none is taken up.
    pub(crate) fn new(alloc: Global, asks: Asks) -> Duties
        requires { All IsAsk asks }
        ensures held { dues.AreHeld result }
        ensures dues { dues.dues_of result ≡ all_due asks }
    {
        Duties {
            bytes: Bytes::new(alloc),
            used: 0,
            asks,
        }
    }

    /// Passes over the asks without a message that are due first, and takes up the next one: its
    /// first message has this number.
    pub(crate) fn settle(&mut self, alloc: Global, port: u32, call: u32) -> Result<(), NoMemory>
        requires held { dues.AreHeld self.old }
        ensures held { OnOk result (dues.AreHeld self.new) }
        ensures settled { OnOk result
            (dues.dues_of self.new ≡ settled port call (dues.dues_of self.old)) }
    {
        loop {
            if !self.take_up(alloc, port, call)? {
                return Ok(());
            }
        }
    }

    /// Takes up the first ask, or passes over it, unless a message is due first. Answers whether
    /// there was such an ask.
    fn take_up(&mut self, alloc: Global, port: u32, call: u32) -> Result<bool, NoMemory>
        requires held { dues.AreHeld self.old }
        ensures held { OnOk result (dues.AreHeld self.new) }
        ensures taken { IfOk result (dues.TakesUp port call self.old self.new) }
    {
        if self.has_message() || !begin_with_words(&self.asks) {
            return Ok(false);
        }
        let Some(Ask::Words { words }) = self.asks.take_first() else {
            unreachable!()
        };
        self.bytes = text_of(alloc, port, call, words)?;
        self.used = 0;
        Ok(true)
    }

    /// Whether a message is due first.
    fn has_message(&self) -> bool
        requires held { dues.AreHeld self.now }
        ensures { dues.HasMessage self.now result }
    {
        datagrams_are_cut_message_by_message();
        next_message(behind(self.bytes.as_slice(), self.used)).is_some()
    }

    /// Whether nothing is due.
    pub(crate) fn is_empty(&self) -> bool
        requires held { dues.AreHeld self.now }
        ensures { IsTrue result ↔ (dues.dues_of self.now ≡ []) }
    {
        if self.has_message() {
            return false;
        }
        self.asks.is_empty()
    }

    /// Whether only the closing of the port is due.
    pub(crate) fn is_closing(&self) -> bool
        requires held { dues.AreHeld self.now }
        ensures { IsTrue result ↔ (dues.dues_of self.now ≡ Still Close ∷ []) }
    {
        if self.has_message() {
            return false;
        }
        are_closing(&self.asks)
    }

    /// Does what is due first, if that is the message that was logged so, and answers what it is
    /// decoded to. Else nothing has changed.
    pub(crate) fn speak(
        &mut self,
        alloc: Global,
        port: u32,
        call: u32,
        ask: &AskWords,
    ) -> Result<Option<Decoded>, NoMemory>
        requires held { dues.AreHeld self.old }
        ensures held { OnOk result (dues.AreHeld self.new) }
        ensures said { IfOk result (dues.Speaks port call ask.now (dues.dues_of self.old)
            (dues.dues_of self.new)) }
    {
        datagrams_are_cut_message_by_message();
        let Some((message, used)) = next_message(behind(self.bytes.as_slice(), self.used)) else {
            return Ok(None);
        };
        let decoded = decode_request(alloc, &message)?;
        if !is_logged_as(port, call, &message, &decoded, ask) {
            return Ok(None);
        }
        self.used += used;
        Ok(Some(decoded))
    }
}

/// Whether the first of some asks sends something.
fn begin_with_words(asks: &Asks) -> bool
    ensures { dues.BeginWithWords asks.now result }
{
    match asks.get(0) {
        Some(Ask::Words { .. }) => true,
        Some(Ask::Close) => false,
        None => false,
    }
}

/// Whether some asks are that the port closes, and nothing else.
fn are_closing(asks: &Asks) -> bool
    ensures { IsTrue result ↔ (asks.now ≡ Close ∷ []) }
{
    if asks.len() != 1 {
        return false;
    }
    match asks.get(0) {
        Some(Ask::Words { .. }) => false,
        Some(Ask::Close) => true,
        None => false,
    }
}

/// The bytes of an ask, sent as the port's message with this number.
fn text_of(alloc: Global, port: u32, call: u32, words: AskWords) -> Result<Bytes, NoMemory>
    requires { IsWords words }
    ensures { IfOk result (λ bytes. bytes ≡ bytes_of port call words) }
{
    match words {
        AskWords::Plain { request } => {
            let mut text = Vec::new(alloc);
            put_text(&mut text, port, call, &request)?;
            Ok(Bytes::from_vec(text)?)
        }
        AskWords::Raw { bytes } => Ok(bytes),
    }
}

//! Scripts.

ghost use Rattle.std.specs.Prelude.{◌≡◌, ◌<◌, length, Some, slice_get};
ghost use Rattle.inspector_script.specs.Scripts.{IsScript, IsBlock};

use crate::block::Block;
use packet_entry::Sequence;
use script_lines::Down;
use std::marker::Model;

/// The lines `down DEVICE after N`, in their order.
pub type Downs = Sequence<Down>;

/// A script: how the run is set up, and what the inspector of each port does.
#[derive(Debug, Drop)]
pub struct Script {
    mail: u32,
    pace: u32,
    key: u32,
    downs: Downs,
    /// Each port has the block at its place.
    ports: Vec<u32>,
    blocks: Vec<Block>,
}

impl Model for Script {
    ghost use Rattle.inspector_script.specs.Scripts.{IsScript, ScriptValue, held};

    ghost Value = { ScriptValue };

    ghost view = { λ s. held s.mail s.pace s.key s.downs s.ports.items s.blocks.items };

    ghost invariant = { λ s.
        IsScript (held s.mail s.pace s.key s.downs s.ports.items s.blocks.items) };
}

impl Script {
    ghost use Rattle.inspector_script.specs.Scripts.{held};

    /// The script of these parts, each port with the block at its place.
    pub(crate) fn new(
        mail: u32,
        pace: u32,
        key: u32,
        downs: Downs,
        ports: Vec<u32>,
        blocks: Vec<Block>,
    ) -> Script
        requires { IsScript (held mail pace key downs ports.items blocks.items) }
        ensures { result ≡ held mail pace key downs ports.items blocks.items }
    {
        Script {
            mail,
            pace,
            key,
            downs,
            ports,
            blocks,
        }
    }

    /// How many notices each port's mailbox holds, 1 to 65,536.
    pub fn mail(&self) -> u32
        ensures value { result ≡ self.now.mail }
        ensures facts { IsScript self.now }
    {
        self.mail
    }

    /// After how many frames each time the mailboxes are emptied, and after the last; 0 is after
    /// the last alone.
    pub fn pace(&self) -> u32
        ensures { result ≡ self.now.pace }
    {
        self.pace
    }

    /// The key of the flow hash.
    pub fn key(&self) -> u32
        ensures { result ≡ self.now.key }
    {
        self.key
    }

    /// When devices go down, in the order of the lines.
    pub fn downs(&self) -> &Downs
        ensures { result.now ≡ self.now.downs }
    {
        &self.downs
    }

    /// The ports, in the script's order.
    pub fn ports(&self) -> &[u32]
        ensures value { result.now ≡ self.now.ports }
        ensures facts { IsScript self.now }
    {
        self.ports.as_slice()
    }

    /// What the script says of the port at this place.
    pub(crate) fn block(&self, place: u32) -> &Block
        requires { place < length self.now.ports }
        ensures block { slice_get self.now.blocks place ≡ Some result.now }
        ensures facts { IsBlock result.now }
    {
        &self.blocks[place as usize]
    }
}

//! One name of the machine in memory: its file, its room and its faults.

ghost use Rattle.std.specs.Prelude.{◌≡◌, ◌-◌, ◌≤◌, length, take, unwrap_or, option_copied};
ghost use Rattle.std.specs.Prelude.{IfOk, OnOk, OnErr, None};
ghost use Rattle.host_io.specs.Host.{MayGoOn};
ghost use Rattle.host_io.specs.Machine.{bare_entry, holding, is_named, with_fault};
ghost use Rattle.host_io.specs.Machine.{stored};

use std::alloc::{AllocError, Global};
use std::marker::Model;

/// How many reads failed, and how many writes failed or took nothing of a piece that isn't empty. A
/// count stands still at its type's last value.
#[derive(Clone, Copy)]
pub(crate) struct Faults {
    pub(crate) read: u64,
    pub(crate) write: u64,
}

/// The calls whose failures a name counts apart.
#[derive(Clone, Copy)]
pub(crate) enum Call {
    Read,
    Write,
}

/// What a name is to hold.
#[derive(Clone, Copy)]
pub(crate) enum Held<'a> {
    /// A file of these bytes, in place of the one that is there.
    File(&'a [u8]),
    /// Room for a file of so many bytes. The one that is there stays.
    Room(u64),
}

/// What a name has. The vector keeps memory for the room, so that no write takes any.
#[derive(Drop)]
pub(crate) struct Entry {
    name: String,
    is_present: bool,
    bytes: Vec<u8>,
    room: Option<u64>,
    faults: Faults,
}

impl Model for Entry {
    ghost use Rattle.std.specs.Prelude.{◌≡◌, ◌≤◌, [], if◌then◌else◌, unwrap_or, IsFalse, Some};
    ghost use Rattle.std.specs.Prelude.{None};
    ghost use Rattle.std.specs.String.{string_bytes};
    ghost use Rattle.std.specs.Vec.{vec_capacity};
    ghost use Rattle.host_io.specs.Machine as machine;

    ghost Value = { machine.Entry };

    ghost view = { λ e. record {
      name = string_bytes e.name;
      content = if e.is_present then Some e.bytes.items else None;
      room = e.room;
      read_faults = e.faults.read;
      write_faults = e.faults.write;
    } };

    ghost invariant = { λ e. (unwrap_or e.room 0 ≤ vec_capacity e.bytes) ×
        (IsFalse e.is_present → e.bytes.items ≡ []) };
}

impl Entry {
    /// A name with neither file nor room.
    pub(crate) fn new(alloc: Global, name: &str, faults: Faults) -> Result<Entry, AllocError>
        ensures { IfOk result (λ entry. entry ≡ bare_entry name.now faults.read faults.write) }
    {
        Ok(Entry {
            name: String::from_str(alloc, name)?,
            is_present: false,
            bytes: Vec::new(alloc),
            room: None,
            faults,
        })
    }

    pub(crate) fn is_named(&self, name: &str) -> bool
        ensures { result ≡ is_named name.now self.now }
    {
        self.name.as_str() == name
    }

    pub(crate) fn content(&self) -> Option<&[u8]>
        ensures { option_copied result ≡ self.now.content }
    {
        if self.is_present {
            Some(&self.bytes)
        } else {
            None
        }
    }

    pub(crate) fn room(&self) -> Option<u64>
        ensures { result ≡ self.now.room }
    {
        self.room
    }

    /// Makes the name hold this too.
    pub(crate) fn hold(&mut self, held: Held<'_>) -> Result<(), AllocError>
        ensures ok { OnOk result (self.new ≡ holding held.entry self.old) }
        ensures err { OnErr result (self.new ≡ self.old) }
    {
        match held {
            Held::File(bytes) => self.put(bytes),
            Held::Room(bytes) => self.give_room(bytes),
        }
    }

    fn put(&mut self, bytes: &[u8]) -> Result<(), AllocError>
        ensures ok { OnOk result (self.new ≡ record self.old { content = Some bytes.now }) }
        ensures err { OnErr result (self.new ≡ self.old) }
    {
        let more = bytes.len().saturating_sub(self.bytes.len());
        self.bytes.reserve(more)?;
        self.bytes.clear();
        self.bytes.extend_from_slice(bytes).unwrap();
        self.is_present = true;
        Ok(())
    }

    fn give_room(&mut self, bytes: u64) -> Result<(), AllocError>
        ensures ok { OnOk result (self.new ≡ record self.old { room = Some bytes }) }
        ensures err { OnErr result (self.new ≡ self.old) }
    {
        let more = (bytes as usize).saturating_sub(self.bytes.len());
        self.bytes.reserve(more)?;
        self.room = Some(bytes);
        Ok(())
    }

    /// Counts one more failed call.
    pub(crate) fn count_fault(&mut self, call: Call)
        ensures { self.new ≡ with_fault call self.old }
    {
        match call {
            Call::Read => self.faults.read = self.faults.read.saturating_add(1),
            Call::Write => self.faults.write = self.faults.write.saturating_add(1),
        }
    }

    /// Stores the first `count` bytes of the piece at place `at`, which is 0 or the file's length.
    pub(crate) fn store(&mut self, at: u64, piece: &[u8], count: usize)
        requires at { MayGoOn self.old.content at }
        requires count { count ≤ length piece.now }
        requires room { count ≤ unwrap_or self.old.room 0 - at }
        ensures { self.new ≡ stored at piece.now (take count piece.now) self.old }
    {
        self.bytes.truncate(at as usize);
        self.bytes.extend_from_slice(&piece[..count]).unwrap();
        self.is_present = true;
        if count == 0 && !piece.is_empty() {
            self.count_fault(Call::Write);
        }
    }
}

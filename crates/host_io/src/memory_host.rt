//! A machine in memory that fails where it is told to.

ghost use Rattle.std.specs.Prelude.{◌≡◌, ◌+◌, ◌-◌, ◌<◌, ◌≤◌, ◌++◌, ◌↔◌, [], ◌∷◌, true, length};
ghost use Rattle.std.specs.Prelude.{take, drop, option_copied, IsTrue, IsSome, IsErr, IfOk, OnOk};
ghost use Rattle.std.specs.Prelude.{OnErr, if◌then◌else◌, ◌==◌};
ghost use Rattle.std.specs.List.{list_any};
ghost use Rattle.host_io.specs.Host.{Rises, IsLater, SameFiles, ChangesOnly, IsRead, bytes_of};
ghost use Rattle.host_io.specs.Host.{MayGoOn, written};
ghost use Rattle.host_io.specs.Machine.{new_machine, put, give_room, content_of, read_faults_of};
ghost use Rattle.host_io.specs.Machine.{write_faults_of, read_fails, after_read, write_fails};
ghost use Rattle.host_io.specs.Machine.{taken, after_write};

use crate::entries::{content_in, count_fault, hold_in, room_in, store_in};
use crate::entry::{Call, Entry, Faults, Held};
use crate::{Failed, Host};
use packet_entry::NoMemory;
use std::alloc::Global;
use std::marker::Model;

/// A host in memory that tells its contents. It goes wrong where it is told to, and where a file or
/// the room for one is missing, and nowhere else.
///
/// Its calls of `read` and `write` count from 1, and take no memory. A read fails where `fail_call`
/// names it or the file isn't there. A write fails where `fail_call` names it or its name was never
/// given room. A write that doesn't fail takes nothing where `short_call` names it, and otherwise
/// what fits into the room from its place on. All names with neither file nor room share one count
/// of failed reads and one of failed writes.
#[derive(Drop)]
pub struct MemoryHost {
    entries: Vec<Entry>,
    others: Faults,
    calls: u64,
    reads: u64,
    writes: u64,
    failing: Vec<u64>,
    short: Vec<u64>,
}

impl Model for MemoryHost {
    ghost use Rattle.host_io.specs.Machine.{Machine};

    ghost Value = { Machine };

    ghost view = { λ h. record {
      entries = h.entries.items;
      other_read_faults = h.others.read;
      other_write_faults = h.others.write;
      calls = h.calls;
      reads = h.reads;
      writes = h.writes;
      failing = h.failing.items;
      short = h.short.items;
    } };
}

impl MemoryHost {
    /// A machine with no file and no room. Takes no memory.
    pub fn new(alloc: Global) -> MemoryHost
        ensures { result ≡ new_machine }
    {
        MemoryHost {
            entries: Vec::new(alloc),
            others: Faults { read: 0, write: 0 },
            calls: 0,
            reads: 0,
            writes: 0,
            failing: Vec::new(alloc),
            short: Vec::new(alloc),
        }
    }

    /// Makes a file of these bytes, in place of what the name held. It gives no room.
    pub fn put(&mut self, alloc: Global, name: &str, bytes: &[u8]) -> Result<(), NoMemory>
        ensures ok { OnOk result (self.new ≡ put self.old name.now bytes.now) }
        ensures err { OnErr result (self.new ≡ self.old) }
    {
        let held = Held::File(bytes);
        Ok(hold_in(alloc, &mut self.entries, name, self.others, held)?)
    }

    /// The bytes of a file; `None` where there is no such file.
    pub fn get(&self, name: &str) -> Option<&[u8]>
        ensures { option_copied result ≡ content_of self.now name.now }
    {
        content_in(&self.entries, name)
    }

    /// The n-th call of `read` or `write` fails, counted from 1 and from the machine's beginning.
    pub fn fail_call(&mut self, n: u64) -> Result<(), NoMemory>
        ensures ok { OnOk result
            (self.new ≡ record self.old { failing = self.old.failing ++ n ∷ [] }) }
        ensures err { OnErr result (self.new ≡ self.old) }
    {
        Ok(self.failing.push(n)?)
    }

    /// The n-th call of `read` or `write`, if it is a write that doesn't fail, takes nothing.
    pub fn short_call(&mut self, n: u64) -> Result<(), NoMemory>
        ensures ok { OnOk result
            (self.new ≡ record self.old { short = self.old.short ++ n ∷ [] }) }
        ensures err { OnErr result (self.new ≡ self.old) }
    {
        Ok(self.short.push(n)?)
    }

    /// Makes room for a file of this name of so many bytes. What the name holds stays.
    pub fn room(&mut self, alloc: Global, name: &str, bytes: u64) -> Result<(), NoMemory>
        ensures ok { OnOk result (self.new ≡ give_room self.old name.now bytes) }
        ensures err { OnErr result (self.new ≡ self.old) }
    {
        let held = Held::Room(bytes);
        Ok(hold_in(alloc, &mut self.entries, name, self.others, held)?)
    }

    /// A read, as the definitions of the machine have it.
    fn read_step(&mut self, name: &str, at: u64, out: &mut [u8]) -> Result<usize, Failed>
        ensures fails { IsErr result ↔ IsTrue (read_fails self.old name.now) }
        ensures copied { IfOk result (λ n.
            let bytes = take (length out.old) (drop at (bytes_of (content_of self.old name.now))) in
            (n ≡ length bytes) × (out.new ≡ bytes ++ drop n out.old)) }
        ensures machine { self.new ≡ after_read self.old name.now }
    {
        let call = self.calls.saturating_add(1);
        self.calls = call;
        self.reads = self.reads.saturating_add(1);
        match content_in(&self.entries, name) {
            Some(bytes) if !self.failing.contains(&call) => Ok(copy_part(bytes, at, out)),
            _ => {
                count_fault(&mut self.entries, name, &mut self.others.read, Call::Read);
                Err(Failed)
            }
        }
    }

    /// A write, as the definitions of the machine have it.
    fn write_step(&mut self, name: &str, at: u64, piece: &[u8]) -> Result<usize, Failed>
        requires { MayGoOn (content_of self.old name.now) at }
        ensures fails { IsErr result ↔ IsTrue (write_fails self.old name.now) }
        ensures taken { IfOk result (λ n. n ≡ length (taken self.old name.now at piece.now)) }
        ensures machine { self.new ≡ after_write self.old name.now at piece.now }
    {
        let call = self.calls.saturating_add(1);
        self.calls = call;
        self.writes = self.writes.saturating_add(1);
        match room_in(&self.entries, name) {
            Some(room) if !self.failing.contains(&call) => {
                let count = taken_count(&self.short, call, room, at, piece);
                store_in(&mut self.entries, name, at, piece, count);
                Ok(count)
            }
            _ => {
                count_fault(&mut self.entries, name, &mut self.others.write, Call::Write);
                Err(Failed)
            }
        }
    }
}

impl Host for MemoryHost {
    ghost tells = { λ _. true };

    ghost content = { content_of };

    ghost read_faults = { read_faults_of };

    ghost write_faults = { write_faults_of };

    ghost reads = { λ m. m.reads };

    ghost writes = { λ m. m.writes };

    fn read(&mut self, name: &str, at: u64, out: &mut [u8]) -> Result<usize, Failed>
        ensures fails { IsErr result ↔ IsTrue (read_fails self.old name.now) }
        ensures copied { IfOk result (λ n.
            let bytes = take (length out.old) (drop at (bytes_of (content_of self.old name.now))) in
            (n ≡ length bytes) × (out.new ≡ bytes ++ drop n out.old)) }
        ensures machine { self.new ≡ after_read self.old name.now }

        ensures within { IfOk result (λ n. n ≤ length out.old) }
        ensures present { OnOk result (IsSome (content_of self.old name.now)) }
        ensures bytes { IfOk result (λ n.
            IsRead (bytes_of (content_of self.old name.now)) at n out.old out.new) }
        ensures failed { OnErr result
            (Rises (read_faults_of self.old name.now) (read_faults_of self.new name.now)) }
        ensures files { SameFiles (content_of self.old) (content_of self.new) }
        ensures later { IsLater (λ _. true) read_faults_of write_faults_of self.old self.new }
        ensures reads { (self.old.reads ≤ self.new.reads) × (self.new.reads ≤ self.old.reads + 1) }
        ensures writes { self.new.writes ≡ self.old.writes }
    {
        self.read_step(name, at, out)
    }

    fn write(&mut self, name: &str, at: u64, piece: &[u8]) -> Result<usize, Failed>
        requires { MayGoOn (content_of self.old name.now) at }

        ensures fails { IsErr result ↔ IsTrue (write_fails self.old name.now) }
        ensures taken { IfOk result (λ n. n ≡ length (taken self.old name.now at piece.now)) }
        ensures machine { self.new ≡ after_write self.old name.now at piece.now }

        ensures within { IfOk result (λ n. n ≤ length piece.now) }
        ensures bytes { IfOk result (λ n. content_of self.new name.now ≡
            Some (written (content_of self.old name.now) at (take n piece.now))) }
        ensures failed { OnErr result
            (Rises (write_faults_of self.old name.now) (write_faults_of self.new name.now)) }
        ensures nothing { IfOk result (λ n. n ≡ 0 → 0 < length piece.now →
            Rises (write_faults_of self.old name.now) (write_faults_of self.new name.now)) }
        ensures files { ChangesOnly name.now (content_of self.old) (content_of self.new) }
        ensures later { IsLater (λ _. true) read_faults_of write_faults_of self.old self.new }
        ensures reads { self.new.reads ≡ self.old.reads }
        ensures writes { (self.old.writes ≤ self.new.writes) ×
            (self.new.writes ≤ self.old.writes + 1) }
    {
        self.write_step(name, at, piece)
    }
}

/// Copies the bytes from place `at` on to the start of the buffer, as many as it has room for.
fn copy_part(bytes: &[u8], at: u64, out: &mut [u8]) -> usize
    ensures count { result ≡ length (take (length out.old) (drop at bytes.now)) }
    ensures copied { out.new ≡ take (length out.old) (drop at bytes.now) ++ drop result out.old }
{
    let start = at.min(bytes.len() as u64) as usize;
    let count = out.len().min(bytes.len() - start);
    out[..count].copy_from_slice(&bytes[start..start + count]);
    count
}

/// How many bytes of the piece a write takes that doesn't fail.
fn taken_count(short: &[u64], call: u64, room: u64, at: u64, piece: &[u8]) -> usize
    ensures within { result ≤ length piece.now }
    ensures room { result ≤ room - at }
    ensures taken { take result piece.now ≡
        (if list_any (λ n. n == call) short.now then [] else take (room - at) piece.now) }
{
    if short.contains(&call) {
        return 0;
    }
    room.saturating_sub(at).min(piece.len() as u64) as usize
}

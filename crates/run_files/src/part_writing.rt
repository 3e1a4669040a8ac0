//! Files that are written part by part: a part is built in memory that was taken before.

ghost use Rattle.std.specs.Prelude.{◌≡◌, ◌+◌, ◌<◌, ◌≤◌, ◌^◌, [], length, IsTrue, IfOk, OnOk, OnErr};
ghost use Rattle.std.specs.Prelude.{Some, vec_capacity, vec_len};
ghost use Rattle.host_io.specs.Host.{ChangesOnly, IsLater, MayGoOn, Rises, written};
ghost use Rattle.run_files.specs.Parts.{Grows};

use host_io::{Host, WriteFault, write_on};
use packet_entry::NoMemory;
use std::alloc::Global;

/// A part is written where it has more than so many bytes, 64 KiB, and at the file's end.
pub(crate) const PART: usize = 1 << 16;

/// The part of a file that is built. All before it is written.
#[derive(Debug, Drop)]
pub(crate) struct Part {
    /// Its place in the file.
    pub(crate) at: u64,
    pub(crate) bytes: Vec<u8>,
}

impl Part {
    /// The first part of a file, empty: with room for [`PART`] bytes and for so many more.
    pub(crate) fn new(alloc: Global, more: usize) -> Result<Part, NoMemory>
        ensures place { IfOk result (λ part. part.at ≡ 0) }
        ensures empty { IfOk result (λ part. part.bytes.items ≡ []) }
        ensures room { IfOk result (λ part. PART + more ≤ vec_capacity part.bytes) }
    {
        let room = PART.checked_add(more).ok_or(NoMemory)?;
        Ok(Part {
            at: 0,
            bytes: Vec::with_capacity(alloc, room)?,
        })
    }

    /// Makes room for `room` bytes more: where there isn't, the part is written, and the next one
    /// begins.
    pub(crate) fn make_room<H: Host>(
        &mut self,
        host: &mut H,
        name: &str,
        room: usize,
    ) -> Result<(), WriteFault>
        requires behind { IsTrue (H.tells host.old) →
            MayGoOn (H.content host.old name.now) self.old.at }
        requires places { self.old.at + length self.old.bytes.items < 2 ^ 64 }
        requires room { room ≤ vec_capacity self.old.bytes }
        ensures grows { OnOk result (Grows (IsTrue (H.tells host.old))
            (H.content host.old name.now) self.old.at self.old.bytes.items
            (H.content host.new name.now) self.new.at self.new.bytes.items []) }
        ensures room { OnOk result (vec_len self.new.bytes + room ≤ vec_capacity self.new.bytes) }
        ensures capacity { OnOk result
            (vec_capacity self.old.bytes ≤ vec_capacity self.new.bytes) }
        ensures write_fault { OnErr result
            (Rises (H.write_faults host.old name.now) (H.write_faults host.new name.now)) }
        ensures files { ChangesOnly name.now (H.content host.old) (H.content host.new) }
        ensures later { IsLater H.tells H.read_faults H.write_faults host.old host.new }
    {
        if room <= self.bytes.capacity() - self.bytes.len() {
            return Ok(());
        }
        self.write(host, name)
    }

    /// Writes the part at its place in the file. The next one begins, and is empty.
    pub(crate) fn write<H: Host>(&mut self, host: &mut H, name: &str) -> Result<(), WriteFault>
        requires behind { IsTrue (H.tells host.old) →
            MayGoOn (H.content host.old name.now) self.old.at }
        requires places { self.old.at + length self.old.bytes.items < 2 ^ 64 }
        ensures bytes { OnOk result (IsTrue (H.tells host.old) → H.content host.new name.now ≡
            Some (written (H.content host.old name.now) self.old.at self.old.bytes.items)) }
        ensures grows { OnOk result (Grows (IsTrue (H.tells host.old))
            (H.content host.old name.now) self.old.at self.old.bytes.items
            (H.content host.new name.now) self.new.at self.new.bytes.items []) }
        ensures len { OnOk result (vec_len self.new.bytes ≡ 0) }
        ensures capacity { OnOk result
            (vec_capacity self.new.bytes ≡ vec_capacity self.old.bytes) }
        ensures write_fault { OnErr result
            (Rises (H.write_faults host.old name.now) (H.write_faults host.new name.now)) }
        ensures files { ChangesOnly name.now (H.content host.old) (H.content host.new) }
        ensures later { IsLater H.tells H.read_faults H.write_faults host.old host.new }
    {
        write_on(host, name, self.at, &self.bytes)?;
        self.at += self.bytes.len() as u64;
        self.bytes.clear();
        Ok(())
    }
}

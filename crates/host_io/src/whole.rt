//! Whole files, over any host.

ghost use Rattle.std.specs.Prelude.{◌≡◌, ◌⊎◌, ◌+◌, ◌<◌, ◌≤◌, ◌^◌, max, length, take, drop, IsTrue};
ghost use Rattle.std.specs.Prelude.{IfOk, OnOk, OnErr, IsErrOf, None};
ghost use Rattle.host_io.specs.declared.whole.ReadStop.TheVariants.{NoMemory, ReadFault};
ghost use Rattle.host_io.specs.Host.{Rises, IsLater, SameFiles, ChangesOnly, bytes_of};
ghost use Rattle.host_io.specs.Host.{MayGoOn, written};
ghost use Rattle.std.specs.Io.{StartsWith};

use crate::{Failed, Host};
use std::alloc::{AllocError, Global};
use std::error::Error;
use std::fmt;

/// How many bytes one read of a whole file asks for: this crate's own choice, 64 KiB.
const PIECE: usize = 1 << 16;

/// Why a file wasn't read whole.
#[derive(Clone, Copy, Debug, PartialEq, Eq)]
pub enum ReadStop {
    /// A read of the file failed, as it does where there is no such file.
    ReadFault,
    /// The file has more bytes than the limit.
    TooLarge,
    /// Out of memory.
    NoMemory,
}

impl fmt::Display for ReadStop {
    fn fmt<W: fmt::Write>(&self, f: &mut fmt::Formatter<W>) -> fmt::Result {
        f.write_str(match self {
            ReadStop::ReadFault => "a read of the file failed",
            ReadStop::TooLarge => "the file is above its limit",
            ReadStop::NoMemory => "out of memory",
        })
    }
}

impl Error for ReadStop {}

impl From<AllocError> for ReadStop {
    ghost from_gives = { λ _ e. e ≡ NoMemory };

    fn from(_: AllocError) -> Self {
        ReadStop::NoMemory
    }
}

impl From<Failed> for ReadStop {
    ghost from_gives = { λ _ e. e ≡ ReadFault };

    fn from(_: Failed) -> Self {
        ReadStop::ReadFault
    }
}

/// A write failed, or took nothing of a piece that isn't empty.
#[derive(Clone, Copy, Debug, PartialEq, Eq)]
pub struct WriteFault;

impl fmt::Display for WriteFault {
    fn fmt<W: fmt::Write>(&self, f: &mut fmt::Formatter<W>) -> fmt::Result {
        f.write_str("a write of the file failed")
    }
}

impl Error for WriteFault {}

/// Reads the named file from its start to its end, if it has at most `limit` bytes.
/// Takes a buffer of 64 KiB, also for an empty file and for one that isn't there, and besides it a
/// vector that doubles as it fills: a small multiple of the bytes that are read.
pub fn read_whole<H: Host>(
    alloc: Global,
    host: &mut H,
    name: &str,
    limit: u64,
) -> Result<Vec<u8>, ReadStop>
    ensures bytes { IfOk result (λ bytes. IsTrue (H.tells host.old) →
        H.content host.old name.now ≡ Some bytes.items) }
    ensures within { IfOk result (λ bytes. length bytes.items ≤ limit) }
    ensures read_fault { IsErrOf result ReadStop.ReadFault →
        Rises (H.read_faults host.old name.now) (H.read_faults host.new name.now) }
    ensures too_large { IsErrOf result ReadStop.TooLarge → IsTrue (H.tells host.old) →
        limit < length (bytes_of (H.content host.old name.now)) }

    // A file above the limit is never answered as one within it, and one that isn't there never as
    // one that was read.
    ensures larger { IsTrue (H.tells host.old) →
        limit < length (bytes_of (H.content host.old name.now)) →
        ¬ Rises (H.read_faults host.old name.now) (H.read_faults host.new name.now) →
        IsErrOf result ReadStop.TooLarge ⊎ IsErrOf result ReadStop.NoMemory }
    ensures absent { IsTrue (H.tells host.old) → H.content host.old name.now ≡ None →
        IsErrOf result ReadStop.ReadFault ⊎ IsErrOf result ReadStop.NoMemory }

    ensures files { SameFiles (H.content host.old) (H.content host.new) }
    ensures later { IsLater H.tells H.read_faults H.write_faults host.old host.new }
    ensures reads { H.reads host.new ≤ H.reads host.old + limit + 2 }
    ensures writes { H.writes host.new ≡ H.writes host.old }
{
    let mut piece = Vec::new(alloc);
    piece.resize(PIECE, 0)?;
    let mut bytes = Vec::new(alloc);
    while bytes.len() as u64 <= limit {
        let n = read_on(host, name, &mut bytes, &mut piece)?;
        if n == 0 {
            return Ok(bytes);
        }
    }
    Err(ReadStop::TooLarge)
}

/// Writes these bytes as the whole of the named file, which the host makes anew, or as all that the
/// call has for standard output. Takes no memory.
pub fn write_whole<H: Host>(host: &mut H, name: &str, bytes: &[u8]) -> Result<(), WriteFault>
    ensures bytes { OnOk result (IsTrue (H.tells host.old) →
        H.content host.new name.now ≡ Some bytes.now) }
    ensures write_fault { OnErr result
        (Rises (H.write_faults host.old name.now) (H.write_faults host.new name.now)) }
    ensures files { ChangesOnly name.now (H.content host.old) (H.content host.new) }
    ensures later { IsLater H.tells H.read_faults H.write_faults host.old host.new }
    ensures reads { H.reads host.new ≡ H.reads host.old }
    // Each write but the last takes at least one byte, so there are no more writes than bytes, or
    // one where there are no bytes.
    ensures writes { H.writes host.new ≤ H.writes host.old + max 1 (length bytes.now) }
{
    write_on(host, name, 0, bytes)
}

/// Writes these bytes behind the `at` bytes that the named file has; at place 0 the host makes it
/// anew. So a file can be written part by part. Takes no memory.
pub fn write_on<H: Host>(host: &mut H, name: &str, at: u64, bytes: &[u8]) -> Result<(), WriteFault>
    requires behind { IsTrue (H.tells host.old) → MayGoOn (H.content host.old name.now) at }
    requires places { at + length bytes.now < 2 ^ 64 }
    ensures bytes { OnOk result (IsTrue (H.tells host.old) →
        H.content host.new name.now ≡ Some (written (H.content host.old name.now) at bytes.now)) }
    ensures write_fault { OnErr result
        (Rises (H.write_faults host.old name.now) (H.write_faults host.new name.now)) }
    ensures files { ChangesOnly name.now (H.content host.old) (H.content host.new) }
    ensures later { IsLater H.tells H.read_faults H.write_faults host.old host.new }
    ensures reads { H.reads host.new ≡ H.reads host.old }
    ensures writes { H.writes host.new ≤ H.writes host.old + max 1 (length bytes.now) }
{
    let mut done = 0usize;
    loop {
        let Ok(n) = write_piece(host, name, at, bytes, done) else {
            return Err(WriteFault);
        };
        done += n;
        if done == bytes.len() {
            return Ok(());
        }
        if n == 0 {
            return Err(WriteFault);
        }
    }
}

/// Appends the file's next piece to the bytes that are there, and answers its length.
fn read_on<H: Host>(
    host: &mut H,
    name: &str,
    bytes: &mut Vec<u8>,
    piece: &mut [u8],
) -> Result<usize, ReadStop>
    requires room { 0 < length piece.old }
    requires prefix { IsTrue (H.tells host.old) →
        StartsWith (bytes_of (H.content host.old name.now)) bytes.old.items }

    ensures prefix { OnOk result (IsTrue (H.tells host.old) →
        StartsWith (bytes_of (H.content host.old name.now)) bytes.new.items) }
    ensures length { IfOk result (λ n. length bytes.new.items ≡ length bytes.old.items + n) }
    ensures end { IfOk result (λ n. n ≡ 0 → IsTrue (H.tells host.old) →
        H.content host.old name.now ≡ Some bytes.new.items) }

    ensures read_fault { IsErrOf result ReadStop.ReadFault →
        Rises (H.read_faults host.old name.now) (H.read_faults host.new name.now) }
    ensures never_too_large { IsErrOf result ReadStop.TooLarge → ⊥ }
    ensures files { SameFiles (H.content host.old) (H.content host.new) }
    ensures later { IsLater H.tells H.read_faults H.write_faults host.old host.new }
    ensures reads { H.reads host.new ≤ H.reads host.old + 1 }
    ensures writes { H.writes host.new ≡ H.writes host.old }
{
    let n = host.read(name, bytes.len() as u64, piece)?;
    bytes.extend_from_slice(&piece[..n])?;
    Ok(n)
}

/// Writes what is left of the bytes, of which the file has got so many behind its first `at`.
fn write_piece<H: Host>(
    host: &mut H,
    name: &str,
    at: u64,
    bytes: &[u8],
    done: usize,
) -> Result<usize, Failed>
    requires done { done ≤ length bytes.now }
    requires places { at + length bytes.now < 2 ^ 64 }
    requires behind { IsTrue (H.tells host.old) →
        MayGoOn (H.content host.old name.now) (at + done) }

    ensures within { IfOk result (λ n. done + n ≤ length bytes.now) }
    ensures stored { IfOk result (λ n. IsTrue (H.tells host.old) → H.content host.new name.now ≡
        Some (written (H.content host.old name.now) (at + done) (take n (drop done bytes.now)))) }
    ensures failed { OnErr result
        (Rises (H.write_faults host.old name.now) (H.write_faults host.new name.now)) }
    ensures nothing { IfOk result (λ n. n ≡ 0 → done < length bytes.now →
        Rises (H.write_faults host.old name.now) (H.write_faults host.new name.now)) }
    ensures files { ChangesOnly name.now (H.content host.old) (H.content host.new) }
    ensures later { IsLater H.tells H.read_faults H.write_faults host.old host.new }
    ensures reads { H.reads host.new ≡ H.reads host.old }
    ensures writes { H.writes host.new ≤ H.writes host.old + 1 }
{
    host.write(name, at + done as u64, &bytes[done..])
}

//! The thin edge to real files.

ghost use Rattle.std.specs.Prelude.{◌≡◌, ◌+◌, ◌<◌, ◌≤◌, ◌==◌, ◌&&◌, not, false, length, None};
ghost use Rattle.std.specs.Prelude.{if◌then◌else◌, IfOk, MatchResult};
ghost use Rattle.host_io.specs.Machine.{raised};

use crate::{Failed, Host};
use std::fs::OpenOptions;
use std::io::{Read, Seek, SeekFrom, Write};
use std::marker::Model;
use std::rt::Files;
use std::{fs, io};

/// The name that stands for standard output.
const STANDARD_OUTPUT: &str = "-";

/// The files of the system, by their paths, and for writes standard output as `-`. It doesn't tell
/// what they hold.
///
/// Contracts see it as its one counter, which stands for both counts of every name: it rises at
/// each failure and at each write that takes nothing of a piece that isn't empty. A file is opened
/// anew for each call, so few calls with large pieces are the fast way. No call takes memory beyond
/// what the system takes to open a file.
#[derive(Drop)]
pub struct FileHost<R: Files + Print + Drop> {
    runtime: R,
    faults: u64,
}

impl<R: Files + Print + Drop> Model for FileHost<R> {
    ghost use Rattle.std.specs.Prelude.{ℕ};

    ghost Value = { ℕ };

    ghost view = { λ h. h.faults };
}

impl<R: Files + Print + Drop> FileHost<R> {
    /// The files that this runtime reaches, with no failure counted yet. Opens none.
    pub fn new(runtime: R) -> FileHost<R>
        ensures { result ≡ 0 }
    {
        FileHost { runtime, faults: 0 }
    }

    /// Raises the counter, which stands still at its last value.
    fn count_fault(&mut self)
        ensures { self.new ≡ raised self.old }
    {
        self.faults = self.faults.saturating_add(1);
    }
}

impl<R: Files + Print + Drop> Host for FileHost<R> {
    ghost tells = { λ _. false };

    ghost content = { λ _ _. None };

    ghost read_faults = { λ h _. h };

    ghost write_faults = { λ h _. h };

    ghost reads = { λ _. 0 };

    ghost writes = { λ _. 0 };

    fn read(&mut self, name: &str, at: u64, out: &mut [u8]) -> Result<usize, Failed>
        ensures within { IfOk result (λ n. n ≤ length out.old) }
        ensures counter { MatchResult result
            (λ _. self.new ≡ self.old)
            (λ _. self.new ≡ raised self.old) }
    {
        match read_from(&self.runtime, name, at, out) {
            Ok(n) => Ok(n),
            Err(_) => {
                self.count_fault();
                Err(Failed)
            }
        }
    }

    fn write(&mut self, name: &str, at: u64, piece: &[u8]) -> Result<usize, Failed>
        ensures within { IfOk result (λ n. n ≤ length piece.now) }
        ensures counter { MatchResult result
            (λ n. self.new ≡
            (if n == 0 && not (length piece.now == 0) then raised self.old else self.old))
            (λ _. self.new ≡ raised self.old) }
    {
        match write_to(&self.runtime, name, at, piece) {
            Ok(n) => {
                if n == 0 && !piece.is_empty() {
                    self.count_fault();
                }
                Ok(n)
            }
            Err(_) => {
                self.count_fault();
                Err(Failed)
            }
        }
    }
}

/// Reads from place `at` on.
fn read_from<R: Files>(files: &R, path: &str, at: u64, out: &mut [u8]) -> io::Result<usize>
    ensures { IfOk result (λ n. n ≤ length out.old) }
{
    let mut file = fs::open(files, path)?;
    file.seek(SeekFrom::Start(at))?;
    file.read(out)
}

/// Stores a prefix of the piece. At place 0 the file is made anew, and what standard output has got
/// stays.
fn write_to<R: Files + Print>(runtime: &R, path: &str, at: u64, piece: &[u8]) -> io::Result<usize>
    ensures { IfOk result (λ n. n ≤ length piece.now) }
{
    if path == STANDARD_OUTPUT {
        return runtime.write_some(piece);
    }
    let mut file = if at == 0 {
        fs::create(runtime, path)?
    } else {
        OpenOptions::new().write(true).open(runtime, path)?
    };
    file.seek(SeekFrom::Start(at))?;
    file.write(piece)
}

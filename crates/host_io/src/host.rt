//! The edge to files: a trait whose clauses say what a read and a write do, over any host.

ghost use Rattle.std.specs.Prelude.{◌≡◌, ℕ, ◌+◌, ◌<◌, ◌≤◌, Bool, List, Option, length, take};
ghost use Rattle.std.specs.Prelude.{IsTrue, IsSome, IfOk, OnOk, OnErr};
ghost use Rattle.host_io.specs.Host.{Rises, IsLater, SameFiles, ChangesOnly, IsRead, bytes_of};
ghost use Rattle.host_io.specs.Host.{MayGoOn, written};

use std::error::Error;
use std::fmt;

/// A read or a write failed. The host's count of faults of that name tells that it did.
#[derive(Clone, Copy, Debug, PartialEq, Eq)]
pub struct Failed;

impl fmt::Display for Failed {
    fn fmt<W: fmt::Write>(&self, f: &mut fmt::Formatter<W>) -> fmt::Result {
        f.write_str("a read or a write failed")
    }
}

impl Error for Failed {}

/// What holds files by their names and can fail. What is written to the name `-` goes to standard
/// output.
///
/// A host either tells what its files hold or doesn't, and never changes in this. For each name it
/// has a count of failed reads and one of failed writes. No count falls. A count stands still at
/// 2^64 - 1, its last value, and there it counts as risen. Of the counts of other names than that
/// of the call nothing else is said.
pub trait Host {
    /// Whether the host tells what its files hold.
    ghost tells: { Self → Bool };

    /// What the file of a name holds, where the host tells it; `None`: there is no such file.
    ghost content: { Self → List ℕ → Option (List ℕ) };

    /// How many reads of a name have failed.
    ghost read_faults: { Self → List ℕ → ℕ };

    /// How many writes of a name have failed, or took nothing of a piece that isn't empty.
    ghost write_faults: { Self → List ℕ → ℕ };

    /// A number that each read may raise by one and that nothing else changes.
    ghost reads: { Self → ℕ };

    /// A number that each write may raise by one and that nothing else changes.
    ghost writes: { Self → ℕ };

    /// Copies bytes of the named file from place `at` on to the start of `out`, at most as many as
    /// it has room for, and answers how many. 0 at a buffer with room is the end of the file. Where
    /// there is no such file the read fails. After a failure `out` holds any bytes.
    fn read(&mut self, name: &str, at: u64, out: &mut [u8]) -> Result<usize, Failed>
        ensures within { IfOk result (λ n. n ≤ length out.old) }
        ensures present { OnOk result (IsTrue (tells self.old) →
            IsSome (content self.old name.now)) }
        ensures bytes { IfOk result (λ n. IsTrue (tells self.old) →
            IsRead (bytes_of (content self.old name.now)) at n out.old out.new) }
        ensures failed { OnErr result
            (Rises (read_faults self.old name.now) (read_faults self.new name.now)) }
        ensures files { SameFiles (content self.old) (content self.new) }
        ensures later { IsLater tells read_faults write_faults self.old self.new }
        ensures reads { (reads self.old ≤ reads self.new) × (reads self.new ≤ reads self.old + 1) }
        ensures writes { writes self.new ≡ writes self.old };

    /// Stores a prefix of the piece at place `at` of the named file and answers its length, in
    /// bytes. At place 0 the file is made anew first, also for an empty piece, but for the standard
    /// output of a process, which keeps what it got. After a failure the named file holds any
    /// bytes, or isn't there.
    fn write(&mut self, name: &str, at: u64, piece: &[u8]) -> Result<usize, Failed>
        requires { IsTrue (tells self.old) → MayGoOn (content self.old name.now) at }
        ensures within { IfOk result (λ n. n ≤ length piece.now) }
        ensures bytes { IfOk result (λ n. IsTrue (tells self.old) →
            content self.new name.now ≡
            Some (written (content self.old name.now) at (take n piece.now))) }
        ensures failed { OnErr result
            (Rises (write_faults self.old name.now) (write_faults self.new name.now)) }
        ensures nothing { IfOk result (λ n. n ≡ 0 → 0 < length piece.now →
            Rises (write_faults self.old name.now) (write_faults self.new name.now)) }
        ensures files { ChangesOnly name.now (content self.old) (content self.new) }
        ensures later { IsLater tells read_faults write_faults self.old self.new }
        ensures reads { reads self.new ≡ reads self.old }
        ensures writes { (writes self.old ≤ writes self.new) ×
            (writes self.new ≤ writes self.old + 1) };
}

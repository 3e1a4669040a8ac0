//! The command `live`: three files are read, the run is made with threads, and three files are
//! written.

ghost use Rattle.std.specs.Prelude.{◌≡◌, ◌⊎◌, ◌≤◌, ◌≢◌, ◌↔◌, None, Some};
ghost use Rattle.std.specs.Prelude.{IsTrue, IfSome, IsSomeAnd, OnErr, IsErrOf};
ghost use Rattle.host_io.specs.Host.{IsLater, SameFiles, ChangesOnly};
ghost use Rattle.command_line.specs.Arguments.{Call, IsLiveAllowed, inputs};
ghost use Rattle.command_line.specs.Arguments.{live_call_of_words, live_files_of, LiveFiles, Lives};
ghost use Rattle.command_line.specs.Arguments.{outputs, play_outputs, ReadFiles, standard_output};
ghost use Rattle.run_files.specs.declared.refusal.Refusal.{Refusal as ARefusal};
ghost use Rattle.run_files.specs.Causes.{AreTaken, IsAnswered, IsRefused, IsTurnedDown, IsUnread};
ghost use Rattle.run_files.specs.Files.{IsPrinted, IsStopped, OthersStay};
ghost use Rattle.run_files.specs.Files.{ReadFaultRose, WriteFaultRose};
ghost use Rattle.run_files.specs.Printed.{usage_line};
ghost use Rattle.run_files.specs.Statuses.{IsOfRefusal};
ghost use Rattle.commands.specs.Ending.{IsAnswer, IsEnded, span};
ghost use Rattle.commands.specs.Headline.{IsCut, IsLived};

use crate::account::{a_run_is_accounted_for, released_frames_can_be_written};
use crate::command::status_of_stop;
use crate::play_run::write_run;
use command_line::{Live, RunSize, live_of};
use host_io::Host;
use inspector_pool::{JobGate, OpenJobGate};
use journals::histories_fit;
use nfq_live::{open_plane, run_pools};
use plane::Gate;
use run_files::status::{DONE, USAGE};
use run_files::{Made, Stop, print_usage, read_inputs};
use std::alloc::Global;
use std::sync::Wait;
use std::thread::Threads;

/// Does the command `live` where the arguments, without the program's name, are one, and answers
/// its status. The gate is told of each turn that feeds a packet or carries out a message, and of
/// the answer to each request.
pub fn live<R: Threads + Wait + Sync, H: Host, G: Gate>(
    rt: &R,
    alloc: Global,
    words: &[String],
    host: &mut H,
    gate: &G,
) -> u8
    ensures statuses { result ≤ 8 }

    // 1 comes exactly where the arguments aren't a command, and then the usage line is printed.
    ensures usage { (result ≡ 1) ↔ (live_call_of_words words.now ≡ None) }
    ensures usage_printed { result ≡ 1 → IsTrue (H.tells host.old) → IsPrinted usage_line
        (H.write_faults host.old) (H.write_faults host.new) (H.content host.new) }

    // 2 and 3 come only where the count of faults of an input or an output of the command rose in
    // this call.
    ensures read_fault { result ≡ 2 → (c : Call) → live_call_of_words words.now ≡ Some c →
        IsSomeAnd (inputs c) (λ i.
        ReadFaultRose i (H.read_faults host.old) (H.read_faults host.new)) }
    ensures write_fault { result ≡ 3 → (c : Call) → live_call_of_words words.now ≡ Some c →
        WriteFaultRose (outputs c) (H.write_faults host.old) (H.write_faults host.new) }
    // At 2 the inputs before the one that failed are within their limits and in their grammars.
    ensures unread { result ≡ 2 → (c : Call) → live_call_of_words words.now ≡ Some c →
        IsTrue (H.tells host.old) → IsSomeAnd (inputs c) (λ i.
        IsUnread i (H.read_faults host.old) (H.read_faults host.new) (H.content host.old)) }
    // At 3 the outputs after the one that failed hold what they held ..
    ensures stopped { result ≡ 3 → (c : Call) → live_call_of_words words.now ≡ Some c →
        IsStopped (outputs c) (H.write_faults host.old) (H.write_faults host.new)
        (H.content host.old) (H.content host.new) }
    // .. and those before it their whole texts.
    ensures cut_short { result ≡ 3 → (c : Call) → live_call_of_words words.now ≡ Some c →
        IsTrue (H.tells host.old) →
        IsCut c (H.write_faults host.old) (H.write_faults host.new) (H.content host.old)
        (H.content host.new) }

    // 4, 5, 6 and 7 come only where the order reaches an input that is refused, and the line that
    // says why is printed ..
    ensures refused { IsOfRefusal result → (c : Call) → live_call_of_words words.now ≡ Some c →
        IsTrue (H.tells host.old) → IsSomeAnd (inputs c) (λ i.
        IsTurnedDown i result (H.write_faults host.old) (H.write_faults host.new)
        (H.content host.old) (H.content host.new)) }
    // .. and there they do come, unless memory ran out, or a read of that file or of one before it
    // failed.
    ensures exact { (c : Call) (i : ReadFiles) (why : ARefusal) →
        live_call_of_words words.now ≡ Some c → inputs c ≡ Some i →
        IsTrue (H.tells host.old) → IsRefused i (H.content host.old) why →
        IsAnswered why result (H.write_faults host.old) (H.write_faults host.new)
        (H.content host.new) ⊎ (result ≡ 8) ⊎ ((result ≡ 2) × IsUnread i
        (H.read_faults host.old) (H.read_faults host.new) (H.content host.old)) }

    // The headline: at 0 the outputs are the texts of one run of the script, with threads, on the
    // inputs.
    ensures lived { result ≡ 0 → (l : LiveFiles) → live_call_of_words words.now ≡ Some (Lives l) →
        IsTrue (H.tells host.old) →
        IsLived l (H.content host.old) (H.content host.new) }
    // A command, and inputs in their grammars and limits, give 0, unless memory ran out or the
    // host had a fault.
    ensures complete { (c : Call) → live_call_of_words words.now ≡ Some c →
        IsTrue (H.tells host.old) →
        IfSome (inputs c) (λ i. AreTaken i (H.content host.old)) →
        (result ≡ 0) ⊎ (result ≡ 8)
        ⊎ IsSomeAnd (inputs c) (λ i.
        ReadFaultRose i (H.read_faults host.old) (H.read_faults host.new))
        ⊎ WriteFaultRose (outputs c) (H.write_faults host.old) (H.write_faults host.new) }

    // At every status but 0 and 3 nothing but standard output has changed, and at 2 and 8 not even
    // that. At 0 and 3 no name but the command's outputs has.
    ensures untouched { result ≢ 0 → result ≢ 3 →
        ChangesOnly standard_output (H.content host.old) (H.content host.new) }
    ensures quiet { (result ≡ 2) ⊎ (result ≡ 8) →
        SameFiles (H.content host.old) (H.content host.new) }
    ensures others { (result ≡ 0) ⊎ (result ≡ 3) → (c : Call) →
        live_call_of_words words.now ≡ Some c →
        OthersStay (outputs c) (H.content host.old) (H.content host.new) }
    ensures later { IsLater H.tells H.read_faults H.write_faults host.old host.new }
    // All of this as one fact, for whoever hands it on.
    ensures answer { IsAnswer (live_call_of_words words.now)
        (span H.tells H.content H.read_faults H.write_faults host.old host.new) result }
{
    live_pools(rt, alloc, words, host, gate, &OpenJobGate)
}

/// The same, where `jobs` is told of each job of the pools.
pub fn live_pools<R: Threads + Wait + Sync, H: Host, G: Gate, J: JobGate>(
    rt: &R,
    alloc: Global,
    words: &[String],
    host: &mut H,
    gate: &G,
    jobs: &J,
) -> u8
    ensures statuses { result ≤ 8 }

    ensures usage { (result ≡ 1) ↔ (live_call_of_words words.now ≡ None) }
    ensures usage_printed { result ≡ 1 → IsTrue (H.tells host.old) → IsPrinted usage_line
        (H.write_faults host.old) (H.write_faults host.new) (H.content host.new) }

    ensures read_fault { result ≡ 2 → (c : Call) → live_call_of_words words.now ≡ Some c →
        IsSomeAnd (inputs c) (λ i.
        ReadFaultRose i (H.read_faults host.old) (H.read_faults host.new)) }
    ensures write_fault { result ≡ 3 → (c : Call) → live_call_of_words words.now ≡ Some c →
        WriteFaultRose (outputs c) (H.write_faults host.old) (H.write_faults host.new) }
    ensures unread { result ≡ 2 → (c : Call) → live_call_of_words words.now ≡ Some c →
        IsTrue (H.tells host.old) → IsSomeAnd (inputs c) (λ i.
        IsUnread i (H.read_faults host.old) (H.read_faults host.new) (H.content host.old)) }
    ensures stopped { result ≡ 3 → (c : Call) → live_call_of_words words.now ≡ Some c →
        IsStopped (outputs c) (H.write_faults host.old) (H.write_faults host.new)
        (H.content host.old) (H.content host.new) }
    ensures cut_short { result ≡ 3 → (c : Call) → live_call_of_words words.now ≡ Some c →
        IsTrue (H.tells host.old) →
        IsCut c (H.write_faults host.old) (H.write_faults host.new) (H.content host.old)
        (H.content host.new) }

    ensures refused { IsOfRefusal result → (c : Call) → live_call_of_words words.now ≡ Some c →
        IsTrue (H.tells host.old) → IsSomeAnd (inputs c) (λ i.
        IsTurnedDown i result (H.write_faults host.old) (H.write_faults host.new)
        (H.content host.old) (H.content host.new)) }
    ensures exact { (c : Call) (i : ReadFiles) (why : ARefusal) →
        live_call_of_words words.now ≡ Some c → inputs c ≡ Some i →
        IsTrue (H.tells host.old) → IsRefused i (H.content host.old) why →
        IsAnswered why result (H.write_faults host.old) (H.write_faults host.new)
        (H.content host.new) ⊎ (result ≡ 8) ⊎ ((result ≡ 2) × IsUnread i
        (H.read_faults host.old) (H.read_faults host.new) (H.content host.old)) }

    ensures lived { result ≡ 0 → (l : LiveFiles) → live_call_of_words words.now ≡ Some (Lives l) →
        IsTrue (H.tells host.old) →
        IsLived l (H.content host.old) (H.content host.new) }
    ensures complete { (c : Call) → live_call_of_words words.now ≡ Some c →
        IsTrue (H.tells host.old) →
        IfSome (inputs c) (λ i. AreTaken i (H.content host.old)) →
        (result ≡ 0) ⊎ (result ≡ 8)
        ⊎ IsSomeAnd (inputs c) (λ i.
        ReadFaultRose i (H.read_faults host.old) (H.read_faults host.new))
        ⊎ WriteFaultRose (outputs c) (H.write_faults host.old) (H.write_faults host.new) }

    ensures untouched { result ≢ 0 → result ≢ 3 →
        ChangesOnly standard_output (H.content host.old) (H.content host.new) }
    ensures quiet { (result ≡ 2) ⊎ (result ≡ 8) →
        SameFiles (H.content host.old) (H.content host.new) }
    ensures others { (result ≡ 0) ⊎ (result ≡ 3) → (c : Call) →
        live_call_of_words words.now ≡ Some c →
        OthersStay (outputs c) (H.content host.old) (H.content host.new) }
    ensures later { IsLater H.tells H.read_faults H.write_faults host.old host.new }
    ensures answer { IsAnswer (live_call_of_words words.now)
        (span H.tells H.content H.read_faults H.write_faults host.old host.new) result }
{
    live_status(rt, alloc, words, host, gate, jobs)
}

/// The status of the command `live` that the words are.
pub(crate) fn live_status<R: Threads + Wait + Sync, H: Host, G: Gate, J: JobGate>(
    rt: &R,
    alloc: Global,
    words: &[String],
    host: &mut H,
    gate: &G,
    jobs: &J,
) -> u8
    ensures answer { IsAnswer (live_call_of_words words.now)
        (span H.tells H.content H.read_faults H.write_faults host.old host.new) result }
    ensures later { IsLater H.tells H.read_faults H.write_faults host.old host.new }
{
    let Some(command) = live_of(words) else {
        print_usage(host);
        return USAGE;
    };
    match live_files(rt, alloc, &command, host, gate, jobs) {
        Ok(()) => DONE,
        Err(stop) => status_of_stop(alloc, stop, host),
    }
}

/// Reads the inputs, makes the run and writes the outputs.
fn live_files<R: Threads + Wait + Sync, H: Host, G: Gate, J: JobGate>(
    rt: &R,
    alloc: Global,
    command: &Live<'_>,
    host: &mut H,
    gate: &G,
    jobs: &J,
) -> Result<(), Stop>
    requires allowed { IsLiveAllowed (live_files_of command.now) }
    ensures ended { IsEnded (Lives (live_files_of command.now))
        (span H.tells H.content H.read_faults H.write_faults host.old host.new) result }
    ensures untouched { OnErr result (¬ IsErrOf result Stop.WriteFault →
        SameFiles (H.content host.old) (H.content host.new)) }
    ensures others { OthersStay (play_outputs (live_files_of command.now).files)
        (H.content host.old) (H.content host.new) }
    ensures later { IsLater H.tells H.read_faults H.write_faults host.old host.new }
{
    a_run_is_accounted_for();
    released_frames_can_be_written();
    let made = read_inputs(alloc, &command.files.inputs, host)?;
    let Made {
        tables,
        script,
        capture,
    } = made;
    let RunSize {
        places,
        feeders,
        workers,
    } = command.size;
    let fanned = tables.with_feeders(feeders);
    let opened = open_plane(alloc, places, &script, fanned)?;
    let histories = run_pools(
        rt, alloc, opened, &script, &capture, feeders, workers, gate, jobs,
    )?;
    histories_fit(&histories);
    write_run(alloc, &command.files, &capture, histories, host)
}

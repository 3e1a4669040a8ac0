//! The program, over any host: its arguments are those of the command line, its answer is the exit
//! status. `main` hands both on and does nothing else.

ghost use Rattle.std.specs.Prelude.{◌≡◌, ◌≤◌, ◌⊎◌, ◌≢◌, None, Some, drop, IsTrue, IfOk};
ghost use Rattle.std.specs.Prelude.{IfSome, IsErr, IsErrOf, IsOkAnd, IsSomeAnd, map};
ghost use Rattle.std.specs.String.{string_bytes};
ghost use Rattle.std.specs.Vec.Iter.{into_iter_items};
ghost use Rattle.host_io.specs.Host.{IsLater, SameFiles, ChangesOnly};
ghost use Rattle.run_files.specs.declared.refusal.Refusal.{Refusal};
ghost use Rattle.command_line.specs.Arguments.{AuditFiles, Audits, Call, call_of_arguments};
ghost use Rattle.command_line.specs.Arguments.{Generates, GenFiles, ToldRun};
ghost use Rattle.command_line.specs.Arguments as named;
ghost use Rattle.command_line.specs.Arguments.{inputs, Lists, ListFiles, LiveFiles, Lives};
ghost use Rattle.command_line.specs.Arguments.{MigrateFiles, Migrates, outputs};
ghost use Rattle.command_line.specs.Arguments.{PlayFiles, Plays, ReadFiles, Sample};
ghost use Rattle.command_line.specs.Arguments.{program_call, standard_output, Tries};
ghost use Rattle.run_files.specs.Causes.{AreTaken, IsAnswered, IsRefused, IsTurnedDown, IsUnread};
ghost use Rattle.run_files.specs.Files.{IsPrinted, IsStopped, OthersStay};
ghost use Rattle.run_files.specs.Files.{ReadFaultRose, WriteFaultRose};
ghost use Rattle.journal_audit.specs.declared.finding.Finding.{Finding};
ghost use Rattle.journal_audit.specs.Printed as finding;
ghost use Rattle.commands.specs.Ending.{IsAnswer, IsOut, MayEndWith, span};
ghost use Rattle.commands.specs.Headline.{Finds, IsAmiss, IsAtEnd, IsAudited, IsCut, IsGenerated};
ghost use Rattle.commands.specs.Headline.{IsListed, IsLived, IsMigrated, IsPlayed, IsTried};
ghost use Rattle.run_files.specs.Printed.{usage_line};
ghost use Rattle.run_files.specs.Statuses.{IsOfRefusal};

use crate::command::status_of_words;
use crate::live_run::live_status;
use host_io::Host;
use inspector_pool::OpenJobGate;
use plane::OpenGate;
use run_files::print_usage;
use run_files::status::{NO_MEMORY, USAGE};
use std::alloc::{AllocError, Global};
use std::env::Args;
use std::io::{Error, ErrorKind};
use std::sync::Wait;
use std::thread::Threads;

/// Does the command that the arguments after the program's name are, and answers its status,
/// with the clauses of `live` where the first one is `live`, and else with those of `play`.
/// Arguments that can't be had, since one is no text, are no command.
pub fn program<R: Threads + Wait + Sync, H: Host>(
    rt: &R,
    alloc: Global,
    arguments: Result<Args, Error>,
    host: &mut H,
) -> u8
    ensures statuses { (result ≤ 8) ⊎ (result ≡ 10) ⊎ (result ≡ 11) }
    ensures by_command { (c : Call) → call_of_arguments arguments ≡ Some c → MayEndWith c result }

    // 1 comes only where the arguments aren't a command, and there 1 or 8 comes.
    ensures usage { result ≡ 1 → call_of_arguments arguments ≡ None }
    ensures no_command { call_of_arguments arguments ≡ None → (result ≡ 1) ⊎ (result ≡ 8) }
    ensures usage_printed { result ≡ 1 → IsTrue (H.tells host.old) → IsPrinted usage_line
        (H.write_faults host.old) (H.write_faults host.new) (H.content host.new) }

    ensures read_fault { result ≡ 2 → (c : Call) → call_of_arguments arguments ≡ Some c →
        IsSomeAnd (inputs c) (λ i.
        ReadFaultRose i (H.read_faults host.old) (H.read_faults host.new)) }
    ensures write_fault { result ≡ 3 → (c : Call) → call_of_arguments arguments ≡ Some c →
        WriteFaultRose (outputs c) (H.write_faults host.old) (H.write_faults host.new) }
    ensures unread { result ≡ 2 → (c : Call) → call_of_arguments arguments ≡ Some c →
        IsTrue (H.tells host.old) → IsSomeAnd (inputs c) (λ i.
        IsUnread i (H.read_faults host.old) (H.read_faults host.new) (H.content host.old)) }
    ensures stopped { result ≡ 3 → (c : Call) → call_of_arguments arguments ≡ Some c →
        IsStopped (outputs c) (H.write_faults host.old) (H.write_faults host.new)
        (H.content host.old) (H.content host.new) }
    ensures cut_short { result ≡ 3 → (c : Call) → call_of_arguments arguments ≡ Some c →
        IsTrue (H.tells host.old) →
        IsCut c (H.write_faults host.old) (H.write_faults host.new) (H.content host.old)
        (H.content host.new) }

    ensures refused { IsOfRefusal result → (c : Call) → call_of_arguments arguments ≡ Some c →
        IsTrue (H.tells host.old) → IsSomeAnd (inputs c) (λ i.
        IsTurnedDown i result (H.write_faults host.old) (H.write_faults host.new)
        (H.content host.old) (H.content host.new)) }
    ensures exact { (c : Call) (i : ReadFiles) (why : Refusal) →
        call_of_arguments arguments ≡ Some c → inputs c ≡ Some i →
        IsTrue (H.tells host.old) → IsRefused i (H.content host.old) why →
        IsAnswered why result (H.write_faults host.old) (H.write_faults host.new)
        (H.content host.new) ⊎ (result ≡ 8) ⊎ ((result ≡ 2) × IsUnread i
        (H.read_faults host.old) (H.read_faults host.new) (H.content host.old)) }

    // The headline, of both runs.
    ensures lived { result ≡ 0 → (l : LiveFiles) →
        call_of_arguments arguments ≡ Some (Lives l) →
        IsTrue (H.tells host.old) →
        IsLived l (H.content host.old) (H.content host.new) }
    ensures played { result ≡ 0 → (f : PlayFiles) →
        call_of_arguments arguments ≡ Some (Plays f) →
        IsTrue (H.tells host.old) →
        IsPlayed f (H.content host.old) (H.content host.new) }
    ensures listed { result ≡ 0 → (f : ListFiles) →
        call_of_arguments arguments ≡ Some (Lists f) →
        IsTrue (H.tells host.old) →
        IsListed f (H.content host.old) (H.content host.new) }
    ensures generated { result ≡ 0 → (g : GenFiles) →
        call_of_arguments arguments ≡ Some (Generates g) →
        IsTrue (H.tells host.old) → IsGenerated g (H.content host.new) }
    ensures tried { result ≡ 0 → (s : Sample) → call_of_arguments arguments ≡ Some (Tries s) →
        IsTrue (H.tells host.old) → IsTried s (H.content host.new) }
    ensures migrated { result ≡ 0 → (m : MigrateFiles) →
        call_of_arguments arguments ≡ Some (Migrates m) →
        IsTrue (H.tells host.old) →
        IsMigrated m (H.content host.old) (H.content host.new) }
    ensures audited { result ≡ 0 → (a : AuditFiles) →
        call_of_arguments arguments ≡ Some (Audits a) →
        IsTrue (H.tells host.old) → IsAudited a (H.content host.old) }
    ensures amiss { result ≡ 11 → (c : Call) → call_of_arguments arguments ≡ Some c →
        IsTrue (H.tells host.old) → IsAmiss c (H.write_faults host.old) (H.write_faults host.new)
        (H.content host.old) (H.content host.new) }
    ensures passes { (a : AuditFiles) → call_of_arguments arguments ≡ Some (Audits a) →
        IsTrue (H.tells host.old) → IsAudited a (H.content host.old) →
        (result ≡ 0) ⊎ (result ≡ 8) ⊎ ((result ≡ 2) × IsUnread (ToldRun a)
        (H.read_faults host.old) (H.read_faults host.new) (H.content host.old)) }
    ensures finds { (a : AuditFiles) (f : Finding) →
        call_of_arguments arguments ≡ Some (Audits a) →
        IsTrue (H.tells host.old) → Finds a (H.content host.old) f →
        ((result ≡ 11) × IsPrinted (finding.line_of f)
        (H.write_faults host.old) (H.write_faults host.new) (H.content host.new))
        ⊎ (result ≡ 8) ⊎ ((result ≡ 2) × IsUnread (ToldRun a)
        (H.read_faults host.old) (H.read_faults host.new) (H.content host.old)) }
    ensures complete { (c : Call) → call_of_arguments arguments ≡ Some c →
        IsTrue (H.tells host.old) →
        IfSome (inputs c) (λ i. AreTaken i (H.content host.old)) →
        IsAtEnd c result ⊎ (result ≡ 8)
        ⊎ IsSomeAnd (inputs c) (λ i.
        ReadFaultRose i (H.read_faults host.old) (H.read_faults host.new))
        ⊎ WriteFaultRose (outputs c) (H.write_faults host.old) (H.write_faults host.new) }

    ensures untouched { result ≢ 0 → result ≢ 3 →
        ChangesOnly standard_output (H.content host.old) (H.content host.new) }
    ensures quiet { (result ≡ 2) ⊎ (result ≡ 8) →
        SameFiles (H.content host.old) (H.content host.new) }
    ensures others { (result ≡ 0) ⊎ (result ≡ 3) → (c : Call) →
        call_of_arguments arguments ≡ Some c →
        OthersStay (outputs c) (H.content host.old) (H.content host.new) }
    ensures later { IsLater H.tells H.read_faults H.write_faults host.old host.new }
{
    status_of_arguments(rt, alloc, arguments, host)
}

/// The status of the command that the arguments are, with threads or without.
fn status_of_arguments<R: Threads + Wait + Sync, H: Host>(
    rt: &R,
    alloc: Global,
    arguments: Result<Args, Error>,
    host: &mut H,
) -> u8
    ensures answer { IsAnswer (call_of_arguments arguments)
        (span H.tells H.content H.read_faults H.write_faults host.old host.new) result
        ⊎ IsOut (span H.tells H.content H.read_faults H.write_faults host.old host.new) result }
    ensures later { IsLater H.tells H.read_faults H.write_faults host.old host.new }
{
    match words_of(alloc, arguments) {
        Ok(words) => {
            let words = words.as_slice();
            if is_live(words) {
                live_status(rt, alloc, words, host, &OpenGate, &OpenJobGate)
            } else {
                status_of_words(alloc, words, host)
            }
        }
        Err(NoWords::NoMemory) => NO_MEMORY,
        Err(NoWords::NoText) => {
            print_usage(host);
            USAGE
        }
    }
}

/// Whether the command is `live`.
fn is_live(words: &[String]) -> bool
    ensures { result ≡ named.is_live (map string_bytes words.now) }
{
    match words.first() {
        Some(verb) => verb.as_str() == "live",
        None => false,
    }
}

/// Why arguments can't be had.
#[derive(Clone, Copy, Debug, PartialEq, Eq)]
enum NoWords {
    /// One of them is no text.
    NoText,
    NoMemory,
}

/// The arguments after the program's name.
fn words_of(alloc: Global, arguments: Result<Args, Error>) -> Result<Vec<String>, NoWords>
    ensures ok { IfOk result (λ words. IsOkAnd arguments (λ args.
        words.items ≡ drop 1 (into_iter_items args))) }
    ensures no_text { IsErrOf result NoWords.NoText → IsErr arguments }
{
    match arguments {
        Ok(args) => after_name(alloc, args).map_err(|_| NoWords::NoMemory),
        Err(error) if error.kind() == ErrorKind::OutOfMemory => Err(NoWords::NoMemory),
        Err(_) => Err(NoWords::NoText),
    }
}

fn after_name(alloc: Global, mut args: Args) -> Result<Vec<String>, AllocError>
    ensures { IfOk result (λ words. words.items ≡ drop 1 (into_iter_items args)) }
{
    args.next();
    let mut words = Vec::with_capacity(alloc, args.len())?;
    while let Some(word) = args.next() {
        words.push(word)?;
    }
    Ok(words)
}

//! The commands: the arguments say which, it is done, and its status is answered.

ghost use Rattle.std.specs.Prelude.{◌≡◌, ◌⊎◌, ◌≤◌, ◌≢◌, ◌↔◌, None, Some};
ghost use Rattle.std.specs.Prelude.{IsTrue, IfOk, IfSome, IsSomeAnd, OnOk, OnErr, IsErrOf};
ghost use Rattle.host_io.specs.Host.{IsLater, SameFiles, ChangesOnly};
ghost use Rattle.run_files.specs.declared.refusal.Refusal.{Refusal as ARefusal};
ghost use Rattle.command_line.specs.Arguments.{AuditFiles, Audits, Call, call_of, call_of_words};
ghost use Rattle.command_line.specs.Arguments.{Generates, GenFiles, ToldRun};
ghost use Rattle.command_line.specs.Arguments.{inputs, IsAllowed, Lists, ListFiles};
ghost use Rattle.command_line.specs.Arguments.{MigrateFiles, Migrates, outputs, PlayFiles, Plays};
ghost use Rattle.command_line.specs.Arguments.{ReadFiles, Sample, standard_output, Tries};
ghost use Rattle.run_files.specs.Causes.{AreTaken, IsAnswered, IsRefused, IsTurnedDown, IsUnread};
ghost use Rattle.run_files.specs.Files.{IsPrinted, IsStopped, OthersStay};
ghost use Rattle.run_files.specs.Files.{ReadFaultRose, WriteFaultRose};
ghost use Rattle.commands.specs.Ending.{IsAnswer, IsEnded, IsToldFinding, IsToldStop};
ghost use Rattle.commands.specs.Ending.{MayEndWith, span};
ghost use Rattle.journal_audit.specs.declared.finding.Finding.{Finding as AFinding};
ghost use Rattle.journal_audit.specs.Printed as finding;
ghost use Rattle.commands.specs.Headline.{Finds, IsAmiss, IsAtEnd, IsAudited, IsCut, IsFoundBy};
ghost use Rattle.commands.specs.Headline.{IsGenerated, IsListed, IsMigrated, IsOnlyFoundBy};
ghost use Rattle.commands.specs.Headline.{IsPlayed, IsTried, MayFind};
ghost use Rattle.run_files.specs.Printed.{line_of, usage_line};
ghost use Rattle.run_files.specs.Statuses.{IsOfRefusal};

use crate::audit::audit_files;
use crate::generation::generate;
use crate::list::list_files;
use crate::migration::migrate;
use crate::play_run::play_files;
use crate::trial::try_out;
use command_line::{Command, command_of};
use host_io::Host;
use journal_audit::Finding;
use packet_entry::NoMemory;
use run_files::status::{DONE, NO_MEMORY, NO_RUN, READ_FAULT, USAGE, WRITE_FAULT};
use run_files::{Refusal, Stop, print, print_usage};
use std::alloc::Global;

/// Does the command that the arguments are, without the program's name, and answers its status.
pub fn play<H: Host>(alloc: Global, words: &[String], host: &mut H) -> u8
    ensures statuses { (result ≤ 8) ⊎ (result ≡ 10) ⊎ (result ≡ 11) }
    ensures by_command { (c : Call) → call_of_words words.now ≡ Some c → MayEndWith c result }

    // 1 comes exactly where the arguments aren't a command, and then the usage line is printed.
    ensures usage { (result ≡ 1) ↔ (call_of_words words.now ≡ None) }
    ensures usage_printed { result ≡ 1 → IsTrue (H.tells host.old) → IsPrinted usage_line
        (H.write_faults host.old) (H.write_faults host.new) (H.content host.new) }

    // 2 and 3 come only where the count of faults of an input or an output of the command rose in
    // this call.
    ensures read_fault { result ≡ 2 → (c : Call) → call_of_words words.now ≡ Some c →
        IsSomeAnd (inputs c) (λ i.
        ReadFaultRose i (H.read_faults host.old) (H.read_faults host.new)) }
    ensures write_fault { result ≡ 3 → (c : Call) → call_of_words words.now ≡ Some c →
        WriteFaultRose (outputs c) (H.write_faults host.old) (H.write_faults host.new) }
    // At 2 the inputs before the one that failed are within their limits and in their grammars.
    ensures unread { result ≡ 2 → (c : Call) → call_of_words words.now ≡ Some c →
        IsTrue (H.tells host.old) → IsSomeAnd (inputs c) (λ i.
        IsUnread i (H.read_faults host.old) (H.read_faults host.new) (H.content host.old)) }
    // At 3 the outputs after the one that failed hold what they held ..
    ensures stopped { result ≡ 3 → (c : Call) → call_of_words words.now ≡ Some c →
        IsStopped (outputs c) (H.write_faults host.old) (H.write_faults host.new)
        (H.content host.old) (H.content host.new) }
    // .. and those before it their whole texts.
    ensures cut_short { result ≡ 3 → (c : Call) → call_of_words words.now ≡ Some c →
        IsTrue (H.tells host.old) →
        IsCut c (H.write_faults host.old) (H.write_faults host.new) (H.content host.old)
        (H.content host.new) }

    // 4, 5, 6, 7 and 10 come only where the order reaches an input that is refused, and the line
    // that says why is printed ..
    ensures refused { IsOfRefusal result → (c : Call) → call_of_words words.now ≡ Some c →
        IsTrue (H.tells host.old) → IsSomeAnd (inputs c) (λ i.
        IsTurnedDown i result (H.write_faults host.old) (H.write_faults host.new)
        (H.content host.old) (H.content host.new)) }
    // .. and there they do come, unless memory ran out, or a read of that file or of one before it
    // failed.
    ensures exact { (c : Call) (i : ReadFiles) (why : ARefusal) →
        call_of_words words.now ≡ Some c → inputs c ≡ Some i →
        IsTrue (H.tells host.old) → IsRefused i (H.content host.old) why →
        IsAnswered why result (H.write_faults host.old) (H.write_faults host.new)
        (H.content host.new) ⊎ (result ≡ 8) ⊎ ((result ≡ 2) × IsUnread i
        (H.read_faults host.old) (H.read_faults host.new) (H.content host.old)) }

    // The headline: at 0 the outputs of `play` are the texts of the schedule's run on the inputs.
    ensures played { result ≡ 0 → (f : PlayFiles) → call_of_words words.now ≡ Some (Plays f) →
        IsTrue (H.tells host.old) →
        IsPlayed f (H.content host.old) (H.content host.new) }
    // That of `list` is the listing of its queues before the ports end.
    ensures listed { result ≡ 0 → (f : ListFiles) → call_of_words words.now ≡ Some (Lists f) →
        IsTrue (H.tells host.old) →
        IsListed f (H.content host.old) (H.content host.new) }
    // The files of `gen` are the generated ones.
    ensures generated { result ≡ 0 → (g : GenFiles) →
        call_of_words words.now ≡ Some (Generates g) →
        IsTrue (H.tells host.old) → IsGenerated g (H.content host.new) }
    // `trial` prints the counts of the run on these.
    ensures tried { result ≡ 0 → (s : Sample) → call_of_words words.now ≡ Some (Tries s) →
        IsTrue (H.tells host.old) → IsTried s (H.content host.new) }
    // `migrate` writes, in today's version, what the old journal tells.
    ensures migrated { result ≡ 0 → (m : MigrateFiles) →
        call_of_words words.now ≡ Some (Migrates m) →
        IsTrue (H.tells host.old) →
        IsMigrated m (H.content host.old) (H.content host.new) }
    // `audit` ends with 0 only where its journal tells a run on the inputs ..
    ensures audited { result ≡ 0 → (a : AuditFiles) → call_of_words words.now ≡ Some (Audits a) →
        IsTrue (H.tells host.old) → IsAudited a (H.content host.old) }
    // .. and such files give no other status, unless memory ran out or a read failed.
    ensures passes { (a : AuditFiles) → call_of_words words.now ≡ Some (Audits a) →
        IsTrue (H.tells host.old) → IsAudited a (H.content host.old) →
        (result ≡ 0) ⊎ (result ≡ 8) ⊎ ((result ≡ 2) × IsUnread (ToldRun a)
        (H.read_faults host.old) (H.read_faults host.new) (H.content host.old)) }
    // It ends with 11 only where a check finds something of what the journal tells, whose line is
    // printed ..
    ensures amiss { result ≡ 11 → (c : Call) → call_of_words words.now ≡ Some c →
        IsTrue (H.tells host.old) → IsAmiss c (H.write_faults host.old) (H.write_faults host.new)
        (H.content host.old) (H.content host.new) }
    // .. and there it does, with the same exceptions.
    ensures finds { (a : AuditFiles) (f : AFinding) →
        call_of_words words.now ≡ Some (Audits a) →
        IsTrue (H.tells host.old) → Finds a (H.content host.old) f →
        ((result ≡ 11) × IsPrinted (finding.line_of f)
        (H.write_faults host.old) (H.write_faults host.new) (H.content host.new))
        ⊎ (result ≡ 8) ⊎ ((result ≡ 2) × IsUnread (ToldRun a)
        (H.read_faults host.old) (H.read_faults host.new) (H.content host.old)) }
    // A command, and inputs in their grammars and limits, give 0, or 11 of an audit, unless memory
    // ran out or the host had a fault.
    ensures complete { (c : Call) → call_of_words words.now ≡ Some c →
        IsTrue (H.tells host.old) →
        IfSome (inputs c) (λ i. AreTaken i (H.content host.old)) →
        IsAtEnd c result ⊎ (result ≡ 8)
        ⊎ IsSomeAnd (inputs c) (λ i.
        ReadFaultRose i (H.read_faults host.old) (H.read_faults host.new))
        ⊎ WriteFaultRose (outputs c) (H.write_faults host.old) (H.write_faults host.new) }

    // At every status but 0 and 3 nothing but standard output has changed, and at 2 and 8 not even
    // that. At 0 and 3 no name but the command's outputs has.
    ensures untouched { result ≢ 0 → result ≢ 3 →
        ChangesOnly standard_output (H.content host.old) (H.content host.new) }
    ensures quiet { (result ≡ 2) ⊎ (result ≡ 8) →
        SameFiles (H.content host.old) (H.content host.new) }
    ensures others { (result ≡ 0) ⊎ (result ≡ 3) → (c : Call) →
        call_of_words words.now ≡ Some c →
        OthersStay (outputs c) (H.content host.old) (H.content host.new) }
    ensures later { IsLater H.tells H.read_faults H.write_faults host.old host.new }
    // All of this as one fact, for whoever hands it on.
    ensures answer { IsAnswer (call_of_words words.now)
        (span H.tells H.content H.read_faults H.write_faults host.old host.new) result }
{
    status_of_words(alloc, words, host)
}

/// The status of the command that the words are.
pub(crate) fn status_of_words<H: Host>(alloc: Global, words: &[String], host: &mut H) -> u8
    ensures answer { IsAnswer (call_of_words words.now)
        (span H.tells H.content H.read_faults H.write_faults host.old host.new) result }
    ensures later { IsLater H.tells H.read_faults H.write_faults host.old host.new }
{
    let Some(command) = command_of(words) else {
        print_usage(host);
        return USAGE;
    };
    match dispatch(alloc, &command, host) {
        Ok(found) => status_at_end(alloc, found, host),
        Err(stop) => status_of_stop(alloc, stop, host),
    }
}

/// The status of a command that came to its end, where what an audit found is printed. Without
/// memory for its line nothing is, and the status says so.
fn status_at_end<H: Host>(alloc: Global, found: Option<Finding>, host: &mut H) -> u8
    ensures told { IsToldFinding (host.new ≡ host.old)
        (span H.tells H.content H.read_faults H.write_faults host.old host.new) found result }
    ensures later { IsLater H.tells H.read_faults H.write_faults host.old host.new }
{
    match found {
        None => DONE,
        Some(finding) => match print_finding(alloc, finding, host) {
            Ok(()) => NO_RUN,
            Err(_) => NO_MEMORY,
        },
    }
}

/// The status of a command that was stopped, where it is printed why an input is refused. Without
/// memory for its line nothing is, and the status says so.
pub(crate) fn status_of_stop<H: Host>(alloc: Global, stop: Stop, host: &mut H) -> u8
    ensures told { IsToldStop (host.new ≡ host.old)
        (span H.tells H.content H.read_faults H.write_faults host.old host.new) stop result }
    ensures later { IsLater H.tells H.read_faults H.write_faults host.old host.new }
{
    match stop {
        Stop::Refused { why } => match print_refusal(alloc, why, host) {
            Ok(()) => why.status(),
            Err(_) => NO_MEMORY,
        },
        Stop::ReadFault => READ_FAULT,
        Stop::WriteFault => WRITE_FAULT,
        Stop::NoMemory => NO_MEMORY,
    }
}

/// Prints why an input is refused. Without memory for the line nothing is printed.
fn print_refusal<H: Host>(alloc: Global, why: Refusal, host: &mut H) -> Result<(), NoMemory>
    ensures printed { OnOk result (IsTrue (H.tells host.old) → IsPrinted (line_of why)
        (H.write_faults host.old) (H.write_faults host.new) (H.content host.new)) }
    ensures files { ChangesOnly standard_output (H.content host.old) (H.content host.new) }
    ensures quiet { OnErr result (SameFiles (H.content host.old) (H.content host.new)) }
    ensures later { IsLater H.tells H.read_faults H.write_faults host.old host.new }
{
    let line = why.line(alloc)?;
    print(host, &line);
    Ok(())
}

/// Prints what an audit found. Without memory for the line nothing is printed.
fn print_finding<H: Host>(alloc: Global, found: Finding, host: &mut H) -> Result<(), NoMemory>
    ensures printed { OnOk result (IsTrue (H.tells host.old) → IsPrinted (finding.line_of found)
        (H.write_faults host.old) (H.write_faults host.new) (H.content host.new)) }
    ensures files { ChangesOnly standard_output (H.content host.old) (H.content host.new) }
    ensures quiet { OnErr result (SameFiles (H.content host.old) (H.content host.new)) }
    ensures later { IsLater H.tells H.read_faults H.write_faults host.old host.new }
{
    let line = found.line(alloc)?;
    print(host, &line);
    Ok(())
}

/// Hands the command to the function that does it. Answers what an audit found.
fn dispatch<H: Host>(
    alloc: Global,
    command: &Command<'_>,
    host: &mut H,
) -> Result<Option<Finding>, Stop>
    requires allowed { IsAllowed (call_of command.now) }
    ensures ended { IsEnded (call_of command.now)
        (span H.tells H.content H.read_faults H.write_faults host.old host.new) result }
    ensures found { IfOk result (λ found. IsTrue (H.tells host.old) →
        IsFoundBy (call_of command.now) (H.content host.old) found) }
    ensures finds { IfOk result (λ found. IsTrue (H.tells host.old) →
        IsOnlyFoundBy (call_of command.now) (H.content host.old) found) }
    ensures finder { IfOk result (λ found. MayFind (call_of command.now) found) }
    ensures untouched { OnErr result (¬ IsErrOf result Stop.WriteFault →
        SameFiles (H.content host.old) (H.content host.new)) }
    ensures seen { IfOk result (λ found. IfSome found (λ _.
        SameFiles (H.content host.old) (H.content host.new))) }
    ensures others { OthersStay (outputs (call_of command.now))
        (H.content host.old) (H.content host.new) }
    ensures later { IsLater H.tells H.read_faults H.write_faults host.old host.new }
{
    match command {
        Command::Play { files } => play_files(alloc, files, host)?,
        Command::List { files } => list_files(alloc, files, host)?,
        Command::Gen { files } => generate(alloc, files, host)?,
        Command::Trial { sample } => try_out(alloc, *sample, host)?,
        Command::Migrate { files } => migrate(alloc, files, host)?,
        Command::Audit { files } => return audit_files(alloc, files, host),
    }
    Ok(None)
}

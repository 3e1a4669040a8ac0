//! The command `gen`: generated inputs are written, in the order rules, script, capture.

ghost use Rattle.std.specs.Prelude.{◌≡◌, IsTrue, IfOk, OnOk, OnErr, IsErrOf, true};
ghost use Rattle.host_io.specs.Host.{IsLater, SameFiles};
ghost use Rattle.pcap_io.specs.Text.{capture_text};
ghost use Rattle.generated.specs.Captures.{generated_capture};
ghost use Rattle.command_line.specs.Arguments.{are_inputs_apart, gen_files_of, gen_outputs};
ghost use Rattle.command_line.specs.Arguments.{Generates};
ghost use Rattle.command_line.specs.Arguments.{input_names, inputs_of, IsGenAllowed, IsSample};
ghost use Rattle.command_line.specs.Arguments.{sample_of};
ghost use Rattle.run_files.specs.Files.{AreWritten, IsStopped, IsStoppedAfter, OthersStay};
ghost use Rattle.run_files.specs.Files.{WriteFaultRose};
ghost use Rattle.commands.specs.Ending.{IsEnded, span};
ghost use Rattle.commands.specs.Headline.{input_texts};

use command_line::{Generation, Inputs, Sample};
use generated::{rules_text, script_text};
use host_io::{Host, write_whole};
use packet_entry::NoMemory;
use run_files::{CaptureFile, Stop};
use std::alloc::Global;

/// Makes the inputs and writes them.
pub fn generate<H: Host>(alloc: Global, files: &Generation<'_>, host: &mut H) -> Result<(), Stop>
    requires allowed { IsGenAllowed (gen_files_of files.now) }
    ensures ended { IsEnded (Generates (gen_files_of files.now))
        (span H.tells H.content H.read_faults H.write_faults host.old host.new) result }
    ensures untouched { OnErr result (¬ IsErrOf result Stop.WriteFault →
        SameFiles (H.content host.old) (H.content host.new)) }
    ensures others { OthersStay (gen_outputs (gen_files_of files.now))
        (H.content host.old) (H.content host.new) }
    ensures later { IsLater H.tells H.read_faults H.write_faults host.old host.new }
{
    let capture = capture_file(alloc, files.sample)?;
    write_inputs(&files.files, capture, host)
}

/// The generated capture, as a file.
fn capture_file(alloc: Global, sample: Sample) -> Result<CaptureFile, NoMemory>
    requires sample { IsSample (sample_of sample) }
    ensures { IfOk result (λ file. file
        ≡ capture_text (generated_capture sample.number sample.count)) }
{
    let capture = generated::capture(alloc, sample.number, sample.count)?;
    CaptureFile::new(alloc, capture)
}

/// Writes the inputs, one after the other, each whole.
fn write_inputs<H: Host>(names: &Inputs<'_>, capture: CaptureFile, host: &mut H) -> Result<(), Stop>
    requires apart { are_inputs_apart (inputs_of names.now) ≡ true }
    ensures written { OnOk result (IsTrue (H.tells host.old) →
        AreWritten (input_texts (inputs_of names.now) capture) (H.content host.new)) }
    ensures only { OnErr result (IsErrOf result Stop.WriteFault) }
    ensures write_fault { OnErr result (WriteFaultRose (input_names (inputs_of names.now))
        (H.write_faults host.old) (H.write_faults host.new)) }
    ensures stopped { OnErr result (IsStopped (input_names (inputs_of names.now))
        (H.write_faults host.old) (H.write_faults host.new) (H.content host.old)
        (H.content host.new)) }
    ensures cut_short { OnErr result (IsTrue (H.tells host.old) →
        IsStoppedAfter (input_texts (inputs_of names.now) capture)
        (H.write_faults host.old) (H.write_faults host.new) (H.content host.old)
        (H.content host.new)) }
    ensures others { OthersStay (input_names (inputs_of names.now))
        (H.content host.old) (H.content host.new) }
    ensures later { IsLater H.tells H.read_faults H.write_faults host.old host.new }
{
    write_whole(host, names.rules, rules_text())?;
    write_whole(host, names.script, script_text())?;
    capture.write(host, names.capture)?;
    Ok(())
}

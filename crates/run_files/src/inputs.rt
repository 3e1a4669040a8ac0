//! The inputs are read, in the order rules, script, capture, each whole and tested before the next
//! is opened.

ghost use Rattle.std.specs.Prelude.{◌≡◌, ◌≤◌, ◌<◌, Some, Result, Ok, Err, length};
ghost use Rattle.std.specs.Prelude.{IsTrue, IfOk, IsErrOf, IsSomeAnd};
ghost use Rattle.host_io.specs.Host.{Rises, IsLater, SameFiles};
ghost use Rattle.hook_chain.specs.Rules.{RuleTables};
ghost use Rattle.inspector_script.specs.Scripts.{ScriptValue, IsScript};
ghost use Rattle.pcap_io.specs.declared.capture.Capture.{Capture as ACapture};
ghost use Rattle.pcap_io.specs.Text.{IsHeld};
ghost use Rattle.packet_entry.specs.Numbers.{most_frames};
ghost use Rattle.run_files.specs.declared.refusal.Refusal.{Refusal as ARefusal};
ghost use Rattle.run_files.specs.declared.refusal.Refusal.TheVariants as refusal;
ghost use Rattle.run_files.specs.Numbers.{capture_limit};
ghost use Rattle.command_line.specs.Arguments.{inputs_of, RunInputs};
ghost use Rattle.run_files.specs.Causes.{AreRead, AreTaken, IsRefused, IsUnread};
ghost use Rattle.run_files.specs.Files.{ReadFaultRose};
ghost use Rattle.run_files.specs.Inputs.{RulesSay, ScriptSays, CaptureSays, Said};
ghost use Rattle.run_files.specs.Statuses.{Agrees, IfRefused, IsOfInputs};

use crate::refusal::Limit;
use crate::stop::Stop;
use command_line::Inputs;
use hook_chain::{Tables, read_tables};
use host_io::{Host, read_whole};
use inspector_script::{Script, read_script};
use packet_entry::{Bytes, NoMemory};
use pcap_io::{Capture, read_shared_capture};
use std::alloc::Global;

/// The most bytes that rules or a script may have.
const MAX_TEXT: u64 = 1_048_576;

/// The most bytes that a capture may have.
const MAX_CAPTURE: u64 = 67_108_864;

/// The most frames that a capture may have.
const MAX_FRAMES: usize = 200_000;

/// What a run is made from.
#[derive(Drop)]
pub struct Made {
    pub tables: Tables,
    pub script: Script,
    pub capture: Capture,
}

/// Reads the inputs.
pub fn read_inputs<H: Host>(alloc: Global, inputs: &Inputs<'_>, host: &mut H) -> Result<Made, Stop>
    ensures read { IfOk result (λ m. IsTrue (H.tells host.old) →
        AreRead (inputs_of inputs.now) (H.content host.old) m.tables m.script m.capture) }
    ensures alone { IfOk result (λ m. (tables : RuleTables) (script : ScriptValue)
        (capture : ACapture) → IsTrue (H.tells host.old) →
        AreRead (inputs_of inputs.now) (H.content host.old) tables script capture →
        (tables ≡ m.tables) × (script ≡ m.script) × (capture ≡ m.capture)) }
    ensures script { IfOk result (λ m. IsScript m.script) }
    ensures frames { IfOk result (λ m. length m.capture.frames ≤ most_frames) }
    ensures held { IfOk result (λ m. IsHeld m.capture) }
    ensures kind { IfRefused result (λ why. IsOfInputs why) }
    ensures refused { IfRefused result (λ why. IsTrue (H.tells host.old) →
        IsRefused (RunInputs (inputs_of inputs.now)) (H.content host.old) why) }
    ensures exact { (why : ARefusal) → IsTrue (H.tells host.old) →
        IsRefused (RunInputs (inputs_of inputs.now)) (H.content host.old) why →
        Agrees result (Err why) }
    ensures only { IsTrue (H.tells host.old) →
        AreTaken (RunInputs (inputs_of inputs.now)) (H.content host.old) →
        IfRefused result (λ _. ⊥) }
    ensures read_fault { IsErrOf result Stop.ReadFault →
        ReadFaultRose (RunInputs (inputs_of inputs.now))
        (H.read_faults host.old) (H.read_faults host.new) }
    ensures unread { IsErrOf result Stop.ReadFault → IsTrue (H.tells host.old) →
        IsUnread (RunInputs (inputs_of inputs.now))
        (H.read_faults host.old) (H.read_faults host.new) (H.content host.old) }
    ensures no_write { IsErrOf result Stop.WriteFault → ⊥ }
    ensures files { SameFiles (H.content host.old) (H.content host.new) }
    ensures later { IsLater H.tells H.read_faults H.write_faults host.old host.new }
{
    let tables = read_rules(alloc, inputs.rules, host)?;
    let script = read_script_file(alloc, inputs.script, host)?;
    let capture = read_capture_file(alloc, inputs.capture, host)?;
    Ok(Made {
        tables,
        script,
        capture,
    })
}

/// Reads a file whole, where it is within its limit.
pub(crate) fn read_file<H: Host>(
    alloc: Global,
    name: &str,
    host: &mut H,
    most: u64,
    limit: Limit,
) -> Result<Vec<u8>, Stop>
    ensures bytes { IfOk result (λ bytes. IsTrue (H.tells host.old) →
        H.content host.old name.now ≡ Some bytes.items) }
    ensures within { IfOk result (λ bytes. length bytes.items ≤ most) }
    ensures why { IfRefused result (λ why. why ≡ refusal.TooLarge limit) }
    ensures kind { IfRefused result (λ why. IsOfInputs why) }
    ensures refused { IfRefused result (λ _. IsTrue (H.tells host.old) →
        IsSomeAnd (H.content host.old name.now) (λ text. most < length text)) }
    ensures read_fault { IsErrOf result Stop.ReadFault →
        Rises (H.read_faults host.old name.now) (H.read_faults host.new name.now) }
    ensures no_write { IsErrOf result Stop.WriteFault → ⊥ }
    ensures files { SameFiles (H.content host.old) (H.content host.new) }
    ensures later { IsLater H.tells H.read_faults H.write_faults host.old host.new }
{
    match read_whole(alloc, host, name, most) {
        Ok(bytes) => Ok(bytes),
        Err(fault) => Err(Stop::of_read(limit, fault)),
    }
}

/// Reads the rules.
fn read_rules<H: Host>(alloc: Global, name: &str, host: &mut H) -> Result<Tables, Stop>
    ensures found { IfOk result (λ tables. IsTrue (H.tells host.old) →
        Said RulesSay (H.content host.old name.now) (Ok tables)) }
    ensures kind { IfRefused result (λ why. IsOfInputs why) }
    ensures refused { IfRefused result (λ why. IsTrue (H.tells host.old) →
        Said RulesSay (H.content host.old name.now) (Err why)) }
    ensures only { (said : Result RuleTables ARefusal) → IsTrue (H.tells host.old) →
        Said RulesSay (H.content host.old name.now) said → Agrees result said }
    ensures read_fault { IsErrOf result Stop.ReadFault →
        Rises (H.read_faults host.old name.now) (H.read_faults host.new name.now) }
    ensures no_write { IsErrOf result Stop.WriteFault → ⊥ }
    ensures files { SameFiles (H.content host.old) (H.content host.new) }
    ensures later { IsLater H.tells H.read_faults H.write_faults host.old host.new }
{
    let bytes = read_file(alloc, name, host, MAX_TEXT, Limit::Rules)?;
    match read_tables(alloc, &bytes) {
        Ok(tables) => Ok(tables),
        Err(fault) => Err(Stop::of_rules(fault)),
    }
}

/// Reads the script.
fn read_script_file<H: Host>(alloc: Global, name: &str, host: &mut H) -> Result<Script, Stop>
    ensures found { IfOk result (λ script. IsTrue (H.tells host.old) →
        Said ScriptSays (H.content host.old name.now) (Ok script)) }
    ensures script { IfOk result IsScript }
    ensures kind { IfRefused result (λ why. IsOfInputs why) }
    ensures refused { IfRefused result (λ why. IsTrue (H.tells host.old) →
        Said ScriptSays (H.content host.old name.now) (Err why)) }
    ensures only { (said : Result ScriptValue ARefusal) → IsTrue (H.tells host.old) →
        Said ScriptSays (H.content host.old name.now) said → Agrees result said }
    ensures read_fault { IsErrOf result Stop.ReadFault →
        Rises (H.read_faults host.old name.now) (H.read_faults host.new name.now) }
    ensures no_write { IsErrOf result Stop.WriteFault → ⊥ }
    ensures files { SameFiles (H.content host.old) (H.content host.new) }
    ensures later { IsLater H.tells H.read_faults H.write_faults host.old host.new }
{
    let bytes = read_file(alloc, name, host, MAX_TEXT, Limit::Script)?;
    match read_script(alloc, &bytes) {
        Ok(script) => Ok(script),
        Err(fault) => Err(Stop::of_script(fault)),
    }
}

/// Reads the capture. Its frames are cuts of the file's bytes: none are copied.
fn read_capture_file<H: Host>(alloc: Global, name: &str, host: &mut H) -> Result<Capture, Stop>
    ensures found { IfOk result (λ capture. IsTrue (H.tells host.old) →
        Said CaptureSays (H.content host.old name.now) (Ok capture)) }
    ensures frames { IfOk result (λ capture. length capture.frames ≤ most_frames) }
    ensures held { IfOk result IsHeld }
    ensures kind { IfRefused result (λ why. IsOfInputs why) }
    ensures refused { IfRefused result (λ why. IsTrue (H.tells host.old) →
        Said CaptureSays (H.content host.old name.now) (Err why)) }
    ensures only { (said : Result ACapture ARefusal) → IsTrue (H.tells host.old) →
        Said CaptureSays (H.content host.old name.now) said → Agrees result said }
    ensures read_fault { IsErrOf result Stop.ReadFault →
        Rises (H.read_faults host.old name.now) (H.read_faults host.new name.now) }
    ensures no_write { IsErrOf result Stop.WriteFault → ⊥ }
    ensures files { SameFiles (H.content host.old) (H.content host.new) }
    ensures later { IsLater H.tells H.read_faults H.write_faults host.old host.new }
{
    let bytes = read_file(alloc, name, host, MAX_CAPTURE, Limit::Capture)?;
    let file = Bytes::from_vec(bytes).map_err(|_| NoMemory)?;
    capture_of(alloc, &file)
}

/// The capture that these bytes are the file of, of at most 200,000 frames.
fn capture_of(alloc: Global, file: &Bytes) -> Result<Capture, Stop>
    requires { length file.now ≤ capture_limit }
    ensures found { IfOk result (λ capture. CaptureSays file.now (Ok capture)) }
    ensures frames { IfOk result (λ capture. length capture.frames ≤ most_frames) }
    ensures held { IfOk result IsHeld }
    ensures kind { IfRefused result (λ why. IsOfInputs why) }
    ensures refused { IfRefused result (λ why. CaptureSays file.now (Err why)) }
    ensures only { (said : Result ACapture ARefusal) → CaptureSays file.now said →
        Agrees result said }
    ensures no_read { IsErrOf result Stop.ReadFault → ⊥ }
    ensures no_write { IsErrOf result Stop.WriteFault → ⊥ }
{
    let capture = match read_shared_capture(alloc, file) {
        Ok(capture) => capture,
        Err(fault) => return Err(Stop::of_capture(fault)),
    };
    if capture.frames.len() <= MAX_FRAMES {
        Ok(capture)
    } else {
        Err(Stop::too_large(Limit::Records))
    }
}

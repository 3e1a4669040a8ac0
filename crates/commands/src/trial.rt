//! The command `trial`: the run on generated inputs, in memory, of which the counts are printed.

ghost use Rattle.std.specs.Prelude.{IfOk, OnErr, IsErrOf};
ghost use Rattle.host_io.specs.Host.{IsLater, SameFiles};
ghost use Rattle.command_line.specs.Arguments.{IsSample, sample_of, trial_outputs, Tries};
ghost use Rattle.run_files.specs.Files.{OthersStay};
ghost use Rattle.commands.specs.Ending.{IsEnded, span};
ghost use Rattle.commands.specs.Headline.{IsCounted};

use crate::account::histories_of;
use command_line::Sample;
use fate_ledger::{counts_text, fates};
use host_io::{Host, write_whole};
use packet_entry::NoMemory;
use run_files::{STANDARD_OUTPUT, Stop};
use std::alloc::Global;

/// Makes the run and prints its counts.
pub fn try_out<H: Host>(alloc: Global, sample: Sample, host: &mut H) -> Result<(), Stop>
    requires sample { IsSample (sample_of sample) }
    ensures ended { IsEnded (Tries (sample_of sample))
        (span H.tells H.content H.read_faults H.write_faults host.old host.new) result }
    ensures untouched { OnErr result (¬ IsErrOf result Stop.WriteFault →
        SameFiles (H.content host.old) (H.content host.new)) }
    ensures others { OthersStay trial_outputs (H.content host.old) (H.content host.new) }
    ensures later { IsLater H.tells H.read_faults H.write_faults host.old host.new }
{
    let counts = counts_of(alloc, sample)?;
    write_whole(host, STANDARD_OUTPUT, &counts)?;
    Ok(())
}

/// How many packets of the run have each fate.
fn counts_of(alloc: Global, sample: Sample) -> Result<Vec<u8>, NoMemory>
    requires sample { IsSample (sample_of sample) }
    ensures { IfOk result (λ text. IsCounted (sample_of sample) text.items) }
{
    let tables = generated::tables(alloc)?;
    let script = generated::script(alloc)?;
    let capture = generated::capture(alloc, sample.number, sample.count)?;
    let histories = histories_of(alloc, &script, tables, &capture)?;
    let lines = fates(alloc, &capture, &histories)?;
    // The histories are the largest part: they end here.
    drop(histories);
    let mut counts = Vec::new(alloc);
    counts_text(alloc, &lines, &mut counts)?;
    Ok(counts)
}

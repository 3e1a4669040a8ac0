//! Lines for standard output.

ghost use Rattle.std.specs.Prelude.{IsTrue};
ghost use Rattle.host_io.specs.Host.{ChangesOnly, IsLater};
ghost use Rattle.command_line.specs.Arguments.{standard_output};
ghost use Rattle.run_files.specs.Files.{IsPrinted};
ghost use Rattle.run_files.specs.Printed.{usage_line};

use host_io::{Host, write_whole};

/// The name of standard output.
pub const STANDARD_OUTPUT: &str = "-";

/// All commands with their arguments.
const USAGE_LINE: &str = "usage: play RULES SCRIPT IN OUT LEDGER JOURNAL \
    | live RULES SCRIPT IN OUT LEDGER JOURNAL PLACES [FEEDERS [POOL]] \
    | list RULES SCRIPT IN OUT | gen NUMBER COUNT RULES SCRIPT IN | trial NUMBER COUNT \
    | migrate OLD NEW \
    | audit RULES SCRIPT IN JOURNAL\n";

/// Prints a line. That it can't be printed changes no status, and so nothing is answered.
pub fn print<H: Host>(host: &mut H, line: &str)
    ensures printed { IsTrue (H.tells host.old) → IsPrinted line.now
        (H.write_faults host.old) (H.write_faults host.new) (H.content host.new) }
    ensures files { ChangesOnly standard_output (H.content host.old) (H.content host.new) }
    ensures later { IsLater H.tells H.read_faults H.write_faults host.old host.new }
{
    let _ = write_whole(host, STANDARD_OUTPUT, line.as_bytes());
}

/// Prints how the program is called.
pub fn print_usage<H: Host>(host: &mut H)
    ensures printed { IsTrue (H.tells host.old) → IsPrinted usage_line
        (H.write_faults host.old) (H.write_faults host.new) (H.content host.new) }
    ensures files { ChangesOnly standard_output (H.content host.old) (H.content host.new) }
    ensures later { IsLater H.tells H.read_faults H.write_faults host.old host.new }
{
    print(host, USAGE_LINE)
}

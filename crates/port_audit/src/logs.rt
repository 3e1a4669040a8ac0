//! The logs of a script's ports.

ghost use Rattle.std.specs.Prelude.{◌≡◌, nat_eq, option_map, IfOk};
ghost use Rattle.std.specs.List.{list_any};
ghost use Rattle.histories.specs.declared.log.PortLog.{PortLog};
ghost use Rattle.run_parts.specs.Ports.{log_of};

use histories::{Dids, Logs};

/// Whether a port is one of these.
pub(crate) fn is_among(ports: &[u32], port: u32) -> bool
    ensures { result ≡ list_any (nat_eq port) ports.now }
{
    for &other in ports {
        if port == other {
            return true;
        }
    }
    false
}

/// What the first log of a port says that it did.
pub fn log_of(logs: &Logs, port: u32) -> Option<&Dids>
    ensures { option_map (λ dids. dids.now) result ≡ log_of port logs.now }
{
    for log in logs {
        if port == log.port {
            return Some(&log.dids);
        }
    }
    None
}

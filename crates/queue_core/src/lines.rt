//! The tables of what ports ask: which line of them applies.

ghost use Rattle.std.specs.Prelude.{◌≡◌, ◌||◌, ℕ, Option, IfSome, IfNone, IfOk, IfErr, false};
ghost use Rattle.std.specs.Prelude.{option_map};
ghost use Rattle.nfqa_headers.specs.declared.params.Params.{Params};
ghost use Rattle.queue_core.specs.State.{Bound};
ghost use Rattle.queue_core.specs.Decision as decision;
ghost use Rattle.nfqa_msgs.specs.Numbers.{command_pf_bind, command_pf_unbind};
ghost use Rattle.queue_core.specs.Step.{config, unchanged, are_flags_refused, is_command};
ghost use Rattle.queue_core.specs.Lines.{IsConfigLine, IsAllowed, IsRefused};

use crate::decision::{STOLEN, STOP, VERDICT_MASK};
use crate::errno::{EBUSY, ENODEV, EPERM};
use nfqa_msgs::{BIND, EINVAL, EOPNOTSUPP, Head, PF_BIND, PF_UNBIND, UNBIND};

/// The flags of a config request from this one on are unknown. (`NFQA_CFG_F_MAX`)
const FIRST_UNKNOWN_FLAG: u32 = 32;

/// The flags that aren't supported: `NFQA_CFG_F_CONNTRACK` and `NFQA_CFG_F_SECCTX`.
const REFUSED_FLAGS: u32 = 2 | 16;

/// What a config request comes to.
pub enum ConfigLine {
    /// It is answered, and changes nothing.
    Answered { errno: u16 },
    /// The queue ends, with all that waits in it destroyed.
    Ends,
    /// A new queue is bound to the sender, and set up.
    Binds,
    /// The bound queue is set up.
    SetsUp,
}

/// The first line of a config request's table that applies. `bound` is the port that the queue is
/// bound to, `None` where the queue is absent; `port` is the one that asks.
pub fn config_line(
    bound: Option<u32>,
    port: u32,
    command: Option<u8>,
    flags: Option<u32>,
    mask: Option<u32>,
) -> ConfigLine
    ensures { (q : Option Bound) (params : Option Params) (maximum : Option ℕ) →
        option_map (λ (b : Bound). b.port) q ≡ bound →
        IsConfigLine result q port (record {
          command = command;
          params = params;
          maximum = maximum;
          flags = flags;
          mask = mask;
        }) }
{
    // A family is bound or unbound: no effect.
    if command == Some(PF_BIND) || command == Some(PF_UNBIND) {
        return ConfigLine::Answered { errno: 0 };
    }
    // The flags are refused.
    if let Some(errno) = refused_flags(flags, mask) {
        return ConfigLine::Answered { errno };
    }
    match (bound, command) {
        // The queue is bound to another port.
        (Some(bound), _) if bound != port => ConfigLine::Answered { errno: EPERM },
        // It is bound already.
        (Some(_), Some(BIND)) => ConfigLine::Answered { errno: EBUSY },
        // There is none to be unbound.
        (None, Some(UNBIND)) => ConfigLine::Answered { errno: ENODEV },
        (Some(_), Some(UNBIND)) => ConfigLine::Ends,
        (None, Some(BIND)) => ConfigLine::Binds,
        // Any other command.
        (_, Some(_)) => ConfigLine::Answered { errno: EOPNOTSUPP },
        // There is none to be set up.
        (None, None) => ConfigLine::Answered { errno: ENODEV },
        (Some(_), None) => ConfigLine::SetsUp,
    }
}

/// Why the flags and the mask of a config request are refused, whatever the queue.
fn refused_flags(flags: Option<u32>, mask: Option<u32>) -> Option<u16>
    ensures allowed { IfNone result (are_flags_refused flags mask ≡ false) }
    ensures refused { IfSome result (λ errno. (q : Option Bound) (port : ℕ)
        (command : Option ℕ) (params : Option Params) (maximum : Option ℕ) →
        (is_command command_pf_bind command || is_command command_pf_unbind command) ≡ false →
        config q port (record {
          command = command;
          params = params;
          maximum = maximum;
          flags = flags;
          mask = mask;
        }) ≡ unchanged q errno) }
{
    let flags = flags?;
    // Flags without a mask.
    let Some(mask) = mask else {
        return Some(EINVAL);
    };
    // Flags that nobody knows.
    if flags >= FIRST_UNKNOWN_FLAG {
        return Some(EOPNOTSUPP);
    }
    // Connection tracking, or the security context.
    if flags & mask & REFUSED_FLAGS != 0 {
        return Some(EOPNOTSUPP);
    }
    None
}

/// Whether a verdict or a batch is carried out: allowed with this header, or refused with this
/// error. `bound` is the port that the queue is bound to, `None` where the queue is absent; `port`
/// is the one that asks.
pub fn ruling(bound: Option<u32>, port: u32, head: Option<Head>) -> Result<Head, u16>
    ensures allowed { IfOk result (λ allowed. (q : Option Bound) →
        option_map (λ (b : Bound). b.port) q ≡ bound → IsAllowed q port head allowed) }
    ensures refused { IfErr result (λ errno. (q : Option Bound) →
        option_map (λ (b : Bound). b.port) q ≡ bound → IsRefused q port head errno) }
{
    // There is no such queue.
    let Some(bound) = bound else {
        return Err(ENODEV);
    };
    // It is bound to another port.
    if bound != port {
        return Err(EPERM);
    }
    // There is no header, or its verdict isn't known or is `STOLEN`.
    match head {
        Some(head) if is_verdict(head.verdict) => Ok(head),
        _ => Err(EINVAL),
    }
}

/// Whether a verdict is known, and isn't `STOLEN`.
fn is_verdict(verdict: u32) -> bool
    ensures { result ≡ decision.is_verdict verdict }
{
    let kind = verdict % (VERDICT_MASK + 1);
    kind <= STOP && kind != STOLEN
}

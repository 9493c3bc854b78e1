//! The line of the verdict of an event on a device interface or on trusted memory.

ghost use Rattle.std.specs.Prelude.{◌≡◌, ◌++◌, IfOk, string_bytes};
ghost use Rattle.std.specs.Fmt.{decimal};
ghost use Rattle.ide_types.specs.Names.{joined_words};
ghost use Rattle.event_verdicts.specs.Words.{bytes_word};
ghost use Rattle.event_verdicts.specs.InterfaceLines.{interface_words, IsInterfaceRefusal, ShowsBytes};

use ide_types::{Bytes, InterfaceVerdict};
use std::alloc::{AllocError, Global};

pub(crate) fn bytes_text(alloc: Global, bytes: &Bytes) -> Result<String, AllocError>
    ensures { IfOk result (λ s. string_bytes s ≡ bytes_word bytes.now) }
{
    match bytes.as_slice() {
        [] => String::from_str(alloc, "-"),
        bytes => hex::encode(alloc, bytes),
    }
}

fn shown_text(alloc: Global, number: u64, verdict: &InterfaceVerdict) -> Result<String, AllocError>
    requires { ShowsBytes verdict.now }
    ensures { IfOk result (λ s. string_bytes s ≡ decimal number ++ joined_words (interface_words verdict.now)) }
{
    match verdict {
        InterfaceVerdict::Locked { interface, nonce } => {
            let nonce = hex::encode(alloc, nonce)?;
            format!(in alloc; "{number} locked {interface} {nonce}\n")
        }
        InterfaceVerdict::Reported { interface, report } => {
            let report = bytes_text(alloc, report)?;
            format!(in alloc; "{number} reported {interface} {report}\n")
        }
        InterfaceVerdict::Memory { bytes } => {
            let bytes = bytes_text(alloc, bytes)?;
            format!(in alloc; "{number} memory {bytes}\n")
        }
        _ => unreachable!(),
    }
}

fn refused_text(
    alloc: Global,
    number: u64,
    verdict: &InterfaceVerdict,
) -> Result<String, AllocError>
    requires { IsInterfaceRefusal verdict.now }
    ensures { IfOk result (λ s. string_bytes s ≡ decimal number ++ joined_words (interface_words verdict.now)) }
{
    match verdict {
        InterfaceVerdict::RefusedWrongState { view } => format!(in alloc;
            "{number} refused wrongstate {view}\n"
        ),
        InterfaceVerdict::RefusedNotReported => format!(in alloc; "{number} refused notreported\n"),
        InterfaceVerdict::RefusedRefreshFirst { draw, needed } => format!(in alloc;
            "{number} refused refreshfirst {draw} {needed}\n"
        ),
        _ => unreachable!(),
    }
}

pub(crate) fn interface_text(
    alloc: Global,
    number: u64,
    verdict: &InterfaceVerdict,
) -> Result<String, AllocError>
    ensures { IfOk result (λ s. string_bytes s ≡ decimal number ++ joined_words (interface_words verdict.now)) }
{
    match verdict {
        InterfaceVerdict::Locked { .. }
        | InterfaceVerdict::Reported { .. }
        | InterfaceVerdict::Memory { .. } => shown_text(alloc, number, verdict),
        InterfaceVerdict::Started { interface, draw } => format!(in alloc;
            "{number} started {interface} draw {draw}\n"
        ),
        InterfaceVerdict::Halted { interface, needs } => format!(in alloc;
            "{number} halted {interface} needs {needs}\n"
        ),
        InterfaceVerdict::Bound { interface, line } => {
            let peer = line.saturating_sub(24);
            format!(in alloc; "{number} bound {interface} {peer}\n")
        }
        InterfaceVerdict::Unbound { interface, line } => {
            let peer = line.saturating_sub(24);
            format!(in alloc; "{number} unbound {interface} {peer}\n")
        }
        InterfaceVerdict::State { interface, state } => format!(in alloc;
            "{number} state {interface} {state}\n"
        ),
        InterfaceVerdict::View { interface, view } => format!(in alloc;
            "{number} view {interface} {view}\n"
        ),
        InterfaceVerdict::Written { interface, state } => format!(in alloc;
            "{number} written {interface} {state}\n"
        ),
        InterfaceVerdict::Flr { interface, state } => format!(in alloc;
            "{number} flr {interface} {state}\n"
        ),
        InterfaceVerdict::Firmware { interface, state } => format!(in alloc;
            "{number} firmware {interface} {state}\n"
        ),
        _ => refused_text(alloc, number, verdict),
    }
}

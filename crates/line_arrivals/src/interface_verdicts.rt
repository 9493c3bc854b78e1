//! The verdicts of operations on interfaces.

ghost use Rattle.std.specs.Prelude.{◌≡◌};
ghost use Rattle.join_interfaces.specs.Verdicts.{verdict_of_shown, refused_as, outcome_verdict};

use crate::stream_verdicts::lost_verdict;
use event_verdicts::Verdict;
use ide_types::{Bytes, InterfaceVerdict};
use interface_host::{InterfaceOutcome, InterfaceRefusal, InterfaceResult};
use script_events::Loss;

fn of_interface(verdict: InterfaceVerdict) -> Verdict
    ensures { result ≡ Verdict.Interface verdict }
{
    Verdict::Interface { verdict }
}

// What an operation on an interface shows at its end; a report that was read is this one.
fn shown(interface: u8, shown: InterfaceResult, report: Bytes) -> Verdict
    ensures { result ≡ verdict_of_shown interface report shown }
{
    of_interface(match shown {
        InterfaceResult::Nonce(nonce) => InterfaceVerdict::Locked { interface, nonce },
        InterfaceResult::Report => InterfaceVerdict::Reported { interface, report },
        InterfaceResult::Draw(draw) => InterfaceVerdict::Started { interface, draw },
        InterfaceResult::Needs(needs) => InterfaceVerdict::Halted { interface, needs },
        InterfaceResult::State(state) => InterfaceVerdict::State { interface, state },
        InterfaceResult::Bound(line) => InterfaceVerdict::Bound { interface, line },
        InterfaceResult::Unbound(line) => InterfaceVerdict::Unbound { interface, line },
    })
}

fn refused(loss: Option<Loss>, refusal: InterfaceRefusal) -> Option<Verdict>
    ensures { result ≡ refused_as loss refusal }
{
    match refusal {
        InterfaceRefusal::WrongState(view) => {
            Some(of_interface(InterfaceVerdict::RefusedWrongState { view }))
        }
        InterfaceRefusal::NotReported => Some(of_interface(InterfaceVerdict::RefusedNotReported)),
        InterfaceRefusal::NotSecure(status) => Some(Verdict::RefusedNotSecure { status }),
        InterfaceRefusal::RefreshFirst(draw, needed) => Some(of_interface(
            InterfaceVerdict::RefusedRefreshFirst { draw, needed },
        )),
        InterfaceRefusal::SessionLost(exchange) => lost_verdict(loss, exchange),
        InterfaceRefusal::DeviceRefused(exchange, code) => Some(Verdict::RefusedDevice {
            exchange,
            code,
        }),
        InterfaceRefusal::BadReply(_) => None,
    }
}

/// The verdict of an operation on the interface of this number; a report that was read is this one. None is
/// made up for an operation that is neither at its end nor refused, for a bad reply, and for an exchange that is lost
/// without the loss of a message.
pub fn asked_verdict(
    interface: u8,
    loss: Option<Loss>,
    outcome: InterfaceOutcome,
    report: Bytes,
) -> Option<Verdict>
    ensures { result ≡ outcome_verdict interface loss report outcome }
{
    match outcome {
        InterfaceOutcome::Next => None,
        InterfaceOutcome::Done(value) => Some(shown(interface, value, report)),
        InterfaceOutcome::Refused(refusal) => refused(loss, refusal),
    }
}

//! The verdicts of operations on streams.

ghost use Rattle.std.specs.Prelude.{◌≡◌};
ghost use Rattle.std.specs.Option.{option_map};
ghost use Rattle.spec_keys.specs.Due.{lost_at as verdict_lost, lost_message};
ghost use Rattle.key_host.specs.Operations.{op_name};
ghost use Rattle.key_host.specs.Walk.{shown_verdict as verdict_shown, key_refusal_verdict as verdict_refused};
ghost use Rattle.key_host.specs.Walk.{verdict_of};

use all_ends::lost_at;
use event_verdicts::{Operation, Verdict};
use ide_types::LineKind;
use key_host::{NamedOperation, StreamOutcome, StreamRefusal, StreamResult};
use script_events::{Loss, Lost};

/// An operation on a stream of a line.
pub fn named_op(operation: Operation, line: u8, stream: u8) -> NamedOperation
    ensures { op_name result ≡ record { operation = operation; line = line; stream = stream } }
{
    match operation {
        Operation::Establish => NamedOperation::Establish(line, stream),
        Operation::Refresh => NamedOperation::Refresh(line, stream),
        Operation::Stop => NamedOperation::Stop(line, stream),
    }
}

// What an operation shows at its end, if that is what it can show.
fn shown_verdict(operation: Operation, line: u8, stream: u8, shown: StreamResult) -> Option<Verdict>
    ensures { result ≡ verdict_shown operation line stream shown }
{
    match (operation, shown) {
        (Operation::Establish, StreamResult::Draw(draw)) => {
            Some(Verdict::Established { line, stream, draw })
        }
        (Operation::Refresh, StreamResult::Draw(draw)) => Some(Verdict::Refreshed {
            line,
            stream,
            draw,
        }),
        (Operation::Stop, StreamResult::Stopped) => Some(Verdict::Stopped { line, stream }),
        _ => None,
    }
}

/// The verdict of an exchange that was lost, if the loss of a message is what lost it.
pub fn lost_verdict(loss: Option<Loss>, exchange: u32) -> Option<Verdict>
    ensures { result ≡ option_map (λ lost. verdict_lost lost exchange) (lost_message loss exchange) }
{
    match lost_at(loss, exchange) {
        None => None,
        Some(Lost::Request) => Some(Verdict::LostRequest { exchange }),
        Some(Lost::Reply) => Some(Verdict::LostReply { exchange }),
    }
}

// On a stream of this line.
fn refusal_verdict(line: u8, loss: Option<Loss>, refusal: StreamRefusal) -> Option<Verdict>
    ensures { result ≡ verdict_refused line loss refusal }
{
    match refusal {
        StreamRefusal::NotIdle => Some(Verdict::RefusedNotIdle),
        StreamRefusal::NotSecure(status) => Some(Verdict::RefusedNotSecure { status }),
        StreamRefusal::PoolEmpty(draws) => Some(Verdict::RefusedPoolEmpty { draws }),
        StreamRefusal::SessionLost(exchange) => lost_verdict(loss, exchange),
        StreamRefusal::DeviceRefused(exchange, code) => Some(Verdict::RefusedDevice {
            exchange,
            code,
        }),
        StreamRefusal::BadReply(_) => None,
        StreamRefusal::Busy(operation) => Some(Verdict::RefusedBusy {
            kind: LineKind::of_line(line),
            operation,
        }),
        StreamRefusal::UnitOpen(sub) => Some(Verdict::RefusedUnitOpen { sub }),
    }
}

/// The verdict of an operation's event on a stream of a line (this profile). None is made up for an operation that is
/// neither at its end nor refused, for a bad reply, and for an exchange that is lost without the loss of a message.
pub fn operated_verdict(
    operation: Operation,
    line: u8,
    stream: u8,
    loss: Option<Loss>,
    outcome: StreamOutcome,
) -> Option<Verdict>
    ensures { result ≡ verdict_of operation line stream loss outcome }
{
    match outcome {
        StreamOutcome::Next => None,
        StreamOutcome::Done(shown) => shown_verdict(operation, line, stream, shown),
        StreamOutcome::Refused(refusal) => refusal_verdict(line, loss, refusal),
    }
}

//! The exchanges of the operations.

ghost use Rattle.std.specs.Prelude.{◌≡◌};
ghost use Rattle.interface_host.specs.Steps.{first_step, exchange_number};

use crate::operation::{InterfaceOperation, PeerStream};

/// An exchange with the device: lock has three, report as many as the report has portions, each other operation one
/// (TDISP section 11.3).
#[derive(Clone, Copy, PartialEq, Eq)]
pub enum Step {
    Version,
    Capabilities,
    Lock,
    Report,
    Start,
    Halt,
    State,
    Bind(PeerStream),
    Unbind(PeerStream),
}

/// The first exchange of an operation.
pub(crate) fn first_step(op: InterfaceOperation) -> Step
    ensures { result ≡ first_step op }
{
    match op {
        InterfaceOperation::Lock => Step::Version,
        InterfaceOperation::Report => Step::Report,
        InterfaceOperation::Start => Step::Start,
        InterfaceOperation::Halt => Step::Halt,
        InterfaceOperation::State => Step::State,
        InterfaceOperation::Bind(peer) => Step::Bind(peer),
        InterfaceOperation::Unbind(peer) => Step::Unbind(peer),
    }
}

impl Step {
    ghost use Rattle.interface_host.specs.Steps.{next_step};

    /// The exchange after this one, if the operation goes on.
    pub(crate) fn next(self) -> Step
        ensures { result ≡ next_step self }
    {
        match self {
            Step::Version => Step::Capabilities,
            Step::Capabilities => Step::Lock,
            step => step,
        }
    }
}

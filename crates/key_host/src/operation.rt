//! Operations of the manager, and what becomes of them (this profile).

ghost use Rattle.std.specs.Prelude.{◌≡◌};
ghost use Rattle.key_host.specs.Operations.{op_name};

use event_verdicts::Operation;
use ide_types::{StreamStatus, SubKind};

/// An operation of the manager, by the line's number and the stream's ID.
#[derive(Clone, Copy, PartialEq, Eq)]
pub enum NamedOperation {
    /// Gives the stream keys, in key set 0.
    Establish(u8, u8),
    /// Gives the stream new keys, in the key set that is not current.
    Refresh(u8, u8),
    /// Takes the stream's keys away.
    Stop(u8, u8),
}

/// What became of a request: its reply, `None` if the device gave none, or the loss of either of them.
#[derive(Clone, Copy)]
pub enum ExchangeReply<'a> {
    Reply(Option<&'a [u8]>),
    Lost,
}

/// The outcome of an exchange: the operation's next one is to be asked; the operation is at its end; it stays where it
/// is until it is begun again.
#[derive(Clone, Copy, PartialEq, Eq)]
pub enum StreamOutcome {
    Next,
    Done(StreamResult),
    Refused(StreamRefusal),
}

/// What an operation shows at its end.
#[derive(Clone, Copy, PartialEq, Eq)]
pub enum StreamResult {
    /// The draw whose keys the stream has from now on.
    Draw(u32),
    /// The stream has no keys.
    Stopped,
}

/// Why an operation does not begin, or does not go on now. Exchanges are numbered from 1.
#[derive(Clone, Copy, PartialEq, Eq)]
pub enum StreamRefusal {
    /// Of establish: the stream has keys.
    NotIdle,
    /// Of refresh: the stream is not Secure at the host's port, and what it is there.
    NotSecure(StreamStatus),
    /// All draws were made; how many they are.
    PoolEmpty(u32),
    /// The request or the reply of this exchange was lost.
    SessionLost(u32),
    /// The device refused this exchange, with this code.
    DeviceRefused(u32, u32),
    /// The reply to this exchange is neither the expected one nor a refusal.
    BadReply(u32),
    /// This other operation of the stream is unfinished.
    Busy(Operation),
    /// Of refresh: a unit of the sub-stream is unfinished at the host's port under the key set that is to be given.
    UnitOpen(SubKind),
}

impl NamedOperation {
    /// The operation, without the stream.
    pub fn operation(self) -> Operation
        ensures { result ≡ (op_name self).operation }
    {
        match self {
            NamedOperation::Establish(..) => Operation::Establish,
            NamedOperation::Refresh(..) => Operation::Refresh,
            NamedOperation::Stop(..) => Operation::Stop,
        }
    }

    /// The number of the line.
    pub fn line(self) -> u8
        ensures { result ≡ (op_name self).line }
    {
        match self {
            NamedOperation::Establish(line, _)
            | NamedOperation::Refresh(line, _)
            | NamedOperation::Stop(line, _) => line,
        }
    }

    /// The ID of the stream.
    pub fn stream(self) -> u8
        ensures { result ≡ (op_name self).stream }
    {
        match self {
            NamedOperation::Establish(_, stream)
            | NamedOperation::Refresh(_, stream)
            | NamedOperation::Stop(_, stream) => stream,
        }
    }
}

//! Operations of the manager on interfaces, and what becomes of them (this profile).

use ide_types::{StreamStatus, View};

/// An operation on an interface. Each begins anew whenever it is asked for (TDISP section 11.3).
#[derive(Clone, Copy, PartialEq, Eq)]
pub enum InterfaceOperation {
    /// Locks the interface, and gets the nonce of the lock.
    Lock,
    /// Reads the report of the lock.
    Report,
    /// Starts the interface, by the nonce of its lock.
    Start,
    /// Stops and unlocks the interface.
    Halt,
    /// Asks for the state of the interface.
    State,
    /// Binds the interface to a stream between its device and another.
    Bind(PeerStream),
    /// Ends that binding.
    Unbind(PeerStream),
}

/// A stream between two devices, as the manager of keys has it.
#[derive(Clone, Copy, PartialEq, Eq)]
pub struct PeerStream {
    /// Its line, from 24 on.
    pub line: u8,
    /// Its ID.
    pub id: u8,
    /// Its draw.
    pub draw: u32,
}

/// The outcome of an exchange: the operation's next one is to be asked; the operation is at its end; it is over.
#[derive(Clone, Copy, PartialEq, Eq)]
pub enum InterfaceOutcome {
    Next,
    Done(InterfaceResult),
    Refused(InterfaceRefusal),
}

/// What an operation shows at its end.
#[derive(Clone, Copy, PartialEq, Eq)]
pub enum InterfaceResult {
    /// Of lock: the nonce.
    Nonce([u8; 32]),
    /// Of report: the report was read, and is lent by `Interfaces::report`.
    Report,
    /// Of start: the draw of the stream, below which nothing is trusted.
    Draw(u32),
    /// Of halt: the least draw that the next start wants.
    Needs(u32),
    /// Of state: the device's state, by its code.
    State(u8),
    /// Of bind: the interface is bound to the stream between devices of this line.
    Bound(u8),
    /// Of unbind: it is no longer bound to it.
    Unbound(u8),
}

/// Why an operation does not begin, or is over before its end. Exchanges are numbered from 1.
#[derive(Clone, Copy, PartialEq, Eq)]
pub enum InterfaceRefusal {
    /// The view does not allow it.
    WrongState(View),
    /// Of start: the report was not read since the lock.
    NotReported,
    /// The stream is not Secure, and what it is: the bound one at the host's port, one between devices as the manager
    /// of keys has it.
    NotSecure(StreamStatus),
    /// Of start and bind: the draw of the stream, and the least one that is wanted.
    RefreshFirst(u32, u32),
    /// The request or the reply of this exchange was lost.
    SessionLost(u32),
    /// The device refused this exchange, with this code.
    DeviceRefused(u32, u32),
    /// The reply to this exchange is neither the expected one nor a refusal.
    BadReply(u32),
}

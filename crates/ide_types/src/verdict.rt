//! The verdicts of events that name an interface or trusted memory.

use crate::{Bytes, View};

/// The verdict of an event on a device interface or on trusted memory, but for the verdicts that operations on streams
/// have as well (this profile). Interfaces are numbered from 0 over all links.
#[derive(Drop)]
pub enum InterfaceVerdict {
    /// The device locked the interface and gave this nonce.
    Locked { interface: u8, nonce: [u8; 32] },
    /// The interface's report, from its first byte to its last.
    Reported { interface: u8, report: Bytes },
    /// The device runs the interface; the draw is that of its stream.
    Started { interface: u8, draw: u32 },
    /// The device stopped the interface; it may be started again under this draw or a later one.
    Halted { interface: u8, needs: u32 },
    /// The device bound the interface to the stream of this line, which is between two devices.
    Bound { interface: u8, line: u8 },
    /// The device ended that binding.
    Unbound { interface: u8, line: u8 },
    /// The state that the device tells: 0 unlocked, 1 locked, 2 run, 3 error.
    State { interface: u8, state: u8 },
    /// The manager's view.
    View { interface: u8, view: View },
    /// A register was written; the state is the device's after it.
    Written { interface: u8, state: u8 },
    /// A function level reset; the state is the device's after it.
    Flr { interface: u8, state: u8 },
    /// A firmware update; the state is the device's after it.
    Firmware { interface: u8, state: u8 },
    /// Bytes of trusted memory, from the address that was asked for on.
    Memory { bytes: Bytes },
    /// The manager's view allows no such operation.
    RefusedWrongState { view: View },
    /// Of a start: the report was not read since the lock.
    RefusedNotReported,
    /// Of a start: the stream's draw may have served an earlier run of the interface, so the stream needs a refresh
    /// first; `needed` is the least draw that is wanted.
    RefusedRefreshFirst { draw: u32, needed: u32 },
}

//! The verdicts of events on trusted reads and on guarded memory.

use crate::BlockCause;
use ide_types::Bytes;

/// The verdict of an event on a trusted read or on a device's guarded memory, but for the verdicts that other events
/// have as well (this profile). Interfaces are numbered from 0 over all links.
#[derive(Drop)]
pub enum AccessVerdict {
    /// No trusted read of the link waits.
    Empty { link: u8 },
    /// The oldest read that waited is not answered, for this cause, and waits no more; it was the interface's.
    Dropped { interface: u8, cause: BlockCause },
    /// Bytes of the range of a BAR, from the offset that was asked for on.
    Mmio { bytes: Bytes },
}

//! Why a stream seals nothing.

use ide_types::SubKind;

/// Why a TLP is not sealed (this profile). Nothing changes then.
#[derive(Clone, Copy, PartialEq, Eq)]
pub enum SendRefusal {
    /// The sub-stream, that of the TLP or one that needs a sync packet first, has no Live key.
    NoKey(SubKind),
    /// A unit of this sub-stream would begin, and its Live key has sealed as many as it may: so many.
    Worn(SubKind, u64),
    /// The posted unit is unfinished.
    Unfinished,
    /// The stream is insecure at the port.
    Insecure,
}

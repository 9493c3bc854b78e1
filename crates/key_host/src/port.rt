//! What the manager asks of a host's port.

ghost use Rattle.std.specs.Prelude.{◌≡◌, ℕ, Option};
ghost use Rattle.ide_types.specs.declared.key_set.KeySet.{KeySet};
ghost use Rattle.ide_types.specs.declared.status.StreamStatus.{StreamStatus};
ghost use Rattle.ide_types.specs.declared.sub.SubKind.{SubKind};

use ide_types::{KeySet, StreamStatus, SubKind};
use key_messages::SlotPort;

/// The host's port of a line: its slots are called locally, which is no exchange (PCI Express Base 6.0 section 6.33,
/// in this profile).
pub trait HostPort: SlotPort {
    /// The state of a stream, if the port has it.
    ghost status_of: { Self → ℕ → Option StreamStatus };

    /// The key set of the Live slot of a stream's sender in a sub-stream, if one is Live.
    ghost live_of: { Self → ℕ → SubKind → Option KeySet };

    /// The state of a stream; `None` if the port has no such stream.
    fn status(&self, stream: u8) -> Option<StreamStatus>
        ensures { result ≡ status_of self.now stream };

    /// The key set of the Live slot of a stream's sender in a sub-stream; `None` if none is Live.
    fn live_set(&self, stream: u8, sub: SubKind) -> Option<KeySet>
        ensures { result ≡ live_of self.now stream sub };
}

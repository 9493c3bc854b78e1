//! What is seen of a stream for the manager.

use ide_types::KeySet;

/// The state of a stream for the manager, without keys: it has none; it is being keyed with a draw in set 0; it has the
/// keys of a draw in a set; it is being given those of a draw in a set; its keys are being taken away. `next` is the
/// number of the exchange that is next, from 1 (this profile).
#[derive(Clone, Copy, PartialEq, Eq)]
pub enum StageFacts {
    Idle,
    Establishing { draw: u32, next: u8 },
    Up { set: KeySet, draw: u32 },
    Refreshing { set: KeySet, draw: u32, next: u8 },
    Stopping { next: u8 },
}

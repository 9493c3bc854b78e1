//! The places of a port's key slots.

use ide_types::Direction;

/// One sub-stream of a stream in one direction, as the objects of key management name it (PCI Express Base 6.0 section
/// 6.33, in this profile). `sub` is 0 for posted, 1 for non-posted requests and 2 for completions, and no port has
/// others.
#[derive(Clone, Copy, PartialEq, Eq)]
pub struct Place {
    pub stream: u8,
    pub direction: Direction,
    pub sub: u8,
}

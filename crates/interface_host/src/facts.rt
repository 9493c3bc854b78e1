//! What is seen of an interface for the manager.

use ide_types::View;

/// What the manager keeps of an interface: the number of its link, the ID of its bound stream, the view, the draw of
/// that stream, the least draw that a start wants, and whether a start was asked since a lock was; of a lock whether
/// its report was read; of a run its floor, the least draw under which its requests are admitted (this profile).
#[derive(Clone, Copy, PartialEq, Eq)]
pub struct InterfaceFacts {
    pub link: u8,
    pub stream: u8,
    pub view: View,
    pub draw: u32,
    pub needs: u32,
    pub started: bool,
    pub reported: Option<bool>,
    pub floor: Option<u32>,
}

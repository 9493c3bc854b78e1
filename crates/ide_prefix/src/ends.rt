//! Where packets end.

/// The places, in bytes, at which a packet's head and body end in the bytes that are joined.
#[derive(Clone, Copy, Default)]
pub struct PacketEnds {
    pub head: usize,
    pub body: usize,
}

//! What senders and receivers answer (this profile).

use ide_types::{FailCause, SubKind};

/// A sealed packet as its prefix says, with its draw, its unit's counter and its length in bytes.
#[derive(Clone, Copy, Default, PartialEq, Eq)]
pub struct MeasuredPacket {
    pub stream: u8,
    pub sub: SubKind,
    pub draw: u32,
    /// The unit's counter under its draw, from 1.
    pub unit: u64,
    /// Whether it is its unit's last packet, which carries the tag.
    pub m: bool,
    /// The key set: 1 if true.
    pub k: bool,
    /// Whether it is trusted.
    pub t: bool,
    pub posted: u8,
    pub sync: bool,
    /// The packet's length in bytes.
    pub length: usize,
}

/// Why a sender seals nothing.
#[derive(Clone, Copy, PartialEq, Eq)]
pub enum TxRefusal {
    /// No slot is Live.
    NoKey,
    /// A unit would begin, and the Live key has sealed as many as it may: so many.
    Worn(u64),
}

/// What a receiver answers to a packet.
#[derive(Clone, Copy, PartialEq, Eq)]
pub enum Taken {
    /// Neither slot is Live.
    NotKeyed,
    /// The packet is held until the last of its unit comes.
    Held { draw: u32, unit: u64 },
    /// The unit of this draw and counter was accepted, with so many packets.
    Accepted { draw: u32, unit: u64, count: u8 },
    /// A check failed.
    Fail(FailCause),
}

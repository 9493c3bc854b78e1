//! Why bytes are no packet.

use tlp_layout::TlpFault;

/// The first fault from the left, with its place, a byte offset from 0 in the packet (this profile).
#[derive(Clone, Copy, PartialEq, Eq)]
pub enum PacketFault {
    /// The bytes end before the packet does, in its header too.
    Short(usize),
    /// Bits 4:3 of byte 1 are not 0, or a posted packet has a posted count.
    Reserved(usize),
    /// The sub-stream is none of posted, non-posted and completions.
    SubStream(usize),
    /// The TLP is of another class than the sub-stream.
    Class(usize),
    /// A fault of the TLP's header but for its end; the place inside it is that of the packet too.
    Tlp(TlpFault),
    /// A sync packet without M or with T, or one whose bytes after 0x34 are not 0.
    Sync(usize),
    /// Bytes follow the packet.
    Trailing(usize),
}

impl PacketFault {
    ghost use Rattle.std.specs.Prelude.{◌≡◌};
    ghost use Rattle.ide_prefix.specs.Faults.{packet_place};

    /// The place that the fault names, a byte offset from 0.
    pub fn place(self) -> usize
        ensures { result ≡ packet_place self }
    {
        match self {
            PacketFault::Short(place) => place,
            PacketFault::Reserved(place) => place,
            PacketFault::SubStream(place) => place,
            PacketFault::Class(place) => place,
            PacketFault::Tlp(fault) => fault.place(),
            PacketFault::Sync(place) => place,
            PacketFault::Trailing(place) => place,
        }
    }
}

//! The packets of one send.

ghost use Rattle.std.specs.Prelude.{◌≡◌, ◌<◌, ◌≤◌, [], ◌∷◌, ◌++◌, length};

use arrayvec::ArrayVec;
use std::marker::Model;
use sub_stream::MeasuredPacket;

/// The packets that one send sealed, in order (this profile): at most a sync packet in each of two sub-streams, and
/// the packet of the TLP.
#[derive(Drop)]
pub struct MeasuredPackets {
    packets: ArrayVec<MeasuredPacket, 3>,
}

impl Model for MeasuredPackets {
    ghost use Rattle.std.specs.Prelude.{List};
    ghost use Rattle.sub_stream.specs.declared.answer.MeasuredPacket.{MeasuredPacket};

    ghost Value = { List MeasuredPacket };

    ghost view = { λ s. s.packets.items };
}

impl MeasuredPackets {
    /// No packets.
    pub fn new() -> MeasuredPackets
        ensures { result ≡ [] }
    {
        MeasuredPackets {
            packets: ArrayVec::new(),
        }
    }

    /// Appends a packet.
    pub fn push(&mut self, packet: MeasuredPacket)
        requires { length self.old < 3 }
        ensures { self.new ≡ self.old ++ packet ∷ [] }
    {
        self.packets.push(packet);
    }

    /// The packets, lent; at most 3.
    pub fn as_slice(&self) -> &[MeasuredPacket]
        ensures value { result.now ≡ self.now }
        ensures most { length result.now ≤ 3 }
    {
        &self.packets
    }
}

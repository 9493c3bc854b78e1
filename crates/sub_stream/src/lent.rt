//! The packets of a unit, lent.

ghost use Rattle.std.specs.Prelude.{◌≡◌, ◌<◌, ◌≤◌, [], Some, length, slice_get};
ghost use Rattle.ide_prefix.specs.Cut.{packet_of_view};
ghost use Rattle.ide_prefix.specs.Packet.{HasTlp};
ghost use Rattle.spec_stream.specs.Stream.{posted_sum};

use crate::received::ReceivedPackets;
use ide_prefix::PacketView;
use std::marker::Model;

/// The packets of the unit that was accepted last, decrypted, or those of the next that are held, as they came, or
/// none. They are lent until the receiver changes. Contracts see the packets.
#[derive(Drop)]
pub struct Delivered<'a> {
    unit: Option<&'a ReceivedPackets>,
}

impl<'a> Model for Delivered<'a> {
    ghost use Rattle.std.specs.Prelude.{List};
    ghost use Rattle.ide_prefix.specs.Packet.{Packet};
    ghost use Rattle.sub_stream.specs.Gathered.{lent_packets};

    ghost Value = { List Packet };

    ghost view = { λ d. lent_packets d.unit };
}

impl<'a> Delivered<'a> {
    /// No packets.
    pub fn none() -> Delivered<'a>
        ensures { result ≡ [] }
    {
        Delivered { unit: None }
    }

    /// The packets of this unit.
    pub(crate) fn of(unit: &'a ReceivedPackets) -> Delivered<'a>
        ensures { result ≡ unit.now.packets }
    {
        Delivered { unit: Some(unit) }
    }

    /// How many packets there are, at most 8.
    pub fn count(&self) -> usize
        ensures value { result ≡ length self.now }
        ensures most { result ≤ 8 }
    {
        match self.unit {
            Some(unit) => unit.packets().count(),
            None => 0,
        }
    }

    /// Packet `i`, counted from 0, without a tag, with what its header was read as when it came; the payload is
    /// decrypted if the unit was accepted.
    pub fn packet(&self, i: usize) -> PacketView<'a>
        requires { i < length self.now }
        ensures packet { slice_get self.now i ≡ Some (packet_of_view result) }
        ensures tlp { HasTlp (packet_of_view result) result.tlp }
    {
        match self.unit {
            Some(unit) => unit.packet(i),
            None => unreachable!(),
        }
    }

    /// The sum of their posted counts.
    pub fn posted(&self) -> u64
        ensures value { result ≡ posted_sum self.now }
        ensures few { result ≤ 2040 }
    {
        match self.unit {
            Some(unit) => unit.packets().posted(),
            None => 0,
        }
    }
}

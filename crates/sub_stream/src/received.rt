//! The packets of one unit as a receiver gathers them.

ghost use Rattle.std.specs.Prelude.{◌≡◌, ◌<◌, ◌≤◌, Some, length, slice_get};
ghost use Rattle.ide_prefix.specs.Cut.{packet_of_view};
ghost use Rattle.ide_prefix.specs.Packet.{HasTlp};
ghost use Rattle.ide_prefix.specs.Units.{packet_without_tag};

use crate::sender::{PAYLOAD_BYTES, TLP_HEAD_BYTES, begin_where_empty};
use crate::unit_packets::UnitPackets;
use gcm_seal::Gcm;
use ide_prefix::{PacketView, UnitBuf};
use std::marker::Model;
use tlp_layout::HeadView;

// What stands in the places of no packet.
const BLANK: Option<HeadView> = None;

/// The packets of one unit as they came, or decrypted, each with what its header reads as. Contracts see the
/// aggregation, what comes ahead and the packets, without a tag.
#[derive(Drop)]
pub struct ReceivedPackets {
    unit: UnitPackets,
    tlps: [Option<HeadView>; 8],
}

impl Model for ReceivedPackets {
    ghost use Rattle.sub_stream.specs.Gathered.{Gathered, HaveTlps};

    ghost Value = { Gathered };

    ghost view = { λ r. r.unit };

    ghost invariant = { λ r. HaveTlps r.unit r.tlps };
}

impl ReceivedPackets {
    ghost use Rattle.sub_stream.specs.Gathered.{no_packets, with_packet, lent_totals, opened_packets};
    ghost use Rattle.sub_stream.specs.Senders.{begun_where_empty};

    /// No packets, in a buffer for at most 8; what it holds is not used.
    pub fn new(buf: UnitBuf) -> ReceivedPackets
        requires { buf.aggregation ≤ 8 }
        ensures { result ≡ no_packets buf.aggregation }
    {
        ReceivedPackets {
            unit: UnitPackets::new(buf),
            tlps: [BLANK; 8],
        }
    }

    /// The packets, lent.
    pub fn packets(&self) -> &UnitPackets
        ensures { result.now ≡ self.now }
    {
        &self.unit
    }

    /// Drops the packets and what comes ahead.
    pub fn clear(&mut self)
        ensures { self.new ≡ no_packets self.old.aggregation }
    {
        self.unit.clear();
    }

    /// Begins unit `n` if no packet is there; the total comes before the first unit.
    pub fn begin_where_empty(&mut self, total: Option<&[u8; 8]>, n: u64)
        ensures { self.new ≡ begun_where_empty self.old (lent_totals total.entry) n }
    {
        begin_where_empty(&mut self.unit, total, n);
    }

    /// Adds a packet: a header of at most 16 bytes, and a body of at most 4,096.
    pub fn push(&mut self, packet: &PacketView)
        requires room { length self.old.packets < self.old.aggregation }
        requires head_short { length packet.now.head.now ≤ TLP_HEAD_BYTES }
        requires body_short { length packet.now.body.now ≤ PAYLOAD_BYTES }
        requires tlp { HasTlp (packet_of_view packet.now) packet.now.tlp }
        ensures { self.new ≡ with_packet self.old (packet_without_tag (packet_of_view packet.now)) }
    {
        self.tlps[self.unit.count()] = packet.tlp;
        self.unit.push(&packet.prefix, packet.head, packet.body);
    }

    /// Decrypts the bodies of a whole unit.
    pub fn open(&mut self, cipher: &Gcm, iv: &[u8; 12])
        ensures { self.new ≡ record self.old { packets = opened_packets cipher.now iv.now self.old.packets } }
    {
        self.unit.open(cipher, iv);
    }

    /// Packet `i`, counted from 0, with what its header reads as.
    pub fn packet(&self, i: usize) -> PacketView<'_>
        requires { i < length self.now.packets }
        ensures packet { slice_get self.now.packets i ≡ Some (packet_of_view result) }
        ensures tlp { HasTlp (packet_of_view result) result.tlp }
    {
        let (prefix, head, body) = self.unit.packet(i);
        PacketView {
            prefix,
            head,
            body,
            tag: None,
            tlp: self.tlps[i],
        }
    }
}

//! Sub-streams, as an end receives them.

ghost use Rattle.std.specs.Prelude.{◌≡◌, ◌==◌, ◌&&◌, ◌<◌, ◌≤◌, ◌^◌, count_by, length};
ghost use Rattle.spec_links.specs.History.{sub_stream_of};
ghost use Rattle.spec_links.specs.Plan.{is_same, lane_in};
ghost use Rattle.rule_counts.specs.Units.{ends_between, is_described_under, is_partner};

use event_verdicts::SealedPacket;
use ide_types::{PortName, Side, SubKind};

/// The sub-stream of a stream in the direction in which an end receives it.
#[derive(Clone, Copy)]
pub(crate) struct Lane {
    pub end: PortName,
    pub stream: u8,
    pub sub: SubKind,
}

// Whether these are the two ends of one line.
fn are_partners(one: PortName, other: PortName) -> bool
    ensures { result ≡ is_partner one other }
{
    one.line == other.line
        && match one.side {
            Side::Host => matches!(other.side, Side::Device),
            Side::Device => matches!(other.side, Side::Host),
        }
}

impl Lane {
    /// Whether a packet was sealed in the sub-stream.
    fn has(&self, packet: &SealedPacket) -> bool
        ensures { result ≡ is_same (sub_stream_of packet.now) (lane_in self.now.end self.now.stream self.now.sub) }
    {
        are_partners(packet.port, self.end)
            && packet.stream == self.stream
            && packet.sub.number() == self.sub.number()
    }

    /// Whether it was sealed there under the key of a draw.
    pub(crate) fn has_under(&self, draw: u32, packet: &SealedPacket) -> bool
        ensures { result ≡ is_described_under (lane_in self.now.end self.now.stream self.now.sub) draw packet.now }
    {
        self.has(packet) && packet.draw == draw
    }

    // Whether it ended a unit there under a draw from one on, below another.
    fn has_end(&self, from: u32, below: u32, packet: &SealedPacket) -> bool
        ensures { result ≡ ends_between (lane_in self.now.end self.now.stream self.now.sub) from below packet.now }
    {
        self.has(packet) && from <= packet.draw && packet.draw < below && packet.m
    }

    /// How many units these packets ended there under draws from one on, below another.
    pub(crate) fn units_between(&self, from: u32, below: u32, packets: &[SealedPacket]) -> u64
        ensures units { result ≡ count_by (ends_between (lane_in self.now.end self.now.stream self.now.sub) from below)
            packets.now }
        ensures most { result ≤ length packets.now }
    {
        let mut units = 0;
        for packet in packets {
            if self.has_end(from, below, packet) {
                units += 1;
            }
        }
        units
    }
}

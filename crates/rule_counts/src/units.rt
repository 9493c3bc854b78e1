//! Units among the packets that were sealed.

ghost use Rattle.std.specs.Prelude.{◌≡◌, ◌≢◌, ℕ, List, MatchOption, ◌+◌, ◌==◌, ◌++◌, ◌∷◌, [], drop, length, nat_eq};
ghost use Rattle.std.specs.Bool.{Decides};
ghost use Rattle.std.specs.Cmp.Lexicographic.{pointwise};
ghost use Rattle.ide_prefix.specs.Cut.{lent_tag, packet_of_view};
ghost use Rattle.ide_prefix.specs.Packet.{packet_bytes};
ghost use Rattle.spec_links.specs.Plan.{lane_in};
ghost use Rattle.rule_counts.specs.Units.{is_first, is_last, is_same_front, is_unit_after};

use crate::lanes::Lane;
use all_ends::Packets;
use event_verdicts::SealedPacket;
use ide_prefix::{PacketView, write_prefix};
use sub_stream::Delivered;

fn tag_of<'a>(packet: &PacketView<'a>) -> &'a [u8]
    ensures { result.now ≡ lent_tag packet.now.tag }
{
    match packet.tag {
        None => &[],
        Some(tag) => tag,
    }
}

// What comes behind the first bytes, if these are they.
fn behind<'a>(bytes: &'a [u8], first: &[u8]) -> Option<&'a [u8]>
    ensures { MatchOption result ((rest : List ℕ) → first.now ++ rest ≢ bytes.now)
        (λ rest. first.now ++ rest.now ≡ bytes.now) }
{
    bytes.strip_prefix(first)
}

// Whether the bytes are the packet's.
fn spells(packet: &PacketView, bytes: &[u8]) -> bool
    ensures { Decides result (packet_bytes (packet_of_view packet.now) ≡ bytes.now) }
{
    let prefix = write_prefix(&packet.prefix);
    let Some(rest) = behind(bytes, &prefix) else {
        return false;
    };
    let Some(rest) = behind(rest, packet.head) else {
        return false;
    };
    let Some(rest) = behind(rest, packet.body) else {
        return false;
    };
    rest == tag_of(packet)
}

/// A unit: packets that are held, and the one that ends it.
#[derive(Drop)]
pub(crate) struct Unit<'a> {
    pub held: Delivered<'a>,
    pub last: PacketView<'a>,
}

impl Unit<'_> {
    // Whether the bytes are those of the packet at this place, from 0.
    fn is_at(&self, place: usize, bytes: &[u8]) -> bool
        ensures { result ≡ is_first (drop place (self.now.held ++ packet_of_view self.now.last ∷ [])) bytes.now }
    {
        if place < self.held.count() {
            spells(&self.held.packet(place), bytes)
        } else if place == self.held.count() {
            spells(&self.last, bytes)
        } else {
            false
        }
    }

    // Whether the packet at this place is the last.
    fn ends_at(&self, place: usize) -> bool
        ensures { result ≡ is_last (drop place (self.now.held ++ packet_of_view self.now.last ∷ [])) }
    {
        place == self.held.count()
    }

    /// Whether it comes after so many units among the packets that were sealed in a sub-stream under a draw, as they
    /// are described and as they are kept.
    pub(crate) fn is_after(
        &self,
        lane: Lane,
        draw: u32,
        units: u64,
        described: &[SealedPacket],
        kept: &Packets,
    ) -> bool
        ensures { result ≡ is_unit_after (lane_in lane.end lane.stream lane.sub) draw units
            (self.now.held ++ packet_of_view self.now.last ∷ []) described.now kept.now.packets }
    {
        let mut left = units;
        let mut place = 0;
        for (i, packet) in described.iter().enumerate() {
            let Some((_, bytes)) = kept.get(i as u64 + 1) else {
                return false;
            };
            if lane.has_under(draw, packet) {
                if left > 0 {
                    if packet.m {
                        left -= 1;
                    }
                } else if !self.is_at(place, bytes) {
                    return false;
                } else if packet.m {
                    return self.ends_at(place);
                } else {
                    place += 1;
                }
            }
        }
        false
    }
}

/// Whether what comes ahead of the unit after so many is the same by the total of a sender and by that of a receiver.
pub(crate) fn is_same_front(closed: bool, units: u64, sent: u64, got: u64) -> bool
    ensures { result ≡ is_same_front closed units sent got }
{
    !closed || units != 0 || sent.to_be_bytes() == got.to_be_bytes()
}

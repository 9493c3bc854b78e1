//! Arrivals that end a unit which the partner had not sealed, if the tag verifies.

ghost use Rattle.std.specs.Prelude.{◌≡◌, ◌<◌, ◌∷◌, ◌++◌, [], IfOk, Some, bit_xor, length, slice_index, slice_set};
ghost use Rattle.ide_prefix.specs.Cut.{packet_of_view};
ghost use Rattle.machine_whole.specs.Machine.{arrival_of};
ghost use Rattle.spec_links.specs.Packets.{arrival_at};
ghost use Rattle.why_facts.specs.{set_seen};
ghost use Rattle.world.specs.{links_state};
ghost use Rattle.rule_counts.specs.Unsealed.{is_verified_by, unsealed_arrival, unsealed_in_port, unsealed_under};
ghost use Rattle.rule_counts.specs.Unsealed.{was_sealed_in};

use crate::lanes::Lane;
use crate::seals::Seals;
use crate::units::{Unit, is_same_front};
use all_ends::Packets;
use event_verdicts::Verdict;
use ide_port::Port;
use ide_prefix::{Cut, PacketView, cut};
use ide_types::{FailCause, OutOfMemory, PortName, ValidPlan};
use line_routes::{has_port, partner, reached};
use script_events::Event;
use std::alloc::Global;
use sub_stream::{SetFacts, SlotFacts};
use why_facts::altered;
use world::WholeLinks;

/// Whether a verdict says that a tag verified.
pub(crate) fn is_verified(verdict: &Verdict) -> bool
    ensures { result ≡ is_verified_by verdict.now }
{
    matches!(
        verdict,
        Verdict::Accepted { .. }
            | Verdict::Fail {
                cause: FailCause::Order,
                ..
            }
    )
}

fn set_of(sets: SetFacts, k: bool) -> SlotFacts
    ensures { result ≡ set_seen k sets }
{
    if k { sets.one } else { sets.zero }
}

// Whether a stream is closed, and how many units its receiver got in a sub-stream.
#[derive(Clone, Copy)]
struct Front {
    closed: bool,
    got: u64,
}

impl Seals {
    // Whether a unit was sealed as the one after so many of a sub-stream under a draw, with the same ahead as at a
    // receiver that got so many.
    fn has_unit(
        &self,
        kept: &Packets,
        lane: Lane,
        front: Front,
        draw: u32,
        units: u64,
        unit: &Unit,
    ) -> bool
        ensures { result ≡ was_sealed_in self.now kept.now.packets lane.end lane.stream lane.sub front.closed front.got
            draw units (unit.now.held ++ packet_of_view unit.now.last ∷ []) }
    {
        let packets = self.packets();
        if !unit.is_after(lane, draw, units, packets, kept) {
            return false;
        }
        let base = self.base(u64::from(lane.end.line), u64::from(lane.stream));
        let sent = lane.units_between(base, draw, packets);
        is_same_front(front.closed, units, sent, front.got)
    }

    // Whether a packet ends a unit that was not sealed, with what is held, under the key of a slot.
    fn is_unsealed_under(
        &self,
        kept: &Packets,
        lane: Lane,
        front: Front,
        slot: SlotFacts,
        unit: &Unit,
    ) -> bool
        ensures { result ≡ unsealed_under self.now kept.now.packets lane.end lane.stream lane.sub front.closed front.got
            (unit.now.held ++ packet_of_view unit.now.last ∷ []) slot }
    {
        match slot {
            SlotFacts::Live { draw, units, .. } => {
                !self.has_unit(kept, lane, front, draw, units, unit)
            }
            SlotFacts::Empty | SlotFacts::Programmed { .. } | SlotFacts::Armed { .. } => false,
        }
    }

    // The same at a port.
    fn is_unsealed_in(
        &self,
        kept: &Packets,
        end: PortName,
        port: &Port,
        packet: &PacketView,
    ) -> bool
        ensures { result ≡ unsealed_in_port self.now kept.now.packets end (packet_of_view packet.now) port.now }
    {
        let prefix = packet.prefix;
        let lane = Lane {
            end,
            stream: prefix.stream,
            sub: prefix.sub,
        };
        match port.facts(prefix.stream) {
            None => false,
            Some(seen) => {
                let receiver = seen.at(prefix.sub).receiver;
                let front = Front {
                    closed: seen.closed,
                    got: receiver.total,
                };
                let unit = Unit {
                    held: port.held(prefix.stream, prefix.sub, prefix.k),
                    last: *packet,
                };
                self.is_unsealed_under(kept, lane, front, set_of(receiver.sets, prefix.k), &unit)
            }
        }
    }

    // Whether bytes that arrive at the port of an end are such a packet.
    fn is_unsealed_at(
        &self,
        plan: &ValidPlan,
        links: &WholeLinks,
        end: PortName,
        bytes: &[u8],
    ) -> bool
        ensures { result ≡ unsealed_arrival self.now links.now (Some (arrival_at plan.now end bytes.now)) }
    {
        let end = reached(plan, end, bytes);
        match cut(bytes) {
            Ok(Cut::Ide(packet)) => match links.links.ends.port(end) {
                None => false,
                Some(port) => self.is_unsealed_in(&links.links.packets, end, port, &packet),
            },
            Ok(Cut::Plain) | Err(_) => false,
        }
    }

    // The same of a packet by its number that arrives with another byte.
    fn is_unsealed_altered(
        &self,
        alloc: Global,
        plan: &ValidPlan,
        links: &WholeLinks,
        packet: u64,
        at: u64,
        mask: u8,
    ) -> Result<bool, OutOfMemory>
        ensures { IfOk result (λ b. b ≡ unsealed_arrival self.now links.now
            (arrival_of plan.now (links_state plan.now links.now.links)
            (Event.Alter packet at mask))) }
    {
        match links.links.packets.get(packet) {
            None => Ok(false),
            Some((end, bytes)) => {
                if at < bytes.len() as u64 {
                    let copy = altered(alloc, bytes, at as usize, mask)?;
                    Ok(self.is_unsealed_at(plan, links, partner(end), &copy))
                } else {
                    Ok(false)
                }
            }
        }
    }

    // The same of one that arrives whole.
    fn is_unsealed_passed(&self, plan: &ValidPlan, links: &WholeLinks, packet: u64) -> bool
        ensures { result ≡ unsealed_arrival self.now links.now
            (arrival_of plan.now (links_state plan.now links.now.links)
            (Event.Pass packet)) }
    {
        match links.links.packets.get(packet) {
            None => false,
            Some((end, bytes)) => self.is_unsealed_at(plan, links, partner(end), bytes),
        }
    }

    // The same of its first bytes.
    fn is_unsealed_cut(
        &self,
        plan: &ValidPlan,
        links: &WholeLinks,
        packet: u64,
        length: u64,
    ) -> bool
        ensures { result ≡ unsealed_arrival self.now links.now
            (arrival_of plan.now (links_state plan.now links.now.links)
            (Event.Cut packet length)) }
    {
        match links.links.packets.get(packet) {
            None => false,
            Some((end, bytes)) => {
                if length <= bytes.len() as u64 {
                    self.is_unsealed_at(plan, links, partner(end), &bytes[..length as usize])
                } else {
                    false
                }
            }
        }
    }

    /// Whether an event brings a packet that ends a unit which was not sealed, if its tag verifies: by what was noted
    /// of seals, and by the world before the event.
    pub(crate) fn ends_unsealed(
        &self,
        alloc: Global,
        plan: &ValidPlan,
        links: &WholeLinks,
        event: &Event,
    ) -> Result<bool, OutOfMemory>
        ensures { IfOk result (λ b. b ≡ unsealed_arrival self.now links.now
            (arrival_of plan.now (links_state plan.now links.now.links) event.now)) }
    {
        match event {
            Event::Pass { packet } => Ok(self.is_unsealed_passed(plan, links, *packet)),
            Event::Alter { packet, at, mask } => {
                self.is_unsealed_altered(alloc, plan, links, *packet, *at, *mask)
            }
            Event::Cut { packet, length } => Ok(self.is_unsealed_cut(
                plan, links, *packet, *length,
            )),
            Event::Arrive { port, bytes } => Ok(
                has_port(plan, *port) && self.is_unsealed_at(plan, links, *port, bytes.as_slice()),
            ),
            _ => Ok(false),
        }
    }
}

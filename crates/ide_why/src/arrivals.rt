//! Facts of what arrives.

ghost use Rattle.std.specs.Prelude.{◌≡◌, ◌<◌, ◌∷◌, ◌++◌, [], IfOk, List, Some, bit_xor, length, slice_index, slice_set};
ghost use Rattle.ide_prefix.specs.Cut.{packet_of_view, IsView};
ghost use Rattle.ide_prefix.specs.Reading.{cut_of};
ghost use Rattle.script_events.specs.declared.event.Event.TheVariants.{Pass, Alter, Cut as CutShort};
ghost use Rattle.spec_links.specs.Packets.{arrival_at};
ghost use Rattle.why_facts.specs.Forms.{arrives_fact};
ghost use Rattle.world.specs.{IsWorld};
ghost use Rattle.ide_why.specs.Facts.{arrival_facts, asks_read_facts, brought_facts, met_facts, received_read};
ghost use Rattle.ide_why.specs.Facts.{sealed_facts};
ghost use Rattle.ide_why.specs.Reading.{held_read, stream_read};

use crate::reader::Reader;
use ide_prefix::{Cut, PacketView, cut};
use ide_types::{OutOfMemory, PortName, SubKind};
use line_routes::{goes_through, partner, reached};
use std::alloc::Global;
use sub_stream::{Delivered, StreamFacts};
use told_facts::{Fact, StreamFact, push};
use why_facts::{altered, arrives_fact, is_live, push_port, push_receiver, push_status};

impl Reader<'_> {
    // The packets of the next unit of a sub-stream that its receiver at an end holds in a key set.
    fn held(&self, end: PortName, stream: u8, sub: SubKind, k: bool) -> Delivered<'_>
        requires { IsWorld self.now.plan.now self.now.links.now }
        ensures { result ≡ held_read self.now.plan.now self.now.links.now end stream sub k }
    {
        match self.links.links.ends.port(end) {
            None => Delivered::none(),
            Some(port) => port.held(stream, sub, k),
        }
    }

    // Appends what a packet asks of memory that arrives at an end, whose stream is seen so.
    fn push_asks(
        &self,
        facts: &mut Vec<Fact>,
        end: PortName,
        seen: &StreamFacts,
        packet: &PacketView,
    ) -> Result<(), OutOfMemory>
        requires world { IsWorld self.now.plan.now self.now.links.now }
        requires view { IsView packet.now }
        ensures { IfOk result (λ _. facts.new.items ≡ facts.old.items ++ asks_read_facts self.now.plan.now
            self.now.links.now end seen.now
            (held_read self.now.plan.now self.now.links.now end packet.now.prefix.stream packet.now.prefix.sub
            packet.now.prefix.k) (packet_of_view packet.now)) }
    {
        let prefix = packet.prefix;
        if seen.failed || !is_live(seen.at(prefix.sub).receiver.sets, prefix.k) {
            return Ok(());
        }
        let held = self.held(end, prefix.stream, prefix.sub, prefix.k);
        self.push_unit(facts, end, &held, packet)
    }

    // Appends the facts of a packet that arrives at an end.
    fn push_packet(
        &self,
        facts: &mut Vec<Fact>,
        end: PortName,
        packet: &PacketView,
    ) -> Result<(), OutOfMemory>
        requires world { IsWorld self.now.plan.now self.now.links.now }
        requires view { IsView packet.now }
        ensures { IfOk result (λ _. facts.new.items ≡ facts.old.items ++ arrives_fact self.now.plan.now end
            (packet_of_view packet.now) ∷ received_read self.now.plan.now self.now.links.now end
            (held_read self.now.plan.now self.now.links.now end packet.now.prefix.stream packet.now.prefix.sub
            packet.now.prefix.k) (packet_of_view packet.now)
            (stream_read self.now.plan.now self.now.links.now end packet.now.prefix.stream)) }
    {
        push(facts, arrives_fact(self.plan, end, packet))?;
        match self.stream(end, packet.prefix.stream) {
            None => Ok(()),
            Some(seen) => {
                push_status(facts, seen.status)?;
                push_receiver(facts, &seen, packet.prefix.sub)?;
                self.push_asks(facts, end, &seen, packet)
            }
        }
    }

    // Appends the facts of bytes that meet an end.
    fn push_met(
        &self,
        facts: &mut Vec<Fact>,
        end: PortName,
        bytes: &[u8],
    ) -> Result<(), OutOfMemory>
        requires { IsWorld self.now.plan.now self.now.links.now }
        ensures { IfOk result (λ _. facts.new.items ≡ facts.old.items ++ met_facts self.now.plan.now
            self.now.links.now end (cut_of bytes.now)) }
    {
        match cut(bytes) {
            Ok(Cut::Ide(packet)) => self.push_packet(facts, end, &packet),
            Ok(Cut::Plain) | Err(_) => push_port(facts, self.plan, end),
        }
    }

    /// Appends the facts of bytes that arrive at the port of an end.
    pub fn push_arrival(
        &self,
        facts: &mut Vec<Fact>,
        end: PortName,
        bytes: &[u8],
    ) -> Result<(), OutOfMemory>
        requires { IsWorld self.now.plan.now self.now.links.now }
        ensures { (unnamed : List Fact) → IfOk result (λ _. facts.new.items ≡ facts.old.items ++ arrival_facts
            self.now.plan.now self.now.links.now unnamed (Some (arrival_at self.now.plan.now end bytes.now))) }
    {
        let end = reached(self.plan, end, bytes);
        if goes_through(self.plan, end, bytes) {
            push_port(facts, self.plan, end)
        } else {
            self.push_met(facts, end, bytes)
        }
    }

    /// Appends how many packets were sealed.
    pub fn push_sealed(&self, facts: &mut Vec<Fact>) -> Result<(), OutOfMemory>
        ensures { IfOk result (λ _. facts.new.items ≡ facts.old.items ++ sealed_facts self.now.plan.now
            self.now.links.now) }
    {
        let packets = self.links.links.packets.count() as u64;
        push(
            facts,
            Fact::Stream {
                fact: StreamFact::Packets { packets },
            },
        )
    }

    /// Appends the facts of a packet by its number that arrives whole.
    pub fn push_passed(&self, facts: &mut Vec<Fact>, packet: u64) -> Result<(), OutOfMemory>
        requires { IsWorld self.now.plan.now self.now.links.now }
        ensures { IfOk result (λ _. facts.new.items ≡ facts.old.items ++ brought_facts self.now.plan.now
            self.now.links.now
            (Pass packet)) }
    {
        match self.links.links.packets.get(packet) {
            None => self.push_sealed(facts),
            Some((end, bytes)) => self.push_arrival(facts, partner(end), bytes),
        }
    }

    /// Appends the facts of a packet by its number that arrives with another byte.
    pub fn push_altered(
        &self,
        alloc: Global,
        facts: &mut Vec<Fact>,
        packet: u64,
        at: u64,
        mask: u8,
    ) -> Result<(), OutOfMemory>
        requires { IsWorld self.now.plan.now self.now.links.now }
        ensures { IfOk result (λ _. facts.new.items ≡ facts.old.items ++ brought_facts self.now.plan.now
            self.now.links.now
            (Alter packet at mask)) }
    {
        match self.links.links.packets.get(packet) {
            None => self.push_sealed(facts),
            Some((end, bytes)) => {
                if at < bytes.len() as u64 {
                    let copy = altered(alloc, bytes, at as usize, mask)?;
                    self.push_arrival(facts, partner(end), &copy)
                } else {
                    self.push_sealed(facts)
                }
            }
        }
    }

    /// Appends the facts of the first bytes of a packet by its number that arrive.
    pub fn push_cut(
        &self,
        facts: &mut Vec<Fact>,
        packet: u64,
        length: u64,
    ) -> Result<(), OutOfMemory>
        requires { IsWorld self.now.plan.now self.now.links.now }
        ensures { IfOk result (λ _. facts.new.items ≡ facts.old.items ++ brought_facts self.now.plan.now
            self.now.links.now
            (CutShort packet length)) }
    {
        match self.links.links.packets.get(packet) {
            None => self.push_sealed(facts),
            Some((end, bytes)) => {
                if length <= bytes.len() as u64 {
                    self.push_arrival(facts, partner(end), &bytes[..length as usize])
                } else {
                    self.push_sealed(facts)
                }
            }
        }
    }
}

//! What the verdict of an event comes from.

ghost use Rattle.std.specs.Prelude.{◌≡◌, ◌++◌, IfOk};
ghost use Rattle.spec_keys.specs.History.{History};
ghost use Rattle.why_facts.specs.Due.{facts_due};
ghost use Rattle.world.specs.{IsWorld, WorldStandsFor};
ghost use Rattle.ide_why.specs.Facts.{arrived_facts, facts_read, sent_facts};

use crate::reader::Reader;
use ide_types::{OutOfMemory, PortName, Side};
use line_routes::{has_port, may_send, sealing_end};
use script_events::{AccessEvent, Event};
use std::alloc::Global;
use tlp_layout::OutgoingTlp;
use told_facts::Fact;
use why_facts::facts_stand;
use world::World;

impl Reader<'_> {
    // Appends the facts of bytes that are sent at a port.
    fn push_sent(
        &self,
        facts: &mut Vec<Fact>,
        port: PortName,
        bytes: &[u8],
    ) -> Result<(), OutOfMemory>
        requires { IsWorld self.now.plan.now self.now.links.now }
        ensures { IfOk result (λ _. facts.new.items ≡ facts.old.items ++ sent_facts self.now.plan.now
            self.now.links.now port bytes.now) }
    {
        if !may_send(self.plan, port) {
            return Ok(());
        }
        let tlp = OutgoingTlp::of(bytes);
        let end = sealing_end(self.plan, port, &tlp);
        self.push_sending(facts, end, &tlp)
    }

    // Appends the facts of bytes that arrive at a port.
    fn push_arrived(
        &self,
        facts: &mut Vec<Fact>,
        port: PortName,
        bytes: &[u8],
    ) -> Result<(), OutOfMemory>
        requires { IsWorld self.now.plan.now self.now.links.now }
        ensures { IfOk result (λ _. facts.new.items ≡ facts.old.items ++ arrived_facts self.now.plan.now
            self.now.links.now port bytes.now) }
    {
        if has_port(self.plan, port) {
            self.push_arrival(facts, port, bytes)
        } else {
            Ok(())
        }
    }

    // Appends the facts of an event.
    fn push_event(
        &self,
        alloc: Global,
        facts: &mut Vec<Fact>,
        event: &Event,
    ) -> Result<(), OutOfMemory>
        requires { IsWorld self.now.plan.now self.now.links.now }
        ensures { IfOk result (λ _. facts.new.items ≡ facts.old.items ++ facts_read self.now.plan.now
            self.now.links.now event.now) }
    {
        match event {
            Event::Send { port, bytes, .. } => self.push_sent(facts, *port, bytes.as_slice()),
            Event::Pass { packet } => self.push_passed(facts, *packet),
            Event::Alter { packet, at, mask } => {
                self.push_altered(alloc, facts, *packet, *at, *mask)
            }
            Event::Cut { packet, length } => self.push_cut(facts, *packet, *length),
            Event::Arrive { port, bytes } => self.push_arrived(facts, *port, bytes.as_slice()),
            Event::Dump { .. } => self.push_sealed(facts),
            Event::Establish { line, stream, .. } => self.push_establish(
                alloc, facts, *line, *stream,
            ),
            Event::Refresh { line, stream, .. } if *line < 8 => {
                self.push_refresh(alloc, facts, *line, *stream)
            }
            Event::Stop { line, stream, .. } => self.push_stop(alloc, facts, *line, *stream),
            Event::Status { line, stream } => self.push_stage(facts, *line, *stream),
            Event::Interface { event } => self.push_asked(alloc, facts, event),
            Event::Access {
                event: AccessEvent::Answer { link },
            } => self.push_queue(facts, Side::Host, *link),
            Event::Access {
                event: AccessEvent::Respond { link },
            } => self.push_queue(facts, Side::Device, *link),
            Event::Access {
                event: AccessEvent::Mmio { interface, bar, .. },
            } => self.push_shown(facts, *interface, *bar),
            Event::Forward { link, direction } => self.push_forward(facts, *link, *direction),
            Event::Reset { link, ends } => self.push_reset(facts, *link, ends.as_slice()),
            _ => Ok(()),
        }
    }
}

/// The facts of the state before an event that its verdict comes from: those that the history's definitions give, for
/// each history that the world stands for. Returns `OutOfMemory` for want of memory.
pub fn facts(alloc: Global, world: &World, event: &Event) -> Result<Vec<Fact>, OutOfMemory>
    ensures { (h : History) → WorldStandsFor world.now h
        → IfOk result (λ xs. xs.items ≡ facts_due world.now.plan h event.now) }
{
    facts_stand();
    let reader = Reader {
        plan: world.plan(),
        links: world.links(),
    };
    let mut facts = Vec::new(alloc);
    reader.push_event(alloc, &mut facts, event)?;
    Ok(facts)
}

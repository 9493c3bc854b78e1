//! Facts of events on interfaces, and of what waits at switches.

ghost use Rattle.std.specs.Prelude.{◌≡◌, ◌∷◌, ◌++◌, [], IfOk, length};
ghost use Rattle.hop_queues.specs.Directions.{queue_of};
ghost use Rattle.spec_interfaces.specs.Views.{number_in};
ghost use Rattle.world.specs.{IsWorld};
ghost use Rattle.ide_why.specs.Facts.{asked_by_number, besides_read, forward_read};

use crate::reader::Reader;
use hop_queues::HopQueues;
use ide_types::{Direction, OutOfMemory};
use line_routes::{has_hop, leaving_end};
use script_events::InterfaceEvent;
use std::alloc::Global;
use tlp_layout::OutgoingTlp;
use told_facts::{Fact, InterfaceFact};
use why_facts::{
    FaceSeen, number_in, push_draw, push_draws, push_face, push_memory, push_of_interface,
    push_reported, push_status,
};

// How many TLPs wait in a direction.
fn count(carried: &HopQueues, direction: Direction) -> usize
    ensures { result ≡ length (queue_of carried.now direction).tlps }
{
    match direction {
        Direction::Downstream => carried.downstream.len(),
        Direction::Upstream => carried.upstream.len(),
    }
}

impl Reader<'_> {
    // Appends what an event on an interface looks at besides.
    fn push_besides(
        &self,
        facts: &mut Vec<Fact>,
        seen: &FaceSeen,
        event: &InterfaceEvent,
    ) -> Result<(), OutOfMemory>
        requires { IsWorld self.now.plan.now self.now.links.now }
        ensures { IfOk result (λ _. facts.new.items ≡ facts.old.items ++ besides_read self.now.plan.now
            self.now.links.now seen.now event.now) }
    {
        let (link, stream) = (seen.manager.link, seen.manager.stream);
        match event {
            InterfaceEvent::Lock { .. } => self.push_host_status(facts, link, stream),
            InterfaceEvent::Start { .. } => {
                self.push_host_status(facts, link, stream)?;
                push_draw(facts, seen.manager.draw)
            }
            InterfaceEvent::Halt { .. } => {
                let started = seen.manager.started;
                push_of_interface(facts, InterfaceFact::Started { started })?;
                push_draws(facts, self.plan, self.draws())
            }
            InterfaceEvent::Bind { line, stream, .. } => {
                self.push_bind(facts, seen, *line, *stream)
            }
            InterfaceEvent::Unbind { line, stream, .. } => {
                self.push_unbind(facts, seen, *line, *stream)
            }
            _ => Ok(()),
        }
    }

    /// Appends the facts of an event on an interface.
    pub fn push_asked(
        &self,
        alloc: Global,
        facts: &mut Vec<Fact>,
        event: &InterfaceEvent,
    ) -> Result<(), OutOfMemory>
        requires { IsWorld self.now.plan.now self.now.links.now }
        ensures { IfOk result (λ _. facts.new.items ≡ facts.old.items ++ asked_by_number self.now.plan.now
            self.now.links.now event.now
            (number_in event.now)) }
    {
        let Some(number) = number_in(event) else {
            return push_memory(facts, self.plan, event);
        };
        match self.face(number) {
            None => Ok(()),
            Some(seen) => {
                push_face(facts, &seen)?;
                push_reported(facts, seen.manager.reported)?;
                self.push_besides(facts, &seen, event)?;
                self.push_exchanges_asked(alloc, facts, &seen, event)
            }
        }
    }

    // ---- what waits at switches

    /// Appends the facts of a forward at the switch of a link.
    pub fn push_forward(
        &self,
        facts: &mut Vec<Fact>,
        link: u64,
        direction: Direction,
    ) -> Result<(), OutOfMemory>
        requires { IsWorld self.now.plan.now self.now.links.now }
        ensures { IfOk result (λ _. facts.new.items ≡ facts.old.items ++ forward_read self.now.plan.now
            self.now.links.now link direction) }
    {
        if !has_hop(self.plan, link) {
            return Ok(());
        }
        if !self.links.links.has_link(link) {
            return Ok(());
        }
        let link = link as u8;
        let carried = &self.links.accesses.at(link).carried;
        let waiting = count(carried, direction) as u64;
        push_of_interface(facts, InterfaceFact::Waiting { waiting })?;
        match carried.first(direction) {
            None => Ok(()),
            Some(tlp) => {
                let end = leaving_end(link, direction);
                self.push_sending(facts, end, &OutgoingTlp::of(tlp.bytes.as_slice()))
            }
        }
    }
}

//! Facts of the exchanges that are left to an operation on a device interface.

ghost use Rattle.std.specs.Prelude.{◌≡◌, ◌++◌, IfOk, None, Some, if◌then◌else◌};
ghost use Rattle.spec_interfaces.specs.Peers.{has_peer};
ghost use Rattle.told_facts.specs.Exchanges.{peer_asked};
ghost use Rattle.world.specs.{IsWorld};
ghost use Rattle.ide_why.specs.Facts.{exchanges_asked};

use crate::reader::Reader;
use ide_types::OutOfMemory;
use script_events::InterfaceEvent;
use std::alloc::Global;
use told_facts::{Fact, interface_planned, push_interface_exchanges};
use why_facts::FaceSeen;

impl Reader<'_> {
    // A stream between the device of a link and another, by its line and its ID; `None` if there is none.
    fn peer_stream(&self, link: u8, line: u64, stream: u64) -> Option<u8>
        requires { IsWorld self.now.plan.now self.now.links.now }
        ensures { result ≡ (if has_peer self.now.plan.now.peers link line stream then Some stream else None) }
    {
        if self.links.links.ends.has_peer(link, line, stream) {
            Some(stream as u8)
        } else {
            None
        }
    }

    // The one that an event names.
    fn peer_asked(&self, link: u8, event: &InterfaceEvent) -> Option<u8>
        requires { IsWorld self.now.plan.now self.now.links.now }
        ensures { result ≡ peer_asked self.now.plan.now link event.now }
    {
        match event {
            InterfaceEvent::Bind { line, stream, .. }
            | InterfaceEvent::Unbind { line, stream, .. } => self.peer_stream(link, *line, *stream),
            _ => None,
        }
    }

    /// Appends the exchanges that are left to an event on an interface.
    pub fn push_exchanges_asked(
        &self,
        alloc: Global,
        facts: &mut Vec<Fact>,
        seen: &FaceSeen,
        event: &InterfaceEvent,
    ) -> Result<(), OutOfMemory>
        requires { IsWorld self.now.plan.now self.now.links.now }
        ensures { IfOk result (λ _. facts.new.items ≡ facts.old.items ++ exchanges_asked self.now.plan.now
            self.now.links.now seen.now event.now) }
    {
        let topology = self.plan.plan();
        let Some(plan) = interface_planned(topology.links.as_slice(), seen.number as usize) else {
            return Ok(());
        };
        let size = topology.portion;
        let peer = self.peer_asked(seen.manager.link, event);
        match self.device(u64::from(seen.number)) {
            None => Ok(()),
            Some(interface) => {
                push_interface_exchanges(alloc, facts, size, peer, plan, interface, event)
            }
        }
    }
}

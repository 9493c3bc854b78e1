//! Facts of interfaces at their devices, and of streams between devices that they are bound to.

ghost use Rattle.std.specs.Prelude.{◌≡◌, ◌++◌, ◌<◌, ◌≤◌, [], IfOk, if◌then◌else◌, option_map};
ghost use Rattle.std.specs.List.{slice_index_or};
ghost use Rattle.spec_interfaces.specs.Peers.{has_peer};
ghost use Rattle.spec_interfaces.specs.Views.{peer_of};
ghost use Rattle.machine_operations.specs.{find_op};
ghost use Rattle.machine_whole.specs.Machine.{op_or_idle};
ghost use Rattle.why_facts.specs.Forms.{manager_state, takes_facts};
ghost use Rattle.world.specs.{IsWorld};
ghost use Rattle.ide_why.specs.Facts.{bind_read, shown_read, state_of_whole};
ghost use Rattle.ide_why.specs.Reading.{bindings_read, device_interface_read};

use crate::reader::Reader;
use ide_types::{FIRST_PEER_LINE, OutOfMemory};
use interface_state::Interface;
use told_facts::{Fact, ManagerState, OperationFact};
use why_facts::{
    FaceSeen, manager_state, push_draw, push_live, push_of_operation, push_shown, push_takes,
};

impl Reader<'_> {
    /// The interface of a number as its device keeps it; `None` if there is none.
    pub fn device(&self, number: u64) -> Option<&Interface>
        requires { IsWorld self.now.plan.now self.now.links.now }
        ensures { option_map (λ i. i.now) result ≡ device_interface_read self.now.links.now number }
    {
        match self.links.links.interface(number) {
            None => None,
            Some((link, place)) => {
                let device = &self.links.links.ends.link(link).device;
                Some(device.interfaces.interface(place))
            }
        }
    }

    // ---- streams between devices

    // Appends the streams between devices that an interface is bound to.
    fn push_bindings(&self, facts: &mut Vec<Fact>, number: u8) -> Result<(), OutOfMemory>
        requires { IsWorld self.now.plan.now self.now.links.now }
        ensures { IfOk result (λ _. facts.new.items ≡ facts.old.items ++ takes_facts
            (bindings_read self.now.links.now number)) }
    {
        match self.device(u64::from(number)) {
            None => Ok(()),
            Some(interface) => push_takes(facts, interface.peers().as_slice()),
        }
    }

    // What the manager knows of a stream, Idle if it has none of the name.
    fn manager_of(&self, line: u64, stream: u64) -> ManagerState
        requires { IsWorld self.now.plan.now self.now.links.now }
        ensures { result ≡ manager_state (op_or_idle (find_op self.now.plan.now
            (state_of_whole self.now.plan.now self.now.links.now) line stream)) }
    {
        match self.stage(line, stream) {
            None => ManagerState::Idle,
            Some(seen) => manager_state(seen.stage),
        }
    }

    // The draw of a stream between devices as the manager has it.
    fn peer_draw(&self, line: u64) -> u32
        requires peer { 24 ≤ line }
        requires few { line < 32 }
        ensures { result ≡ slice_index_or self.now.links.now.links.keeper.peer_draws (peer_of line) 0 }
    {
        self.links.links.keeper.peer_draws[(line - u64::from(FIRST_PEER_LINE)) as usize]
    }

    /// Appends what a binding of an interface to a stream between devices looks at, if its device has the stream.
    pub fn push_bind(
        &self,
        facts: &mut Vec<Fact>,
        seen: &FaceSeen,
        line: u64,
        stream: u64,
    ) -> Result<(), OutOfMemory>
        requires { IsWorld self.now.plan.now self.now.links.now }
        ensures { IfOk result (λ _. facts.new.items ≡ facts.old.items ++ (if has_peer self.now.plan.now.peers
            seen.now.manager.link line stream
            then bind_read self.now.plan.now self.now.links.now seen.now line stream else [])) }
    {
        let link = seen.manager.link;
        if !self.links.links.ends.has_peer(link, line, stream) {
            return Ok(());
        }
        let state = self.manager_of(line, stream);
        push_of_operation(facts, OperationFact::Manager { state })?;
        push_draw(facts, self.peer_draw(line))?;
        push_live(facts, self.links.links.ends.live(link, stream as u8))?;
        self.push_bindings(facts, seen.number)
    }

    /// Appends what the end of such a binding looks at.
    pub fn push_unbind(
        &self,
        facts: &mut Vec<Fact>,
        seen: &FaceSeen,
        line: u64,
        stream: u64,
    ) -> Result<(), OutOfMemory>
        requires { IsWorld self.now.plan.now self.now.links.now }
        ensures { IfOk result (λ _. facts.new.items ≡ facts.old.items ++ (if has_peer self.now.plan.now.peers
            seen.now.manager.link line stream
            then takes_facts (bindings_read self.now.links.now seen.now.number) else [])) }
    {
        let link = seen.manager.link;
        if self.links.links.ends.has_peer(link, line, stream) {
            self.push_bindings(facts, seen.number)
        } else {
            Ok(())
        }
    }

    // ---- the memory of interfaces

    /// Appends the state of an interface at its device, and the range of one of its BARs.
    pub fn push_shown(
        &self,
        facts: &mut Vec<Fact>,
        number: u64,
        bar: u64,
    ) -> Result<(), OutOfMemory>
        requires { IsWorld self.now.plan.now self.now.links.now }
        ensures { IfOk result (λ _. facts.new.items ≡ facts.old.items ++ shown_read self.now.links.now number bar) }
    {
        match self.device(number) {
            None => Ok(()),
            Some(interface) => push_shown(facts, number as u8, interface, bar),
        }
    }
}

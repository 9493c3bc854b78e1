//! Facts of a device interface.

ghost use Rattle.std.specs.Prelude.{◌≡◌, ◌∷◌, ◌++◌, [], IfOk};
ghost use Rattle.spec_interfaces.specs.Views.{number_in};
ghost use Rattle.why_facts.specs.Faces.{face_seen, grant_seen, reported_seen};
ghost use Rattle.why_facts.specs.Forms.{bound_facts, draw_fact, live_facts};

use ide_types::OutOfMemory;
use interface_host::InterfaceFacts;
use script_events::InterfaceEvent;
use told_facts::{Fact, InterfaceFact, push};

/// An interface: its number, its state at its device, and what the manager keeps of it.
#[derive(Clone, Copy)]
pub struct FaceSeen {
    pub number: u8,
    pub state: u8,
    pub manager: InterfaceFacts,
}

/// Appends a fact of interfaces.
pub fn push_of_interface(facts: &mut Vec<Fact>, fact: InterfaceFact) -> Result<(), OutOfMemory>
    ensures { IfOk result (λ _. facts.new.items ≡ facts.old.items ++ Fact.Interface fact ∷ []) }
{
    push(facts, Fact::Interface { fact })
}

// Appends the bound stream and the floor of a run.
fn push_bound(facts: &mut Vec<Fact>, seen: &FaceSeen) -> Result<(), OutOfMemory>
    ensures { IfOk result (λ _. facts.new.items ≡ facts.old.items ++ bound_facts (grant_seen seen.now)) }
{
    match seen.manager.floor {
        None => Ok(()),
        Some(floor) => push_of_interface(
            facts,
            InterfaceFact::Bound {
                stream: seen.manager.stream,
                floor,
            },
        ),
    }
}

/// Appends an interface with the manager's view of it.
pub fn push_face(facts: &mut Vec<Fact>, seen: &FaceSeen) -> Result<(), OutOfMemory>
    ensures { IfOk result (λ _. facts.new.items ≡ facts.old.items ++ face_seen seen.now) }
{
    push_of_interface(
        facts,
        InterfaceFact::Interface {
            interface: seen.number,
            state: seen.state,
        },
    )?;
    let view = seen.manager.view;
    push_of_interface(facts, InterfaceFact::View { view })?;
    let needs = seen.manager.needs;
    push_of_interface(facts, InterfaceFact::Needs { needs })?;
    push_bound(facts, seen)
}

/// Appends whether the report of a lock was read.
pub fn push_reported(facts: &mut Vec<Fact>, reported: Option<bool>) -> Result<(), OutOfMemory>
    ensures { IfOk result (λ _. facts.new.items ≡ facts.old.items ++ reported_seen reported) }
{
    match reported {
        None => Ok(()),
        Some(reported) => push_of_interface(facts, InterfaceFact::Reported { reported }),
    }
}

/// Appends a draw.
pub fn push_draw(facts: &mut Vec<Fact>, draw: u32) -> Result<(), OutOfMemory>
    ensures { IfOk result (λ _. facts.new.items ≡ facts.old.items ++ draw_fact draw ∷ []) }
{
    push_of_interface(facts, InterfaceFact::Draw { draw })
}

/// Appends the draw that is Live where a device receives posted requests on a stream, if one is.
pub fn push_live(facts: &mut Vec<Fact>, live: Option<u32>) -> Result<(), OutOfMemory>
    ensures { IfOk result (λ _. facts.new.items ≡ facts.old.items ++ live_facts live) }
{
    match live {
        None => Ok(()),
        Some(draw) => push_of_interface(facts, InterfaceFact::Live { draw }),
    }
}

/// The number of the interface that an event is on.
pub fn number_in(event: &InterfaceEvent) -> Option<u64>
    ensures { result ≡ number_in event.now }
{
    match event {
        InterfaceEvent::Lock { interface, .. }
        | InterfaceEvent::Report { interface, .. }
        | InterfaceEvent::Start { interface, .. }
        | InterfaceEvent::Halt { interface, .. }
        | InterfaceEvent::State { interface, .. }
        | InterfaceEvent::Bind { interface, .. }
        | InterfaceEvent::Unbind { interface, .. }
        | InterfaceEvent::View { interface }
        | InterfaceEvent::Write { interface, .. }
        | InterfaceEvent::Flr { interface }
        | InterfaceEvent::Firmware { interface } => Some(*interface),
        InterfaceEvent::Memory { .. } => None,
    }
}

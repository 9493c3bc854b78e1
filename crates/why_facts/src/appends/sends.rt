//! Facts of what is sent.

ghost use Rattle.std.specs.Prelude.{◌≡◌, ◌∷◌, ◌++◌, [], IfOk};
ghost use Rattle.spec_interfaces.specs.Cause.{is_peer, owners_link};
ghost use Rattle.why_facts.specs.Due.{sets_own_t};
ghost use Rattle.why_facts.specs.Forms.{at_port, sends_fact};

use ide_types::{OutOfMemory, PortName, Side, SubKind, ValidPlan, port_at};
use line_routes::{at_switch, port_of};
use told_facts::{Fact, StreamFact, push};

/// Appends the port of an end.
pub fn push_port(facts: &mut Vec<Fact>, plan: &ValidPlan, end: PortName) -> Result<(), OutOfMemory>
    ensures { IfOk result (λ _. facts.new.items ≡ facts.old.items ++ at_port plan.now end ∷ []) }
{
    let port = port_of(plan, end);
    push(
        facts,
        Fact::Stream {
            fact: StreamFact::At { port },
        },
    )
}

// Whether an end is of a stream between devices.
fn is_peer(plan: &ValidPlan, end: PortName) -> bool
    ensures { result ≡ is_peer plan.now end }
{
    let links = plan.plan().links.as_slice().len();
    24 <= end.line && !((end.line as usize) < links)
}

/// The link of the device whose interfaces own what is sent at an end.
pub fn owners_link(plan: &ValidPlan, end: PortName) -> u8
    ensures { result ≡ owners_link plan.now end }
{
    if is_peer(plan, end) {
        port_at(plan.plan().peers.as_slice(), end).line
    } else {
        end.line
    }
}

/// Whether T is set by the interfaces of a device.
pub fn sets_own_t(plan: &ValidPlan, end: PortName) -> bool
    ensures { result ≡ sets_own_t plan.now end }
{
    !at_switch(plan, end) && (is_peer(plan, end) || end.side == Side::Device)
}

/// The fact of a TLP that is sent on a stream of an end.
pub fn sends_fact(plan: &ValidPlan, end: PortName, stream: u8, sub: SubKind) -> Fact
    ensures { result ≡ sends_fact plan.now end stream sub }
{
    Fact::Stream {
        fact: StreamFact::Sends {
            port: port_of(plan, end),
            stream,
            sub,
        },
    }
}

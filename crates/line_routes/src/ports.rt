//! Ends of lines, and the ports at which they are (this profile).

ghost use Rattle.std.specs.Prelude.{◌≡◌, ◌<◌, ◌≤◌};
ghost use Rattle.spec_links.specs.Plan.{has_link, has_port as has_end, partner as partner_of};
ghost use Rattle.spec_links.specs.Ports.{port_of as port_of_end, at_switch as is_at_switch, may_send as sends_at};
ghost use Rattle.line_routes.specs.Rows.{has_line_by};

use ide_types::{Plan, PortName, Side, ValidPlan, port_at};

/// The other end of its line.
pub fn partner(end: PortName) -> PortName
    ensures { result ≡ partner_of end }
{
    let PortName { side, line } = end;
    PortName {
        side: match side {
            Side::Host => Side::Device,
            Side::Device => Side::Host,
        },
        line,
    }
}

fn has_link(plan: &Plan, line: u8) -> bool
    ensures { result ≡ has_link plan.now line }
{
    (line as usize) < plan.links.as_slice().len()
}

/// The port of an end: of a host or a device it is the end of their link, of a switch the end itself.
#[tactic(auto, unfolding(spec_links::specs::Ports::port_of))]
pub fn port_of(plan: &ValidPlan, end: PortName) -> PortName
    ensures { result ≡ port_of_end plan.now end }
{
    let plan = plan.plan();
    if has_link(plan, end.line) {
        end
    } else {
        port_at(plan.peers.as_slice(), end)
    }
}

/// Whether an end is at a switch: the far end of a hop's segment towards the host, the near end of the one towards the
/// device.
pub fn at_switch(plan: &ValidPlan, end: PortName) -> bool
    ensures { result ≡ is_at_switch plan.now end }
{
    if has_link(plan.plan(), end.line) {
        return false;
    }
    match end.side {
        Side::Host => 16 <= end.line && end.line < 24,
        Side::Device => 8 <= end.line && end.line < 16,
    }
}

// Whether a line that is no link has a stream.
fn has_line(plan: &Plan, line: u8) -> bool
    ensures { result ≡ has_line_by plan.now line }
{
    match line {
        0..=7 => has_link(plan, line),
        8..=15 => plan.hop(u64::from(line - 8)).is_some(),
        16..=23 => plan.hop(u64::from(line - 16)).is_some(),
        _ => ((line - 24) as usize) < plan.peers.as_slice().len(),
    }
}

/// Whether the topology has the line of this end.
#[tactic(auto, using(crate::proofs::Rows::line_is))]
pub fn has_port(plan: &ValidPlan, end: PortName) -> bool
    ensures { result ≡ has_end plan.now end }
{
    has_line(plan.plan(), end.line)
}

/// Whether TLPs are sent at the end: it exists, and is not at a switch, which sends none of its own.
pub fn may_send(plan: &ValidPlan, end: PortName) -> bool
    ensures { result ≡ sends_at plan.now end }
{
    has_port(plan, end) && !at_switch(plan, end)
}
